//! The word `make`: the made input, written.

ghost use Rattle.std.specs.Prelude.{◌≡◌, true, false, ℕ};
ghost use Rattle.line_engine.specs.Made.{bytes_left};
ghost use Rattle.line_engine.specs.Printing.{Prints};
ghost use Rattle.line_engine.specs.Run.{IsCaused, has_begun};
ghost use Rattle.made_load.specs.Lines.{made_text};

use crate::made_source::MadeSource;
use crate::session::write_whole;
use crate::status::Status;
use io_edges::Sink;
use std::alloc::Global;

/// Writes the made input of a number and a count. All its memory is taken before the first line.
pub(crate) fn make<K: Sink>(alloc: Global, number: u64, count: u32, sink: &mut K) -> Status
    ensures prints { Prints result (K.taken sink.old) (K.taken sink.new) (made_text number count) }
    ensures cause { (source disk : ℕ) → IsCaused result (record { source = source; sink = K.faults sink.old; disk = disk })
        (record { source = source; sink = K.faults sink.new; disk = disk }) }
    ensures untouched { has_begun result ≡ false → sink.new ≡ sink.old }
{
    match MadeSource::of(alloc, number, count) {
        Ok(mut made) => write_made(&mut made, sink),
        Err(_) => Status::NoMemory,
    }
}

// Writes what is left of it.
#[tactic(auto, using(crate::proofs::MadeBytes::made))]
fn write_made<K: Sink>(made: &mut MadeSource, sink: &mut K) -> Status
    ensures prints { Prints result (K.taken sink.old) (K.taken sink.new) (bytes_left made.old) }
    ensures cause { (source disk : ℕ) → IsCaused result (record { source = source; sink = K.faults sink.old; disk = disk })
        (record { source = source; sink = K.faults sink.new; disk = disk }) }
    ensures begun { has_begun result ≡ true }
{
    'pieces: loop {
        made.fill();
        let count = made.ready().len();
        if count == 0 {
            return Status::Done;
        }
        if write_whole(sink, made.ready()).is_err() {
            return Status::WriteFault;
        }
        made.pass(count);
    }
}
