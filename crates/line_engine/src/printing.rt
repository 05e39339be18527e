//! Texts that are printed as a whole.

ghost use Rattle.std.specs.Prelude.{◌≡◌, ℕ, true, IfOk};
ghost use Rattle.line_engine.specs.Printing.{Prints};
ghost use Rattle.line_engine.specs.Run.{IsCaused, has_begun};
ghost use Rattle.reply_text.specs.Text.{reply_text};

use crate::session::write_whole;
use crate::status::Status;
use io_edges::{Failed, Sink};
use reply_text::{Reply, text};
use std::alloc::Global;
use tree_json::{NoMemory, OutText};

/// Writes a text, and says how that ended.
pub(crate) fn print<K: Sink>(sink: &mut K, text: &[u8]) -> Status
    ensures prints { Prints result (K.taken sink.old) (K.taken sink.new) text.now }
    ensures cause { (source disk : ℕ) → IsCaused result (record { source = source; sink = K.faults sink.old; disk = disk })
        (record { source = source; sink = K.faults sink.new; disk = disk }) }
    ensures begun { has_begun result ≡ true }
{
    match write_whole(sink, text) {
        Ok(()) => Status::Done,
        Err(Failed) => Status::WriteFault,
    }
}

/// The line of a reply, however long it is.
pub(crate) fn line_of(alloc: Global, reply: &Reply) -> Result<OutText, NoMemory>
    ensures { IfOk result (λ line. line.bytes ≡ reply_text reply.now) }
{
    let mut line = OutText::empty(alloc);
    match text(reply, u64::MAX, &mut line) {
        Ok(()) => Ok(line),
        Err(_) => Err(NoMemory),
    }
}
