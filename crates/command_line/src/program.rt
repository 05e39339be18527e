//! The program, from its words to its exit status.

ghost use Rattle.std.specs.Prelude.{◌≡◌, ◌⊎◌, ℕ, false};
ghost use Rattle.line_engine.specs.Printing.{Prints, PrintsSummary};
ghost use Rattle.line_engine.specs.Run.{IsCaused, has_begun};
ghost use Rattle.line_engine.specs.Word.{AreBad, IsMake, IsRunMade, is_serve};
ghost use Rattle.made_load.specs.Lines.{made_text};

use crate::words::words;
use disk::MemDisk;
use io_edges::{CallList, Sink, Source, Word};
use io_real::{FileDisk, StdinSource, StdoutSink};
use line_engine::{Status, run, store_path};
use std::fs::File;
use std::io;
use std::process::ExitCode;
use std::rt::{Env, Files};

/// Does what the command line asks for, over the standard streams and the file of the store, and gives the exit status.
pub fn exit_code<R: Env + Input + Print + Files<File = File> + AllocGlobal>(rt: &R) -> ExitCode {
    ExitCode::from(status(rt).code())
}

fn status<R: Env + Input + Print + Files<File = File> + AllocGlobal>(rt: &R) -> Status {
    let words = match words(rt) {
        Ok(words) => words,
        Err(status) => return status,
    };
    let mut source = StdinSource::over(rt.reader());
    let mut sink = StdoutSink::over(io::writer(rt));
    served(rt, words.as_slice(), &mut source, &mut sink)
}

// Does what the words ask for over a source and a sink, as `run` promises it of these two. Its disk is the file that `serve` and `check`
// name, which tells no content; where the words name none, it is an empty one in memory, for which there may be none.
fn served<S: Source, K: Sink, R: Files<File = File> + AllocGlobal>(
    rt: &R,
    words: &[Word],
    source: &mut S,
    sink: &mut K,
) -> Status
    ensures bad_words { result ≡ Status.BadWords → AreBad words.now }
    ensures refused { AreBad words.now → (result ≡ Status.BadWords) ⊎ (result ≡ Status.NoMemory) }
    ensures makes { (number count : ℕ) → IsMake number count words.now → Prints result (K.taken sink.old) (K.taken sink.new) (made_text number count) }
    ensures runs_made { (number count : ℕ) → IsRunMade number count words.now → PrintsSummary result number count (K.taken sink.old) (K.taken sink.new) }

    // for some counts of the disk's failed calls
    ensures cause { (failed : ℕ) × (failed' : ℕ) × IsCaused result (record { source = S.faults source.old; sink = K.faults sink.old; disk = failed })
        (record { source = S.faults source.new; sink = K.faults sink.new; disk = failed' }) }
    ensures untouched { has_begun result ≡ false → (source.new ≡ source.old) × (sink.new ≡ sink.old) }
    ensures source { is_serve words.now ≡ false → source.new ≡ source.old }
{
    let alloc = rt.alloc();
    match store_path(words) {
        Some(path) => {
            let mut file = FileDisk::at(rt, path);
            run(alloc, words, source, sink, &mut file)
        }
        None => {
            let fails = CallList::of(Vec::new(alloc));
            match MemDisk::over(alloc, Vec::new(alloc), fails) {
                Ok(mut empty) => run(alloc, words, source, sink, &mut empty),
                Err(_) => Status::NoMemory,
            }
        }
    }
}
