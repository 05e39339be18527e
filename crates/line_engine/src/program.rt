//! The program's call.

ghost use Rattle.std.specs.Prelude.{◌≡◌, ◌↔◌, false, true, ℕ, List, Some};
ghost use Rattle.index_trees.specs.Starting.{Starts};
ghost use Rattle.machine.specs.Limit.{standard_limits};
ghost use Rattle.machine.specs.State.{State};
ghost use Rattle.made_load.specs.Lines.{made_text};
ghost use Rattle.store_opening.specs.Looking.{Looked};
ghost use Rattle.line_engine.specs.Printing.{Checks, Prints, PrintsSummary};
ghost use Rattle.line_engine.specs.Run.{IsCaused, IsFileFor, Serves, has_begun};
ghost use Rattle.line_engine.specs.Stopping.{disk_state};
ghost use Rattle.line_engine.specs.Word.{AreBad, IsMake, IsRunMade, is_check, is_serve};

use crate::checking::check;
use crate::job::{Job, job_of};
use crate::made_run::run_made;
use crate::making::make;
use crate::session::serve;
use crate::status::Status;
use disk::Disk;
use io_edges::{Sink, Source, Word};
use machine::Limits;
use std::alloc::Global;

/// Does what the words of the command line ask for: `serve STORE` answers the requests of the source, `check STORE` prints what a
/// sound store holds, `make NUMBER COUNT` prints the made input of these, and `run-made NUMBER COUNT` the sums of the replies to it.
///
/// Of `serve`, where the disk's file holds a commit of trees, or none yet: what the sink takes is what the plain machine replies,
/// from these trees on, to each request of what the source gives, or out_of_memory, or that the disk failed; and a stop at any moment
/// since the store was opened leaves a file that opens to the trees of a commit: the last one that was acknowledged, or one tried
/// since. `check` only looks at the disk, and the other two leave it as it was. No other word touches the source.
#[tactic(auto, using(crate::proofs::Words::apart))]
pub fn run<S: Source, K: Sink, D: Disk>(
    alloc: Global,
    words: &[Word],
    source: &mut S,
    sink: &mut K,
    disk: &mut D,
) -> Status
    ensures bad_words { (result ≡ Status.BadWords) ↔ AreBad words.now }
    ensures serves { is_serve words.now ≡ true → (start : State) → Starts standard_limits.store_bytes (D.content disk.old) start →
        Serves result standard_limits start (S.left source.old) (S.left source.new) (K.taken sink.old) (K.taken sink.new)
        (disk_state (D.content disk.old) (D.image disk.old) (D.moment disk.old) (D.image_since disk.old) (D.faults disk.old))
        (disk_state (D.content disk.new) (D.image disk.new) (D.moment disk.new) (D.image_since disk.new) (D.faults disk.new)) }
    ensures file { is_serve words.now ≡ true → (bytes : List ℕ) → D.content disk.old ≡ Some bytes → IsFileFor result standard_limits.store_bytes bytes }
    ensures checks { is_check words.now ≡ true → Checks result standard_limits.store_bytes (D.content disk.old) (K.taken sink.old) (K.taken sink.new) }
    ensures looks { is_check words.now ≡ true → Looked (D.content disk.old) (D.content disk.new) (D.image disk.old) (D.image disk.new) (D.moment disk.old) (D.moment disk.new) (D.image_since disk.old) (D.image_since disk.new) }
    ensures makes { (number count : ℕ) → IsMake number count words.now → Prints result (K.taken sink.old) (K.taken sink.new) (made_text number count) }
    ensures runs_made { (number count : ℕ) → IsRunMade number count words.now → PrintsSummary result number count (K.taken sink.old) (K.taken sink.new) }
    ensures cause { IsCaused result (record { source = S.faults source.old; sink = K.faults sink.old; disk = D.faults disk.old })
        (record { source = S.faults source.new; sink = K.faults sink.new; disk = D.faults disk.new }) }
    ensures untouched { has_begun result ≡ false → (source.new ≡ source.old) × (sink.new ≡ sink.old) }
    ensures source { is_serve words.now ≡ false → source.new ≡ source.old }
    ensures disk { is_serve words.now ≡ false → is_check words.now ≡ false → disk.new ≡ disk.old }
{
    match job_of(words) {
        Some(Job::Serve) => serve(alloc, &Limits::standard(), source, sink, disk),
        Some(Job::Check) => check(alloc, Limits::standard().store_bytes, sink, disk),
        Some(Job::Make { number, count }) => make(alloc, number, count, sink),
        Some(Job::RunMade { number, count }) => run_made(alloc, number, count, sink),
        None => Status::BadWords,
    }
}
