//! The word `run-made`: the made input, answered over an empty store in memory.

ghost use Rattle.std.specs.Prelude.{◌≡◌, ◌≢◌, ◌≤◌, ◌<◌, ◌+◌, ◌^◌, true, false, cond, [], ℕ, List, Option, Some, Ok, IfOk, OnOk};
ghost use Rattle.commit_store.specs.Known.{greatest_limit};
ghost use Rattle.disk.specs.Record.{content_told};
ghost use Rattle.index_trees.specs.Starting.{Starts};
ghost use Rattle.line_engine.specs.Counted.{Counted, CountedAll, no_totals};
ghost use Rattle.line_engine.specs.Printing.{IsSummed, PrintsSummary, is_error};
ghost use Rattle.line_engine.specs.Run.{IsCaused, has_begun};
ghost use Rattle.line_engine.specs.Stopping.{disk_state};
ghost use Rattle.line_reader.specs.Seen.{KnowsEnd, ahead};
ghost use Rattle.machine.specs.Limit.{AreLimits};
ghost use Rattle.machine.specs.State.{State};
ghost use Rattle.machine.specs.declared.limits.Limits.{Limits as Bounds};

use crate::fault_count::FaultCount;
use crate::made_source::MadeSource;
use crate::printing::{line_of, print};
use crate::session::{Session, begin};
use crate::status::Status;
use disk::{Disk, MemDisk};
use engine::Answered;
use io_edges::{CallList, Sink, Source};
use line_reader::Stop;
use machine::Limits;
use one_commit::a_file_holds_one_commit;
use reply_text::Reply;
use source_steps::Steps;
use std::alloc::Global;
use std::marker::Brand;
use std::sync::ledger::{Blank, Ledger};
use tree_json::{NoMemory, OutText};

/// The sums of replies: their bytes, how many were refusals, and how many there were.
#[derive(Clone, Copy)]
pub(crate) struct Totals {
    bytes: u64,
    errors: u64,
    lines: u64,
}

/// Answers the made input of a number and a count over an empty store in memory, and prints the sums of the replies. NoMemory: there
/// was none for the engine, for an answer, for the store or for the line.
#[tactic(auto, using(crate::proofs::Counting::printed))]
pub(crate) fn run_made<K: Sink>(alloc: Global, number: u64, count: u32, sink: &mut K) -> Status
    ensures prints { PrintsSummary result number count (K.taken sink.old) (K.taken sink.new) }
    ensures cause { (source disk : ℕ) → IsCaused result (record { source = source; sink = K.faults sink.old; disk = disk })
        (record { source = source; sink = K.faults sink.new; disk = disk }) }
    ensures untouched { has_begun result ≡ false → sink.new ≡ sink.old }
{
    match summary_line::<Brand>(alloc, number, count, Blank::new(1)) {
        Ok(line) => print(sink, line.as_slice()),
        Err(_) => Status::NoMemory,
    }
}

// The line with the sums.
#[tactic(auto, using(crate::proofs::Counting::summed_over))]
fn summary_line<L: Ledger>(
    alloc: Global,
    number: u64,
    count: u32,
    blank: Blank,
) -> Result<OutText, NoMemory>
    requires name { L.name ≡ blank.name }
    requires parts { L.parts ≡ blank.parts }
    requires some { 0 < blank.parts }
    ensures { IfOk result (λ line. IsSummed number count (λ text. line.bytes ≡ text)) }
{
    let mut source = MadeSource::of(alloc, number, count)?;
    let mut disk = empty_disk(alloc)?;
    let mut steps = Steps::<L>::start(blank);
    let totals = totals_over(
        alloc,
        &Limits::standard(),
        &mut source,
        &mut disk,
        &mut steps,
    )?;
    if disk.failed() != 0 {
        return Err(NoMemory);
    }
    let line = line_of(
        alloc,
        &Reply::RanMade {
            bytes: totals.bytes,
            errors: totals.errors,
            lines: totals.lines,
        },
    )?;
    Ok(line)
}

// A disk whose file is empty.
fn empty_disk(alloc: Global) -> Result<FaultCount<MemDisk>, NoMemory>
    ensures content { IfOk result (λ it. content_told it.disk ≡ Some []) }
    ensures failed { IfOk result (λ it. it.failed ≡ 0) }
{
    let fails = CallList::of(Vec::new(alloc));
    match MemDisk::over(alloc, Vec::new(alloc), fails) {
        Ok(empty) => Ok(FaultCount::over(empty)),
        Err(_) => Err(NoMemory),
    }
}

// The sums of the replies to what the source gives, over a store that the disk's file holds.
fn totals_over<S: Source, D: Disk, L: Ledger>(
    alloc: Global,
    limits: &Limits,
    source: &mut S,
    disk: &mut D,
    steps: &mut Steps<L>,
) -> Result<Totals, NoMemory>
    requires { AreLimits limits.now }
    ensures { IfOk result (λ totals. (start : State) → Starts limits.now.store_bytes (D.content disk.old) start →
        CountedAll limits.now start (S.left source.old) (S.left source.new) (D.faults disk.old) (D.faults disk.new) totals) }
{
    match begin(alloc, limits, disk) {
        Ok(mut session) => count_all(&mut session, source, disk, steps),
        Err(_) => Err(NoMemory),
    }
}

fn count_all<S: Source, D: Disk, L: Ledger>(
    session: &mut Session,
    source: &mut S,
    disk: &mut D,
    steps: &mut Steps<L>,
) -> Result<Totals, NoMemory>
    requires known { KnowsEnd session.old.reader.input (S.left source.old) }
    requires calls { session.old.engine.calls + ahead session.old.reader.input ≤ 2 ^ 50 }
    ensures { IfOk result (λ totals. (limits : Bounds) (start : State) (left : Option (List ℕ)) (begun : D) → limits.store_bytes ≤ greatest_limit →
        Counted limits start left (S.left source.old)
        (disk_state (D.content begun) (D.image begun) (D.moment begun) (D.image_since begun) (D.faults begun))
        (disk_state (D.content disk.old) (D.image disk.old) (D.moment disk.old) (D.image_since disk.old) (D.faults disk.old)) session.old.reader.input session.old.engine no_totals →
        CountedAll limits start left (S.left source.new) (D.faults begun) (D.faults disk.new) totals) }
{
    let mut totals = Totals {
        bytes: 0,
        errors: 0,
        lines: 0,
    };
    'requests: while count_next(session, source, disk, steps, &mut totals)? {}
    Ok(totals)
}

// Reads and answers one request, and counts the reply. False where there is none.
fn count_next<S: Source, D: Disk, L: Ledger>(
    session: &mut Session,
    source: &mut S,
    disk: &mut D,
    steps: &mut Steps<L>,
    totals: &mut Totals,
) -> Result<bool, NoMemory>
    requires known { KnowsEnd session.old.reader.input (S.left source.old) }
    requires calls { session.old.engine.calls + ahead session.old.reader.input ≤ 2 ^ 50 }
    ensures counted { result ≡ Ok true → (limits : Bounds) (start : State) (left : Option (List ℕ)) (begun : D) → limits.store_bytes ≤ greatest_limit →
        Counted limits start left (S.left source.old)
        (disk_state (D.content begun) (D.image begun) (D.moment begun) (D.image_since begun) (D.faults begun))
        (disk_state (D.content disk.old) (D.image disk.old) (D.moment disk.old) (D.image_since disk.old) (D.faults disk.old)) session.old.reader.input session.old.engine totals.old →
        Counted limits start left (S.left source.new)
        (disk_state (D.content begun) (D.image begun) (D.moment begun) (D.image_since begun) (D.faults begun))
        (disk_state (D.content disk.new) (D.image disk.new) (D.moment disk.new) (D.image_since disk.new) (D.faults disk.new)) session.new.reader.input session.new.engine totals.new }
    ensures all { result ≡ Ok false → (limits : Bounds) (start : State) (left : Option (List ℕ)) (begun : D) → limits.store_bytes ≤ greatest_limit →
        Counted limits start left (S.left source.old)
        (disk_state (D.content begun) (D.image begun) (D.moment begun) (D.image_since begun) (D.faults begun))
        (disk_state (D.content disk.old) (D.image disk.old) (D.moment disk.old) (D.image_since disk.old) (D.faults disk.old)) session.old.reader.input session.old.engine totals.old →
        CountedAll limits start left (S.left source.new) (D.faults begun) (D.faults disk.new) totals.new }
    ensures known { OnOk result (KnowsEnd session.new.reader.input (S.left source.new)) }
    ensures ahead { result ≡ Ok true → ahead session.new.reader.input < ahead session.old.reader.input }
    ensures calls { result ≡ Ok true → session.new.engine.calls + ahead session.new.reader.input ≤ 2 ^ 50 }
{
    a_file_holds_one_commit();
    match session.reader.next_request(source) {
        Ok(()) => {}
        Err(Stop::End) => return Ok(false),
        Err(Stop::Limit) => return Err(NoMemory),
        Err(Stop::Fault) => return Err(NoMemory),
    }
    session.out.clear();
    let answered = session.engine.answer(
        disk,
        session.reader.first_line(),
        session.reader.source_line(),
        &mut session.out,
        steps,
    );
    totals.count(answered, session.out.as_slice().len())?;
    Ok(true)
}

impl Totals {
    // Counts a reply of so many bytes. NoMemory: there was none for it, or a sum has no room for it.
    fn count(&mut self, answered: Answered, bytes: usize) -> Result<(), NoMemory>
        ensures answered { OnOk result (answered ≢ Answered.NoMemory) }
        ensures bytes { OnOk result (self.new.bytes ≡ self.old.bytes + bytes) }
        ensures errors { OnOk result (self.new.errors ≡ self.old.errors + cond (is_error answered) 1 0) }
        ensures lines { OnOk result (self.new.lines ≡ self.old.lines + 1) }
    {
        let errors = match answered {
            Answered::Written => 0,
            Answered::Refused => 1,
            Answered::NoMemory => return Err(NoMemory),
        };
        self.bytes = raised(self.bytes, bytes as u64)?;
        self.errors = raised(self.errors, errors)?;
        self.lines = raised(self.lines, 1)?;
        Ok(())
    }
}

fn raised(sum: u64, by: u64) -> Result<u64, NoMemory>
    ensures { IfOk result (λ raised. raised ≡ sum + by) }
{
    match sum.checked_add(by) {
        Some(raised) => Ok(raised),
        None => Err(NoMemory),
    }
}
