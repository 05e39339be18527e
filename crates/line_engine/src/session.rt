//! A session: requests from a source, replies to a sink.

ghost use Rattle.std.specs.Prelude.{◌≡◌, ◌≤◌, ◌<◌, ◌+◌, ◌^◌, true, false, [], ℕ, List, Option, Some, OnOk, OnErr, IfOk, IfErr};
ghost use Rattle.std.specs.Io.KnownBytes.{Appends};
ghost use Rattle.commit_store.specs.Known.{greatest_limit};
ghost use Rattle.io_edges.specs.Faults.{HasCause};
ghost use Rattle.index_trees.specs.Starting.{Starts};
ghost use Rattle.line_reader.specs.Given.{HasGiven};
ghost use Rattle.line_reader.specs.Seen.{KnowsEnd, ahead};
ghost use Rattle.tree_json.specs.Output.{room_of};
ghost use Rattle.engine.specs.Answers.{reply_bytes};
ghost use Rattle.machine.specs.Limit.{AreLimits};
ghost use Rattle.machine.specs.State.{State};
ghost use Rattle.machine.specs.declared.limits.Limits.{Limits};
ghost use Rattle.reply_text.specs.Text.{reply_text};
ghost use Rattle.reply_text.specs.declared.reply.Reply.TheVariants.{OutOfMemory};
ghost use Rattle.line_engine.specs.Run.{IsCaused, IsFileFor, IsStored, Serves, TakesPart, has_begun};
ghost use Rattle.line_engine.specs.Served.{IsUnbegun, IsUpTo, Served};
ghost use Rattle.line_engine.specs.Stopping.{disk_state};

use crate::status::Status;
use disk::Disk;
use engine::{Answered, Engine};
use index_trees::an_opened_store_stands_for_its_trees;
use io_edges::{Failed, Sink, Source};
use line_reader::LineReader;
use machine::Limits;
use one_commit::a_file_holds_one_commit;
use source_steps::Steps;
use std::alloc::Global;
use std::marker::Brand;
use std::sync::ledger::{Blank, Ledger};
use store_opening::open_store;
use tree_json::OutText;

/// The room that is kept for a reply.
const REPLY_ROOM: u64 = 4_096;

/// The engine over its store, and all the memory that reading a request and the usual reply take.
#[derive(Drop)]
pub(crate) struct Session {
    pub(crate) engine: Engine,
    pub(crate) reader: LineReader,
    pub(crate) out: OutText,
}

/// Opens the store in the disk's file, and serves the requests of the source until its end, a fault or the session's limit.
/// Each reply is written before more is read. A file without bytes is prepared as a store.
///
/// Where the file holds a commit of trees, or none: what the sink takes is what the plain machine replies from these trees on, and a
/// stop leaves the content of a commit that it acknowledged last, or tried since.
pub fn serve<S: Source, K: Sink, D: Disk>(
    alloc: Global,
    limits: &Limits,
    source: &mut S,
    sink: &mut K,
    disk: &mut D,
) -> Status
    requires { AreLimits limits.now }
    ensures serves { (start : State) → Starts limits.now.store_bytes (D.content disk.old) start →
        Serves result limits.now start (S.left source.old) (S.left source.new) (K.taken sink.old) (K.taken sink.new)
        (disk_state (D.content disk.old) (D.image disk.old) (D.moment disk.old) (D.image_since disk.old) (D.faults disk.old))
        (disk_state (D.content disk.new) (D.image disk.new) (D.moment disk.new) (D.image_since disk.new) (D.faults disk.new)) }
    ensures file { (bytes : List ℕ) → D.content disk.old ≡ Some bytes → IsFileFor result limits.now.store_bytes bytes }
    ensures cause { IsCaused result (record { source = S.faults source.old; sink = K.faults sink.old; disk = D.faults disk.old })
        (record { source = S.faults source.new; sink = K.faults sink.new; disk = D.faults disk.new }) }
    ensures words { ¬ (result ≡ Status.BadWords) }
    ensures untouched { has_begun result ≡ false → (source.new ≡ source.old) × (sink.new ≡ sink.old) }
{
    serve_counted::<S, K, D, Brand>(alloc, limits, source, sink, disk, Blank::new(1))
}

// Serves with a counter of stored-source reads of its own.
fn serve_counted<S: Source, K: Sink, D: Disk, L: Ledger>(
    alloc: Global,
    limits: &Limits,
    source: &mut S,
    sink: &mut K,
    disk: &mut D,
    blank: Blank,
) -> Status
    requires limits { AreLimits limits.now }
    requires name { L.name ≡ blank.name }
    requires parts { L.parts ≡ blank.parts }
    requires some { 0 < blank.parts }
    ensures serves { (start : State) → Starts limits.now.store_bytes (D.content disk.old) start →
        Serves result limits.now start (S.left source.old) (S.left source.new) (K.taken sink.old) (K.taken sink.new)
        (disk_state (D.content disk.old) (D.image disk.old) (D.moment disk.old) (D.image_since disk.old) (D.faults disk.old))
        (disk_state (D.content disk.new) (D.image disk.new) (D.moment disk.new) (D.image_since disk.new) (D.faults disk.new)) }
    ensures file { (bytes : List ℕ) → D.content disk.old ≡ Some bytes → IsFileFor result limits.now.store_bytes bytes }
    ensures cause { IsCaused result (record { source = S.faults source.old; sink = K.faults sink.old; disk = D.faults disk.old })
        (record { source = S.faults source.new; sink = K.faults sink.new; disk = D.faults disk.new }) }
    ensures words { ¬ (result ≡ Status.BadWords) }
    ensures untouched { has_begun result ≡ false → (source.new ≡ source.old) × (sink.new ≡ sink.old) }
{
    let mut steps = Steps::<L>::start(blank);
    match begin(alloc, limits, disk) {
        Ok(mut session) => serve_all(&mut session, source, sink, disk, &mut steps),
        Err(status) => status,
    }
}

/// Takes all the memory that reading a request and the usual reply need, and then opens the store.
pub(crate) fn begin<D: Disk>(
    alloc: Global,
    limits: &Limits,
    disk: &mut D,
) -> Result<Session, Status>
    requires { AreLimits limits.now }
    ensures stands { IfOk result (λ session. (start : State) → Starts limits.now.store_bytes (D.content disk.old) start →
        IsUpTo limits.now start [] session.engine
        (disk_state (D.content disk.old) (D.image disk.old) (D.moment disk.old) (D.image_since disk.old) (D.faults disk.old))
        (disk_state (D.content disk.new) (D.image disk.new) (D.moment disk.new) (D.image_since disk.new) (D.faults disk.new))) }
    ensures input { IfOk result (λ session. session.reader.input ≡ record { unread = []; allowance = limits.now.session_bytes; ended = false }) }
    ensures given { IfOk result (λ session. (start : Option (List ℕ)) → HasGiven limits.now.session_bytes start start session.reader.input []) }
    ensures calls { IfOk result (λ session. session.engine.calls ≡ 0) }
    ensures room { IfOk result (λ session. 4096 ≤ room_of session.out) }
    ensures stored { OnOk result ((bytes : List ℕ) → D.content disk.old ≡ Some bytes → IsStored limits.now.store_bytes bytes) }
    ensures same { OnOk result (D.faults disk.new ≡ D.faults disk.old) }
    ensures serves { IfErr result (λ status. (start : State) (left taken : Option (List ℕ)) → Starts limits.now.store_bytes (D.content disk.old) start →
        Serves status limits.now start left left taken taken
        (disk_state (D.content disk.old) (D.image disk.old) (D.moment disk.old) (D.image_since disk.old) (D.faults disk.old))
        (disk_state (D.content disk.new) (D.image disk.new) (D.moment disk.new) (D.image_since disk.new) (D.faults disk.new))) }
    ensures file { IfErr result (λ status. (bytes : List ℕ) → D.content disk.old ≡ Some bytes → IsFileFor status limits.now.store_bytes bytes) }
    ensures cause { IfErr result (λ status. IsUnbegun status (D.faults disk.old) (D.faults disk.new)) }
{
    a_file_holds_one_commit();
    an_opened_store_stands_for_its_trees();
    let reader = LineReader::new(alloc, limits.session_bytes)?;
    let mut out = OutText::empty(alloc);
    out.reserve(REPLY_ROOM)?;
    let found = open_store(alloc, disk, limits.store_bytes)?;
    let engine = Engine::over(
        alloc,
        limits,
        found.store,
        found.mapping,
        found.next,
        found.view,
    )?;
    Ok(Session {
        engine,
        reader,
        out,
    })
}

fn serve_all<S: Source, K: Sink, D: Disk, L: Ledger>(
    session: &mut Session,
    source: &mut S,
    sink: &mut K,
    disk: &mut D,
    steps: &mut Steps<L>,
) -> Status
    requires known { KnowsEnd session.old.reader.input (S.left source.old) }
    requires calls { session.old.engine.calls + ahead session.old.reader.input ≤ 2 ^ 50 }
    ensures serves { (limits : Limits) (start : State) (left taken : Option (List ℕ)) (begun : D) → limits.store_bytes ≤ greatest_limit →
        Served limits start left (S.left source.old) taken (K.taken sink.old)
        (disk_state (D.content begun) (D.image begun) (D.moment begun) (D.image_since begun) (D.faults begun))
        (disk_state (D.content disk.old) (D.image disk.old) (D.moment disk.old) (D.image_since disk.old) (D.faults disk.old)) session.old.reader.input session.old.engine →
        Serves result limits start left (S.left source.new) taken (K.taken sink.new)
        (disk_state (D.content begun) (D.image begun) (D.moment begun) (D.image_since begun) (D.faults begun))
        (disk_state (D.content disk.new) (D.image disk.new) (D.moment disk.new) (D.image_since disk.new) (D.faults disk.new)) }
    ensures cause { IsCaused result (record { source = S.faults source.old; sink = K.faults sink.old; disk = D.faults disk.old })
        (record { source = S.faults source.new; sink = K.faults sink.new; disk = D.faults disk.new }) }
    ensures begun { has_begun result ≡ true }
{
    'requests: loop {
        if let Err(status) = serve_next(session, source, sink, disk, steps) {
            return status;
        }
    }
}

// Reads, answers and writes one request, or says how the session ends.
fn serve_next<S: Source, K: Sink, D: Disk, L: Ledger>(
    session: &mut Session,
    source: &mut S,
    sink: &mut K,
    disk: &mut D,
    steps: &mut Steps<L>,
) -> Result<(), Status>
    requires known { KnowsEnd session.old.reader.input (S.left source.old) }
    requires calls { session.old.engine.calls + ahead session.old.reader.input ≤ 2 ^ 50 }
    ensures served { OnOk result ((limits : Limits) (start : State) (left taken : Option (List ℕ)) (begun : D) → limits.store_bytes ≤ greatest_limit →
        Served limits start left (S.left source.old) taken (K.taken sink.old)
        (disk_state (D.content begun) (D.image begun) (D.moment begun) (D.image_since begun) (D.faults begun))
        (disk_state (D.content disk.old) (D.image disk.old) (D.moment disk.old) (D.image_since disk.old) (D.faults disk.old)) session.old.reader.input session.old.engine →
        Served limits start left (S.left source.new) taken (K.taken sink.new)
        (disk_state (D.content begun) (D.image begun) (D.moment begun) (D.image_since begun) (D.faults begun))
        (disk_state (D.content disk.new) (D.image disk.new) (D.moment disk.new) (D.image_since disk.new) (D.faults disk.new)) session.new.reader.input session.new.engine) }
    ensures serves { IfErr result (λ status. (limits : Limits) (start : State) (left taken : Option (List ℕ)) (begun : D) → limits.store_bytes ≤ greatest_limit →
        Served limits start left (S.left source.old) taken (K.taken sink.old)
        (disk_state (D.content begun) (D.image begun) (D.moment begun) (D.image_since begun) (D.faults begun))
        (disk_state (D.content disk.old) (D.image disk.old) (D.moment disk.old) (D.image_since disk.old) (D.faults disk.old)) session.old.reader.input session.old.engine →
        Serves status limits start left (S.left source.new) taken (K.taken sink.new)
        (disk_state (D.content begun) (D.image begun) (D.moment begun) (D.image_since begun) (D.faults begun))
        (disk_state (D.content disk.new) (D.image disk.new) (D.moment disk.new) (D.image_since disk.new) (D.faults disk.new))) }
    ensures cause { IfErr result (λ status. IsCaused status (record { source = S.faults source.old; sink = K.faults sink.old; disk = D.faults disk.old })
        (record { source = S.faults source.new; sink = K.faults sink.new; disk = D.faults disk.new })) }
    ensures source_same { OnOk result (S.faults source.new ≡ S.faults source.old) }
    ensures sink_same { OnOk result (K.faults sink.new ≡ K.faults sink.old) }
    ensures begun { IfErr result (λ status. has_begun status ≡ true) }
    ensures known { OnOk result (KnowsEnd session.new.reader.input (S.left source.new)) }
    ensures ahead { OnOk result (ahead session.new.reader.input < ahead session.old.reader.input) }
    ensures calls { OnOk result (session.new.engine.calls + ahead session.new.reader.input ≤ 2 ^ 50) }
{
    a_file_holds_one_commit();
    session.reader.next_request(source)?;
    session.out.clear();
    let answered = session.engine.answer(
        disk,
        session.reader.first_line(),
        session.reader.source_line(),
        &mut session.out,
        steps,
    );
    match write_reply(sink, answered, &session.out) {
        Ok(()) => Ok(()),
        Err(Failed) => Err(Status::WriteFault),
    }
}

// Writes the reply, or the fixed one where there was no memory for it.
fn write_reply<K: Sink>(sink: &mut K, answered: Answered, out: &OutText) -> Result<(), Failed>
    ensures bytes { OnOk result (Appends (K.taken sink.old) (K.taken sink.new) (reply_bytes answered out.now.bytes)) }
    ensures part { OnErr result (TakesPart (K.taken sink.old) (K.taken sink.new) (reply_bytes answered out.now.bytes)) }
    ensures cause { HasCause (K.faults sink.old) (K.faults sink.new) result }
{
    match answered {
        Answered::Written => write_whole(sink, out.as_slice()),
        Answered::Refused => write_whole(sink, out.as_slice()),
        Answered::NoMemory => write_whole(sink, out_of_memory()),
    }
}

// The reply where there is no memory. It needs none.
#[tactic(auto, using(crate::proofs::Serving::out_of_memory_text))]
fn out_of_memory() -> &'static [u8]
    ensures { result.now ≡ reply_text OutOfMemory }
{
    b"{\"error\":{\"reason\":\"out_of_memory\"}}\n"
}

/// Writes a piece, in as many writes as the sink asks for.
#[tactic(auto, using(crate::proofs::Writing::writes))]
pub(crate) fn write_whole<K: Sink>(sink: &mut K, piece: &[u8]) -> Result<(), Failed>
    ensures bytes { OnOk result (Appends (K.taken sink.old) (K.taken sink.new) piece.now) }
    ensures part { OnErr result (TakesPart (K.taken sink.old) (K.taken sink.new) piece.now) }
    ensures cause { HasCause (K.faults sink.old) (K.faults sink.new) result }
{
    let mut rest = piece;
    'pieces: while !rest.is_empty() {
        let count = sink.write(rest)?;
        rest = rest.split_at(count).1;
    }
    Ok(())
}
