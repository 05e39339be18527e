//! Merges of neighbours.

ghost use Rattle.std.specs.Prelude.{◌≡◌, ◌<◌, ◌≤◌, length, IfOk};
ghost use Rattle.index_core.specs.Kept.{IndexFits};
ghost use Rattle.machine.specs.declared.merge_command.MergeCommand.TheVariants.{Start, Advance, Finish, Abort, Force};
ghost use Rattle.reply_text.specs.Text.{line_of};
ghost use Rattle.layout_commands.specs.declared.TheConstants.{LONGEST_LINE};
ghost use Rattle.layout_commands.specs.Ends.{IsFormed, IsMerged, not_done_by};

use crate::not_done::NotDone;
use index_core::{IndexCore, MergeRefusal};
use machine::MergeCommand;
use mapping::Mapping;
use reply_text::{Refusal, Reply};

/// Does what a merge command asks for, on the sealed index.
pub fn merge(
    mapping: &Mapping,
    index: &mut IndexCore,
    command: MergeCommand,
) -> Result<Reply, NotDone>
    requires fits { IndexFits mapping.now index.old }
    requires formed { IsFormed command }
    ensures merged { IsMerged command result index.old index.new }
    ensures short { IfOk result (λ reply. length (line_of reply) ≤ LONGEST_LINE) }
    ensures next { index.new.next ≡ index.old.next }
    ensures objects { index.new.objects ≡ index.old.objects }
    ensures fits { IndexFits mapping.now index.new }
{
    match command {
        MergeCommand::Start { from, count } => start(mapping, index, from, count),
        MergeCommand::Advance { id, roots } => advance(mapping, index, id, roots),
        MergeCommand::Finish { id } => finish(mapping, index, id),
        MergeCommand::Abort { id } => abort(mapping, index, id),
        MergeCommand::Force { most } => force(mapping, index, most),
    }
}

/// Opens a merge.
#[tactic(auto, using(crate::proofs::Short::short))]
fn start(mapping: &Mapping, index: &mut IndexCore, from: u64, count: u64) -> Result<Reply, NotDone>
    requires { IndexFits mapping.now index.old }
    ensures merged { IsMerged (Start from count) result index.old index.new }
    ensures short { IfOk result (λ reply. length (line_of reply) ≤ LONGEST_LINE) }
    ensures next { index.new.next ≡ index.old.next }
    ensures objects { index.new.objects ≡ index.old.objects }
    ensures fits { IndexFits mapping.now index.new }
{
    match index.start_merge(mapping, from, count) {
        Ok(done) => Ok(Reply::MergeStarted {
            merge: done.id,
            roots: done.count,
        }),
        Err(why) => Err(not_done(0, why)),
    }
}

/// Walks roots of an open merge.
#[tactic(auto, using(crate::proofs::Short::short))]
fn advance(mapping: &Mapping, index: &mut IndexCore, id: u64, roots: u64) -> Result<Reply, NotDone>
    requires { IndexFits mapping.now index.old }
    ensures merged { IsMerged (Advance id roots) result index.old index.new }
    ensures short { IfOk result (λ reply. length (line_of reply) ≤ LONGEST_LINE) }
    ensures next { index.new.next ≡ index.old.next }
    ensures objects { index.new.objects ≡ index.old.objects }
    ensures fits { IndexFits mapping.now index.new }
{
    match index.advance_merge(mapping, id, roots) {
        Ok(done) => Ok(Reply::MergeAdvanced {
            left: done.count,
            merge: id,
        }),
        Err(why) => Err(not_done(id, why)),
    }
}

/// Puts the segment of an open merge in place.
#[tactic(auto, using(crate::proofs::Short::short))]
fn finish(mapping: &Mapping, index: &mut IndexCore, id: u64) -> Result<Reply, NotDone>
    requires { IndexFits mapping.now index.old }
    ensures merged { IsMerged (Finish id) result index.old index.new }
    ensures short { IfOk result (λ reply. length (line_of reply) ≤ LONGEST_LINE) }
    ensures next { index.new.next ≡ index.old.next }
    ensures objects { index.new.objects ≡ index.old.objects }
    ensures fits { IndexFits mapping.now index.new }
{
    match index.finish_merge(mapping, id) {
        Ok(done) => Ok(Reply::MergeFinished {
            live: done.count,
            merge: id,
        }),
        Err(why) => Err(not_done(id, why)),
    }
}

/// Gives an open merge up.
#[tactic(auto, using(crate::proofs::Short::short))]
fn abort(mapping: &Mapping, index: &mut IndexCore, id: u64) -> Result<Reply, NotDone>
    requires { IndexFits mapping.now index.old }
    ensures merged { IsMerged (Abort id) result index.old index.new }
    ensures short { IfOk result (λ reply. length (line_of reply) ≤ LONGEST_LINE) }
    ensures next { index.new.next ≡ index.old.next }
    ensures objects { index.new.objects ≡ index.old.objects }
    ensures fits { IndexFits mapping.now index.new }
{
    match index.abort_merge(mapping, id) {
        Ok(_) => Ok(Reply::MergeAborted { merge: id }),
        Err(why) => Err(not_done(id, why)),
    }
}

/// Merges at once.
#[tactic(auto, using(crate::proofs::Short::short))]
fn force(mapping: &Mapping, index: &mut IndexCore, most: u64) -> Result<Reply, NotDone>
    requires fits { IndexFits mapping.now index.old }
    requires most { 0 < most }
    ensures merged { IsMerged (Force most) result index.old index.new }
    ensures short { IfOk result (λ reply. length (line_of reply) ≤ LONGEST_LINE) }
    ensures next { index.new.next ≡ index.old.next }
    ensures objects { index.new.objects ≡ index.old.objects }
    ensures fits { IndexFits mapping.now index.new }
{
    match index.force_merge(mapping, most) {
        Ok(done) => Ok(Reply::ForceMerged {
            segments: done.count,
        }),
        Err(why) => Err(not_done(0, why)),
    }
}

/// Why a merge wasn't done, where the merge with this id was asked for.
fn not_done(id: u64, why: MergeRefusal) -> NotDone
    ensures { result ≡ not_done_by id why }
{
    match why {
        MergeRefusal::BadRange => NotDone::Refused(Refusal::BadMergeRange),
        MergeRefusal::Overlaps(merge) => NotDone::Refused(Refusal::MergeOverlaps { merge }),
        MergeRefusal::TooMany => NotDone::Refused(Refusal::TooManyMerges),
        MergeRefusal::Unknown => NotDone::Refused(Refusal::UnknownMerge),
        MergeRefusal::NotDone(left) => NotDone::Refused(Refusal::MergeNotDone { left, merge: id }),
        MergeRefusal::NoMemory => NotDone::NoMemory,
    }
}
