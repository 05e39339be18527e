//! Replies, as they are written.

ghost use Rattle.std.specs.Prelude.{◌≡◌, ◌≤◌, ◌+◌, ◌++◌, [], length, IfOk, IfSome, OnOk};
ghost use Rattle.layout_commands.specs.declared.TheConstants.{LONGEST_LINE};
ghost use Rattle.machine.specs.Searching.{within};
ghost use Rattle.reply_text.specs.Text.{line_of, reply_text};
ghost use Rattle.reply_text.specs.declared.reply.Reply.{Reply as Printed};
ghost use Rattle.tree_json.specs.Output.{room_of};
ghost use Rattle.engine.specs.Answers.{answered_by};
ghost use Rattle.engine.specs.Parts.{IsAcceptance, IsHeld, IsRefusal, answered_of};

use crate::engine::Answered;
use crate::no_memory::NoMemory;
use layout_commands::LONGEST_LINE;
use machine::Limits;
use reply_text::{Refusal, Reply, TextRefusal, text};
use tree_json::OutText;

/// How a command ended whose reply was written.
#[derive(Clone, Copy, Debug, PartialEq, Eq)]
pub(crate) enum Ended {
    /// It was done.
    Accepted,
    /// It was refused.
    Refused,
}

/// Writes a reply of any length. For more bytes than a u64 counts there is no memory.
pub(crate) fn write(reply: &Reply, out: &mut OutText) -> Result<(), NoMemory>
    ensures ok { OnOk result (out.new.bytes ≡ out.old.bytes ++ reply_text reply.now) }
    ensures room { room_of out.old ≤ room_of out.new }
{
    match text(reply, u64::MAX, out) {
        Ok(()) => Ok(()),
        Err(_) => Err(NoMemory),
    }
}

/// Writes a refusal.
pub(crate) fn refuse(why: Refusal, out: &mut OutText) -> Result<Ended, NoMemory>
    requires { out.old.bytes ≡ [] }
    ensures refused { IsRefusal why result out.new.bytes }
    ensures room { room_of out.old ≤ room_of out.new }
{
    write(&Reply::Refused { why }, out)?;
    Ok(Ended::Refused)
}

/// Writes a reply to what was done.
pub(crate) fn accept(reply: &Reply, out: &mut OutText) -> Result<Ended, NoMemory>
    requires { out.old.bytes ≡ [] }
    ensures accepted { IsAcceptance reply.now result out.new.bytes }
    ensures room { room_of out.old ≤ room_of out.new }
{
    write(reply, out)?;
    Ok(Ended::Accepted)
}

/// Makes room for a reply to a merge command, to `automerge`, of a point in time or to a command of the store.
pub(crate) fn make_room(out: &mut OutText) -> Result<(), NoMemory>
    ensures same { out.new.bytes ≡ out.old.bytes }
    ensures spare { OnOk result (LONGEST_LINE + 1 ≤ out.new.spare) }
    ensures room { room_of out.old ≤ room_of out.new }
{
    Ok(out.reserve(LONGEST_LINE as u64 + 1)?)
}

/// Writes a reply to what was done, for which there is room.
pub(crate) fn tell(reply: &Reply, out: &mut OutText) -> Ended
    requires short { length (line_of reply.now) ≤ LONGEST_LINE }
    requires spare { LONGEST_LINE + 1 ≤ out.old.spare }
    ensures accepted { result ≡ Ended.Accepted }
    ensures text { out.new.bytes ≡ out.old.bytes ++ reply_text reply.now }
    ensures room { room_of out.old ≤ room_of out.new }
{
    write_short(reply, out);
    Ended::Accepted
}

/// Writes a reply for which there is room.
#[tactic(auto, using(crate::proofs::Pages::short_fits))]
pub(crate) fn write_short(reply: &Reply, out: &mut OutText)
    requires short { length (line_of reply.now) ≤ LONGEST_LINE }
    requires spare { LONGEST_LINE + 1 ≤ out.old.spare }
    ensures text { out.new.bytes ≡ out.old.bytes ++ reply_text reply.now }
    ensures room { room_of out.old ≤ room_of out.new }
{
    match text(reply, LONGEST_LINE as u64, out) {
        Ok(()) => {}
        Err(_) => unreachable!(),
    }
}

/// Writes a reply, or that its line is longer than the limit.
#[tactic(auto, using(crate::proofs::Pages::within_fits, crate::proofs::Pages::within_not))]
pub(crate) fn write_within(
    limits: &Limits,
    reply: &Reply,
    out: &mut OutText,
) -> Result<Ended, NoMemory>
    requires empty { out.old.bytes ≡ [] }
    requires done { answered_by reply.now ≡ Answered.Written }
    ensures text { OnOk result (out.new.bytes ≡ reply_text (within limits.now reply.now)) }
    ensures told { IfOk result (λ ended. answered_of (Ok ended) ≡ answered_by (within limits.now reply.now)) }
    ensures room { room_of out.old ≤ room_of out.new }
{
    match text(reply, limits.reply_bytes, out) {
        Ok(()) => Ok(Ended::Accepted),
        Err(TextRefusal::TooLarge) => refuse(Refusal::ReplyTooLarge, out),
        Err(TextRefusal::NoMemory) => Err(NoMemory),
    }
}

/// Writes what a search found, or that a reply can't hold it.
pub(crate) fn write_found(
    limits: &Limits,
    found: &Option<Reply>,
    out: &mut OutText,
) -> Result<Ended, NoMemory>
    requires empty { out.old.bytes ≡ [] }
    requires done { IfSome found.now (λ reply. answered_by reply ≡ Answered.Written) }
    ensures text { (given : Printed) → IsHeld limits.now given found.now → OnOk result (out.new.bytes ≡ reply_text (within limits.now given)) }
    ensures told { (given : Printed) → IsHeld limits.now given found.now → IfOk result (λ ended. answered_of (Ok ended) ≡ answered_by (within limits.now given)) }
    ensures room { room_of out.old ≤ room_of out.new }
{
    match found {
        Some(reply) => write_within(limits, reply, out),
        None => refuse(Refusal::ReplyTooLarge, out),
    }
}
