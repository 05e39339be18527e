//! Commits, compactions and trims of what the engine keeps. The room for a reply is taken first, so that nothing wants memory
//! behind an acknowledgement or a fault.

ghost use Rattle.std.specs.Prelude.{◌≡◌, ◌≤◌, ◌+◌, [], Some, length, IfOk, IsErrOf};
ghost use Rattle.disk.specs.Stops.{IsTold};
ghost use Rattle.index_core.specs.Kept.{layout_kept};
ghost use Rattle.index_trees.specs.Faithful.{AreFaithful};
ghost use Rattle.layout_commands.specs.declared.TheConstants.{LONGEST_LINE};
ghost use Rattle.machine.specs.State.{State};
ghost use Rattle.machine.specs.declared.limits.Limits.{Limits};
ghost use Rattle.reply_text.specs.Text.{line_of};
ghost use Rattle.reply_text.specs.declared.refusal.Refusal.{Refusal as Why};
ghost use Rattle.reply_text.specs.declared.reply.Reply.TheVariants as reply;
ghost use Rattle.request_form.specs.Asked.{asks};
ghost use Rattle.request_form.specs.Command.{commit as commits, compact as compacts, trim as trims};
ghost use Rattle.store_commands.specs.Commands.{AreKnown};
ghost use Rattle.store_commands.specs.declared.not_done.NotDone.TheVariants.{Refused};
ghost use Rattle.store_compact.specs.Compacting.{kept_of};
ghost use Rattle.tree_json.specs.Output.{room_of};
ghost use Rattle.engine.specs.Kept.{IsIndexOf};
ghost use Rattle.engine.specs.Parts.{EndsStored, IsReported, Leaves, answered_of};

use crate::no_memory::NoMemory;
use crate::reply::{Ended, make_room, tell, write_short};
use commit_store::Store;
use disk::Disk;
use index_core::IndexCore;
use index_trees::{commits_are_those_of_the_machine, commits_hold_the_trees};
use mapping::Mapping;
use mapping_texts::bodies_are_read_back;
use reply_text::Reply;
use store_commands::NotDone;
use tree_json::OutText;

/// Answers `commit`.
#[tactic(auto, using(crate::proofs::Committing::left_stored))]
pub(crate) fn commit<D: Disk>(
    mapping: &Mapping,
    index: &mut IndexCore,
    store: &mut Store,
    disk: &mut D,
    out: &mut OutText,
) -> Result<Ended, NoMemory>
    requires index { IsIndexOf mapping.now index.old }
    requires known { AreKnown (layout_kept index.old) store.old.known }
    requires empty { out.old.bytes ≡ [] }
    ensures answers { (limits : Limits) (state : State) → store.old.limit ≡ limits.store_bytes → AreFaithful (Some mapping.now) index.old state → state.kept ≡ kept_of store.old
        → EndsStored limits state (asks commits) (answered_of result) out.new.bytes (Some mapping.now) index.new store.old store.new
        (D.content disk.new) (D.image disk.old) (D.image disk.new) (D.moment disk.old) (D.moment disk.new) (D.image_since disk.old) (D.image_since disk.new) (D.faults disk.old) (D.faults disk.new) }
    ensures leaves { Leaves (answered_of result) (Some mapping.now) (Some mapping.now) mapping.now index.old index.new }
    ensures known { AreKnown (layout_kept index.new) store.new.known }
    ensures limit { store.new.limit ≡ store.old.limit }
    ensures told { IsTold (D.content disk.new) → IsTold (D.content disk.old) }
    ensures room { room_of out.old ≤ room_of out.new }
{
    commits_are_those_of_the_machine();
    commits_hold_the_trees();
    bodies_are_read_back(mapping);
    let _generation = mapping.generation();
    make_room(out)?;
    let done = store_commands::commit(mapping, index, store, disk);
    let _fits = index.view();
    report(done, out)
}

/// Answers `compact`.
#[tactic(auto, using(crate::proofs::Committing::left_stored))]
pub(crate) fn compact<D: Disk>(
    mapping: &Mapping,
    index: &mut IndexCore,
    store: &mut Store,
    disk: &mut D,
    most: u64,
    out: &mut OutText,
) -> Result<Ended, NoMemory>
    requires index { IsIndexOf mapping.now index.old }
    requires known { AreKnown (layout_kept index.old) store.old.known }
    requires empty { out.old.bytes ≡ [] }
    ensures answers { (limits : Limits) (state : State) → store.old.limit ≡ limits.store_bytes → AreFaithful (Some mapping.now) index.old state → state.kept ≡ kept_of store.old
        → EndsStored limits state (asks (compacts most)) (answered_of result) out.new.bytes (Some mapping.now) index.new store.old store.new
        (D.content disk.new) (D.image disk.old) (D.image disk.new) (D.moment disk.old) (D.moment disk.new) (D.image_since disk.old) (D.image_since disk.new) (D.faults disk.old) (D.faults disk.new) }
    ensures leaves { Leaves (answered_of result) (Some mapping.now) (Some mapping.now) mapping.now index.old index.new }
    ensures known { AreKnown (layout_kept index.new) store.new.known }
    ensures limit { store.new.limit ≡ store.old.limit }
    ensures told { IsTold (D.content disk.new) → IsTold (D.content disk.old) }
    ensures room { room_of out.old ≤ room_of out.new }
{
    commits_are_those_of_the_machine();
    commits_hold_the_trees();
    bodies_are_read_back(mapping);
    let _generation = mapping.generation();
    make_room(out)?;
    let done = store_commands::compact(mapping, index, store, disk, most);
    let _fits = index.view();
    report(done, out)
}

/// Answers `trim`.
#[tactic(auto, using(crate::proofs::Committing::left_stored))]
pub(crate) fn trim<D: Disk>(
    mapping: &Mapping,
    index: &mut IndexCore,
    store: &mut Store,
    disk: &mut D,
    out: &mut OutText,
) -> Result<Ended, NoMemory>
    requires index { IsIndexOf mapping.now index.old }
    requires known { AreKnown (layout_kept index.old) store.old.known }
    requires empty { out.old.bytes ≡ [] }
    ensures answers { (limits : Limits) (state : State) → store.old.limit ≡ limits.store_bytes → AreFaithful (Some mapping.now) index.old state → state.kept ≡ kept_of store.old
        → EndsStored limits state (asks trims) (answered_of result) out.new.bytes (Some mapping.now) index.new store.old store.new
        (D.content disk.new) (D.image disk.old) (D.image disk.new) (D.moment disk.old) (D.moment disk.new) (D.image_since disk.old) (D.image_since disk.new) (D.faults disk.old) (D.faults disk.new) }
    ensures leaves { Leaves (answered_of result) (Some mapping.now) (Some mapping.now) mapping.now index.old index.new }
    ensures known { AreKnown (layout_kept index.new) store.new.known }
    ensures limit { store.new.limit ≡ store.old.limit }
    ensures told { IsTold (D.content disk.new) → IsTold (D.content disk.old) }
    ensures room { room_of out.old ≤ room_of out.new }
{
    make_room(out)?;
    let done = store_commands::trim(mapping, index, store, disk);
    let _fits = index.view();
    report(done, out)
}

/// Writes the reply to a command of the store, or why that wasn't done.
fn report(done: Result<Reply, NotDone>, out: &mut OutText) -> Result<Ended, NoMemory>
    requires short { IfOk done (λ reply. length (line_of reply) ≤ LONGEST_LINE) }
    requires short_refusal { (why : Why) → IsErrOf done (Refused why) → length (line_of (reply.Refused why)) ≤ LONGEST_LINE }
    requires spare { LONGEST_LINE + 1 ≤ out.old.spare }
    requires empty { out.old.bytes ≡ [] }
    ensures reported { IsReported done result out.new.bytes }
    ensures room { room_of out.old ≤ room_of out.new }
{
    match done {
        Ok(reply) => Ok(tell(&reply, out)),
        Err(NotDone::Refused(why)) => {
            write_short(&Reply::Refused { why }, out);
            Ok(Ended::Refused)
        }
        Err(NotDone::NoMemory) => Err(NoMemory),
    }
}
