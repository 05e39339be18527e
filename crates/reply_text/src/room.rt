//! The room that hits have in a reply: it is taken by the fewest bytes of each, before its text is made.
ghost use Rattle.std.specs.Prelude.{◌≡◌, ◌≤◌, ◌<◌, ◌+◌, List, length, OnErr, OnOk};
ghost use Rattle.query_ast.specs.Replies.{ReplyPart};
ghost use Rattle.query_ast.specs.declared.hit.HitPage.{HitPage as PageOfHits};
ghost use Rattle.reply_text.specs.Text.{line_of};
ghost use Rattle.reply_text.specs.Weight.{ArePagesApart, hit_weight, page_weight};
ghost use Rattle.reply_text.specs.declared.reply.Reply.TheVariants.{Found};

use tree_objects::Bytes;

/// The fewest bytes of a hit without its source: its braces, and its id and its score under their names.
pub const HIT_BYTES: u64 = 20;

/// The fewest bytes of a page of inner hits without its hits: its name, its braces, and its number of hits.
pub const PAGE_BYTES: u64 = 30;

/// A reply has no room for it.
#[derive(Clone, Copy, Debug, PartialEq, Eq)]
pub struct TooLarge;

/// Takes what a hit with this source weighs by itself.
pub fn take_hit(source: &Option<Bytes>, room: &mut u64) -> Result<(), TooLarge>
    ensures taken { OnOk result (room.old ≡ room.new + hit_weight source.now) }
    ensures too_large { OnErr result (room.old < hit_weight source.now) }
{
    let text = match source {
        Some(text) => text.as_slice().len() as u64,
        None => 0,
    };
    take(HIT_BYTES + text, room)
}

/// Takes what a page of inner hits weighs without its hits.
pub fn take_page(room: &mut u64) -> Result<(), TooLarge>
    ensures taken { OnOk result (room.old ≡ room.new + PAGE_BYTES) }
    ensures too_large { OnErr result (room.old < PAGE_BYTES) }
{
    take(PAGE_BYTES, room)
}

/// Takes so many bytes, where there are as many.
fn take(bytes: u64, room: &mut u64) -> Result<(), TooLarge>
    ensures taken { OnOk result (room.old ≡ room.new + bytes) }
    ensures too_large { OnErr result (room.old < bytes) }
{
    if bytes > *room {
        return Err(TooLarge);
    }
    *room -= bytes;
    Ok(())
}

/// The reply to a search has at least the bytes that its page weighs, where no two pages of one hit have one name.
#[tactic(auto, using(crate::proofs::Weights::weighs))]
pub fn reply_weighs_its_page()
    ensures { (page : PageOfHits) (answers : List ReplyPart) → ArePagesApart page → page_weight page ≤ length (line_of (Found page answers)) }
{}
