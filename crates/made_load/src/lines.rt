//! The lines of one change, and what comes behind it.
ghost use Rattle.std.specs.Prelude.{◌≡◌, ◌≤◌, ◌++◌, ◌+◌, codes};
ghost use Rattle.tree_json.specs.Output.{room_of};
ghost use Rattle.made_load.specs.Lines.{mapping_line, commit_line, delete_line, index_line, change, search_behind, merge_behind, pauses, lines_text};

use crate::draws::Draws;
use crate::source::{put_number, put_source};
use tree_json::OutText;

const MAPPING: &[u8] =
    b"{\"mapping\":{\"properties\":{\"name\":{\"type\":\"text\"},\"offers\":{\"type\":\"nested\",\"properties\":{\"color\":{\"type\":\"keyword\"},\"price\":{\"type\":\"long\"},\"stock\":{\"type\":\"nested\",\"properties\":{\"n\":{\"type\":\"long\"},\"site\":{\"type\":\"keyword\"}}}}},\"rel\":{\"type\":\"join\",\"relations\":{\"question\":\"answer\"}}}}}\n";

const SEARCH: &[u8] =
    b"{\"search\":{\"_source\":false,\"query\":{\"nested\":{\"path\":\"offers\",\"query\":{\"bool\":{\"must\":[{\"term\":{\"offers.color\":\"red\"}},{\"range\":{\"offers.price\":{\"lt\":50}}}]}}}}}}\n";

/// Appends the line of the mapping.
#[tactic(auto, unfolding(crate::specs::Lines::mapping_line))]
pub(crate) fn put_mapping(into: &mut OutText)
    requires { 288 ≤ into.old.spare }
    ensures bytes { into.new.bytes ≡ into.old.bytes ++ (mapping_line ++ codes "\n") }
    ensures room { room_of into.old ≤ room_of into.new }
{
    into.push_spare(MAPPING);
}

/// Appends the line of the commit.
#[tactic(auto, unfolding(crate::specs::Lines::commit_line))]
pub(crate) fn put_commit(into: &mut OutText)
    requires { 14 ≤ into.old.spare }
    ensures bytes { into.new.bytes ≡ into.old.bytes ++ (commit_line ++ codes "\n") }
    ensures room { room_of into.old ≤ room_of into.new }
{
    into.push_spare(b"{\"commit\":{}}\n");
}

// The deletion of a document that was drawn.
#[tactic(auto, unfolding(crate::specs::Lines::delete_line))]
fn put_delete(document: u64, into: &mut OutText)
    requires { 42 ≤ into.old.spare }
    ensures bytes { into.new.bytes ≡ into.old.bytes ++ (delete_line document ++ codes "\n") }
    ensures spare { into.old.spare ≤ into.new.spare + 42 }
    ensures room { room_of into.old ≤ room_of into.new }
{
    into.push_spare(b"{\"delete\":{\"_id\":\"");
    put_number(document, into);
    into.push_spare(b"\"}}\n");
}

// The line that indexes a document, without its source.
#[tactic(auto, unfolding(crate::specs::Lines::index_line))]
fn put_index(document: u64, into: &mut OutText)
    requires { 41 ≤ into.old.spare }
    ensures bytes { into.new.bytes ≡ into.old.bytes ++ (index_line document ++ codes "\n") }
    ensures spare { into.old.spare ≤ into.new.spare + 41 }
    ensures room { room_of into.old ≤ room_of into.new }
{
    into.push_spare(b"{\"index\":{\"_id\":\"");
    put_number(document, into);
    into.push_spare(b"\"}}\n");
}

/// Appends the lines of a change.
#[tactic(auto, unfolding(crate::specs::Lines::change))]
pub(crate) fn put_change(document: u64, draws: &mut Draws, into: &mut OutText)
    requires { 502 ≤ into.old.spare }
    ensures bytes { into.new.bytes ≡ into.old.bytes ++ lines_text (change document draws.old.state).lines }
    ensures state { draws.new.state ≡ (change document draws.old.state).after }
    ensures spare { into.old.spare ≤ into.new.spare + 502 }
    ensures room { room_of into.old ≤ room_of into.new }
{
    if draws.draw(10) == 0 && 0 < document {
        put_delete(draws.draw(document), into);
    } else {
        put_index(document, into);
        put_source(document, draws, into);
        into.push_spare(b"\n");
    }
}

#[tactic(auto, unfolding(crate::specs::Lines::search_behind, crate::specs::Lines::search_line))]
fn put_search(document: u64, into: &mut OutText)
    requires { 163 ≤ into.old.spare }
    ensures bytes { into.new.bytes ≡ into.old.bytes ++ lines_text (search_behind document) }
    ensures spare { into.old.spare ≤ into.new.spare + 163 }
    ensures room { room_of into.old ≤ room_of into.new }
{
    if document % 100 == 99 {
        into.push_spare(SEARCH);
    }
}

#[tactic(auto, unfolding(crate::specs::Lines::merge_behind, crate::specs::Lines::merge_line))]
fn put_merge(document: u64, into: &mut OutText)
    requires { 18 ≤ into.old.spare }
    ensures bytes { into.new.bytes ≡ into.old.bytes ++ lines_text (merge_behind document) }
    ensures spare { into.old.spare ≤ into.new.spare + 18 }
    ensures room { room_of into.old ≤ room_of into.new }
{
    if document % 1_000 == 999 {
        into.push_spare(b"{\"forcemerge\":{}}\n");
    }
}

/// Appends what comes behind a change: after each hundredth a search, after each thousandth a forced merge too.
#[tactic(auto, unfolding(crate::specs::Lines::pauses), using(crate::proofs::Rows::lines_joined))]
pub(crate) fn put_pauses(document: u64, into: &mut OutText)
    requires { 181 ≤ into.old.spare }
    ensures bytes { into.new.bytes ≡ into.old.bytes ++ lines_text (pauses document) }
    ensures room { room_of into.old ≤ room_of into.new }
{
    put_search(document, into);
    put_merge(document, into);
}
