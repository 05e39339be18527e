//! The lines that hold lists: what a search found, and the layout.
ghost use Rattle.std.specs.Prelude.{◌≡◌, ◌-◌, ◌≤◌, ◌^◌, ◌++◌, ◌+◌, min, length};
ghost use Rattle.tree_json.specs.Output.{room_of};
ghost use Rattle.query_ast.specs.Replies.{replies_of};
ghost use Rattle.reply_text.specs.BucketTexts.{answer_entries};
ghost use Rattle.reply_text.specs.Object.{braces};
ghost use Rattle.reply_text.specs.LineParts.{aggregations_part, found_part, layout_part, store_part};
ghost use Rattle.reply_text.specs.Printed.{Printed};

use crate::buckets::{Head, answers_len, put_answers};
use crate::hits::{hits_len, put_hits};
use crate::layout::{MergeRow, SegmentRow};
use crate::line::{TextRefusal, begin};
use crate::rows::{merges_len, put_merges, put_segments, segments_len};
use query_ast::{AggReplies, HitPage};
use tree_json::{OutText, count_len, put_count};

// The length of the answers of buckets with their name, where there are any.
#[tactic(auto, using(crate::proofs::LinePieces::aggregations))]
fn aggregations_len(list: &AggReplies) -> u64
    ensures { result ≡ min (length (aggregations_part (answer_entries (replies_of list.now)))) (2 ^ 64 - 1) }
{
    let answers = list.as_slice();
    if answers.is_empty() {
        return 0;
    }
    answers_len(Head::Nothing, answers).saturating_add(16)
}

#[tactic(auto, using(crate::proofs::LinePieces::aggregations))]
fn put_aggregations(list: &AggReplies, into: &mut OutText)
    requires { length (aggregations_part (answer_entries (replies_of list.now))) ≤ into.old.spare }
    ensures bytes { into.new.bytes ≡ into.old.bytes ++ aggregations_part (answer_entries (replies_of list.now)) }
    ensures spare { into.old.spare ≤ into.new.spare + length (aggregations_part (answer_entries (replies_of list.now))) }
    ensures room { room_of into.old ≤ room_of into.new }
{
    let answers = list.as_slice();
    if answers.is_empty() {
        return;
    }
    into.push_spare(b"\"aggregations\":");
    put_answers(Head::Nothing, answers, into);
    into.push_spare(b",");
}

#[tactic(auto, unfolding(crate::specs::LineParts::found_part))]
fn found_len(page: &HitPage, answers: &AggReplies) -> u64
    ensures { result ≡ min (length (found_part page.now answers.now)) (2 ^ 64 - 1) }
{
    aggregations_len(answers)
        .saturating_add(hits_len(page.hits.as_slice()))
        .saturating_add(count_len(page.total))
        .saturating_add(27)
}

#[tactic(auto, unfolding(crate::specs::LineParts::found_part))]
fn put_found(page: &HitPage, answers: &AggReplies, into: &mut OutText)
    requires { length (found_part page.now answers.now) ≤ into.old.spare }
    ensures bytes { into.new.bytes ≡ into.old.bytes ++ found_part page.now answers.now }
    ensures spare { into.old.spare ≤ into.new.spare + length (found_part page.now answers.now) }
    ensures room { room_of into.old ≤ room_of into.new }
{
    put_aggregations(answers, into);
    into.push_spare(b"\"hits\":{\"hits\":[");
    put_hits(page.hits.as_slice(), into);
    into.push_spare(b"],\"total\":");
    put_count(page.total, into);
    into.push_spare(b"}");
}

/// Prints what a search found as a line.
pub(crate) fn print_found(
    page: &HitPage,
    answers: &AggReplies,
    most: u64,
    into: &mut OutText,
) -> Result<(), TextRefusal>
    ensures { Printed (braces (found_part page.now answers.now)) most into.old into.new result }
{
    begin(found_len(page, answers).saturating_add(1), most, into)?;
    into.push_spare(b"{");
    put_found(page, answers, into);
    into.push_spare(b"}\n");
    Ok(())
}

#[tactic(auto, unfolding(crate::specs::LineParts::layout_part))]
fn put_layout(merges: &[MergeRow], segments: &[SegmentRow], into: &mut OutText)
    requires { length (layout_part merges.now segments.now) ≤ into.old.spare }
    ensures bytes { into.new.bytes ≡ into.old.bytes ++ layout_part merges.now segments.now }
    ensures spare { into.old.spare ≤ into.new.spare + length (layout_part merges.now segments.now) }
    ensures room { room_of into.old ≤ room_of into.new }
{
    into.push_spare(b"\"merges\":[");
    put_merges(merges, into);
    into.push_spare(b"],\"segments\":[");
    put_segments(segments, into);
    into.push_spare(b"]");
}

#[tactic(auto, unfolding(crate::specs::LineParts::layout_part))]
fn layout_len(merges: &[MergeRow], segments: &[SegmentRow]) -> u64
    ensures { result ≡ min (length (layout_part merges.now segments.now)) (2 ^ 64 - 1) }
{
    merges_len(merges)
        .saturating_add(segments_len(segments))
        .saturating_add(25)
}

/// Prints the layout as a line.
pub(crate) fn print_layout(
    merges: &[MergeRow],
    segments: &[SegmentRow],
    most: u64,
    into: &mut OutText,
) -> Result<(), TextRefusal>
    ensures { Printed (braces (layout_part merges.now segments.now)) most into.old into.new result }
{
    begin(layout_len(merges, segments).saturating_add(1), most, into)?;
    into.push_spare(b"{");
    put_layout(merges, segments, into);
    into.push_spare(b"}\n");
    Ok(())
}

/// Prints the next sequence number and the segments of a store as a line.
pub(crate) fn print_store(
    next: u64,
    segments: &[SegmentRow],
    most: u64,
    into: &mut OutText,
) -> Result<(), TextRefusal>
    ensures { Printed (braces (store_part next segments.now)) most into.old into.new result }
{
    begin(store_len(next, segments).saturating_add(1), most, into)?;
    into.push_spare(b"{");
    put_store(next, segments, into);
    into.push_spare(b"}\n");
    Ok(())
}

#[tactic(auto, unfolding(crate::specs::LineParts::store_part))]
fn store_len(next: u64, segments: &[SegmentRow]) -> u64
    ensures { result ≡ min (length (store_part next segments.now)) (2 ^ 64 - 1) }
{
    count_len(next)
        .saturating_add(segments_len(segments))
        .saturating_add(28)
}

#[tactic(auto, unfolding(crate::specs::LineParts::store_part))]
fn put_store(next: u64, segments: &[SegmentRow], into: &mut OutText)
    requires { length (store_part next segments.now) ≤ into.old.spare }
    ensures bytes { into.new.bytes ≡ into.old.bytes ++ store_part next segments.now }
    ensures spare { into.old.spare ≤ into.new.spare + length (store_part next segments.now) }
    ensures room { room_of into.old ≤ room_of into.new }
{
    into.push_spare(b"\"next_seq_no\":");
    put_count(next, into);
    into.push_spare(b",\"segments\":[");
    put_segments(segments, into);
    into.push_spare(b"]");
}
