//! What buckets answer: an object of answers, each under its name, among which a count and a key may stand.
ghost use Rattle.std.specs.Prelude.{◌≡◌, ◌-◌, ◌≤◌, ◌^◌, ◌++◌, ◌+◌, [], min, length, map, false, None, Some, IfSome};
ghost use Rattle.std.specs.Option.{option_copied, option_map};
ghost use Rattle.tree_json.specs.Output.{room_of};
ghost use Rattle.tree_json.specs.Text.{comma_if};
ghost use Rattle.query_ast.specs.Replies.{buckets_of};
ghost use Rattle.query_ast.specs.Replies.View.{bucket_part};
ghost use Rattle.reply_text.specs.Object.{elements_text, object_text};
ghost use Rattle.reply_text.specs.BucketTexts.{value_text, bucket_texts};
ghost use Rattle.reply_text.specs.BucketParts.{answer_entry, slot_entry, slot_line, keyed_line, answer_line, bucket_text, head_entries, IsWithin};
ghost use Rattle.reply_text.specs.Next.{ArePassed, IsNext, closest, rise};

use crate::order::{Named, closer, is_first, passed, rise};
use crate::write::put_comma;
use query_ast::{AggReply, AggValue, Bucket, BucketList};
use tree_json::{OutText, count_len, put_count, put_quoted, put_whole, quoted_len, whole_len};
use tree_objects::FieldValue;

/// What stands in an object of answers besides these.
#[derive(Clone, Copy)]
pub(crate) enum Head<'a> {
    /// Nothing.
    Nothing,
    /// The number of objects.
    Count(u64),
    /// The number of objects of a bucket, and its key.
    Bucket(u64, &'a FieldValue),
}

// One thing of an object of answers.
#[derive(Clone, Copy)]
enum Slot<'a> {
    Count(u64),
    Key(&'a FieldValue),
    Answer(&'a AggReply),
}

impl Named for Slot<'_> {
    ghost use Rattle.reply_text.specs.BucketParts.{slot_entry};

    ghost entry = { slot_entry };

    fn name(&self) -> &[u8] {
        match self {
            Slot::Count(_) => b"doc_count",
            Slot::Key(_) => b"key",
            Slot::Answer(answer) => answer.name.as_slice(),
        }
    }
}

// Of a head's things, the one that comes next after the last name.
fn next_of_head<'a>(head: Head<'a>, last: Option<&[u8]>) -> Option<Slot<'a>>
    ensures closest { option_map slot_entry result ≡ closest (option_copied last.entry) None (head_entries head.entry) }
    ensures no_answer { IfSome result (IsWithin []) }
{
    match head {
        Head::Nothing => None,
        Head::Count(count) => closer(None, last, Slot::Count(count)),
        Head::Bucket(count, key) => {
            let found = closer(None, last, Slot::Count(count));
            closer(found, last, Slot::Key(key))
        }
    }
}

impl Named for AggReply {
    ghost use Rattle.reply_text.specs.BucketParts.{answer_entry};

    ghost entry = { answer_entry };

    fn name(&self) -> &[u8] {
        self.name.as_slice()
    }
}

// The thing that comes next after the last name, where so many answers at the front are passed; then these are passed
// behind its name.
fn next_slot<'a>(
    head: Head<'a>,
    answers: &'a [AggReply],
    at: &mut usize,
    rising: bool,
    last: Option<&[u8]>,
) -> Option<Slot<'a>>
    requires rising { rising ≡ rise None (map answer_entry answers.now) }
    requires passed { ArePassed (option_copied last) (map answer_entry answers.now) at.old }
    ensures next { IsNext (option_copied last.entry) (head_entries head.entry ++ map answer_entry answers.now) (option_map slot_entry result) }
    ensures within { IfSome result (IsWithin answers.now) }
    ensures passed { IfSome result (λ slot. ArePassed (Some (slot_entry slot).0) (map answer_entry answers.now) at.new) }
{
    let found = slot_from(head, answers, *at, rising, last);
    if let Some(slot) = found {
        *at = passed(answers, *at, name_of(slot));
    }
    found
}

// The same, where those that are passed stay.
fn slot_from<'a>(
    head: Head<'a>,
    answers: &'a [AggReply],
    at: usize,
    rising: bool,
    last: Option<&[u8]>,
) -> Option<Slot<'a>>
    requires rising { rising ≡ rise None (map answer_entry answers.now) }
    requires passed { ArePassed (option_copied last) (map answer_entry answers.now) at }
    ensures next { IsNext (option_copied last.entry) (head_entries head.entry ++ map answer_entry answers.now) (option_map slot_entry result) }
    ensures within { IfSome result (IsWithin answers.now) }
{
    let mut found = next_of_head(head, last);
    'answers: for index in at..answers.len() {
        let answer = &answers[index];
        found = closer(found, last, Slot::Answer(answer));
        if is_first(rising, last, answer.name.as_slice()) {
            return found;
        }
    }
    found
}

// ---- the lengths

fn field_value_len(value: &FieldValue) -> u64
    ensures { result ≡ min (length (value_text value.now)) (2 ^ 64 - 1) }
{
    match value {
        FieldValue::Number(number) => whole_len(*number),
        FieldValue::Written(text) => quoted_len(text.as_slice()),
    }
}

/// The length of an object of answers, in bytes, or the greatest u64 where it is greater than that.
#[cycle(answers_len)]
#[tactic(auto, using(crate::proofs::BucketLines::answers), unfolding(crate::specs::Object::object_text))]
pub(crate) fn answers_len(head: Head, answers: &[AggReply]) -> u64
    ensures { result ≡ min (length (object_text (head_entries head.entry ++ map answer_entry answers.now))) (2 ^ 64 - 1) }
{
    let mut total: u64 = 0;
    let rising = rise(answers);
    let mut at = 0;
    let mut last: Option<&[u8]> = None;
    'slots: while let Some(slot) = next_slot(head, answers, &mut at, rising, last) {
        total = total
            .saturating_add(last.is_some() as u64)
            .saturating_add(slot_len(slot));
        last = Some(name_of(slot));
    }
    total.saturating_add(2)
}

// The name of a thing, which outlives the thing.
fn name_of<'a>(slot: Slot<'a>) -> &'a [u8]
    ensures { result.now ≡ (slot_entry slot.entry).0 }
{
    match slot {
        Slot::Count(_) => b"doc_count",
        Slot::Key(_) => b"key",
        Slot::Answer(answer) => answer.name.as_slice(),
    }
}

#[cycle(answers_len)]
#[tactic(auto, using(crate::proofs::BucketLines::lines))]
fn slot_len(slot: Slot) -> u64
    ensures { result ≡ min (length (slot_line slot.entry)) (2 ^ 64 - 1) }
{
    match slot {
        Slot::Count(count) => count_len(count).saturating_add(12),
        Slot::Key(key) => field_value_len(key).saturating_add(6),
        Slot::Answer(answer) => quoted_len(answer.name.as_slice())
            .saturating_add(answer_len(&answer.value))
            .saturating_add(1),
    }
}

#[cycle(answers_len)]
#[tactic(auto, using(crate::proofs::BucketLines::lines))]
fn answer_len(answer: &AggValue) -> u64
    ensures { result ≡ min (length (answer_line answer.now)) (2 ^ 64 - 1) }
{
    match answer {
        AggValue::Single { count, inner } => answers_len(Head::Count(*count), inner.as_slice()),
        AggValue::Buckets { buckets, other } => buckets_len(buckets.as_slice())
            .saturating_add(count_len(*other))
            .saturating_add(37),
        AggValue::Metric(None) => 14,
        AggValue::Metric(Some(number)) => whole_len(*number).saturating_add(10),
    }
}

// The length of the buckets with the commas between them.
#[cycle(answers_len)]
#[tactic(auto, using(crate::proofs::BucketLines::sizes))]
fn buckets_len(buckets: &[Bucket]) -> u64
    ensures { result ≡ min (length (elements_text false (bucket_texts (buckets_of (map bucket_part buckets.now))))) (2 ^ 64 - 1) }
{
    let mut total: u64 = 0;
    let mut later = false;
    'buckets: for bucket in buckets {
        total = total
            .saturating_add(later as u64)
            .saturating_add(bucket_len(bucket));
        later = true;
    }
    total
}

#[cycle(answers_len)]
#[tactic(auto, using(crate::proofs::BucketLines::lines))]
fn bucket_len(bucket: &Bucket) -> u64
    ensures { result ≡ min (length (bucket_text bucket.now)) (2 ^ 64 - 1) }
{
    answers_len(
        Head::Bucket(bucket.count, &bucket.key),
        bucket.inner.as_slice(),
    )
}

// ---- the texts

fn put_field_value(value: &FieldValue, into: &mut OutText)
    requires { length (value_text value.now) ≤ into.old.spare }
    ensures bytes { into.new.bytes ≡ into.old.bytes ++ value_text value.now }
    ensures spare { into.old.spare ≤ into.new.spare + length (value_text value.now) }
    ensures room { room_of into.old ≤ room_of into.new }
{
    match value {
        FieldValue::Number(number) => put_whole(*number, into),
        FieldValue::Written(text) => put_quoted(text.as_slice(), into),
    }
}

/// Appends an object of answers, for which there is room.
#[cycle(put_answers)]
#[tactic(auto, using(crate::proofs::BucketLines::answers), unfolding(crate::specs::Object::object_text))]
pub(crate) fn put_answers(head: Head, answers: &[AggReply], into: &mut OutText)
    requires { length (object_text (head_entries head ++ map answer_entry answers.now)) ≤ into.old.spare }
    ensures bytes { into.new.bytes ≡ into.old.bytes ++ object_text (head_entries head.entry ++ map answer_entry answers.now) }
    ensures spare { into.old.spare ≤ into.new.spare + length (object_text (head_entries head.entry ++ map answer_entry answers.now)) }
    ensures room { room_of into.old ≤ room_of into.new }
{
    into.push_spare(b"{");
    let rising = rise(answers);
    let mut at = 0;
    let mut last: Option<&[u8]> = None;
    'slots: while let Some(slot) = next_slot(head, answers, &mut at, rising, last) {
        put_slot(last.is_some(), slot, into);
        last = Some(name_of(slot));
    }
    into.push_spare(b"}");
}

// With a comma where something stands before.
#[cycle(put_answers)]
#[tactic(auto, using(crate::proofs::BucketLines::lines))]
fn put_slot(later: bool, slot: Slot, into: &mut OutText)
    requires { length (comma_if later ++ slot_line slot) ≤ into.old.spare }
    ensures bytes { into.new.bytes ≡ into.old.bytes ++ (comma_if later ++ slot_line slot.entry) }
    ensures spare { into.old.spare ≤ into.new.spare + length (comma_if later ++ slot_line slot.entry) }
    ensures room { room_of into.old ≤ room_of into.new }
{
    put_comma(later, into);
    match slot {
        Slot::Count(count) => {
            into.push_spare(b"\"doc_count\":");
            put_count(count, into);
        }
        Slot::Key(key) => {
            into.push_spare(b"\"key\":");
            put_field_value(key, into);
        }
        Slot::Answer(answer) => {
            put_quoted(answer.name.as_slice(), into);
            into.push_spare(b":");
            put_answer(&answer.value, into);
        }
    }
}

#[cycle(put_answers)]
#[tactic(auto, using(crate::proofs::BucketLines::lines))]
fn put_answer(answer: &AggValue, into: &mut OutText)
    requires { length (answer_line answer.now) ≤ into.old.spare }
    ensures bytes { into.new.bytes ≡ into.old.bytes ++ answer_line answer.now }
    ensures spare { into.old.spare ≤ into.new.spare + length (answer_line answer.now) }
    ensures room { room_of into.old ≤ room_of into.new }
{
    match answer {
        AggValue::Single { count, inner } => put_answers(
            Head::Count(*count),
            inner.as_slice(),
            into,
        ),
        AggValue::Buckets { buckets, other } => put_keyed(buckets, *other, into),
        AggValue::Metric(None) => into.push_spare(b"{\"value\":null}"),
        AggValue::Metric(Some(number)) => {
            into.push_spare(b"{\"value\":");
            put_whole(*number, into);
            into.push_spare(b"}");
        }
    }
}

// Buckets by key, and the sum of the counts of those that are left out.
#[cycle(put_answers)]
fn put_keyed(buckets: &BucketList, other: u64, into: &mut OutText)
    requires { length (keyed_line buckets.now other) ≤ into.old.spare }
    ensures bytes { into.new.bytes ≡ into.old.bytes ++ keyed_line buckets.now other }
    ensures spare { into.old.spare ≤ into.new.spare + length (keyed_line buckets.now other) }
    ensures room { room_of into.old ≤ room_of into.new }
{
    into.push_spare(b"{\"buckets\":[");
    put_buckets(buckets.as_slice(), into);
    into.push_spare(b"],\"sum_other_doc_count\":");
    put_count(other, into);
    into.push_spare(b"}");
}

#[cycle(put_answers)]
#[tactic(auto, using(crate::proofs::BucketLines::sizes))]
fn put_buckets(buckets: &[Bucket], into: &mut OutText)
    requires { length (elements_text false (bucket_texts (buckets_of (map bucket_part buckets.now)))) ≤ into.old.spare }
    ensures bytes { into.new.bytes ≡ into.old.bytes ++ elements_text false (bucket_texts (buckets_of (map bucket_part buckets.now))) }
    ensures spare { into.old.spare
        ≤ into.new.spare + length (elements_text false (bucket_texts (buckets_of (map bucket_part buckets.now)))) }
    ensures room { room_of into.old ≤ room_of into.new }
{
    let mut later = false;
    'buckets: for bucket in buckets {
        put_bucket(later, bucket, into);
        later = true;
    }
}

// With a comma where something stands before.
#[cycle(put_answers)]
#[tactic(auto, using(crate::proofs::BucketLines::lines))]
fn put_bucket(later: bool, bucket: &Bucket, into: &mut OutText)
    requires { length (comma_if later ++ bucket_text bucket.now) ≤ into.old.spare }
    ensures bytes { into.new.bytes ≡ into.old.bytes ++ (comma_if later ++ bucket_text bucket.now) }
    ensures spare { into.old.spare ≤ into.new.spare + length (comma_if later ++ bucket_text bucket.now) }
    ensures room { room_of into.old ≤ room_of into.new }
{
    put_comma(later, into);
    put_answers(
        Head::Bucket(bucket.count, &bucket.key),
        bucket.inner.as_slice(),
        into,
    );
}
