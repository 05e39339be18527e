//! Hits: the root hits of a search.
ghost use Rattle.std.specs.Prelude.{◌≡◌, ◌-◌, ◌≤◌, ◌^◌, ◌++◌, ◌+◌, ◌∷◌, [], min, length, map, true, false, decimal};
ghost use Rattle.tree_json.specs.Output.{room_of};
ghost use Rattle.tree_json.specs.Text.{comma_if};
ghost use Rattle.reply_text.specs.Object.{elements_text};
ghost use Rattle.reply_text.specs.HitTexts.{key_text, sort_text, hit_text};
ghost use Rattle.reply_text.specs.HitParts.{source_part, hit_line};

use crate::inner_hits::{head_len, inner_len, put_head, put_inner};
use crate::write::put_comma;
use query_ast::{Hit, Key};
use tree_json::{OutText, count_len, put_count, put_quoted, put_whole, quoted_len, whole_len};
use tree_objects::Bytes;

fn key_len(key: &Key) -> u64
    ensures { result ≡ min (length (key_text key.now)) (2 ^ 64 - 1) }
{
    match key {
        Key::Null => 4,
        Key::Number(number) => whole_len(*number),
        Key::Written(text) => quoted_len(text.as_slice()),
    }
}

// With a comma where something stands before.
fn put_key(later: bool, key: &Key, into: &mut OutText)
    requires { length (comma_if later ++ key_text key.now) ≤ into.old.spare }
    ensures bytes { into.new.bytes ≡ into.old.bytes ++ (comma_if later ++ key_text key.now) }
    ensures spare { into.old.spare ≤ into.new.spare + length (comma_if later ++ key_text key.now) }
    ensures room { room_of into.old ≤ room_of into.new }
{
    put_comma(later, into);
    match key {
        Key::Null => into.push_spare(b"null"),
        Key::Number(number) => put_whole(*number, into),
        Key::Written(text) => put_quoted(text.as_slice(), into),
    }
}

// The length of the keys, and of the number behind them, with their brackets.
fn sort_len(keys: &[Key], number: u64) -> u64
    ensures { result ≡ min (length (sort_text keys.now number)) (2 ^ 64 - 1) }
{
    let mut total: u64 = 0;
    let mut later = false;
    'keys: for key in keys {
        total = total
            .saturating_add(later as u64)
            .saturating_add(key_len(key));
        later = true;
    }
    total
        .saturating_add(later as u64)
        .saturating_add(count_len(number))
        .saturating_add(2)
}

fn put_sort(keys: &[Key], number: u64, into: &mut OutText)
    requires { length (sort_text keys.now number) ≤ into.old.spare }
    ensures bytes { into.new.bytes ≡ into.old.bytes ++ sort_text keys.now number }
    ensures spare { into.old.spare ≤ into.new.spare + length (sort_text keys.now number) }
    ensures room { room_of into.old ≤ room_of into.new }
{
    into.push_spare(b"[");
    let mut later = false;
    'keys: for key in keys {
        put_key(later, key, into);
        later = true;
    }
    put_comma(later, into);
    put_count(number, into);
    into.push_spare(b"]");
}

/// The length of a source with its name, where there is one.
pub(crate) fn source_len(source: &Option<Bytes>) -> u64
    ensures { result ≡ min (length (source_part source.now)) (2 ^ 64 - 1) }
{
    match source {
        None => 0,
        Some(text) => (text.as_slice().len() as u64).saturating_add(11),
    }
}

/// Appends a source with its name, where there is one.
pub(crate) fn put_source(source: &Option<Bytes>, into: &mut OutText)
    requires { length (source_part source.now) ≤ into.old.spare }
    ensures bytes { into.new.bytes ≡ into.old.bytes ++ source_part source.now }
    ensures spare { into.old.spare ≤ into.new.spare + length (source_part source.now) }
    ensures room { room_of into.old ≤ room_of into.new }
{
    match source {
        None => {}
        Some(text) => {
            into.push_spare(b",\"_source\":");
            into.push_spare(text.as_slice());
        }
    }
}

// With a comma where something stands before.
#[tactic(auto, using(crate::proofs::HitLines::hits))]
fn put_hit(later: bool, hit: &Hit, into: &mut OutText)
    requires { length (comma_if later ++ hit_text hit.now) ≤ into.old.spare }
    ensures bytes { into.new.bytes ≡ into.old.bytes ++ (comma_if later ++ hit_text hit.now) }
    ensures spare { into.old.spare ≤ into.new.spare + length (comma_if later ++ hit_text hit.now) }
    ensures room { room_of into.old ≤ room_of into.new }
{
    put_comma(later, into);
    put_hit_line(hit, into);
}

#[tactic(auto, unfolding(crate::specs::HitParts::hit_line))]
fn put_hit_line(hit: &Hit, into: &mut OutText)
    requires { length (hit_line hit.now) ≤ into.old.spare }
    ensures bytes { into.new.bytes ≡ into.old.bytes ++ hit_line hit.now }
    ensures spare { into.old.spare ≤ into.new.spare + length (hit_line hit.now) }
    ensures room { room_of into.old ≤ room_of into.new }
{
    put_head(hit.id.as_slice(), &[], hit.score, into);
    put_source(&hit.source, into);
    put_inner(&hit.inner, into);
    into.push_spare(b",\"sort\":");
    put_sort(hit.keys.as_slice(), hit.number, into);
    into.push_spare(b"}");
}

#[tactic(auto, unfolding(crate::specs::HitParts::hit_line))]
fn hit_len(hit: &Hit) -> u64
    ensures { result ≡ min (length (hit_line hit.now)) (2 ^ 64 - 1) }
{
    head_len(hit.id.as_slice(), &[], hit.score)
        .saturating_add(source_len(&hit.source))
        .saturating_add(inner_len(&hit.inner))
        .saturating_add(sort_len(hit.keys.as_slice(), hit.number))
        .saturating_add(9)
}

/// The length of the hits with the commas between them.
#[tactic(auto, using(crate::proofs::HitLines::hits))]
pub(crate) fn hits_len(hits: &[Hit]) -> u64
    ensures { result ≡ min (length (elements_text false (map hit_text hits.now))) (2 ^ 64 - 1) }
{
    let mut total: u64 = 0;
    let mut later = false;
    'hits: for hit in hits {
        total = total
            .saturating_add(later as u64)
            .saturating_add(hit_len(hit));
        later = true;
    }
    total
}

/// Appends the hits with commas between them, for which there is room.
pub(crate) fn put_hits(hits: &[Hit], into: &mut OutText)
    requires { length (elements_text false (map hit_text hits.now)) ≤ into.old.spare }
    ensures bytes { into.new.bytes ≡ into.old.bytes ++ elements_text false (map hit_text hits.now) }
    ensures spare { into.old.spare ≤ into.new.spare + length (elements_text false (map hit_text hits.now)) }
    ensures room { room_of into.old ≤ room_of into.new }
{
    let mut later = false;
    'hits: for hit in hits {
        put_hit(later, hit, into);
        later = true;
    }
}
