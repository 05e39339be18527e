//! Pages of inner hits, and the places of nested hits.
ghost use Rattle.std.specs.Prelude.{◌≡◌, ◌-◌, ◌≤◌, ◌^◌, ◌++◌, ◌+◌, ◌∷◌, [], min, length, map, true, false, Contains, IfSome, None, Some};
ghost use Rattle.std.specs.Option.{option_copied, option_map};
ghost use Rattle.tree_json.specs.Output.{room_of};
ghost use Rattle.tree_json.specs.Text.{comma_if};
ghost use Rattle.query_ast.specs.Pages.{pages_of, hits_of};
ghost use Rattle.query_ast.specs.Pages.View.{page_part, hit_part};
ghost use Rattle.reply_text.specs.Object.{elements_text, entry_text, object_text};
ghost use Rattle.reply_text.specs.HitTexts.{hits_text, inner_hit_text, inner_hit_texts, page_entries};
ghost use Rattle.reply_text.specs.HitParts.{inner_part, head_part, level_text, place_text, place_part, page_entry, page_line, inner_hit_line};
ghost use Rattle.reply_text.specs.Next.{ArePassed, IsNext, rise};

use crate::hits::{put_source, source_len};
use crate::order::{Named, closer, is_first, passed, rise};
use crate::write::put_comma;
use query_ast::{InnerHit, InnerPage, InnerPageList, Level};
use tree_json::{OutText, count_len, put_count, put_quoted, quoted_len};

// The length of a place from this level in.
fn place_len(level: &Level, deeper: &[Level]) -> u64
    ensures { result ≡ min (length (place_text level.now deeper.now)) (2 ^ 64 - 1) }
{
    let inside = match deeper {
        [] => 9,
        [next, levels @ ..] => place_len(next, levels).saturating_add(20),
    };
    level_len(level).saturating_add(inside)
}

// The length of a level's field and offset.
fn level_len(level: &Level) -> u64
    ensures { result ≡ min (length (level_text level.now)) (2 ^ 64 - 1) }
{
    quoted_len(level.field.as_slice())
        .saturating_add(count_len(level.offset))
        .saturating_add(11)
}

fn put_place(level: &Level, deeper: &[Level], into: &mut OutText)
    requires { length (place_text level.now deeper.now) ≤ into.old.spare }
    ensures bytes { into.new.bytes ≡ into.old.bytes ++ place_text level.now deeper.now }
    ensures spare { into.old.spare ≤ into.new.spare + length (place_text level.now deeper.now) }
    ensures room { room_of into.old ≤ room_of into.new }
{
    match deeper {
        [] => into.push_spare(b"{\"field\":"),
        [next, levels @ ..] => {
            into.push_spare(b"{\"_nested\":");
            put_place(next, levels, into);
            into.push_spare(b",\"field\":");
        }
    }
    put_level(level, into);
}

fn put_level(level: &Level, into: &mut OutText)
    requires { length (level_text level.now) ≤ into.old.spare }
    ensures bytes { into.new.bytes ≡ into.old.bytes ++ level_text level.now }
    ensures spare { into.old.spare ≤ into.new.spare + length (level_text level.now) }
    ensures room { room_of into.old ≤ room_of into.new }
{
    put_quoted(level.field.as_slice(), into);
    into.push_spare(b",\"offset\":");
    put_count(level.offset, into);
    into.push_spare(b"}");
}

// The length of a place with its name, where there is one.
fn levels_len(levels: &[Level]) -> u64
    ensures { result ≡ min (length (place_part levels.now)) (2 ^ 64 - 1) }
{
    match levels {
        [] => 0,
        [level, deeper @ ..] => place_len(level, deeper).saturating_add(11),
    }
}

fn put_levels(levels: &[Level], into: &mut OutText)
    requires { length (place_part levels.now) ≤ into.old.spare }
    ensures bytes { into.new.bytes ≡ into.old.bytes ++ place_part levels.now }
    ensures spare { into.old.spare ≤ into.new.spare + length (place_part levels.now) }
    ensures room { room_of into.old ≤ room_of into.new }
{
    match levels {
        [] => {}
        [level, deeper @ ..] => {
            into.push_spare(b",\"_nested\":");
            put_place(level, deeper, into);
        }
    }
}

/// The length of the front of a hit: its id, its place if it has one, and its score.
pub(crate) fn head_len(id: &[u8], levels: &[Level], score: u64) -> u64
    ensures { result ≡ min (length (head_part id.now levels.now score)) (2 ^ 64 - 1) }
{
    quoted_len(id)
        .saturating_add(levels_len(levels))
        .saturating_add(count_len(score))
        .saturating_add(17)
}

/// Appends the front of a hit, for which there is room.
pub(crate) fn put_head(id: &[u8], levels: &[Level], score: u64, into: &mut OutText)
    requires { length (head_part id.now levels.now score) ≤ into.old.spare }
    ensures bytes { into.new.bytes ≡ into.old.bytes ++ head_part id.now levels.now score }
    ensures spare { into.old.spare ≤ into.new.spare + length (head_part id.now levels.now score) }
    ensures room { room_of into.old ≤ room_of into.new }
{
    into.push_spare(b"{\"_id\":");
    put_quoted(id, into);
    put_levels(levels, into);
    into.push_spare(b",\"_score\":");
    put_count(score, into);
}

// A page under its name.
#[derive(Clone, Copy)]
struct NamedPage<'a>(&'a InnerPage);

impl Named for NamedPage<'_> {
    ghost use Rattle.reply_text.specs.HitParts.{page_entry};

    ghost entry = { λ named. page_entry named.0.now };

    fn name(&self) -> &[u8] {
        self.0.name.as_slice()
    }
}

impl Named for InnerPage {
    ghost use Rattle.reply_text.specs.HitParts.{page_entry};

    ghost entry = { page_entry };

    fn name(&self) -> &[u8] {
        self.name.as_slice()
    }
}

// The page that comes next after the last name, where so many at the front are passed; then these are passed behind its
// name.
fn next_page<'a>(
    pages: &'a [InnerPage],
    at: &mut usize,
    rising: bool,
    last: Option<&[u8]>,
) -> Option<NamedPage<'a>>
    requires rising { rising ≡ rise None (map page_entry pages.now) }
    requires passed { ArePassed (option_copied last) (map page_entry pages.now) at.old }
    ensures next { IsNext (option_copied last.entry) (map page_entry pages.now) (option_map (λ named. page_entry named.0.now) result) }
    ensures within { IfSome result (λ named. Contains pages.now named.0.now) }
    ensures passed { IfSome result (λ named. ArePassed (Some named.0.now.name) (map page_entry pages.now) at.new) }
{
    let found = page_from(pages, *at, rising, last);
    if let Some(named) = found {
        *at = passed(pages, *at, named.0.name.as_slice());
    }
    found
}

// The same, where those that are passed stay.
fn page_from<'a>(
    pages: &'a [InnerPage],
    at: usize,
    rising: bool,
    last: Option<&[u8]>,
) -> Option<NamedPage<'a>>
    requires rising { rising ≡ rise None (map page_entry pages.now) }
    requires passed { ArePassed (option_copied last) (map page_entry pages.now) at }
    ensures next { IsNext (option_copied last.entry) (map page_entry pages.now) (option_map (λ named. page_entry named.0.now) result) }
    ensures within { IfSome result (λ named. Contains pages.now named.0.now) }
{
    let mut found: Option<NamedPage<'a>> = None;
    'pages: for index in at..pages.len() {
        let page = &pages[index];
        found = closer(found, last, NamedPage(page));
        if is_first(rising, last, page.name.as_slice()) {
            return found;
        }
    }
    found
}

// ---- the lengths

/// The length of pages of inner hits with their name, where there are any.
#[cycle(pages_len)]
#[tactic(auto, using(crate::proofs::HitLines::lines))]
pub(crate) fn inner_len(list: &InnerPageList) -> u64
    ensures { result ≡ min (length (inner_part (page_entries (pages_of list.now)))) (2 ^ 64 - 1) }
{
    let pages = list.as_slice();
    if pages.is_empty() {
        return 0;
    }
    pages_len(pages).saturating_add(14)
}

// The length of pages, each under its name, with their brackets.
#[cycle(pages_len)]
#[tactic(auto, using(crate::proofs::HitLines::pages), unfolding(crate::specs::Object::object_text))]
fn pages_len(pages: &[InnerPage]) -> u64
    ensures { result ≡ min (length (object_text (map page_entry pages.now))) (2 ^ 64 - 1) }
{
    let mut total: u64 = 0;
    let rising = rise(pages);
    let mut at = 0;
    let mut last: Option<&[u8]> = None;
    'pages: while let Some(named) = next_page(pages, &mut at, rising, last) {
        total = total
            .saturating_add(last.is_some() as u64)
            .saturating_add(page_len(named.0));
        last = Some(named.0.name.as_slice());
    }
    total.saturating_add(2)
}

#[cycle(pages_len)]
#[tactic(auto, unfolding(crate::specs::HitParts::page_line))]
fn page_len(page: &InnerPage) -> u64
    ensures { result ≡ min (length (page_line page.now)) (2 ^ 64 - 1) }
{
    quoted_len(page.name.as_slice())
        .saturating_add(inner_hits_len(page.hits.as_slice()))
        .saturating_add(count_len(page.total))
        .saturating_add(30)
}

// The length of the hits with the commas between them.
#[cycle(pages_len)]
#[tactic(auto, using(crate::proofs::HitLines::lines, crate::proofs::HitLines::sizes))]
fn inner_hits_len(hits: &[InnerHit]) -> u64
    ensures { result ≡ min (length (elements_text false (inner_hit_texts (hits_of (map hit_part hits.now))))) (2 ^ 64 - 1) }
{
    let mut total: u64 = 0;
    let mut later = false;
    'hits: for hit in hits {
        total = total
            .saturating_add(later as u64)
            .saturating_add(inner_hit_len(hit));
        later = true;
    }
    total
}

#[cycle(pages_len)]
#[tactic(auto, unfolding(crate::specs::HitParts::inner_hit_line))]
fn inner_hit_len(hit: &InnerHit) -> u64
    ensures { result ≡ min (length (inner_hit_line (hit_part hit.now).head (page_entries (hit_part hit.now).inner))) (2 ^ 64 - 1) }
{
    head_len(hit.id.as_slice(), hit.levels.as_slice(), hit.score)
        .saturating_add(source_len(&hit.source))
        .saturating_add(inner_len(&hit.inner))
        .saturating_add(1)
}

// ---- the texts

/// Appends pages of inner hits with their name, where there are any.
#[cycle(put_pages)]
#[tactic(auto, using(crate::proofs::HitLines::lines))]
pub(crate) fn put_inner(list: &InnerPageList, into: &mut OutText)
    requires { length (inner_part (page_entries (pages_of list.now))) ≤ into.old.spare }
    ensures bytes { into.new.bytes ≡ into.old.bytes ++ inner_part (page_entries (pages_of list.now)) }
    ensures spare { into.old.spare ≤ into.new.spare + length (inner_part (page_entries (pages_of list.now))) }
    ensures room { room_of into.old ≤ room_of into.new }
{
    let pages = list.as_slice();
    if pages.is_empty() {
        return;
    }
    into.push_spare(b",\"inner_hits\":");
    put_pages(pages, into);
}

#[cycle(put_pages)]
#[tactic(auto, using(crate::proofs::HitLines::pages), unfolding(crate::specs::Object::object_text))]
fn put_pages(pages: &[InnerPage], into: &mut OutText)
    requires { length (object_text (map page_entry pages.now)) ≤ into.old.spare }
    ensures bytes { into.new.bytes ≡ into.old.bytes ++ object_text (map page_entry pages.now) }
    ensures spare { into.old.spare ≤ into.new.spare + length (object_text (map page_entry pages.now)) }
    ensures room { room_of into.old ≤ room_of into.new }
{
    into.push_spare(b"{");
    let rising = rise(pages);
    let mut at = 0;
    let mut last: Option<&[u8]> = None;
    'pages: while let Some(named) = next_page(pages, &mut at, rising, last) {
        put_page(last.is_some(), named.0, into);
        last = Some(named.0.name.as_slice());
    }
    into.push_spare(b"}");
}

// With a comma where something stands before.
#[cycle(put_pages)]
#[tactic(auto, using(crate::proofs::HitLines::lines))]
fn put_page(later: bool, page: &InnerPage, into: &mut OutText)
    requires { length (comma_if later ++ entry_text (page_entry page.now)) ≤ into.old.spare }
    ensures bytes { into.new.bytes ≡ into.old.bytes ++ (comma_if later ++ entry_text (page_entry page.now)) }
    ensures spare { into.old.spare ≤ into.new.spare + length (comma_if later ++ entry_text (page_entry page.now)) }
    ensures room { room_of into.old ≤ room_of into.new }
{
    put_comma(later, into);
    put_page_line(page, into);
}

#[cycle(put_pages)]
#[tactic(auto, unfolding(crate::specs::HitParts::page_line))]
fn put_page_line(page: &InnerPage, into: &mut OutText)
    requires { length (page_line page.now) ≤ into.old.spare }
    ensures bytes { into.new.bytes ≡ into.old.bytes ++ page_line page.now }
    ensures spare { into.old.spare ≤ into.new.spare + length (page_line page.now) }
    ensures room { room_of into.old ≤ room_of into.new }
{
    put_quoted(page.name.as_slice(), into);
    into.push_spare(b":{\"hits\":{\"hits\":[");
    put_inner_hits(page.hits.as_slice(), into);
    into.push_spare(b"],\"total\":");
    put_count(page.total, into);
    into.push_spare(b"}}");
}

#[cycle(put_pages)]
#[tactic(auto, using(crate::proofs::HitLines::sizes))]
fn put_inner_hits(hits: &[InnerHit], into: &mut OutText)
    requires { length (elements_text false (inner_hit_texts (hits_of (map hit_part hits.now)))) ≤ into.old.spare }
    ensures bytes { into.new.bytes ≡ into.old.bytes ++ elements_text false (inner_hit_texts (hits_of (map hit_part hits.now))) }
    ensures spare { into.old.spare
        ≤ into.new.spare + length (elements_text false (inner_hit_texts (hits_of (map hit_part hits.now)))) }
    ensures room { room_of into.old ≤ room_of into.new }
{
    let mut later = false;
    'hits: for hit in hits {
        put_inner_hit(later, hit, into);
        later = true;
    }
}

// With a comma where something stands before.
#[cycle(put_pages)]
#[tactic(auto, using(crate::proofs::HitLines::lines))]
fn put_inner_hit(later: bool, hit: &InnerHit, into: &mut OutText)
    requires { length (comma_if later ++ inner_hit_text (hit_part hit.now).head (page_entries (hit_part hit.now).inner)) ≤ into.old.spare }
    ensures bytes { into.new.bytes
        ≡ into.old.bytes ++ (comma_if later ++ inner_hit_text (hit_part hit.now).head (page_entries (hit_part hit.now).inner)) }
    ensures spare { into.old.spare
        ≤ into.new.spare + length (comma_if later ++ inner_hit_text (hit_part hit.now).head (page_entries (hit_part hit.now).inner)) }
    ensures room { room_of into.old ≤ room_of into.new }
{
    put_comma(later, into);
    put_inner_hit_line(hit, into);
}

#[cycle(put_pages)]
#[tactic(auto, unfolding(crate::specs::HitParts::inner_hit_line))]
fn put_inner_hit_line(hit: &InnerHit, into: &mut OutText)
    requires { length (inner_hit_line (hit_part hit.now).head (page_entries (hit_part hit.now).inner)) ≤ into.old.spare }
    ensures bytes { into.new.bytes ≡ into.old.bytes ++ inner_hit_line (hit_part hit.now).head (page_entries (hit_part hit.now).inner) }
    ensures spare { into.old.spare
        ≤ into.new.spare + length (inner_hit_line (hit_part hit.now).head (page_entries (hit_part hit.now).inner)) }
    ensures room { room_of into.old ≤ room_of into.new }
{
    put_head(hit.id.as_slice(), hit.levels.as_slice(), hit.score, into);
    put_source(&hit.source, into);
    put_inner(&hit.inner, into);
    into.push_spare(b"}");
}
