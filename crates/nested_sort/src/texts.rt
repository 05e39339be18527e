//! Keys that are texts. Within a segment terms stand in the order of their bytes, so ordinals decide; across segments the
//! bytes do.
ghost use Rattle.std.specs.Prelude.{◌≡◌, ◌<◌, ◌++◌, ◌∷◌, [], true, length, map, option_map, None, IfOk, IfSome, OnOk};
ghost use Rattle.std.specs.List.{All, flat_map};
ghost use Rattle.hit_order.specs.Table.{text_or_null};
ghost use Rattle.mapping_body.specs.declared.kind.Kind.{Kind};
ghost use Rattle.nested_sort.specs.Documents.{AllLong, IsGivenAs, IsTermOf, docs_inside, key_in, key_of_hit, ordinals_at, question_of, term_value};
ghost use Rattle.nested_sort.specs.Inside.{AreAt};
ghost use Rattle.nested_sort.specs.Listed.{AreDocs, IsDocOf};
ghost use Rattle.query_ast.specs.Resolved.{IsModeOf};
ghost use Rattle.query_ast.specs.SortKey.{key_or_missing, mode_value};

use crate::NoMemory;
use crate::asked::Asked;
use crate::inside::gather;
use crate::modes::ordinal_of;
use crate::row_guess::RowGuess;
use hit_order::TextKeys;
use query_ast::Missing;
use segment::{Segment, values_are_of_documents};
use segment_view::Entry;
use std::alloc::Global;
use term_table::TermTable;
use tree_objects::FieldValue;
use view_objects::Hit;

/// The text that stands for those inside each hit: the least or the greatest, since texts have no other mode.
pub(crate) fn text_keys(
    alloc: Global,
    entries: &[Entry],
    hits: &[Hit],
    asked: &Asked<'_>,
) -> Result<TextKeys, NoMemory>
    requires docs { AreDocs entries.now hits.now }
    requires found { AllLong entries.now asked.now.filters.now }
    requires given { IsGivenAs true asked.now.missing.now }
    requires mode { IsModeOf Kind.Keyword asked.now.mode }
    ensures { IfOk result (λ keys. map text_or_null keys ≡ map (key_of_hit true entries.now (question_of asked.now)) hits.now) }
{
    let mut keys = TextKeys::empty(alloc);
    let mut guess = RowGuess::first();
    let mut ordinals = Vec::new(alloc);
    'hits: for hit in hits {
        push_key(entries, *hit, asked, &mut guess, &mut ordinals, &mut keys)?;
    }
    Ok(keys)
}

/// Adds the text of one hit.
fn push_key(
    entries: &[Entry],
    hit: Hit,
    asked: &Asked<'_>,
    guess: &mut RowGuess<'_>,
    ordinals: &mut Vec<u64>,
    keys: &mut TextKeys,
) -> Result<(), NoMemory>
    requires doc { IsDocOf entries.now hit.place hit.doc }
    requires found { AllLong entries.now asked.now.filters.now }
    requires given { IsGivenAs true asked.now.missing.now }
    requires mode { IsModeOf Kind.Keyword asked.now.mode }
    ensures { OnOk result (map text_or_null keys.new ≡ map text_or_null keys.old ++ key_of_hit true entries.now (question_of asked.now) hit ∷ []) }
{
    let place = hit.place as usize;
    let segment = entries[place].segment();
    Ok(push_key_in(segment, place, hit.doc, asked, guess, ordinals, keys)?)
}

/// Adds the text of a document of the entry at a place.
fn push_key_in(
    segment: &Segment,
    place: usize,
    doc: u32,
    asked: &Asked<'_>,
    guess: &mut RowGuess<'_>,
    ordinals: &mut Vec<u64>,
    keys: &mut TextKeys,
) -> Result<(), NoMemory>
    requires within { doc < segment.now.documents }
    requires found { AreAt place segment.now.documents asked.now.filters.now }
    requires given { IsGivenAs true asked.now.missing.now }
    requires mode { IsModeOf Kind.Keyword asked.now.mode }
    ensures { OnOk result (map text_or_null keys.new ≡ map text_or_null keys.old ++ key_in true segment.now place (question_of asked.now) doc ∷ []) }
{
    values_are_of_documents(segment);
    let _documents = segment.docs();
    gather_ordinals(segment, place, doc, asked, guess, ordinals)?;
    let terms = segment.terms();
    let found = ordinals.as_slice();
    let ordinal = term_ordinal(&terms, asked, found);
    let text = text_of(&terms, ordinal, asked.missing);
    Ok(keys.push(text)?)
}

/// The ordinal of the term that stands for several of one field.
fn term_ordinal(terms: &TermTable, asked: &Asked<'_>, ordinals: &[u64]) -> Option<u64>
    requires terms { All (IsTermOf terms.now asked.now.field) ordinals.now }
    requires mode { IsModeOf Kind.Keyword asked.now.mode }
    ensures text { option_map (term_value terms.now) result ≡ mode_value asked.now.mode (map (term_value terms.now) ordinals.now) }
    ensures within { IfSome result (λ ordinal. ordinal < length terms.now) }
{
    let _ascending = terms.count();
    ordinal_of(asked.mode, ordinals)
}

/// The text of a term, or the one that is given where there is none.
fn text_of<'a>(
    terms: &TermTable<'a>,
    ordinal: Option<u64>,
    missing: &'a Missing,
) -> Option<&'a [u8]>
    requires within { IfSome ordinal (λ ordinal. ordinal < length terms.now) }
    requires given { IsGivenAs true missing.now }
    ensures { text_or_null (option_map (λ text. text.now) result) ≡ key_or_missing missing.now (option_map (term_value terms.now) ordinal) }
{
    match ordinal {
        Some(ordinal) => Some(terms.term(ordinal).1),
        None => given_text(missing),
    }
}

/// The ordinals of the texts inside a document, in place of those before.
#[tactic(auto, using(crate::proofs::Gathers::gathers))]
fn gather_ordinals(
    segment: &Segment,
    place: usize,
    doc: u32,
    asked: &Asked<'_>,
    guess: &mut RowGuess<'_>,
    ordinals: &mut Vec<u64>,
) -> Result<(), NoMemory>
    requires within { doc < segment.now.documents }
    requires found { AreAt place segment.now.documents asked.now.filters.now }
    ensures { OnOk result (ordinals.new.items ≡ flat_map (ordinals_at segment.now asked.now.field) (docs_inside segment.now place (question_of asked.now) doc)) }
{
    ordinals.clear();
    match segment.ordinals(asked.field) {
        Some(column) => Ok(gather(
            &column,
            segment,
            place,
            asked.chain,
            asked.filters,
            asked.scope,
            doc,
            guess,
            ordinals,
        )?),
        None => Ok(()),
    }
}

/// The text that is given for those without one.
fn given_text(missing: &Missing) -> Option<&[u8]>
    requires { IsGivenAs true missing.now }
    ensures { text_or_null (option_map (λ text. text.now) result) ≡ key_or_missing missing.now None }
{
    match missing {
        Missing::Last => None,
        Missing::First => None,
        Missing::Given(FieldValue::Number(_)) => None,
        Missing::Given(FieldValue::Written(text)) => Some(text.as_slice()),
    }
}
