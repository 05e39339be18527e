//! The columns of sort clauses, by documents.
ghost use Rattle.std.specs.Prelude.{◌≡◌, true, map, IfOk};
ghost use Rattle.std.specs.List.{All};
ghost use Rattle.hit_order.specs.Table.{directions_of, keys_of};
ghost use Rattle.mapping_body.specs.declared.kind.Kind.{Kind};
ghost use Rattle.nested_sort.specs.Documents.{AllLong, IsGivenAs, all_keys, behind_key, clause_keys, key_of_hit, question_of};
ghost use Rattle.nested_sort.specs.Inside.{behind_chain};
ghost use Rattle.nested_sort.specs.Listed.{AreDocs, IsCapped};
ghost use Rattle.query_ast.specs.Page.{direction_of};
ghost use Rattle.query_ast.specs.Resolved.{AreSorts, IsModeOf, IsSortKey};
ghost use Rattle.flattener.specs.Flat.{is_keyword};

use crate::NoMemory;
use crate::asked::Asked;
use crate::inside::filters_left;
use crate::numbers::{number_keys, score_keys};
use crate::texts::text_keys;
use block_join::Matches;
use hit_order::{Column, ColumnKeys};
use mapping::{Kind, Mapping};
use query_ast::{Chain, Direction, Missing, Sort, SortKey};
use segment_view::Entry;
use std::alloc::Global;
use view_objects::Hit;

/// A column for each clause, with the key of each hit.
pub(crate) fn clause_columns(
    alloc: Global,
    entries: &[Entry],
    mapping: &Mapping,
    hits: &[Hit],
    filters: &[Matches],
    scope: u32,
    sorts: &[Sort],
) -> Result<Vec<Column>, NoMemory>
    requires sorts { AreSorts mapping.now scope sorts.now }
    requires found { AllLong entries.now filters.now }
    requires docs { AreDocs entries.now hits.now }
    requires capped { All IsCapped hits.now }
    ensures directions { IfOk result (λ columns. directions_of columns.items ≡ map direction_of sorts.now) }
    ensures keys { IfOk result (λ columns. map (λ column. keys_of column.keys) columns.items ≡ all_keys mapping.now entries.now hits.now scope sorts.now filters.now) }
{
    let mut columns = Vec::with_capacity(alloc, sorts.len())?;
    let mut rest = filters;
    'sorts: for sort in sorts {
        columns.push(column(alloc, entries, mapping, hits, rest, scope, sort)?)?;
        rest = behind_key(&sort.key, rest);
    }
    Ok(columns)
}

/// The filters behind those of a clause.
fn behind_key<'a>(key: &SortKey, filters: &'a [Matches]) -> &'a [Matches]
    ensures { result.now ≡ behind_key key.now filters.now }
{
    match key {
        SortKey::Score => filters,
        SortKey::Field { chain, .. } => behind_chain(chain.as_slice(), filters),
    }
}

/// The filters behind those of a chain.
fn behind_chain<'a>(chain: &[Chain], filters: &'a [Matches]) -> &'a [Matches]
    ensures { result.now ≡ behind_chain chain.now filters.now }
{
    let mut rest = filters;
    'steps: for step in chain {
        rest = filters_left(step, rest);
    }
    rest
}

/// The keys of a clause.
fn column(
    alloc: Global,
    entries: &[Entry],
    mapping: &Mapping,
    hits: &[Hit],
    filters: &[Matches],
    scope: u32,
    sort: &Sort,
) -> Result<Column, NoMemory>
    requires sort { IsSortKey mapping.now scope sort.now.missing sort.now.key }
    requires found { AllLong entries.now filters.now }
    requires docs { AreDocs entries.now hits.now }
    requires capped { All IsCapped hits.now }
    ensures direction { IfOk result (λ column. column.direction ≡ direction_of sort.now) }
    ensures keys { IfOk result (λ column. keys_of column.keys ≡ clause_keys mapping.now entries.now hits.now scope filters.now sort.now.missing sort.now.key) }
{
    match &sort.key {
        SortKey::Score => Ok(Column {
            direction: direction_of(sort),
            keys: ColumnKeys::Numbers(score_keys(alloc, hits)?),
        }),
        SortKey::Field { field, mode, chain } => {
            let asked = Asked {
                field: *field,
                mode: *mode,
                chain: chain.as_slice(),
                filters,
                scope,
                missing: &sort.missing,
            };
            Ok(Column {
                direction: direction_of(sort),
                keys: field_keys(alloc, entries, hits, &asked, mapping.kind(*field))?,
            })
        }
    }
}

/// The keys of a clause on a field of a kind that can be sorted by.
fn field_keys(
    alloc: Global,
    entries: &[Entry],
    hits: &[Hit],
    asked: &Asked<'_>,
    kind: Kind,
) -> Result<ColumnKeys, NoMemory>
    requires found { AllLong entries.now asked.now.filters.now }
    requires docs { AreDocs entries.now hits.now }
    requires given { IsGivenAs (is_keyword kind) asked.now.missing.now }
    requires mode { is_keyword kind ≡ true → IsModeOf Kind.Keyword asked.now.mode }
    ensures { IfOk result (λ keys. keys_of keys ≡ map (key_of_hit (is_keyword kind) entries.now (question_of asked.now)) hits.now) }
{
    if kind == Kind::Keyword {
        Ok(ColumnKeys::Texts(text_keys(alloc, entries, hits, asked)?))
    } else {
        Ok(ColumnKeys::Numbers(number_keys(alloc, entries, hits, asked)?))
    }
}

/// The direction of a clause, and where null stands.
pub(crate) fn direction_of(sort: &Sort) -> Direction
    ensures { result ≡ direction_of sort.now }
{
    Direction {
        descending: sort.descending,
        null_first: match &sort.missing {
            Missing::Last => false,
            Missing::First => true,
            Missing::Given(_) => false,
        },
    }
}
