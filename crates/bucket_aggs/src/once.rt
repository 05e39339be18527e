//! What is evaluated once for the buckets of a search, so that each of them cuts it by its own objects.
ghost use Rattle.std.specs.Prelude.{◌≡◌, ℕ, true, List, map, IfOk, IfSome, OnOk};
ghost use Rattle.bucket_aggs.specs.Once.{AddsEvaluated, AreEvaluated, AreRootsOf, IsEvaluated, IsFoundBy, IsKnown};
ghost use Rattle.bucket_aggs.specs.Once.Ready.{AreReady, IsReady};
ghost use Rattle.bucket_aggs.specs.Once.View.{evaluated_of};
ghost use Rattle.join_ordinals.specs.Ordinals.{AreOrdinals, Ordinals};
ghost use Rattle.mapping.specs.Mapping.{Mapping as Meaning};
ghost use Rattle.query_ast.specs.Agg.{Agg};
ghost use Rattle.query_ast.specs.Agg.View.{agg_of};
ghost use Rattle.query_ast.specs.Definition.{Definition, Definitions, definition, definitions_of, with_definition};
ghost use Rattle.query_ast.specs.declared.agg.AggForm.{AggForm};
ghost use Rattle.segment.specs.Live.{EntryState};
ghost use Rattle.query_ast.specs.Joins.{agg_joins, form_joins, some_agg_joins};
ghost use Rattle.query_ast.specs.Resolved.{AreAggDefinitions, IsAggDefinition, IsForm, scope_of_form};

use crate::NoMemory;
use block_join::Matches;
use join_ordinals::JoinOrdinals;
use mapping::Mapping;
use query_ast::{AggDef, AggForm, AggList};
use query_eval::{KeyedRoots, found};
use segment_view::Entry;
use std::alloc::Global;
use std::marker::Model;

/// What was evaluated for a definition alone.
#[derive(Drop)]
pub(crate) enum Known {
    Nothing,
    /// What the query of a filter finds, in the scope of the definition.
    Hits(Matches),
    /// The roots that objects are joined to, by their keys: children of a relation, or parents.
    Roots(KeyedRoots),
}

/// What was evaluated for a definition, and for those inside it.
#[cycle(once)]
#[derive(Drop)]
pub(crate) struct Evaluated {
    known: Known,
    inner: EvaluatedList,
}

/// What was evaluated for definitions, in their order.
#[cycle(once)]
#[derive(Drop)]
pub(crate) struct EvaluatedList {
    items: Vec<Evaluated>,
}

impl Model for EvaluatedList {
    ghost use Rattle.std.specs.Prelude.{List, map};
    ghost use Rattle.std.specs.Coded.{coded_list};
    ghost use Rattle.query_ast.specs.Definition.{Definition, definitions_of, definitions_size};
    ghost use Rattle.bucket_aggs.specs.Known.Code.{evaluated_code};
    ghost use Rattle.bucket_aggs.specs.declared.once.Known.{Known};

    ghost Value = { List (Definition Known) };

    ghost coded = { coded_list evaluated_code };

    ghost use Rattle.bucket_aggs.specs.Once.View.{evaluated_of};

    ghost view = { λ l. map evaluated_of l.items.items };

    ghost size = { λ ds. definitions_size (definitions_of ds) };

    ghost use Rattle.std.proofs.Common.{arith};
    ghost use Rattle.bucket_aggs.specs.Once.Falls.{evaluated_list_falls};

    ghost size_decreases = { λ a h. Prim.omega (arith, evaluated_list_falls a.items.items) };
}

impl EvaluatedList {
    ghost use Rattle.bucket_aggs.specs.Once.View.{evaluated_of};

    /// The list of these. Takes no memory.
    fn of(items: Vec<Evaluated>) -> EvaluatedList
        ensures { result ≡ map evaluated_of items.items }
    {
        EvaluatedList { items }
    }

    /// The items in order.
    pub(crate) fn as_slice(&self) -> &[Evaluated]
        ensures { map evaluated_of result.now ≡ self.now }
    {
        self.items.as_slice()
    }
}

/// Evaluates the query of each filter among definitions, and among those inside them, over all documents of a view; and for
/// `many` buckets the roots that each join leads to, by their keys.
///
/// The definitions were resolved under the mapping in that scope. The ordinals are those of the view, where they join trees.
#[cycle(once)]
pub(crate) fn evaluate(
    alloc: Global,
    entries: &[Entry],
    mapping: &Mapping,
    ordinals: &JoinOrdinals,
    aggs: &AggList,
    many: bool,
    scope: u32,
) -> Result<EvaluatedList, NoMemory>
    requires resolved { AreAggDefinitions mapping.now scope (definitions_of aggs.now) }
    requires joined { some_agg_joins (definitions_of aggs.now) ≡ true → AreOrdinals entries.now ordinals.now }
    ensures { IfOk result (λ made. AreEvaluated mapping.now entries.now ordinals.now scope (definitions_of aggs.now) (definitions_of made)) }
{
    let mut made = Vec::new(alloc);
    add_each(
        alloc,
        entries,
        mapping,
        ordinals,
        aggs.as_slice(),
        many,
        scope,
        &mut made,
    )?;
    Ok(EvaluatedList::of(made))
}

/// Adds what is evaluated for each definition.
#[cycle(once)]
#[tactic(auto, using(crate::proofs::Evaluating::evaluating))]
fn add_each(
    alloc: Global,
    entries: &[Entry],
    mapping: &Mapping,
    ordinals: &JoinOrdinals,
    aggs: &[AggDef],
    many: bool,
    scope: u32,
    made: &mut Vec<Evaluated>,
) -> Result<(), NoMemory>
    requires resolved { AreAggDefinitions mapping.now scope (definitions_of (map agg_of aggs.now)) }
    requires joined { some_agg_joins (definitions_of (map agg_of aggs.now)) ≡ true → AreOrdinals entries.now ordinals.now }
    ensures { OnOk result (AddsEvaluated mapping.now entries.now ordinals.now scope (definitions_of (map agg_of aggs.now)) (map evaluated_of made.old.items) (map evaluated_of made.new.items)) }
{
    match aggs {
        [] => Ok(()),
        [def, rest @ ..] => {
            made.push(one(alloc, entries, mapping, ordinals, def, many, scope)?)?;
            add_each(alloc, entries, mapping, ordinals, rest, many, scope, made)
        }
    }
}

/// What is evaluated for a definition and for those inside it.
#[cycle(once)]
fn one(
    alloc: Global,
    entries: &[Entry],
    mapping: &Mapping,
    ordinals: &JoinOrdinals,
    def: &AggDef,
    many: bool,
    scope: u32,
) -> Result<Evaluated, NoMemory>
    requires resolved { IsAggDefinition mapping.now scope (agg_of def.now) }
    requires joined { agg_joins (agg_of def.now) ≡ true → AreOrdinals entries.now ordinals.now }
    ensures { IfOk result (λ made. IsEvaluated mapping.now entries.now ordinals.now scope (agg_of def.now) (evaluated_of made)) }
{
    let known = known_of(alloc, entries, mapping, ordinals, def, many, scope)?;
    let more = many || matches!(&def.form, AggForm::Terms { .. });
    let within = scope_inside(&def.form, scope);
    let inner = evaluate(alloc, entries, mapping, ordinals, &def.inner, more, within)?;
    Ok(Evaluated { known, inner })
}

/// What is evaluated for a definition alone.
fn known_of(
    alloc: Global,
    entries: &[Entry],
    mapping: &Mapping,
    ordinals: &JoinOrdinals,
    def: &AggDef,
    many: bool,
    scope: u32,
) -> Result<Known, NoMemory>
    requires resolved { IsForm mapping.now scope def.now.form (definitions_of def.now.inner) }
    requires joined { form_joins def.now.form ≡ true → AreOrdinals entries.now ordinals.now }
    ensures { IfOk result (IsKnown mapping.now entries.now ordinals.now scope def.now.form) }
{
    match &def.form {
        AggForm::Filter(query) => {
            let hits = found(alloc, entries, mapping, ordinals, query.get(), scope)?;
            Ok(Known::Hits(hits))
        }
        AggForm::Children(relation) => {
            if !many {
                return Ok(Known::Nothing);
            }
            let roots = KeyedRoots::children(alloc, entries, mapping, ordinals, *relation)?;
            Ok(Known::Roots(roots))
        }
        AggForm::Parent(relation) => {
            if !many {
                return Ok(Known::Nothing);
            }
            let roots = KeyedRoots::parents(alloc, entries, mapping, ordinals, *relation)?;
            Ok(Known::Roots(roots))
        }
        _ => Ok(Known::Nothing),
    }
}

/// The scope of the objects that the definitions inside one are answered over.
fn scope_inside(form: &AggForm, scope: u32) -> u32
    ensures { result ≡ scope_of_form scope form.now }
{
    match form {
        AggForm::Nested(path) => *path,
        AggForm::ReverseNested(path) => *path,
        AggForm::Children(_) => 0,
        AggForm::Parent(_) => 0,
        AggForm::Filter(_)
        | AggForm::Terms { .. }
        | AggForm::Min(_)
        | AggForm::Max(_)
        | AggForm::Sum(_)
        | AggForm::ValueCount(_) => scope,
    }
}

/// What was evaluated for the first of some definitions, and for the others; where nothing was, nothing.
pub(crate) fn parted(once: Option<&[Evaluated]>) -> (Option<&Evaluated>, Option<&[Evaluated]>)
    ensures first { (m : Meaning) (view : List EntryState) (o : Ordinals) (n : ℕ) (d : Definition Agg) (ds : Definitions Agg) → IfSome once.entry (λ made. AreReady m view o n (with_definition d ds) made.now) → IfSome result.0 (λ own. IsReady m view o n d own.now) }
    ensures others { (m : Meaning) (view : List EntryState) (o : Ordinals) (n : ℕ) (d : Definition Agg) (ds : Definitions Agg) → IfSome once.entry (λ made. AreReady m view o n (with_definition d ds) made.now) → IfSome result.1 (λ made. AreReady m view o n ds made.now) }
{
    let Some(once) = once else {
        return (None, None);
    };
    match once {
        [] => (None, None),
        [own, others @ ..] => (Some(own), Some(others)),
    }
}

/// What was evaluated for a definition alone, and for those inside it; where nothing was, nothing.
pub(crate) fn opened(own: Option<&Evaluated>) -> (Option<&Known>, Option<&[Evaluated]>)
    ensures known { (m : Meaning) (view : List EntryState) (o : Ordinals) (n : ℕ) (agg : Agg) (ds : Definitions Agg) → IfSome own.entry (λ one. IsReady m view o n (definition agg ds) one.now) → IfSome result.0 (λ known. IsKnown m view o n agg.form known.now) }
    ensures inner { (m : Meaning) (view : List EntryState) (o : Ordinals) (n : ℕ) (agg : Agg) (ds : Definitions Agg) → IfSome own.entry (λ one. IsReady m view o n (definition agg ds) one.now) → IfSome result.1 (λ made. AreReady m view o (scope_of_form n agg.form) ds made.now) }
{
    let Some(own) = own else {
        return (None, None);
    };
    (Some(&own.known), Some(own.inner.as_slice()))
}

/// The hits that are known, if they are.
pub(crate) fn known_hits(known: Option<&Known>) -> Option<&Matches>
    ensures { (m : Meaning) (view : List EntryState) (o : Ordinals) (n : ℕ) (form : AggForm) → IfSome known.entry (λ known. IsKnown m view o n form known.now) → IfSome result (λ hits. IsFoundBy m view n form hits.now) }
{
    match known {
        Some(Known::Hits(hits)) => Some(hits),
        Some(Known::Nothing) => None,
        Some(Known::Roots(_)) => None,
        None => None,
    }
}

/// The roots that are known, if they are.
pub(crate) fn known_roots(known: Option<&Known>) -> Option<&KeyedRoots>
    ensures { (m : Meaning) (view : List EntryState) (o : Ordinals) (n : ℕ) (form : AggForm) → IfSome known.entry (λ known. IsKnown m view o n form known.now) → IfSome result (λ roots. AreRootsOf m view o form roots.now) }
{
    match known {
        Some(Known::Roots(roots)) => Some(roots),
        Some(Known::Nothing) => None,
        Some(Known::Hits(_)) => None,
        None => None,
    }
}
