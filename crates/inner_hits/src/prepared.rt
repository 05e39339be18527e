//! What is evaluated once for a search: what the query of each definition finds, and the filters of its sort.
ghost use Rattle.std.specs.Prelude.{◌≡◌, true, map, IfOk, OnOk};
ghost use Rattle.inner_hits.specs.Kinship.{AreKin};
ghost use Rattle.inner_hits.specs.Prepared.{AddsPrepared, ArePrepared, IsAnswered, IsPrepared};
ghost use Rattle.inner_hits.specs.Prepared.View.{prepared_of};
ghost use Rattle.join_ordinals.specs.Ordinals.{AreOrdinals};
ghost use Rattle.query_ast.specs.Definition.{definitions_of};
ghost use Rattle.query_ast.specs.Inner.View.{inner_of};
ghost use Rattle.query_ast.specs.Joins.{inner_joins, some_inner_joins};
ghost use Rattle.query_ast.specs.Resolved.{AreInnerDefinitions, AreSorts, IsInnerDefinition, IsResolved};

use crate::NoMemory;
use crate::filters::filters_found;
use crate::joined::{Kin, kin_of};
use block_join::Matches;
use join_ordinals::JoinOrdinals;
use mapping::Mapping;
use query_ast::{InnerDef, InnerList, InnerOver};
use query_eval::{Side, matches};
use segment_view::View;
use source_steps::Steps;
use std::alloc::Global;
use std::marker::Model;
use std::sync::ledger::Ledger;

/// What was evaluated for a definition of inner hits.
#[cycle(prepared)]
#[derive(Drop)]
pub(crate) struct PreparedDef {
    /// What its query finds, in the scope of its objects.
    pub(crate) hits: Matches,
    /// What the filters of its sort find, clauses in order, each from the outermost in.
    pub(crate) filters: Vec<Matches>,
    /// The hits by the keys of their roots, where it joins trees.
    pub(crate) kin: Vec<Kin>,
    pub(crate) owned: PreparedList,
}

/// What was evaluated for definitions of inner hits, in their order.
#[cycle(prepared)]
#[derive(Drop)]
pub struct PreparedList {
    items: Vec<PreparedDef>,
}

impl Model for PreparedList {
    ghost use Rattle.std.specs.Prelude.{List, map};
    ghost use Rattle.std.specs.Coded.{coded_list};
    ghost use Rattle.query_ast.specs.Definition.{Definition, definitions_of, definitions_size};
    ghost use Rattle.inner_hits.specs.Answers.{Answer};
    ghost use Rattle.inner_hits.specs.Answers.Code.{answered_code};

    ghost Value = { List (Definition Answer) };

    ghost coded = { coded_list answered_code };

    ghost use Rattle.inner_hits.specs.Prepared.View.{prepared_of};

    ghost view = { λ l. map prepared_of l.items.items };

    ghost size = { λ ds. definitions_size (definitions_of ds) };

    ghost use Rattle.std.proofs.Common.{arith};
    ghost use Rattle.inner_hits.specs.Prepared.Falls.{prepared_list_falls};

    ghost size_decreases = { λ a h. Prim.omega (arith, prepared_list_falls a.items.items) };
}

impl PreparedList {
    ghost use Rattle.inner_hits.specs.Prepared.View.{prepared_of};

    /// The list of these. Takes no memory.
    fn of(items: Vec<PreparedDef>) -> PreparedList
        ensures { result ≡ map prepared_of items.items }
    {
        PreparedList { items }
    }

    /// The items in order.
    pub(crate) fn as_slice(&self) -> &[PreparedDef]
        ensures { map prepared_of result.now ≡ self.now }
    {
        self.items.as_slice()
    }
}

/// Evaluates the query of each definition, and the filters of its sort, over a view; those of an ignored one are left out.
///
/// The definitions were resolved under the mapping in that scope. The ordinals are those of the view, where they join trees.
pub fn prepare<L: Ledger>(
    alloc: Global,
    view: &View,
    mapping: &Mapping,
    ordinals: &JoinOrdinals,
    definitions: &InnerList,
    scope: u32,
    steps: &mut Steps<L>,
) -> Result<PreparedList, NoMemory>
    requires resolved { AreInnerDefinitions mapping.now scope (definitions_of definitions.now) }
    requires joined { some_inner_joins (definitions_of definitions.now) ≡ true → AreOrdinals view.now ordinals.now }
    ensures prepared { IfOk result (λ made. ArePrepared mapping.now view.now ordinals.now (definitions_of definitions.now) (definitions_of made)) }
    ensures steps { steps.new ≡ steps.old }
{
    Ok(each(alloc, view, mapping, ordinals, definitions, scope, steps)?)
}

/// What is evaluated for definitions.
#[cycle(prepared)]
#[tactic(auto, using(crate::proofs::Adding::preparing))]
fn each<L: Ledger>(
    alloc: Global,
    view: &View,
    mapping: &Mapping,
    ordinals: &JoinOrdinals,
    definitions: &InnerList,
    scope: u32,
    steps: &mut Steps<L>,
) -> Result<PreparedList, NoMemory>
    requires resolved { AreInnerDefinitions mapping.now scope (definitions_of definitions.now) }
    requires joined { some_inner_joins (definitions_of definitions.now) ≡ true → AreOrdinals view.now ordinals.now }
    ensures prepared { IfOk result (λ made. ArePrepared mapping.now view.now ordinals.now (definitions_of definitions.now) (definitions_of made)) }
    ensures steps { steps.new ≡ steps.old }
{
    let mut made = Vec::new(alloc);
    add_each(
        alloc,
        view,
        mapping,
        ordinals,
        definitions.as_slice(),
        scope,
        &mut made,
        steps,
    )?;
    Ok(PreparedList::of(made))
}

/// Adds what is evaluated for each definition.
#[cycle(prepared)]
#[tactic(auto, using(crate::proofs::Adding::preparing))]
fn add_each<L: Ledger>(
    alloc: Global,
    view: &View,
    mapping: &Mapping,
    ordinals: &JoinOrdinals,
    definitions: &[InnerDef],
    scope: u32,
    made: &mut Vec<PreparedDef>,
    steps: &mut Steps<L>,
) -> Result<(), NoMemory>
    requires resolved { AreInnerDefinitions mapping.now scope (definitions_of (map inner_of definitions.now)) }
    requires joined { some_inner_joins (definitions_of (map inner_of definitions.now)) ≡ true → AreOrdinals view.now ordinals.now }
    ensures prepared { OnOk result (AddsPrepared mapping.now view.now ordinals.now (definitions_of (map inner_of definitions.now)) (map prepared_of made.old.items) (map prepared_of made.new.items)) }
    ensures steps { steps.new ≡ steps.old }
{
    match definitions {
        [] => Ok(()),
        [def, rest @ ..] => {
            made.push(one(alloc, view, mapping, ordinals, def, scope, steps)?)?;
            add_each(alloc, view, mapping, ordinals, rest, scope, made, steps)
        }
    }
}

#[cycle(prepared)]
#[tactic(auto, using(crate::proofs::Arms::needs, crate::proofs::Arms::evaluating, crate::proofs::Arms::resolved))]
fn one<L: Ledger>(
    alloc: Global,
    view: &View,
    mapping: &Mapping,
    ordinals: &JoinOrdinals,
    def: &InnerDef,
    scope: u32,
    steps: &mut Steps<L>,
) -> Result<PreparedDef, NoMemory>
    requires resolved { IsInnerDefinition mapping.now scope (inner_of def.now) }
    requires joined { inner_joins (inner_of def.now) ≡ true → AreOrdinals view.now ordinals.now }
    ensures prepared { IfOk result (λ made. IsPrepared mapping.now view.now ordinals.now (inner_of def.now) (prepared_of made)) }
    ensures steps { steps.new ≡ steps.old }
{
    match def.over {
        InnerOver::Below(path) => {
            let hits = matches(alloc, view, mapping, ordinals, def.query.get(), path, steps)?;
            let filters = filters_found(
                alloc,
                view,
                mapping,
                ordinals,
                def.sort.as_slice(),
                steps,
            )?;
            let owned = each(alloc, view, mapping, ordinals, &def.owned, path, steps)?;
            Ok(PreparedDef {
                hits,
                filters,
                kin: Vec::new(alloc),
                owned,
            })
        }
        InnerOver::Children(relation) => Ok(joining(
            alloc,
            view,
            mapping,
            ordinals,
            def,
            Side::Children(relation),
            steps,
        )?),
        InnerOver::Parents(relation) => Ok(joining(
            alloc,
            view,
            mapping,
            ordinals,
            def,
            Side::Parents(relation),
            steps,
        )?),
        InnerOver::Ignored => Ok(PreparedDef {
            hits: Matches::of(Vec::new(alloc)),
            filters: Vec::new(alloc),
            kin: Vec::new(alloc),
            owned: PreparedList::of(Vec::new(alloc)),
        }),
    }
}

/// The same for a definition that joins trees, which take part on a side.
#[cycle(prepared)]
fn joining<L: Ledger>(
    alloc: Global,
    view: &View,
    mapping: &Mapping,
    ordinals: &JoinOrdinals,
    def: &InnerDef,
    side: Side,
    steps: &mut Steps<L>,
) -> Result<PreparedDef, NoMemory>
    requires query { IsResolved mapping.now 0 def.now.query }
    requires sorts { AreSorts mapping.now 0 def.now.sort }
    requires owned { AreInnerDefinitions mapping.now 0 (definitions_of def.now.owned) }
    requires joined { AreOrdinals view.now ordinals.now }
    ensures answered { IfOk result (λ made. IsAnswered mapping.now view.now 0 def.now.query def.now.sort made.hits made.filters.items) }
    ensures kin { IfOk result (λ made. AreKin mapping.now ordinals.now side view.now made.hits made.kin.items) }
    ensures owned { IfOk result (λ made. ArePrepared mapping.now view.now ordinals.now (definitions_of def.now.owned) (definitions_of made.owned)) }
    ensures steps { steps.new ≡ steps.old }
{
    let hits = matches(alloc, view, mapping, ordinals, def.query.get(), 0, steps)?;
    let filters = filters_found(alloc, view, mapping, ordinals, def.sort.as_slice(), steps)?;
    let kin = kin_of(alloc, view.entries(), mapping, ordinals, &hits, side)?;
    let owned = each(alloc, view, mapping, ordinals, &def.owned, 0, steps)?;
    Ok(PreparedDef {
        hits,
        filters,
        kin,
        owned,
    })
}
