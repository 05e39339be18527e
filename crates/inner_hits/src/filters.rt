//! What the filters of sort clauses find.
ghost use Rattle.std.specs.Prelude.{◌≡◌, ◌++◌, ℕ, List, true, IfOk, OnOk};
ghost use Rattle.std.specs.List.{AllByRecursion, flat_map, list_any};
ghost use Rattle.join_ordinals.specs.Ordinals.{AreOrdinals};
ghost use Rattle.nested_sort.specs.Filters.{AreFound, filter_of, filters_of, filters_of_key};
ghost use Rattle.query_ast.specs.Clause.{Clause};
ghost use Rattle.query_ast.specs.Joins.{key_joins, sort_joins, step_joins};
ghost use Rattle.query_ast.specs.Resolved.{AreSorts, IsFilter, IsSortKey};
ghost use Rattle.query_ast.specs.declared.sort.Chain.{Chain as Step};
ghost use Rattle.query_ast.specs.declared.sort.Missing.{Missing as MissingOf};

use crate::NoMemory;
use block_join::Matches;
use join_ordinals::JoinOrdinals;
use mapping::Mapping;
use query_ast::{Chain, Sort, SortKey};
use query_eval::matches;
use segment_view::View;
use source_steps::Steps;
use std::alloc::Global;
use std::sync::ledger::Ledger;

/// What each filter of the clauses finds in the scope of its path: clauses in order, each from the outermost in.
pub(crate) fn filters_found<L: Ledger>(
    alloc: Global,
    view: &View,
    mapping: &Mapping,
    ordinals: &JoinOrdinals,
    sorts: &[Sort],
    steps: &mut Steps<L>,
) -> Result<Vec<Matches>, NoMemory>
    requires sorts { (scope : ℕ) × AreSorts mapping.now scope sorts.now }
    requires joined { list_any sort_joins sorts.now ≡ true → AreOrdinals view.now ordinals.now }
    ensures found { IfOk result (λ found. AreFound mapping.now view.now (filters_of sorts.now) found.items) }
    ensures steps { steps.new ≡ steps.old }
{
    let mut found = Vec::new(alloc);
    'sorts: for sort in sorts {
        add_of_key(alloc, view, mapping, ordinals, &sort.key, &mut found, steps)?;
    }
    Ok(found)
}

/// Adds what those of one clause find.
fn add_of_key<L: Ledger>(
    alloc: Global,
    view: &View,
    mapping: &Mapping,
    ordinals: &JoinOrdinals,
    key: &SortKey,
    found: &mut Vec<Matches>,
    steps: &mut Steps<L>,
) -> Result<(), NoMemory>
    requires key { (scope : ℕ) × (missing : MissingOf) × IsSortKey mapping.now scope missing key.now }
    requires joined { key_joins key.now ≡ true → AreOrdinals view.now ordinals.now }
    ensures found { OnOk result ((before : List (ℕ × Clause)) → AreFound mapping.now view.now before found.old.items → AreFound mapping.now view.now (before ++ filters_of_key key.now) found.new.items) }
    ensures steps { steps.new ≡ steps.old }
{
    match key {
        SortKey::Score => Ok(()),
        SortKey::Field { chain, .. } => {
            add_of_chain(
                alloc,
                view,
                mapping,
                ordinals,
                chain.as_slice(),
                found,
                steps,
            )
        }
    }
}

/// Adds what those of a chain find.
fn add_of_chain<L: Ledger>(
    alloc: Global,
    view: &View,
    mapping: &Mapping,
    ordinals: &JoinOrdinals,
    chain: &[Chain],
    found: &mut Vec<Matches>,
    steps: &mut Steps<L>,
) -> Result<(), NoMemory>
    requires chain { AllByRecursion (λ (step : Step). IsFilter mapping.now step.scope step.filter) chain.now }
    requires joined { list_any step_joins chain.now ≡ true → AreOrdinals view.now ordinals.now }
    ensures found { OnOk result ((before : List (ℕ × Clause)) → AreFound mapping.now view.now before found.old.items → AreFound mapping.now view.now (before ++ flat_map filter_of chain.now) found.new.items) }
    ensures steps { steps.new ≡ steps.old }
{
    'chain: for step in chain {
        add_of_step(alloc, view, mapping, ordinals, step, found, steps)?;
    }
    Ok(())
}

/// Adds what that of a step finds, if it has one.
fn add_of_step<L: Ledger>(
    alloc: Global,
    view: &View,
    mapping: &Mapping,
    ordinals: &JoinOrdinals,
    step: &Chain,
    found: &mut Vec<Matches>,
    steps: &mut Steps<L>,
) -> Result<(), NoMemory>
    requires step { IsFilter mapping.now step.now.scope step.now.filter }
    requires joined { step_joins step.now ≡ true → AreOrdinals view.now ordinals.now }
    ensures found { OnOk result ((before : List (ℕ × Clause)) → AreFound mapping.now view.now before found.old.items → AreFound mapping.now view.now (before ++ filter_of step.now) found.new.items) }
    ensures steps { steps.new ≡ steps.old }
{
    if let Some(filter) = &step.filter {
        let own = matches(
            alloc,
            view,
            mapping,
            ordinals,
            filter.get(),
            step.scope,
            steps,
        )?;
        found.push(own)?;
    }
    Ok(())
}
