//! Which searches look at trees that are joined to one another: the ordinals of joins are made for these alone.
ghost use Rattle.std.specs.Prelude.{◌≡◌, map};
ghost use Rattle.std.specs.List.{list_any};
ghost use Rattle.query_ast.specs.Agg.View.{agg_of};
ghost use Rattle.query_ast.specs.Clause.{clauses_of};
ghost use Rattle.query_ast.specs.Clause.View.{clause_of};
ghost use Rattle.query_ast.specs.Definition.{definitions_of};
ghost use Rattle.query_ast.specs.Inner.View.{inner_of};
ghost use Rattle.query_ast.specs.Joins.{joins, some_join, step_joins, sort_joins, inner_joins, some_inner_joins, agg_joins, some_agg_joins, form_joins, search_joins};

use crate::agg::{AggDef, AggForm};
use crate::inner::{InnerDef, InnerOver};
use crate::query::Query;
use crate::search::SearchBody;
use crate::sort::{Chain, Sort, SortKey};

impl SearchBody {
    /// Whether the search looks at joined trees: in its query, its sort, its inner hits or its buckets.
    pub fn joins(&self) -> bool
        ensures { result ≡ search_joins self.now }
    {
        joins(self.query.get())
            || some_sort(self.sort.as_slice())
            || some_inner(self.inner.as_slice())
            || some_agg(self.aggs.as_slice())
    }
}

#[cycle(joins)]
#[tactic(auto, using(crate::proofs::Sizes::clause_sizes))]
fn joins(query: &Query) -> bool
    ensures { result ≡ joins (clause_of query.now) }
{
    match query {
        Query::MatchAll { .. }
        | Query::MatchNone
        | Query::Ids { .. }
        | Query::Term { .. }
        | Query::Terms { .. }
        | Query::Range { .. }
        | Query::Exists { .. }
        | Query::Prefix { .. }
        | Query::MatchWords { .. }
        | Query::MatchPhrase { .. }
        | Query::ParentId { .. } => false,
        Query::Bool {
            must,
            filter,
            should,
            must_not,
            ..
        } => {
            some_query(must.as_slice())
                || some_query(filter.as_slice())
                || some_query(should.as_slice())
                || some_query(must_not.as_slice())
        }
        Query::ConstantScore { filter, .. } => joins(filter.get()),
        Query::DisMax { queries } => some_query(queries.as_slice()),
        Query::Nested { query, .. } | Query::ToChild { query, .. } => joins(query.get()),
        Query::HasChild { child, .. } => child.is_some(),
        Query::HasParent { parent, .. } => parent.is_some(),
    }
}

#[cycle(joins)]
#[tactic(auto, using(crate::proofs::Sizes::clause_sizes))]
fn some_query(queries: &[Query]) -> bool
    ensures { result ≡ some_join (clauses_of (map clause_of queries.now)) }
{
    'queries: for query in queries {
        if joins(query) {
            return true;
        }
    }
    false
}

fn some_sort(sorts: &[Sort]) -> bool
    ensures { result ≡ list_any sort_joins sorts.now }
{
    'sorts: for sort in sorts {
        if sort_joins(sort) {
            return true;
        }
    }
    false
}

fn sort_joins(sort: &Sort) -> bool
    ensures { result ≡ sort_joins sort.now }
{
    match &sort.key {
        SortKey::Score => false,
        SortKey::Field { chain, .. } => some_step(chain.as_slice()),
    }
}

fn some_step(chain: &[Chain]) -> bool
    ensures { result ≡ list_any step_joins chain.now }
{
    'chain: for step in chain {
        if step_joins(step) {
            return true;
        }
    }
    false
}

fn step_joins(step: &Chain) -> bool
    ensures { result ≡ step_joins step.now }
{
    match &step.filter {
        Some(filter) => joins(filter.get()),
        None => false,
    }
}

#[cycle(inner_joins)]
#[tactic(auto, using(crate::proofs::Sizes::inner_sizes))]
fn inner_joins(def: &InnerDef) -> bool
    ensures { result ≡ inner_joins (inner_of def.now) }
{
    match def.over {
        InnerOver::Children(_) | InnerOver::Parents(_) => true,
        InnerOver::Below(_) | InnerOver::Ignored => {
            joins(def.query.get())
                || some_sort(def.sort.as_slice())
                || some_inner(def.owned.as_slice())
        }
    }
}

#[cycle(inner_joins)]
#[tactic(auto, using(crate::proofs::Sizes::inner_sizes))]
fn some_inner(defs: &[InnerDef]) -> bool
    ensures { result ≡ some_inner_joins (definitions_of (map inner_of defs.now)) }
{
    'defs: for def in defs {
        if inner_joins(def) {
            return true;
        }
    }
    false
}

fn form_joins(form: &AggForm) -> bool
    ensures { result ≡ form_joins form.now }
{
    match form {
        AggForm::Filter(query) => joins(query.get()),
        AggForm::Children(_) | AggForm::Parent(_) => true,
        AggForm::Nested(_)
        | AggForm::ReverseNested(_)
        | AggForm::Terms { .. }
        | AggForm::Min(_)
        | AggForm::Max(_)
        | AggForm::Sum(_)
        | AggForm::ValueCount(_) => false,
    }
}

#[cycle(agg_joins)]
#[tactic(auto, using(crate::proofs::Sizes::agg_sizes))]
fn agg_joins(def: &AggDef) -> bool
    ensures { result ≡ agg_joins (agg_of def.now) }
{
    form_joins(&def.form) || some_agg(def.inner.as_slice())
}

#[cycle(agg_joins)]
#[tactic(auto, using(crate::proofs::Sizes::agg_sizes))]
fn some_agg(defs: &[AggDef]) -> bool
    ensures { result ≡ some_agg_joins (definitions_of (map agg_of defs.now)) }
{
    'defs: for def in defs {
        if agg_joins(def) {
            return true;
        }
    }
    false
}
