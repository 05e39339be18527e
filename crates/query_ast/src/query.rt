//! Queries.
ghost use Rattle.std.specs.Prelude.{◌≡◌, map, IfOk};

use crate::lists::{BytesList, ValueList};
use crate::no_memory::NoMemory;
use score_math::ScoreMode;
use std::alloc::Global;
use std::marker::Model;
use std::rc::Rc;
use tree_objects::{Bytes, FieldValue};

/// Queries in order. Contracts see the list of their clauses.
#[cycle(query)]
#[derive(Drop)]
pub struct QueryList {
    items: Vec<Query>,
}

impl Model for QueryList {
    ghost use Rattle.std.specs.Prelude.{List, map};
    ghost use Rattle.std.specs.Coded.{coded_list};
    ghost use Rattle.query_ast.specs.Clause.{Clause, clauses_of, clauses_size};
    ghost use Rattle.query_ast.specs.Clause.Code.{clause_code};

    ghost Value = { List Clause };

    ghost coded = { coded_list clause_code };

    ghost use Rattle.query_ast.specs.Clause.View.{clause_of};

    ghost view = { λ l. map clause_of l.items.items };

    ghost size = { λ cs. clauses_size (clauses_of cs) };

    ghost use Rattle.std.proofs.Common.{arith};
    ghost use Rattle.query_ast.specs.Clause.Falls.{queries_fall};

    ghost size_decreases = { λ a h. Prim.omega (arith, queries_fall a.items.items) };
}

/// One query, wherever a query is held. Contracts see its clause. It may be shared: the definition of inner hits that a
/// clause carries has the clause's query too.
#[cycle(query)]
#[derive(Drop)]
pub struct QueryBox {
    shared: Rc<Query>,
}

impl Model for QueryBox {
    ghost use Rattle.query_ast.specs.Clause.{Clause, clause_size};
    ghost use Rattle.query_ast.specs.Clause.Code.{clause_code};

    ghost Value = { Clause };

    ghost coded = { clause_code };

    ghost use Rattle.query_ast.specs.Clause.View.{clause_of};

    ghost view = { λ q. clause_of q.shared.value };

    ghost size = { clause_size };

    ghost use Rattle.std.proofs.Common.{arith};
    ghost use Rattle.query_ast.specs.Clause.Falls.{query_falls};

    ghost size_decreases = { λ a h. Prim.omega (arith, query_falls a.shared.value) };
}

/// A query whose names were looked up in a mapping (Elasticsearch reference, query DSL). Fields, scopes and relations
/// are the mapping's numbers. An unmapped field is None. A clause that `ignore_unmapped` passes over has None for its
/// scope or relation, hits nothing, and so is all inside it. Boosts are from 1 to 10,000.
#[cycle(query)]
#[derive(Drop)]
pub enum Query {
    /// Each object of the scope.
    MatchAll {
        boost: u32,
    },
    /// None.
    MatchNone,
    /// The roots with one of these ids.
    Ids {
        ids: BytesList,
        boost: u32,
    },
    /// A value is this one; of a text, a word.
    Term {
        field: Option<u32>,
        value: FieldValue,
        boost: u32,
    },
    /// A value is one of these; of a text, a word.
    Terms {
        field: Option<u32>,
        values: ValueList,
        boost: u32,
    },
    /// A value lies between the two ends.
    Range {
        field: Option<u32>,
        low: RangeEnd,
        high: RangeEnd,
        boost: u32,
    },
    /// There is a value.
    Exists {
        field: Option<u32>,
        boost: u32,
    },
    /// A value begins with these bytes; of a text, a word.
    Prefix {
        field: Option<u32>,
        start: Bytes,
        boost: u32,
    },
    /// `match`: some word of a text is among the words of the values, or all are.
    MatchWords {
        field: Option<u32>,
        value: FieldValue,
        all: bool,
        boost: u32,
    },
    /// The words of a text stand side by side in one value.
    MatchPhrase {
        field: Option<u32>,
        value: FieldValue,
        boost: u32,
    },
    /// All of `must` and `filter`, none of `must_not`, and so many of `should`.
    Bool {
        must: QueryList,
        filter: QueryList,
        should: QueryList,
        must_not: QueryList,
        least: Option<u64>,
    },
    /// What the filter hits, with the boost as the score.
    ConstantScore {
        filter: QueryBox,
        boost: u32,
    },
    /// What one of the queries hits, with the greatest score.
    DisMax {
        queries: QueryList,
    },
    /// The objects with an object of that scope inside them that hits.
    Nested {
        scope: Option<u32>,
        query: QueryBox,
        mode: ScoreMode,
    },
    /// The objects inside an object of that scope that hits.
    ToChild {
        scope: Option<u32>,
        query: QueryBox,
    },
    /// The roots with so many child trees of that relation whose roots hit.
    HasChild {
        child: Option<u32>,
        query: QueryBox,
        mode: ScoreMode,
        least: u64,
        most: Option<u64>,
    },
    /// The roots with a parent tree of that relation whose root hits. Its score counts where `score` says so, else the
    /// boost.
    HasParent {
        parent: Option<u32>,
        query: QueryBox,
        score: bool,
        boost: u32,
    },
    /// The roots of that relation whose parent has this id.
    ParentId {
        child: Option<u32>,
        id: Bytes,
        boost: u32,
    },
}

/// An end of a range.
#[derive(Debug, Drop)]
pub enum RangeEnd {
    /// No bound.
    Free,
    /// The value itself lies in the range.
    Closed(FieldValue),
    /// The value itself lies outside the range.
    Past(FieldValue),
}

impl QueryList {
    ghost use Rattle.query_ast.specs.Clause.View.{clause_of};

    /// The list of these queries. Takes no memory.
    pub fn of(items: Vec<Query>) -> QueryList
        ensures { result ≡ map clause_of items.items }
    {
        QueryList { items }
    }

    /// The queries.
    pub fn as_slice(&self) -> &[Query]
        ensures { map clause_of result.now ≡ self.now }
    {
        self.items.as_slice()
    }

    /// The queries again. Takes no memory.
    pub fn into_vec(self) -> Vec<Query>
        ensures { map clause_of result.items ≡ self }
    {
        let QueryList { items } = self;
        items
    }
}

impl QueryBox {
    ghost use Rattle.query_ast.specs.Clause.View.{clause_of};

    /// The query, held.
    pub fn of(alloc: Global, query: Query) -> Result<QueryBox, NoMemory>
        ensures { IfOk result (λ held. held ≡ clause_of query) }
    {
        Ok(QueryBox {
            shared: Rc::new(alloc, query)?,
        })
    }

    /// The query.
    pub fn get(&self) -> &Query
        ensures { clause_of result.now ≡ self.now }
    {
        &self.shared
    }

    /// The same query, held once more. It isn't copied.
    pub fn again(&self) -> Result<QueryBox, NoMemory>
        ensures { IfOk result (λ other. other ≡ self.now) }
    {
        Ok(QueryBox {
            shared: self.shared.clone()?,
        })
    }
}
