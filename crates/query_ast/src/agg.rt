//! Buckets: what is counted of the hits (Elasticsearch reference, aggregations).
ghost use Rattle.std.specs.Prelude.{◌≡◌, map};

use crate::query::QueryBox;
use std::marker::Model;
use tree_objects::Bytes;

/// A definition of buckets.
#[cycle(agg)]
#[derive(Drop)]
pub struct AggDef {
    pub name: Bytes,
    pub form: AggForm,
    /// The definitions inside it: each is answered over the objects of every bucket.
    pub inner: AggList,
}

/// What a definition makes of a list of objects of one scope. An unmapped field is None.
#[derive(Drop)]
pub enum AggForm {
    /// Those that hit.
    Filter(QueryBox),
    /// The objects of a scope inside them.
    Nested(u32),
    /// The objects of a scope around them, each once.
    ReverseNested(u32),
    /// Their child trees of a relation.
    Children(u32),
    /// Their parent trees, each once; the relation is the child's.
    Parent(u32),
    /// A bucket for each value, the first `size` of them: by key, or by count and then by key.
    Terms {
        field: Option<u32>,
        size: u32,
        by_key: bool,
        descending: bool,
    },
    Min(Option<u32>),
    Max(Option<u32>),
    Sum(Option<u32>),
    ValueCount(Option<u32>),
}

/// Definitions of buckets, in byte order of their names.
#[cycle(agg)]
#[derive(Drop)]
pub struct AggList {
    items: Vec<AggDef>,
}

impl Model for AggList {
    ghost use Rattle.std.specs.Prelude.{List, map};
    ghost use Rattle.std.specs.Coded.{coded_list};
    ghost use Rattle.query_ast.specs.Definition.{Definition, definitions_of, definitions_size};
    ghost use Rattle.query_ast.specs.Agg.{Agg};
    ghost use Rattle.query_ast.specs.Agg.Code.{agg_code};

    ghost Value = { List (Definition Agg) };

    ghost coded = { coded_list agg_code };

    ghost use Rattle.query_ast.specs.Agg.View.{agg_of};

    ghost view = { λ l. map agg_of l.items.items };

    ghost size = { λ ds. definitions_size (definitions_of ds) };

    ghost use Rattle.std.proofs.Common.{arith};
    ghost use Rattle.query_ast.specs.Agg.Falls.{agg_list_falls};

    ghost size_decreases = { λ a h. Prim.omega (arith, agg_list_falls a.items.items) };
}

impl AggList {
    ghost use Rattle.query_ast.specs.Agg.View.{agg_of};

    /// The list of these. Takes no memory.
    pub fn of(items: Vec<AggDef>) -> AggList
        ensures { result ≡ map agg_of items.items }
    {
        AggList { items }
    }

    /// The items in order.
    pub fn as_slice(&self) -> &[AggDef]
        ensures { map agg_of result.now ≡ self.now }
    {
        self.items.as_slice()
    }

    /// The vector again. Takes no memory.
    pub fn into_vec(self) -> Vec<AggDef>
        ensures { map agg_of result.items ≡ self }
    {
        let AggList { items } = self;
        items
    }
}
