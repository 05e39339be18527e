//! Inner hits: which objects, or which joined trees, a hit shows (Elasticsearch reference, retrieve inner hits).
ghost use Rattle.std.specs.Prelude.{◌≡◌, map};

use crate::query::QueryBox;
use crate::sort::SortList;
use std::marker::Model;
use tree_objects::Bytes;

/// A definition of inner hits.
#[cycle(inner)]
#[derive(Drop)]
pub struct InnerDef {
    pub name: Bytes,
    pub over: InnerOver,
    pub query: QueryBox,
    pub from: u32,
    pub size: u32,
    pub sort: SortList,
    /// Whether the hits show their contents.
    pub source: bool,
    /// The definitions that it owns: each is answered for every hit of this one.
    pub owned: InnerList,
}

/// What a definition looks at, from its owner's object.
#[derive(Clone, Copy, Debug, PartialEq, Eq)]
pub enum InnerOver {
    /// The objects of a scope inside it.
    Below(u32),
    /// Its child trees of a relation.
    Children(u32),
    /// Its parent tree of a relation.
    Parents(u32),
    /// Nothing: the definition of a clause that `ignore_unmapped` passes over.
    Ignored,
}

/// Definitions of inner hits, in the order in which a walk of the body comes to them.
#[cycle(inner)]
#[derive(Drop)]
pub struct InnerList {
    items: Vec<InnerDef>,
}

impl Model for InnerList {
    ghost use Rattle.std.specs.Prelude.{List, map};
    ghost use Rattle.std.specs.Coded.{coded_list};
    ghost use Rattle.query_ast.specs.Definition.{Definition, definitions_of, definitions_size};
    ghost use Rattle.query_ast.specs.Inner.{Inner};
    ghost use Rattle.query_ast.specs.Inner.Code.{inner_code};

    ghost Value = { List (Definition Inner) };

    ghost coded = { coded_list inner_code };

    ghost use Rattle.query_ast.specs.Inner.View.{inner_of};

    ghost view = { λ l. map inner_of l.items.items };

    ghost size = { λ ds. definitions_size (definitions_of ds) };

    ghost use Rattle.std.proofs.Common.{arith};
    ghost use Rattle.query_ast.specs.Inner.Falls.{inner_list_falls};

    ghost size_decreases = { λ a h. Prim.omega (arith, inner_list_falls a.items.items) };
}

impl InnerList {
    ghost use Rattle.query_ast.specs.Inner.View.{inner_of};

    /// The list of these. Takes no memory.
    pub fn of(items: Vec<InnerDef>) -> InnerList
        ensures { result ≡ map inner_of items.items }
    {
        InnerList { items }
    }

    /// The items in order.
    pub fn as_slice(&self) -> &[InnerDef]
        ensures { map inner_of result.now ≡ self.now }
    {
        self.items.as_slice()
    }

    /// The vector again. Takes no memory.
    pub fn into_vec(self) -> Vec<InnerDef>
        ensures { map inner_of result.items ≡ self }
    {
        let InnerList { items } = self;
        items
    }
}
