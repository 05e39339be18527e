//! Sorts: what rows are ordered by (Elasticsearch reference, sort search results).
ghost use Rattle.std.specs.Prelude.{◌≡◌};

use crate::query::QueryBox;
use std::marker::Model;
use tree_objects::{Bytes, FieldValue};

/// One clause of a sort.
#[derive(Drop)]
pub struct Sort {
    pub key: SortKey,
    /// The greatest first.
    pub descending: bool,
    /// What stands for a key that is missing.
    pub missing: Missing,
}

/// What a clause compares rows by.
#[derive(Drop)]
pub enum SortKey {
    /// `_score`.
    Score,
    /// One of the values that a field shows at the objects that the chain leads to.
    Field {
        field: u32,
        mode: SortMode,
        chain: ChainList,
    },
}

/// Which number, or which text, stands for several values.
#[derive(Clone, Copy, Debug, PartialEq, Eq)]
pub enum SortMode {
    Min,
    Max,
    /// The sum, clamped to 64 bits with a sign.
    Sum,
    /// The mean, rounded towards minus infinity.
    Avg,
    /// The value in the middle; of an even number of values, the mean of the two in the middle, rounded likewise.
    Median,
}

/// What stands for a key that is missing. A null stands last or first in either direction.
#[derive(Debug, Drop)]
pub enum Missing {
    Last,
    First,
    Given(FieldValue),
}

/// One `nested` of a sort clause: down to the objects of a scope, of those that hit the filter.
#[derive(Drop)]
pub struct Chain {
    pub scope: u32,
    pub filter: Option<QueryBox>,
}

/// The direction of a clause, and where null stands: what is left of a clause once the keys of the rows are known.
#[derive(Clone, Copy, Debug, PartialEq, Eq)]
pub struct Direction {
    pub descending: bool,
    pub null_first: bool,
}

/// A key of a row.
#[derive(Debug, Drop)]
pub enum Key {
    Null,
    Number(i64),
    Written(Bytes),
}

/// What a row is ordered by: a key for each clause, and its tree's sequence number. Where it was found is the entry's
/// place in the view and the document, which aren't compared. In `search_after` these two are 0, and the number may be
/// negative.
#[derive(Drop)]
pub struct KeyRow {
    pub keys: KeyList,
    pub place: u64,
    pub doc: u32,
    pub number: i64,
}

/// The `nested` of a sort clause, the outermost first.
#[derive(Drop)]
pub struct ChainList {
    items: Vec<Chain>,
}

impl Model for ChainList {
    ghost use Rattle.std.specs.Prelude.{List};
    ghost use Rattle.query_ast.specs.declared.sort.Chain.{Chain};
    ghost use Rattle.std.specs.Coded.{coded_list};
    ghost use Rattle.query_ast.specs.contracts.sort.Chain as chain;

    ghost Value = { List Chain };

    ghost coded = { coded_list chain.the_row.coded };

    ghost view = { λ l. l.items.items };
}

impl ChainList {
    /// The list of these. Takes no memory.
    pub fn of(items: Vec<Chain>) -> ChainList
        ensures { result ≡ items.items }
    {
        ChainList { items }
    }

    /// The items in order.
    pub fn as_slice(&self) -> &[Chain]
        ensures { result.now ≡ self.now }
    {
        self.items.as_slice()
    }

    /// The vector again. Takes no memory.
    pub fn into_vec(self) -> Vec<Chain>
        ensures { result.items ≡ self }
    {
        let ChainList { items } = self;
        items
    }
}

/// The clauses of a sort, the first decides first.
#[derive(Drop)]
pub struct SortList {
    items: Vec<Sort>,
}

impl Model for SortList {
    ghost use Rattle.std.specs.Prelude.{List};
    ghost use Rattle.query_ast.specs.declared.sort.Sort.{Sort};
    ghost use Rattle.std.specs.Coded.{coded_list};
    ghost use Rattle.query_ast.specs.contracts.sort.Sort as sort;

    ghost Value = { List Sort };

    ghost coded = { coded_list sort.the_row.coded };

    ghost view = { λ l. l.items.items };
}

impl SortList {
    /// The list of these. Takes no memory.
    pub fn of(items: Vec<Sort>) -> SortList
        ensures { result ≡ items.items }
    {
        SortList { items }
    }

    /// The items in order.
    pub fn as_slice(&self) -> &[Sort]
        ensures { result.now ≡ self.now }
    {
        self.items.as_slice()
    }

    /// The vector again. Takes no memory.
    pub fn into_vec(self) -> Vec<Sort>
        ensures { result.items ≡ self }
    {
        let SortList { items } = self;
        items
    }
}

/// The keys of a row, one for each clause.
#[derive(Drop)]
pub struct KeyList {
    items: Vec<Key>,
}

impl Model for KeyList {
    ghost use Rattle.std.specs.Prelude.{List};
    ghost use Rattle.query_ast.specs.declared.sort.Key.{Key};
    ghost use Rattle.std.specs.Coded.{coded_list};
    ghost use Rattle.query_ast.specs.contracts.sort.Key as key;

    ghost Value = { List Key };

    ghost coded = { coded_list key.the_row.coded };

    ghost view = { λ l. l.items.items };
}

impl KeyList {
    /// The list of these. Takes no memory.
    pub fn of(items: Vec<Key>) -> KeyList
        ensures { result ≡ items.items }
    {
        KeyList { items }
    }

    /// The items in order.
    pub fn as_slice(&self) -> &[Key]
        ensures { result.now ≡ self.now }
    {
        self.items.as_slice()
    }

    /// The vector again. Takes no memory.
    pub fn into_vec(self) -> Vec<Key>
        ensures { result.items ≡ self }
    {
        let KeyList { items } = self;
        items
    }
}
