//! What a sort clause asks of a field.

use block_join::Matches;
use query_ast::{Chain, Missing, SortMode};

/// What a sort clause asks of a field.
#[derive(Drop)]
pub(crate) struct Asked<'a> {
    pub(crate) field: u32,
    pub(crate) mode: SortMode,
    pub(crate) chain: &'a [Chain],
    /// What the filters of the chain find, from the outermost in; those of later clauses follow.
    pub(crate) filters: &'a [Matches],
    /// The scope of the hits.
    pub(crate) scope: u32,
    pub(crate) missing: &'a Missing,
}

impl Asked<'_> {
    /// The scope of the documents whose values are asked for.
    pub(crate) fn inner_scope(&self) -> u32 {
        match self.chain.last() {
            Some(step) => step.scope,
            None => self.scope,
        }
    }
}
