//! Whether documents are blocks, and the scope of a document.

ghost use Rattle.std.specs.Prelude.{◌≡◌, ℕ, ◌+◌, ◌<◌, ◌≤◌, ◌↔◌, List, length, IsTrue, IfSome, IfNone};
ghost use Rattle.block_bits.specs.Scopes.{IsScopeTree, is_above};
ghost use Rattle.block_bits.specs.Blocks.{AreBits, IsBlocks, EnclosesAt, scope_at};
ghost use Rattle.block_bits.specs.Seen.{scopes_seen, AreScopes, IsEnclosed};

use crate::BitSet;

/// The scope of a document.
pub(crate) fn scope_of(sets: &[BitSet], doc: u32) -> usize
    requires bits { AreBits (length sets.now) sets.now (scopes_seen sets.now) }
    requires doc { doc < length (scopes_seen sets.now) }
    ensures { result ≡ scope_at (scopes_seen sets.now) doc }
{
    'scopes: for scope in 0..sets.len() {
        if sets[scope].has(doc) {
            return scope;
        }
    }
    unreachable!()
}

/// Whether scope `upper` lies strictly above scope `lower`.
pub(crate) fn lies_above(parents: &[Option<u32>], upper: u32, lower: usize) -> bool
    requires tree { IsScopeTree parents.now }
    requires within { lower < length parents.now }
    ensures { result ≡ is_above parents.now upper lower }
{
    let mut inner = lower;
    'scopes: while let Some(outer) = parents[inner] {
        if outer == upper {
            return true;
        }
        inner = outer as usize;
    }
    false
}

/// Whether the documents are a list of blocks.
pub(crate) fn are_blocks(parents: &[Option<u32>], sets: &[BitSet]) -> bool
    requires { AreScopes parents.now sets.now }
    ensures { IsTrue result ↔ IsBlocks parents.now (scopes_seen sets.now) }
{
    'scopes: for scope in 0..parents.len() {
        if !is_enclosed(parents, sets, scope) {
            return false;
        }
    }
    true
}

/// Whether each document of `scope` is enclosed.
///
/// It walks over enclosing documents: those of `scope` before one of them are passed over at once.
fn is_enclosed(parents: &[Option<u32>], sets: &[BitSet], scope: usize) -> bool
    requires scopes { AreScopes parents.now sets.now }
    requires within { scope < length parents.now }
    ensures { IsTrue result ↔ IsEnclosed parents.now (scopes_seen sets.now) scope }
{
    let Some(outer) = parents[scope] else {
        return true;
    };
    let mut from = 0;
    'parents: while let Some(doc) = sets[scope].next_set(from) {
        match enclosing_at(parents, sets, doc, outer as usize) {
            Some(at) => from = at + 1,
            None => return false,
        }
    }
    true
}

/// The next document of the scope `outer` after `doc`, unless one of a scope above `outer` comes first.
fn enclosing_at(parents: &[Option<u32>], sets: &[BitSet], doc: u32, outer: usize) -> Option<u32>
    requires scopes { AreScopes parents.now sets.now }
    requires doc { doc < length (scopes_seen sets.now) }
    requires outer { outer < length parents.now }
    ensures at { IfSome result (EnclosesAt parents.now (scopes_seen sets.now) doc outer) }
    ensures none { IfNone result (¬ ((at : ℕ) × EnclosesAt parents.now (scopes_seen sets.now) doc outer at)) }
{
    let at = sets[outer].next_set(doc + 1)?;
    if has_above(parents, sets, outer, doc + 1, at) {
        None
    } else {
        Some(at)
    }
}

/// Whether a document from `from` up to `end` is of a scope above `scope`.
fn has_above(parents: &[Option<u32>], sets: &[BitSet], scope: usize, from: u32, end: u32) -> bool
    requires scopes { AreScopes parents.now sets.now }
    requires within { scope < length parents.now }
    requires end { end ≤ length (scopes_seen sets.now) }
    ensures { IsTrue result ↔ ((at : ℕ) × (from ≤ at) × (at < end) ×
        IsTrue (is_above parents.now (scope_at (scopes_seen sets.now) at) scope)) }
{
    let mut inner = scope;
    'scopes: while let Some(outer) = parents[inner] {
        inner = outer as usize;
        if sets[inner].next_set_before(from, end).is_some() {
            return true;
        }
    }
    false
}
