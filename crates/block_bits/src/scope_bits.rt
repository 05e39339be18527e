//! The scope of each document of a list of blocks.

ghost use Rattle.std.specs.Prelude.{◌≡◌, ℕ, ◌<◌, ◌≤◌, ◌↔◌, List, length, Some, IsTrue, IsSome, IfSome, IfOk, IsErrOf};
ghost use Rattle.block_bits.specs.Scopes.{IsScopeTree, is_above};
ghost use Rattle.block_bits.specs.Blocks.{AreBits, IsBlocks, scope_at, documents_of, enclosing_document, child_start};
ghost use Rattle.block_bits.specs.Seen.{scopes_seen};

use crate::blocks::{are_blocks, lies_above, scope_of};
use crate::partition::{count_documents, give_one_scope};
use crate::{BitList, BitSet, ScopeList};
use std::marker::Model;

/// Why bits are not the bits of a list of blocks.
#[derive(Clone, Copy, Debug, PartialEq, Eq)]
pub enum BitsRefusal {
    /// The numbers of scopes or of documents differ, or a document has no scope or several.
    NotOneScope,
    /// A document is enclosed by none before a document further up, or the last document is no root.
    NotBlocks,
}

/// The scope of each document of a list of blocks.
#[derive(Drop)]
pub struct ScopeBits<'a> {
    parents: &'a ScopeList,
    bits: &'a BitList,
}

impl<'a> Model for ScopeBits<'a> {
    ghost use Rattle.block_bits.specs.Blocks.{Nesting};
    ghost use Rattle.block_bits.specs.Seen.{scopes_seen, IsNested};

    ghost Value = { Nesting };

    ghost view = { λ it. record { parents = it.parents.now; scopes = scopes_seen it.bits.now } };

    ghost invariant = { λ it. IsNested it.parents.now it.bits.now };
}

impl<'a> ScopeBits<'a> {
    /// The scopes of documents, given the bits of each scope; `parents` has the scope around each scope.
    ///
    /// Takes no memory.
    pub fn over(parents: &'a ScopeList, bits: &'a BitList) -> Result<ScopeBits<'a>, BitsRefusal>
        requires { IsScopeTree parents.now }
        ensures parents { IfOk result (λ made. made.parents ≡ parents.now) }
        ensures bits { IfOk result (λ made. AreBits (length parents.now) bits.now made.scopes) }
        ensures blocks { IfOk result (λ made. IsBlocks made.parents made.scopes) }
        ensures seen { IfOk result (λ made. made.scopes ≡ scopes_seen bits.now) }

        // No scopes have these bits.
        ensures not_one_scope { IsErrOf result BitsRefusal.NotOneScope ↔
            ¬ ((scopes : List ℕ) × AreBits (length parents.now) bits.now scopes) }

        // Some have, and their documents are no list of blocks.
        ensures not_blocks { IsErrOf result BitsRefusal.NotBlocks ↔
            ((scopes : List ℕ) × AreBits (length parents.now) bits.now scopes × (¬ IsBlocks parents.now scopes)) }
    {
        let scopes = parents.as_slice();
        let sets = bits.as_slice();
        if !give_one_scope(scopes.len(), sets) {
            return Err(BitsRefusal::NotOneScope);
        }
        if !are_blocks(scopes, sets) {
            return Err(BitsRefusal::NotBlocks);
        }
        Ok(ScopeBits { parents, bits })
    }

    /// The scopes of documents, given bits that are known to be those of a list of blocks.
    ///
    /// It tests nothing and takes no memory, where `over` reads the bits of all documents.
    pub fn of(parents: &'a ScopeList, bits: &'a BitList) -> ScopeBits<'a>
        requires tree { IsScopeTree parents.now }
        requires blocks { (scopes : List ℕ) × AreBits (length parents.now) bits.now scopes × IsBlocks parents.now scopes }
        ensures made { result ≡ record { parents = parents.now; scopes = scopes_seen bits.now } }
        ensures bits { AreBits (length parents.now) bits.now result.scopes }
        ensures blocks { IsBlocks result.parents result.scopes }
    {
        let _count = count_documents(bits.as_slice());
        ScopeBits { parents, bits }
    }

    /// How many documents there are.
    pub fn len(&self) -> u32
        ensures { result ≡ length self.now.scopes }
    {
        count_documents(self.bits.as_slice())
    }

    /// The documents of a scope.
    pub fn documents(&self, scope: u32) -> &BitSet
        requires { scope < length self.now.parents }
        ensures { result.now ≡ documents_of self.now.scopes scope }
    {
        &self.bits.as_slice()[scope as usize]
    }

    /// The scope of a document.
    pub fn scope_of(&self, doc: u32) -> usize
        requires { doc < length self.now.scopes }
        ensures scope { result ≡ scope_at self.now.scopes doc }
        ensures within { result < length self.now.parents }
    {
        scope_of(self.bits.as_slice(), doc)
    }

    /// The document of the object at `scope` around a document, and None where that scope isn't strictly above.
    pub fn parent_of(&self, doc: u32, scope: u32) -> Option<u32>
        requires { doc < length self.now.scopes }
        ensures value { result ≡ enclosing_document self.now doc scope }
        ensures enclosed { IsSome result ↔
            IsTrue (is_above self.now.parents scope (scope_at self.now.scopes doc)) }
        ensures later { IfSome result (λ parent. (doc < parent) × (parent < length self.now.scopes)) }
        ensures of_scope { IfSome result (λ parent. scope_at self.now.scopes parent ≡ scope) }
    {
        let sets = self.bits.as_slice();
        if lies_above(self.parents.as_slice(), scope, scope_of(sets, doc)) {
            sets[scope as usize].next_set(doc + 1)
        } else {
            None
        }
    }

    /// The documents from the one after the previous document of `scope`, or from 0, up to `parent`.
    pub fn child_range(&self, parent: u32, scope: u32) -> (u32, u32)
        requires parent { parent < length self.now.scopes }
        requires scope { scope_at self.now.scopes parent ≡ scope }
        ensures range { result ≡ (child_start self.now parent scope, parent) }

        // Of the documents of scopes below, exactly those inside the parent are in the range.
        ensures inside { (doc : ℕ) → doc < length self.now.scopes →
            IsTrue (is_above self.now.parents scope (scope_at self.now.scopes doc)) →
            (((result.0 ≤ doc) × (doc < result.1)) ↔ (enclosing_document self.now doc scope ≡ Some parent)) }
    {
        match self.bits.as_slice()[scope as usize].prev_set(parent) {
            Some(previous) => (previous + 1, parent),
            None => (0, parent),
        }
    }
}
