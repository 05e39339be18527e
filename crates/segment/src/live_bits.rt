//! Which documents of a segment are live.

ghost use Rattle.std.specs.Prelude.{◌≡◌, ◌↔◌, ℕ, ◌<◌, length, replicate, true, false, slice_index_or, All, Contains, IfOk};
ghost use Rattle.std.specs.List.Sorted.{IsStrictlyIncreasing};
ghost use Rattle.segment.specs.Live.{IsLiveOver, killed};

use crate::{NoMemory, Segment};
use block_bits::BitSet;
use std::alloc::Global;
use std::marker::Model;

/// The live documents and the live roots of one segment. A block dies whole: its root and all documents inside.
#[derive(Drop)]
pub struct LiveBits {
    docs: BitSet,
    roots: BitSet,
}

impl Model for LiveBits {
    ghost use Rattle.segment.specs.Live.{LiveState};

    ghost Value = { LiveState };

    ghost view = { λ live. record { docs = live.docs; roots = live.roots } };
}

impl LiveBits {
    /// The live bits of a segment, given the roots that are dead, strictly ascending.
    pub fn over(alloc: Global, segment: &Segment, dead: &[u32]) -> Result<LiveBits, NoMemory>
        requires ascending { IsStrictlyIncreasing dead.now }
        requires roots { All (λ root. root < length segment.now.roots) dead.now }
        ensures over { IfOk result (λ live. IsLiveOver segment.now live) }
        ensures dead { IfOk result (λ live. (root : ℕ) → root < length segment.now.roots →
            (slice_index_or live.roots root false ≡ false) ↔ Contains dead.now root) }
    {
        let mut live = LiveBits::all(alloc, segment)?;
        'dead: for root in dead {
            live.kill(segment, *root);
        }
        Ok(live)
    }

    /// Whether a root is live.
    pub fn root(&self, root: u32) -> bool
        requires { root < length self.now.roots }
        ensures { result ≡ slice_index_or self.now.roots root false }
    {
        self.roots.has(root)
    }

    /// Whether a document is live.
    pub fn doc(&self, doc: u32) -> bool
        requires { doc < length self.now.docs }
        ensures { result ≡ slice_index_or self.now.docs doc false }
    {
        self.docs.has(doc)
    }

    /// Makes a root and its whole block dead. Takes no memory.
    pub fn kill(&mut self, segment: &Segment, root: u32)
        requires over { IsLiveOver segment.now self.old }
        requires live { slice_index_or self.old.roots root false ≡ true }
        ensures killed { self.new ≡ killed segment.now root self.old }
        ensures over { IsLiveOver segment.now self.new }
    {
        let (from, end) = segment.block(root);
        self.docs.clear_range(from, end);
        self.roots.clear(root);
    }

    /// The live documents, one flag a document.
    pub fn documents(&self) -> &BitSet
        ensures { result.now ≡ self.now.docs }
    {
        &self.docs
    }

    /// The live roots, one flag a root.
    pub fn live_roots(&self) -> &BitSet
        ensures { result.now ≡ self.now.roots }
    {
        &self.roots
    }

    /// All documents and roots are live.
    fn all(alloc: Global, segment: &Segment) -> Result<LiveBits, NoMemory>
        ensures over { IfOk result (λ live. IsLiveOver segment.now live) }
        ensures roots { IfOk result (λ live. live.roots ≡ replicate (length segment.now.roots) true) }
    {
        let docs = BitSet::full(alloc, segment.docs())?;
        let roots = BitSet::full(alloc, segment.roots())?;
        Ok(LiveBits { docs, roots })
    }

    /// An equal value.
    pub fn copy(&self, alloc: Global) -> Result<LiveBits, NoMemory>
        ensures { IfOk result (λ live. live ≡ self.now) }
    {
        let docs = self.docs.copy(alloc)?;
        let roots = self.roots.copy(alloc)?;
        Ok(LiveBits { docs, roots })
    }
}
