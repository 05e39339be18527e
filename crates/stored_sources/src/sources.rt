//! The roots of a segment with their sources, read in place.

ghost use Rattle.std.specs.Prelude.{◌≡◌, ℕ, ◌+◌, ◌<◌, ◌≤◌, ◌^◌, ◌++◌, List, length, map, drop, IfOk, IfSome, IsNone, OnOk, OnErr};
ghost use Rattle.std.specs.List.{All};
ghost use Rattle.stored_sources.specs.declared.root.Root.{Root};
ghost use Rattle.stored_sources.specs.Roots.{root_of, source_of, lent_join};
ghost use Rattle.stored_sources.specs.Text.{roots_text};
ghost use Rattle.stored_sources.specs.Stands.{AreRoots, Stands, Belong};
ghost use Rattle.stored_sources.specs.Lent.{lent_root};

use crate::kept::{front_of, lent_at, put_live};
use crate::placing::{from_place, placed_roots};
use crate::walk::{LentFront, LentRoot};
use crate::written::put_roots;
use crate::{JoinValue, RowList};
use part_text::{NoMemory, PlaceList};
use source_steps::Steps;
use std::alloc::Global;
use std::marker::Model;
use std::sync::ledger::Ledger;

/// The roots of a segment: the first root has the number 0.
#[derive(Drop)]
pub struct StoredSources<'a> {
    bytes: &'a [u8],
    places: &'a [u64],
}

impl<'a> Model for StoredSources<'a> {
    ghost use Rattle.std.specs.Prelude.{List};
    ghost use Rattle.stored_sources.specs.declared.root.Root.{Root};
    ghost use Rattle.stored_sources.specs.Kept.{roots_in, AreKept};

    ghost Value = { List Root };

    ghost view = { λ stored. roots_in stored.places.now stored.bytes.now };

    ghost invariant = { λ stored. AreKept stored.places.now stored.bytes.now };
}

impl<'a> StoredSources<'a> {
    /// The roots that stand at these places of bytes, as `places` finds them. Takes no memory.
    pub fn over(bytes: &'a [u8], places: &'a PlaceList) -> StoredSources<'a>
        requires { (roots : List Root) × Belong bytes.now places.now roots }
        ensures { (roots : List Root) → Belong bytes.now places.now roots → result ≡ roots }
    {
        StoredSources {
            bytes,
            places: places.as_slice(),
        }
    }

    /// Where so many roots stand that are written from a place on, and the place behind them; None exactly where so many
    /// roots don't stand there.
    pub fn places(
        alloc: Global,
        bytes: &[u8],
        at: u64,
        roots: u32,
    ) -> Result<Option<(PlaceList, u64)>, NoMemory>
        ensures found { IfOk result (λ found. IfSome found (λ it. (own : List Root) × (length own ≡ roots) × Stands bytes.now at own it.0 it.1)) }
        ensures only { IfOk result (λ found. IsNone found → (own : List Root) (rest : List ℕ)
            → at ≤ length bytes.now → length own ≡ roots → AreRoots own → drop at bytes.now ≡ roots_text own ++ rest → ⊥) }
    {
        let end = bytes.len() as u64;
        let Some(own) = from_place(bytes, at) else {
            return Ok(None);
        };
        match placed_roots(alloc, roots, own, end)? {
            Some((places, rest)) => Ok(Some((places, end - rest.len() as u64))),
            None => Ok(None),
        }
    }

    /// Appends roots as they are written. After NoMemory the bytes are as they were.
    pub fn written(roots: &RowList, into: &mut Vec<u8>) -> Result<(), NoMemory>
        ensures written { OnOk result (into.new.items ≡ into.old.items ++ roots_text roots.now) }
        ensures unchanged { OnErr result (into.new.items ≡ into.old.items) }
    {
        let old = into.len();
        let done = put_roots(roots, into);
        if done.is_err() {
            into.truncate(old);
        }
        done
    }

    /// How many roots there are.
    pub fn count(&self) -> u32
        ensures { result ≡ length self.now }
    {
        (self.places.len() - 1) as u32
    }

    /// The bytes of a root's id.
    pub fn id(&self, root: u32) -> &'a [u8]
        requires { root < length self.now }
        ensures { result.now ≡ (root_of self.now root).id }
    {
        self.front(root).id
    }

    /// A root's sequence number.
    pub fn number(&self, root: u32) -> u64
        requires { root < length self.now }
        ensures { result ≡ (root_of self.now root).number }
    {
        self.front(root).number
    }

    /// The generation of the mapping that a root was indexed under.
    pub fn generation(&self, root: u32) -> u32
        requires { root < length self.now }
        ensures { result ≡ (root_of self.now root).generation }
    {
        self.front(root).generation
    }

    /// A root's join value.
    pub fn join(&self, root: u32) -> JoinValue<'a>
        requires { root < length self.now }
        ensures { lent_join result ≡ (root_of self.now root).join }
    {
        self.lent(root).join
    }

    /// How many bytes a root's source has.
    pub fn source_len(&self, root: u32) -> u32
        requires { root < length self.now }
        ensures { result ≡ length (source_of self.now root) }
    {
        self.lent(root).source.len() as u32
    }

    /// Appends the source of a root to `out`, and ticks `steps` once, whatever it answers.
    ///
    /// No other call reads one source.
    pub fn fetch<L: Ledger>(
        &self,
        root: u32,
        out: &mut Vec<u8>,
        steps: &mut Steps<L>,
    ) -> Result<(), NoMemory>
        requires { root < length self.now }
        ensures source { OnOk result (out.new.items ≡ out.old.items ++ source_of self.now root) }
        ensures unchanged { OnErr result (out.new.items ≡ out.old.items) }
        ensures step { steps.new ≡ steps.old + 1 }
    {
        steps.tick();
        out.extend_from_slice(self.lent(root).source)?;
        Ok(())
    }

    /// Appends these roots as they are written, in their order, as a merge wants them. After NoMemory the bytes are as they
    /// were.
    pub fn append_live(&self, live: &[u32], into: &mut Vec<u8>) -> Result<(), NoMemory>
        requires { All (λ root. root < length self.now) live.now }
        ensures appended { OnOk result (into.new.items ≡ into.old.items ++ roots_text (map (root_of self.now) live.now)) }
        ensures unchanged { OnErr result (into.new.items ≡ into.old.items) }
    {
        let old = into.len();
        let done = put_live(self.places, self.bytes, live, into);
        if done.is_err() {
            into.truncate(old);
        }
        done
    }

    /// What stands of a root before its source, read in place.
    fn front(&self, root: u32) -> LentFront<'a>
        requires { root < length self.now }
        ensures id { result.id.now ≡ (root_of self.now root).id }
        ensures number { result.number ≡ (root_of self.now root).number }
        ensures generation { result.generation ≡ (root_of self.now root).generation }
    {
        front_of(self.places, self.bytes, root as usize)
    }

    /// A root, read in place.
    fn lent(&self, root: u32) -> LentRoot<'a>
        requires { root < length self.now }
        ensures root { lent_root result ≡ root_of self.now root }
        ensures short { length result.source.now < 2 ^ 32 }
    {
        lent_at(self.places, self.bytes, root as usize)
    }
}
