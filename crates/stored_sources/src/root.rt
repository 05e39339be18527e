//! What a segment stores of a root.

ghost use Rattle.std.specs.Prelude.{◌≡◌, ◌++◌, ℕ, List, ◌<◌, ◌^◌, ◌↔◌, length, IfOk, IsTrue};
ghost use Rattle.stored_sources.specs.declared.root.Root.{Root};
ghost use Rattle.stored_sources.specs.Text.{roots_text};
ghost use Rattle.stored_sources.specs.Stands.{IsJoin, IsRoot, AreRoots};

use smallvec::SmallVec;
use std::alloc::{AllocError, Global};
use std::marker::Model;

/// Bytes, as of a source or of a parent's id.
#[derive(Drop)]
pub struct Bytes {
    bytes: Vec<u8>,
}

impl Model for Bytes {
    ghost use Rattle.std.specs.Prelude.{ℕ, List};

    ghost Value = { List ℕ };

    ghost view = { λ it. it.bytes.items };
}

impl Bytes {
    /// The bytes of a vector. Takes no memory.
    pub fn of(bytes: Vec<u8>) -> Bytes
        ensures { result ≡ bytes.items }
    {
        Bytes { bytes }
    }

    /// The bytes.
    pub fn as_slice(&self) -> &[u8]
        ensures { result.now ≡ self.now }
    {
        self.bytes.as_slice()
    }

    /// The vector again. Takes no memory.
    pub fn into_vec(self) -> Vec<u8>
        ensures { result.items ≡ self }
    {
        let Bytes { bytes } = self;
        bytes
    }
}

/// The bytes of a root's id. Those of most ids are few, and take no memory of their own.
#[derive(Drop)]
pub struct Id {
    bytes: SmallVec<u8, 24>,
}

impl Model for Id {
    ghost use Rattle.std.specs.Prelude.{ℕ, List};

    ghost Value = { List ℕ };

    ghost view = { λ it. it.bytes.items };
}

impl Id {
    /// The id of these bytes.
    pub fn of(alloc: Global, bytes: &[u8]) -> Result<Id, AllocError>
        ensures { IfOk result (λ id. id ≡ bytes.now) }
    {
        let bytes = SmallVec::from_slice(alloc, bytes)?;
        Ok(Id { bytes })
    }

    /// The bytes.
    pub fn as_slice(&self) -> &[u8]
        ensures { result.now ≡ self.now }
    {
        self.bytes.as_slice()
    }
}

/// The join value of a root (Elasticsearch reference, "Join field type"). Relations are numbered from 0 in byte
/// order of their names.
#[derive(Drop)]
pub enum Join {
    /// No join value.
    Unjoined,
    /// The name of a relation, as of a parent.
    Named(u32),
    /// The name of a child's relation, and the id of the parent.
    Child(u32, Bytes),
}

/// The join value of a root, read in place.
#[derive(Clone, Copy, Debug, PartialEq, Eq)]
pub enum JoinValue<'a> {
    /// No join value.
    Unjoined,
    /// The name of a relation, as of a parent.
    Named(u32),
    /// The name of a child's relation, and the bytes of the parent's id.
    Child(u32, &'a [u8]),
}

/// A root: its id, its sequence number, the mapping generation it was indexed under, its source and its join value.
#[derive(Drop)]
pub struct Root {
    /// Its id.
    pub id: Id,
    /// Its sequence number.
    pub number: u64,
    /// The generation of the mapping it was indexed under.
    pub generation: u32,
    /// Its source, as it was indexed.
    pub source: Bytes,
    /// Its join value.
    pub join: Join,
}

/// The roots of a segment, in the order of their documents; fewer than 2^32.
#[derive(Drop)]
pub struct RowList {
    roots: Vec<Root>,
}

impl Model for RowList {
    ghost use Rattle.std.specs.Prelude.{List};
    ghost use Rattle.stored_sources.specs.declared.root.Root.{Root};
    ghost use Rattle.stored_sources.specs.Stands.{AreRoots};

    ghost Value = { List Root };

    ghost view = { λ list. list.roots.items };

    ghost invariant = { λ list. AreRoots list.roots.items };
}

impl RowList {
    /// The list of these roots, as `are_roots` tests them. Takes no memory.
    pub fn of(roots: Vec<Root>) -> RowList
        requires { AreRoots roots.items }
        ensures { result ≡ roots.items }
    {
        RowList { roots }
    }

    /// Whether there are fewer than 2^32 roots, each with fewer than 2^32 bytes of an id, of a source and of a parent's id.
    pub fn are_roots(roots: &[Root]) -> bool
        ensures { IsTrue result ↔ AreRoots roots.now }
    {
        if roots.len() > u32::MAX as usize {
            return false;
        }
        'roots: for root in roots {
            if !is_root(root) {
                return false;
            }
        }
        true
    }

    /// The roots, in order.
    pub fn as_slice(&self) -> &[Root]
        ensures roots { result.now ≡ self.now }
        ensures are { AreRoots self.now }
    {
        self.roots.as_slice()
    }
}

/// Whether a root's bytes are fewer than 2^32 each.
fn is_root(root: &Root) -> bool
    ensures { IsTrue result ↔ IsRoot root.now }
{
    fit(root.number, root.generation);
    if !is_short(root.id.as_slice()) {
        return false;
    }
    if !is_short(root.source.as_slice()) {
        return false;
    }
    is_join(&root.join)
}

/// Says that numbers fit their bytes, as those of their types do.
fn fit(number: u64, generation: u32)
    ensures number { number < 2 ^ 64 }
    ensures generation { generation < 2 ^ 32 }
{}

/// Whether the id of a join value's parent is short.
fn is_join(join: &Join) -> bool
    ensures { IsTrue result ↔ IsJoin join.now }
{
    match join {
        Join::Unjoined => true,
        Join::Named(relation) => {
            let _relation = *relation;
            true
        }
        Join::Child(relation, parent) => {
            let _relation = *relation;
            is_short(parent.as_slice())
        }
    }
}

/// Whether bytes are fewer than 2^32.
fn is_short(bytes: &[u8]) -> bool
    ensures { IsTrue result ↔ length bytes.now < 2 ^ 32 }
{
    bytes.len() <= u32::MAX as usize
}

/// No bytes begin with the texts of two lists of so many roots, so that roots have one spelling. Does nothing.
pub fn roots_have_one_text()
    ensures { (roots others : List Root) (rest more : List ℕ) → length roots ≡ length others → AreRoots roots → AreRoots others
        → roots_text roots ++ rest ≡ roots_text others ++ more → (roots ≡ others) × (rest ≡ more) }
{}
