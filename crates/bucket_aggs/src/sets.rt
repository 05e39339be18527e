//! The objects of a scope that documents of a view stand for: hits, or sets of documents that segments lend.

ghost use Rattle.std.specs.Prelude.{◌≡◌, ◌<◌, [], length, map, is_some, slice_index_or, IfOk};
ghost use Rattle.query_eval.specs.Lent.{lent_scores};
ghost use Rattle.bucket_aggs.specs.Held.{hits_of, scores_of};

use crate::NoMemory;
use block_bits::BitSet;
use block_join::{Matches, Scored};
use query_eval::DocumentSet;
use std::alloc::Global;
use std::marker::Model;

/// What objects are kept as.
#[derive(Drop)]
pub(crate) enum Held<'a> {
    Found(&'a Matches),
    Made(Matches),
    /// Sets of documents, one for each entry; each document has the score 1.
    Sets(Vec<DocumentSet<'a>>),
}

/// The documents that objects of a scope have in a view, with scores: a list for each entry.
#[derive(Drop)]
pub(crate) struct Objects<'a> {
    held: Held<'a>,
}

impl<'a> Model for Objects<'a> {
    ghost use Rattle.std.specs.Prelude.{ℕ, List, Option};
    ghost use Rattle.std.specs.Coded.{coded_list, coded_option, coded_ℕ};
    ghost use Rattle.bucket_aggs.specs.Held.{scores_of};

    ghost Value = { List (List (Option ℕ)) };

    ghost coded = { coded_list (coded_list (coded_option coded_ℕ)) };

    ghost view = { λ it. scores_of it.held };
}

impl<'a> Objects<'a> {
    /// Hits that are lent.
    pub(crate) fn of(hits: &'a Matches) -> Objects<'a>
        ensures { result ≡ hits.now }
    {
        Objects {
            held: Held::Found(hits),
        }
    }

    /// Hits that were made.
    pub(crate) fn made(hits: Matches) -> Objects<'a>
        ensures { result ≡ hits }
    {
        Objects {
            held: Held::Made(hits),
        }
    }

    /// Sets of documents, one for each entry.
    pub(crate) fn of_sets(sets: Vec<DocumentSet<'a>>) -> Objects<'a>
        ensures { result ≡ map lent_scores sets.entry.items }
    {
        Objects {
            held: Held::Sets(sets),
        }
    }

    /// Of how many entries they are.
    pub(crate) fn len(&self) -> usize
        ensures { result ≡ length self.now }
    {
        match &self.held {
            Held::Found(hits) => hits.as_slice().len(),
            Held::Made(hits) => hits.as_slice().len(),
            Held::Sets(sets) => sets.len(),
        }
    }

    /// The documents of an entry.
    pub(crate) fn set(&self, at: usize) -> &BitSet
        requires { at < length self.now }
        ensures { result.now ≡ map is_some (slice_index_or self.now at []) }
    {
        match &self.held {
            Held::Found(hits) => hits.as_slice()[at].set(),
            Held::Made(hits) => hits.as_slice()[at].set(),
            Held::Sets(sets) => sets[at].as_ref(),
        }
    }

    /// The same, kept as hits: sets that are lent are copied.
    pub(crate) fn into_hits(self, alloc: Global) -> Result<Objects<'a>, NoMemory>
        ensures { IfOk result (λ objects. objects ≡ self.entry) }
    {
        match self.held {
            Held::Found(hits) => Ok(Objects::of(hits)),
            Held::Made(hits) => Ok(Objects::made(hits)),
            Held::Sets(sets) => Ok(Objects::made(copied(alloc, sets.as_slice())?)),
        }
    }

    /// The same as hits: sets that are lent are copied.
    pub(crate) fn hits(&self, alloc: Global) -> Result<Hits<'_>, NoMemory>
        ensures { IfOk result (λ hits. hits_of hits ≡ self.now) }
    {
        match &self.held {
            Held::Found(hits) => Ok(Hits::Lent(*hits)),
            Held::Made(hits) => Ok(Hits::Lent(hits)),
            Held::Sets(sets) => Ok(Hits::Made(copied(alloc, sets.as_slice())?)),
        }
    }
}

/// Hits, lent or made.
#[derive(Drop)]
pub(crate) enum Hits<'a> {
    Lent(&'a Matches),
    Made(Matches),
}

impl<'a> Hits<'a> {
    /// The hits.
    pub(crate) fn as_ref(&self) -> &Matches
        ensures { result.now ≡ hits_of self.now }
    {
        match self {
            Hits::Lent(hits) => *hits,
            Hits::Made(hits) => hits,
        }
    }
}

/// The documents of sets as hits.
fn copied(alloc: Global, sets: &[DocumentSet<'_>]) -> Result<Matches, NoMemory>
    ensures { IfOk result (λ hits. hits ≡ map lent_scores sets.now) }
{
    let mut made = Vec::with_capacity(alloc, sets.len())?;
    'sets: for at in 0..sets.len() {
        let set = sets[at].as_ref().copy(alloc)?;
        made.push(Scored::same(set, 1))?;
    }
    Ok(Matches::of(made))
}
