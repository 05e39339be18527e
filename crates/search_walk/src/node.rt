//! A part of a search body, and what is kept of the parts that were met.
ghost use Rattle.std.specs.Prelude.{◌≡◌};
ghost use Rattle.search_walk.specs.Walk.{walk_of, no_walk};

use crate::known::KnownNames;
use crate::refusal::SearchRefusal;
use search_form::Form;
use std::alloc::Global;
use tree_json::Json;

/// A part of a search body that is judged by itself, or counted.
#[derive(Clone, Copy, Drop)]
pub(crate) struct Node<'a> {
    /// The scope in which it stands; none inside an ignored clause.
    pub scope: Option<u32>,
    /// The scope in which its own parts stand, where it is an object.
    pub inside: Option<u32>,
    /// How deep it lies among queries, or among buckets, from 1 to 31.
    pub level: u32,
    pub form: Form,
    pub value: &'a Json,
}

/// What was met on a walk so far.
#[derive(Drop)]
pub(crate) struct Walk<'a> {
    pub known: KnownNames,
    /// The first fault.
    pub fault: Option<SearchRefusal>,
    /// The names of inner hits, in the order of the walk.
    pub names: Vec<&'a [u8]>,
    /// How many queries and buckets there are.
    pub clauses: usize,
    pub has_large_window: bool,
    pub is_deep: bool,
    pub has_many_terms: bool,
}

impl<'a> Walk<'a> {
    /// Nothing was met.
    pub(crate) fn new(alloc: Global) -> Walk<'a>
        ensures { walk_of result ≡ no_walk }
    {
        Walk {
            known: KnownNames::new(),
            fault: None,
            names: Vec::new(alloc),
            clauses: 0,
            has_large_window: false,
            is_deep: false,
            has_many_terms: false,
        }
    }
}
