//! The ordinals of the roots of a view.

ghost use Rattle.std.specs.Prelude.{◌≡◌, ◌<◌, [], IfOk, IfSome};
ghost use Rattle.join_ordinals.specs.Ordinals.{AreOrdinals, ordinal_at};
ghost use Rattle.join_ordinals.specs.Rows.{rows_seen};

use crate::NoMemory;
use crate::ids::Ids;
use crate::numbers::numbers_of;
use crate::rows::{Whose, relations_of, renumber, rows_of};
use segment_view::View;
use std::alloc::Global;
use std::marker::Model;

/// An ordinal for the id of each live root of a view, and one for the id of its parent where it names one, with the root's
/// relation. They are made for a search that joins, and serve as long as the view stands.
#[derive(Drop)]
pub struct JoinOrdinals {
    count: usize,
    own: Vec<Vec<Option<u32>>>,
    parents: Vec<Vec<Option<u32>>>,
    relations: Vec<Vec<Option<u32>>>,
}

impl Model for JoinOrdinals {
    ghost use Rattle.join_ordinals.specs.Ordinals.{Ordinals};
    ghost use Rattle.join_ordinals.specs.Rows.{rows_seen};

    ghost Value = { Ordinals };

    ghost view = { λ it. record { count = it.count; own = rows_seen it.own.items; parents = rows_seen it.parents.items; relations = rows_seen it.relations.items } };
}

impl JoinOrdinals {
    /// The ordinals of a view, in the order in which their ids are first met. It costs a sort of the ids of the live roots and of
    /// their parents; their join values are read here, so that no search reads them again.
    pub fn over(alloc: Global, view: &View) -> Result<JoinOrdinals, NoMemory>
        ensures { IfOk result (AreOrdinals view.now) }
    {
        let mut ids = Ids::none(alloc);
        let mut own = rows_of(alloc, view.entries(), Whose::Own, &mut ids)?;
        let mut parents = rows_of(alloc, view.entries(), Whose::Parent, &mut ids)?;
        let relations = relations_of(alloc, view.entries())?;
        let made = numbers_of(alloc, &ids)?;
        renumber(&mut own, made.numbers.as_slice());
        renumber(&mut parents, made.numbers.as_slice());
        Ok(JoinOrdinals {
            count: made.count,
            own,
            parents,
            relations,
        })
    }

    /// No ordinals, for a search that joins nothing. Takes no memory.
    pub fn none(alloc: Global) -> JoinOrdinals
        ensures { result ≡ record { count = 0; own = []; parents = []; relations = [] } }
    {
        JoinOrdinals {
            count: 0,
            own: Vec::new(alloc),
            parents: Vec::new(alloc),
            relations: Vec::new(alloc),
        }
    }

    /// How many ids there are: above every ordinal.
    pub fn count(&self) -> usize
        ensures { result ≡ self.now.count }
    {
        self.count
    }

    /// The ordinal of a root of the entry at a place; of ordinals of a view None exactly where no live root is there.
    pub fn own(&self, place: usize, root: u32) -> Option<u32>
        ensures { result ≡ ordinal_at self.now.own place root }
    {
        ordinal_of(self.own.as_slice(), place, root)
    }

    /// The ordinal of its parent; of ordinals of a view None exactly where no live root is there that names one.
    pub fn parent(&self, place: usize, root: u32) -> Option<u32>
        ensures { result ≡ ordinal_at self.now.parents place root }
    {
        ordinal_of(self.parents.as_slice(), place, root)
    }

    /// Its relation; of ordinals of a view None exactly where no live root is there that has one.
    pub fn relation(&self, place: usize, root: u32) -> Option<u32>
        ensures { result ≡ ordinal_at self.now.relations place root }
    {
        ordinal_of(self.relations.as_slice(), place, root)
    }
}

fn ordinal_of(rows: &[Vec<Option<u32>>], place: usize, root: u32) -> Option<u32>
    ensures { result ≡ ordinal_at (rows_seen rows.now) place root }
{
    match rows.get(place) {
        Some(row) => match row.get(root as usize) {
            Some(ordinal) => *ordinal,
            None => None,
        },
        None => None,
    }
}
