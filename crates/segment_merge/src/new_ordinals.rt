//! The ordinals of terms in a merged segment.

ghost use Rattle.std.specs.Prelude.{◌≡◌, ◌<◌, [], length, replicate, slice_index_or, IfOk};
ghost use Rattle.segment_merge.specs.TermRefs.{blank_ordinals, rooms_of, with_ordinal};

use crate::NoMemory;
use crate::numbering::Part;
use std::alloc::Global;
use std::marker::Model;

/// For each part of a merge, and each of its terms by ordinal, the ordinal of the term in the merged segment. What stands at
/// a term without live documents means nothing.
#[derive(Drop)]
pub(crate) struct NewOrdinals {
    parts: Vec<Vec<u64>>,
}

impl Model for NewOrdinals {
    ghost use Rattle.std.specs.Prelude.{List, ℕ, map};
    ghost use Rattle.segment_merge.specs.Lists.{items_of};

    ghost Value = { List (List ℕ) };

    ghost view = { λ it. items_of it.parts.items };
}

impl NewOrdinals {
    /// A 0 for each term of each part.
    pub(crate) fn blank(alloc: Global, parts: &[Part]) -> Result<NewOrdinals, NoMemory>
        ensures { IfOk result (λ news. news ≡ blank_ordinals parts.now) }
    {
        let mut news = Vec::with_capacity(alloc, parts.len())?;
        'parts: for part in parts {
            news.push(zeros(alloc, part.segment().terms().count())?)?;
        }
        Ok(NewOrdinals { parts: news })
    }

    /// The new ordinals of the part at a place, by ordinal; none behind the last part.
    pub(crate) fn of_part(&self, place: usize) -> &[u64]
        ensures { result.now ≡ slice_index_or self.now place [] }
    {
        match self.parts.get(place) {
            Some(own) => own.as_slice(),
            None => &[],
        }
    }

    /// Gives a term of the part at a place its new ordinal.
    pub(crate) fn set(&mut self, place: usize, ordinal: u64, new: u64)
        requires { ordinal < slice_index_or (rooms_of self.old) place 0 }
        ensures { self.new ≡ with_ordinal self.old place ordinal new }
    {
        let own = &mut self.parts[place];
        own[ordinal as usize] = new;
    }
}

/// So many zeros.
fn zeros(alloc: Global, count: u64) -> Result<Vec<u64>, NoMemory>
    ensures { IfOk result (λ zeros. zeros.items ≡ replicate count 0) }
{
    let mut zeros = Vec::new(alloc);
    zeros.resize(count as usize, 0)?;
    Ok(zeros)
}
