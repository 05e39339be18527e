//! Where the block with a number stands.

ghost use Rattle.std.specs.Prelude.{◌≡◌, ℕ, List, map};
ghost use Rattle.flattener.specs.Block.{BlockState};
ghost use Rattle.flattener.specs.Seen.{block_seen};
ghost use Rattle.index_core.specs.Found.{AreWhole, IsAt, IsLive, IsLiveNumber, IsWhole, begins_by, block_numbers, first_numbers, root_numbers};

use crate::ascending::{Numbers, count_up_to, index_of};
use flattener::Block;
use segment::Segment;
use segment_builder::blocks_are_whole;
use segment_view::Entry;
use std::marker::Model;

/// The place of a block: a root of an entry of the view, or an index in the buffer.
#[derive(Clone, Copy, Debug, PartialEq, Eq)]
pub(crate) enum Place {
    Root(u64, u32),
    Buffer(usize),
}

impl Numbers for Segment {
    ghost numbers = { root_numbers };

    fn count(&self) -> usize {
        self.roots() as usize
    }

    fn number(&self, index: usize) -> u64 {
        let _count = self.roots();
        self.root_number(index as u32)
    }
}

/// Entries by their first number; each has some root.
#[derive(Drop)]
pub(crate) struct Firsts<'a> {
    entries: &'a [Entry],
}

impl<'a> Model for Firsts<'a> {
    ghost use Rattle.std.specs.Prelude.{List};
    ghost use Rattle.segment.specs.Live.{EntryState};
    ghost use Rattle.index_core.specs.Found.{AreWhole};

    ghost Value = { List EntryState };

    ghost view = { λ it. it.entries.now };

    ghost invariant = { λ it. AreWhole it.entries.now };
}

impl<'a> Firsts<'a> {
    /// The first numbers of these entries. Takes no memory.
    pub(crate) fn of(entries: &'a [Entry]) -> Firsts<'a>
        requires { AreWhole entries.now }
        ensures { result ≡ entries.now }
    {
        Firsts { entries }
    }
}

impl<'a> Numbers for Firsts<'a> {
    ghost numbers = { first_numbers };

    fn count(&self) -> usize {
        self.entries.len()
    }

    fn number(&self, index: usize) -> u64 {
        match self.entries.get(index) {
            Some(entry) => entry.segment().root_number(0),
            None => 0,
        }
    }
}

/// The blocks of a buffer.
#[derive(Drop)]
pub(crate) struct Buffered<'a> {
    blocks: &'a [Block],
}

impl<'a> Model for Buffered<'a> {
    ghost use Rattle.std.specs.Prelude.{List, map};
    ghost use Rattle.flattener.specs.Block.{BlockState};
    ghost use Rattle.flattener.specs.Seen.{block_seen};

    ghost Value = { List BlockState };

    ghost view = { λ it. map block_seen it.blocks.now };
}

impl<'a> Buffered<'a> {
    /// The numbers of these blocks. Takes no memory.
    pub(crate) fn of(blocks: &'a [Block]) -> Buffered<'a>
        ensures { result ≡ map block_seen blocks.now }
    {
        Buffered { blocks }
    }
}

impl<'a> Numbers for Buffered<'a> {
    ghost numbers = { block_numbers };

    fn count(&self) -> usize {
        self.blocks.len()
    }

    fn number(&self, index: usize) -> u64 {
        match self.blocks.get(index) {
            Some(block) => block.root.number,
            None => 0,
        }
    }
}

/// An entry has some root, its blocks have the numbers of its roots, and as many documents are live as its live blocks have.
/// Does nothing.
pub(crate) fn entry_is_whole(entry: &Entry)
    ensures { IsWhole entry.now }
{
    let segment = entry.segment();
    let _live = entry.live();
    blocks_are_whole(segment);
    let _documents = segment.docs();
    let _first = segment.root_of_doc(0);
}

/// The place of the live block with this number.
pub(crate) fn place_of(entries: &[Entry], buffer: &[Block], number: u64) -> Place
    requires live { IsLiveNumber entries.now (map block_seen buffer.now) number }
    requires whole { AreWhole entries.now }
    ensures { (id : List ℕ) (block : BlockState) → IsLive entries.now (map block_seen buffer.now) id block number → IsAt result entries.now (map block_seen buffer.now) block }
{
    if is_buffered(buffer, number) {
        Place::Buffer(index_of(&Buffered::of(buffer), number))
    } else {
        let index = count_up_to(&Firsts::of(entries), number) - 1;
        let segment = entries[index].segment();
        let _roots = segment.roots();
        let root = index_of(segment, number);
        Place::Root(index as u64, root as u32)
    }
}

/// Whether the blocks of the buffer begin at or below a number.
fn is_buffered(buffer: &[Block], number: u64) -> bool
    ensures { result ≡ begins_by number (map block_seen buffer.now) }
{
    match buffer {
        [] => false,
        [first, ..] => first.root.number <= number,
    }
}
