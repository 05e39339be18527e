//! A segment with its live bits.

ghost use Rattle.std.specs.Prelude.{◌≡◌, true, false, slice_index_or, IfOk, OnOk, OnErr};
ghost use Rattle.segment.specs.Live.{IsLiveOver, killed};
ghost use Rattle.segment_view.specs.Views.{is_live_root, with_dead};

use crate::NoMemory;
use segment::{LiveBits, Segment};
use std::alloc::Global;
use std::marker::Model;
use std::rc::Rc;

/// A segment with its live bits, under an id. Both are shared with the same entry of other views, and bits that are shared
/// are copied before they change.
#[derive(Drop)]
pub struct Entry {
    id: u128,
    segment: Rc<Segment>,
    live: Rc<LiveBits>,
}

impl Model for Entry {
    ghost use Rattle.segment.specs.Live.{EntryState, IsLiveOver};

    ghost Value = { EntryState };

    ghost view = { λ entry. record { id = entry.id; columns = entry.segment.value; live = entry.live.value } };

    ghost invariant = { λ entry. IsLiveOver entry.segment.value entry.live.value };
}

impl Entry {
    /// The entry of a segment and its live bits.
    pub fn new(alloc: Global, id: u128, segment: Segment, live: LiveBits) -> Result<Entry, NoMemory>
        requires { IsLiveOver segment live }
        ensures { IfOk result (λ entry. entry ≡ record { id = id; columns = segment; live = live }) }
    {
        Ok(Entry {
            id,
            segment: Rc::new(alloc, segment)?,
            live: Rc::new(alloc, live)?,
        })
    }

    /// The id, which no other entry of a view has.
    pub fn id(&self) -> u128
        ensures { result ≡ self.now.id }
    {
        self.id
    }

    /// The segment.
    pub fn segment(&self) -> &Segment
        ensures { result.now ≡ self.now.columns }
    {
        self.segment.as_ref()
    }

    /// Which of its documents and roots are live.
    pub fn live(&self) -> &LiveBits
        ensures live { result.now ≡ self.now.live }
        ensures over { IsLiveOver self.now.columns self.now.live }
    {
        self.live.as_ref()
    }

    /// The same entry once more. Nothing is copied.
    pub fn share(&self) -> Result<Entry, NoMemory>
        ensures { IfOk result (λ entry. entry ≡ self.now) }
    {
        Ok(Entry {
            id: self.id,
            segment: self.segment.clone()?,
            live: self.live.clone()?,
        })
    }

    /// Makes a root and its block dead. Takes memory only where the bits are shared.
    pub(crate) fn kill(&mut self, alloc: Global, root: u32) -> Result<(), NoMemory>
        requires { is_live_root root self.old ≡ true }
        ensures killed { OnOk result (self.new ≡ with_dead root self.old) }
        ensures bits { IsLiveOver self.new.columns self.new.live }
        ensures same { OnErr result (self.new ≡ self.old) }
    {
        kill_shared(alloc, self.segment.as_ref(), &mut self.live, root)
    }
}

/// Makes a root and its block dead in bits that are copied first where they are shared.
fn kill_shared(
    alloc: Global,
    segment: &Segment,
    live: &mut Rc<LiveBits>,
    root: u32,
) -> Result<(), NoMemory>
    requires over { IsLiveOver segment.now live.old.value }
    requires live { slice_index_or live.old.value.roots root false ≡ true }
    ensures killed { OnOk result (live.new.value ≡ killed segment.now root live.old.value) }
    ensures over { IsLiveOver segment.now live.new.value }
    ensures same { OnErr result (live.new.value ≡ live.old.value) }
{
    match Rc::get_mut(live) {
        Some(own) => {
            own.kill(segment, root);
            Ok(())
        }
        None => {
            let mut copy = live.copy(alloc)?;
            copy.kill(segment, root);
            *live = Rc::new(alloc, copy)?;
            Ok(())
        }
    }
}
