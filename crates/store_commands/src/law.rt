//! Laws of what a store knows, as the contract of a function that does nothing.

ghost use Rattle.std.specs.Prelude.{◌≡◌, [], List};
ghost use Rattle.flattener.specs.Block.{BlockState};
ghost use Rattle.index_core.specs.Kept.{laid, made_by};
ghost use Rattle.layout.specs.Layout.{Layout};
ghost use Rattle.layout_ids.specs.Ids.{HaveGivenIds, KeepsItems};
ghost use Rattle.segment.specs.Live.{EntryState};
ghost use Rattle.commit_store.specs.declared.known.KnownSegment.{KnownSegment};
ghost use Rattle.store_commands.specs.Commands.{AreKnown};

/// What a store knows of a layout it knows of each later one in which no id stands for other blocks; and the ids of a view that
/// was opened count as given. Does nothing.
pub fn known_segments_stay_known()
    ensures kept { (before after : Layout BlockState) (known : List KnownSegment) → KeepsItems before after → AreKnown before known → AreKnown after known }
    ensures opened { (view : List EntryState) → HaveGivenIds (laid view [] (made_by view)) }
{}
