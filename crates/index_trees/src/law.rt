//! The laws, as the contracts of functions that do nothing.

ghost use Rattle.std.specs.Prelude.{◌≡◌, ℕ, List, [], Option, Some, IfSome, length};
ghost use Rattle.commit_store.specs.Known.{StoreState};
ghost use Rattle.commit_store.specs.Preparing.{SaysView, new_sizes, room_of};
ghost use Rattle.commit_store.specs.Saying.{Found, IsGood, StoreCommit};
ghost use Rattle.extent_pool.specs.Placing.{Room};
ghost use Rattle.index_core.specs.Kept.{IndexState};
ghost use Rattle.machine.specs.State.{Content, State};
ghost use Rattle.machine.specs.Storing.{AreSizes, kept_by, moves_in, room_in};
ghost use Rattle.machine.specs.declared.limits.Limits.{Limits};
ghost use Rattle.mapping.specs.Mapping.{Mapping, mapping_of};
ghost use Rattle.point_in_time.specs.Points.{no_points};
ghost use Rattle.segment.specs.Live.{EntryState};
ghost use Rattle.store_compact.specs.Compacting.{IsCompacted, kept_of};
ghost use Rattle.index_trees.specs.Content.{IsContentOf, OpensTo};
ghost use Rattle.index_trees.specs.Faithful.{AreFaithful, PointsStandFor};
ghost use Rattle.index_trees.specs.Given.{IsOpenedAs, IsSealedFor, index_found};
ghost use Rattle.index_trees.specs.Starting.{OpensIn, StartsFrom};

use segment_builder::fitting_segments_are_blocks;

/// What a commit of a sealed index needs is what the machine says of the trees: the sizes of the segments that are new, the room
/// that is looked for, the segments that move, and what is kept behind it. Does nothing.
pub fn commits_are_those_of_the_machine()
    ensures sizes { (m : Mapping) (index : IndexState) (state : State) (store : StoreState) → IsSealedFor m index state store
        → AreSizes (Some m) state (new_sizes store.known index.entries) }
    ensures room { (m : Mapping) (index : IndexState) (state : State) (store : StoreState) (limits : Limits) → IsSealedFor m index state store → limits.store_bytes ≡ store.limit
        → room_in limits (new_sizes store.known index.entries) m state ≡ room_of store m index.entries }
    ensures kept { (m : Mapping) (index : IndexState) (state : State) (store new : StoreState) (limits : Limits) (most count : ℕ) → IsSealedFor m index state store → limits.store_bytes ≡ store.limit
        → IsCompacted store m index.entries most count new
        → (room : Room) × (room_of store m index.entries ≡ Some room) × (count ≡ length (moves_in limits most room state)) × (kept_of new ≡ kept_by room (moves_in limits most room state) state) }
    ensures still { (limits : Limits) (room : Room) (state : State) → moves_in limits 0 room state ≡ [] }
{
    fitting_segments_are_blocks();
}

/// A commit of the view of a sealed index says the content of each state that the index is faithful to, and a commit says one
/// content at most. Does nothing.
pub fn commits_hold_the_trees()
    ensures content { (m : Mapping) (index : IndexState) (state : State) (c : StoreCommit) → AreFaithful (Some m) index state → index.buffer ≡ [] → SaysView m index.next index.entries c
        → m ≡ mapping_of m.bodies m.dynamic → IsContentOf (Some c) state.content }
    ensures once { (found : Option StoreCommit) (one other : Content) → IsContentOf found one → IsContentOf found other → one ≡ other }
{}

/// What opening gives of a file is faithful to each state that the file may be opened in, and the content of this is what the
/// commit in the file says. Does nothing.
pub fn an_opened_store_stands_for_its_trees()
    ensures faithful { (limit objects : ℕ) (found : Option StoreCommit) (store : StoreState) (mapping : Option Mapping) (next : ℕ) (view : List EntryState) (start : State)
        → IfSome found (IsGood limit) → IsOpenedAs limit found store mapping next view → OpensIn limit found start
        → AreFaithful mapping (index_found view next objects) start × PointsStandFor mapping no_points start.points × (start.kept ≡ kept_of store) }
    ensures good { (limit : ℕ) (file : List ℕ) (found : Option StoreCommit) → Found limit file found → IfSome found (IsGood limit) }
    ensures content { (limit : ℕ) (found : Option StoreCommit) (start : State) → OpensIn limit found start → IsContentOf found start.content }
    ensures starts { (limit : ℕ) (file : List ℕ) (start : State) → StartsFrom limit file start → OpensTo limit start.content file }
{}
