//! Laws of the machine, as the contracts of functions that do nothing. They hold of whatever may be answered, also where there
//! is no memory or the disk fails.
ghost use Rattle.std.specs.Prelude.{◌≡◌, ◌≢◌, ◌⊎◌, ◌+◌, ◌≤◌, ℕ, true, false, List, Some};
ghost use Rattle.std.specs.List.{AllByRecursion};
ghost use Rattle.extent_pool.specs.Placing.{Room};
ghost use Rattle.extent_pool.specs.declared.extent.Extent.{Extent};
ghost use Rattle.layout.specs.As.{layout_as};
ghost use Rattle.layout.specs.Layout.{Layout, sealed};
ghost use Rattle.machine.specs.Answer.{Outcome, nothing};
ghost use Rattle.machine.specs.Beside.{AgreeBeside, AreGiven, Asking, Exchange, MayExchange, asks_so, exchanges_beside, is_beside, is_of_layout, is_of_points, replies_to, shows_layout, those_beside};
ghost use Rattle.machine.specs.declared.limits.Limits.{Limits};
ghost use Rattle.machine.specs.May.{MayAnswer, MayEnd, Stepped, WantsMemory};
ghost use Rattle.machine.specs.Merging.{answer_as, merged_by};
ghost use Rattle.machine.specs.Points.{with_point, with_points};
ghost use Rattle.machine.specs.declared.merge_command.MergeCommand.{MergeCommand};
ghost use Rattle.machine.specs.Searching.{searched};
ghost use Rattle.machine.specs.State.{State, IsLaid, IsNumbered};
ghost use Rattle.machine.specs.Step.{is_of_store, step};
ghost use Rattle.machine.specs.Storing.{IsKept, MovesDown, moves_in, placed_segments};
ghost use Rattle.mapping.specs.Mapping.{Mapping};
ghost use Rattle.reply_text.specs.declared.refusal.Refusal.TheVariants.{StoreFull};
ghost use Rattle.reply_text.specs.declared.reply.Reply.{Reply};
ghost use Rattle.reply_text.specs.declared.reply.Reply.TheVariants.{Committed, Compacted, Refused, Trimmed};
ghost use Rattle.request_form.specs.Asked.{Asked, asks};
ghost use Rattle.request_form.specs.Command.{close_pit, commit, compact, trim};
ghost use Rattle.tree_objects.specs.Tree.{Tree};

/// The trees that the layout has live are the live trees, after each request as before it: sealing and what else becomes of
/// segments change no answer.
pub fn the_layout_has_the_live_trees()
    ensures { (limits : Limits) (before : State) (asked : Asked) (reply : Reply) (after : State) → IsLaid before → MayAnswer limits before asked reply after → IsLaid after }
{}

/// The live trees stand by ascending numbers below the next one, and no two of them have the same id, after each request as
/// before it.
pub fn live_trees_are_numbered()
    ensures { (limits : Limits) (before : State) (asked : Asked) (reply : Reply) (after : State) → IsNumbered before.content → MayAnswer limits before asked reply after → IsNumbered after.content }
{}

/// The ids of points in time are given once, one that is opened has the trees that are live then, and it has them until it is
/// closed, whatever is asked for between.
pub fn points_in_time_keep_their_trees()
    ensures given { (limits : Limits) (before : State) (asked : Asked) (reply : Reply) (after : State) → AreGiven before.points → MayAnswer limits before asked reply after → AreGiven after.points }
    ensures opened { (state : State) → AreGiven state.points
        → searched (Some (state.points.opened + 1)) (with_points (with_point state.content.live state.points) state) ≡ Some state.content.live }
    ensures kept { (limits : Limits) (before : State) (asked : Asked) (reply : Reply) (after : State) (id : ℕ) (live : List Tree) → asked ≢ asks (close_pit id)
        → searched (Some id) before ≡ Some live → MayAnswer limits before asked reply after → searched (Some id) after ≡ Some live }
    ensures others { (limits : Limits) (before : State) (asked : Asked) (reply : Reply) (after : State) → asks_so is_of_points asked ≡ false
        → MayAnswer limits before asked reply after → after.points ≡ before.points }
{}

/// Where trees stand and what is stored shows in no reply but those to requests for segments, for merges and of the store:
/// states that agree but for these give the same reply to any other request, and agree so afterwards; whatever may be
/// answered in one may be answered in the other. Commits are answered alike where both have room.
pub fn no_other_reply_shows_the_layout()
    ensures reply { (limits : Limits) (mine yours : List ℕ) (one other : State) (asked : Asked) → AgreeBeside one other → asks_so shows_layout asked ≡ false
        → (step limits yours other asked).reply ≡ (step limits mine one asked).reply }
    ensures after { (limits : Limits) (mine yours : List ℕ) (one other : State) (asked : Asked) → AgreeBeside one other → asks_so shows_layout asked ≡ false
        → AgreeBeside (step limits mine one asked).state (step limits yours other asked).state }
    ensures may { (limits : Limits) (one other : State) (asked : Asked) (reply : Reply) (after : State) → AgreeBeside one other → asks_so shows_layout asked ≡ false
        → MayAnswer limits one asked reply after → (after2 : State) × MayAnswer limits other asked reply after2 × AgreeBeside after after2 }
    ensures commits { (limits : Limits) (mine yours : List ℕ) (one other : State) → AgreeBeside one other → (step limits mine one (asks commit)).reply ≢ Refused StoreFull
        → (step limits yours other (asks commit)).reply ≢ Refused StoreFull → (step limits yours other (asks commit)).reply ≡ (step limits mine one (asks commit)).reply }
{}

/// What is asked of the layout and of the store leaves all else as it was, so such requests, put in or left out, change no reply
/// to another one.
pub fn merges_and_commits_change_no_other_reply()
    ensures unseen { (limits : Limits) (before : State) (asked : Asked) (reply : Reply) (after : State) → asks_so is_of_layout asked ≡ true
        → MayAnswer limits before asked reply after → AgreeBeside before after }
    ensures runs { (limits : Limits) (state : State) (run : List Asking)
        → replies_to is_beside limits state (those_beside run) ≡ replies_to is_beside limits state run }
    ensures left_out { (limits : Limits) (state : State) (run : List Exchange) → MayExchange limits state run → MayExchange limits state (exchanges_beside run) }
{}

/// Where each item of a layout gives way to what is kept of it, a tree to its block, a merge command gives the same reply, and
/// does the same to the layout.
pub fn merge_commands_are_alike<A, B>()
    ensures { (f : A → B) (command : MergeCommand) (layout : Layout A) → merged_by command (layout_as f layout) ≡ answer_as f (merged_by command layout) }
{}

/// Commits, compactions and trims alone need the disk, and only what needs it may be answered that it failed.
pub fn the_store_alone_needs_the_disk()
    ensures needs { (limits : Limits) (sizes : List ℕ) (state : State) (asked : Asked) → asks_so is_of_store asked ≡ false → (step limits sizes state asked).need ≡ nothing }
    ensures failed { (before : State) (outcome : Outcome) (reply : Reply) (after : State) → outcome.need ≡ nothing → MayEnd before outcome reply after
        → Stepped outcome reply after ⊎ WantsMemory before reply after }
{}

/// A commit, a compaction and a trim leave the buffer sealed. One that is acknowledged takes the next generation and names each
/// segment; one that finds no room leaves what the last one named. No move gives a segment a greater place, and no trim cuts the
/// header or what is named.
pub fn commits_keep_what_they_name()
    ensures sealed { (limits : Limits) (sizes : List ℕ) (state : State) (asked : Asked) (m : Mapping) → asks_so is_of_store asked ≡ true → state.content.mapping ≡ Some m
        → (step limits sizes state asked).state.layout ≡ sealed state.layout }
    ensures committed { (limits : Limits) (before : State) (next : ℕ) (after : State) → MayAnswer limits before (asks commit) (Committed next) after → IsKept before after }
    ensures compacted { (limits : Limits) (before : State) (most count next : ℕ) (after : State) → MayAnswer limits before (asks (compact most)) (Compacted count next) after → IsKept before after }
    ensures moves { (limits : Limits) (most : ℕ) (room : Room) (state : State) → AllByRecursion (MovesDown (placed_segments state)) (moves_in limits most room state) }
    ensures trimmed { (limits : Limits) (sizes : List ℕ) (state : State) (bytes : ℕ) → (step limits sizes state (asks trim)).reply ≡ Trimmed bytes
        → (2048 ≤ bytes) × AllByRecursion (λ (extent : Extent). extent.at + extent.len ≤ bytes) state.kept.taken }
{}
