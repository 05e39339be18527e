//! Replies: one variant for each form, with the values that the form prints.
use crate::layout::{MergeRows, SegmentRows};
use crate::refusal::Refusal;
use query_ast::{AggReplies, HitPage};
use tree_objects::Bytes;

/// What became of a tree by an accepted write.
#[derive(Clone, Copy, Debug, PartialEq, Eq)]
pub enum WriteResult {
    /// There was no live tree of that id.
    Created,
    /// The live tree of that id was replaced.
    Updated,
    /// The live tree of that id is live no more.
    Deleted,
    /// The live tree stays as it is, with its number.
    Noop,
}

impl WriteResult {
    ghost use Rattle.std.specs.Prelude.{◌≡◌};
    ghost use Rattle.reply_text.specs.Text.{result_word};

    // The word for it.
    pub(crate) fn word(self) -> &'static str
        ensures { result.now ≡ result_word self }
    {
        match self {
            WriteResult::Created => "created",
            WriteResult::Updated => "updated",
            WriteResult::Deleted => "deleted",
            WriteResult::Noop => "noop",
        }
    }
}

/// A reply.
#[derive(Drop)]
pub enum Reply {
    /// To a mapping line that was accepted.
    Mapped,
    /// To `refresh`.
    Refreshed,
    /// To a write: the id, the sequence number of the tree that was put, taken out or left as it was, and what it became.
    Written {
        id: Bytes,
        number: u64,
        result: WriteResult,
    },
    /// To a `delete` of an id that isn't live.
    NotFound {
        id: Bytes,
    },
    /// To `search`: the page of hits, and the answers of its buckets, which are printed where there are any.
    Found {
        page: HitPage,
        answers: AggReplies,
    },
    /// To `open_pit`: the id of the point in time.
    PitOpened {
        pit: u64,
    },
    /// To `close_pit`.
    PitClosed {
        pit: u64,
    },
    /// To the start of a merge: its id, and how many roots are live in its segments.
    MergeStarted {
        merge: u64,
        roots: u64,
    },
    /// To an advance of a merge: how many roots are left.
    MergeAdvanced {
        left: u64,
        merge: u64,
    },
    /// To the finish of a merge: how many roots the new segment has.
    MergeFinished {
        live: u64,
        merge: u64,
    },
    /// To the abort of a merge.
    MergeAborted {
        merge: u64,
    },
    /// To `forcemerge`: how many segments there are now.
    ForceMerged {
        segments: u64,
    },
    /// To `automerge`: the factor, or 0 where it is off.
    AutoMerge {
        factor: u64,
    },
    /// To `segments`.
    Layout {
        merges: MergeRows,
        segments: SegmentRows,
    },
    /// To `commit`: the next sequence number.
    Committed {
        next: u64,
    },
    /// To `compact`: how many segments were moved.
    Compacted {
        moved: u64,
        next: u64,
    },
    /// To `trim`: the bytes of the store file.
    Trimmed {
        bytes: u64,
    },
    /// What `check` prints of a store.
    Checked {
        next: u64,
        segments: SegmentRows,
    },
    /// What `run-made` prints: the bytes of all replies with their newlines, the refusals among them, and the replies.
    RanMade {
        bytes: u64,
        errors: u64,
        lines: u64,
    },
    /// The request is refused.
    Refused {
        why: Refusal,
    },
    /// There was no memory.
    OutOfMemory,
}
