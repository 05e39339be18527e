//! How many roots of entries are live.

ghost use Rattle.std.specs.Prelude.{◌≡◌, ◌≤◌, length};
ghost use Rattle.flattener.specs.Fits.{most_live};
ghost use Rattle.merge_jobs.specs.Job.{live_in_all};
ghost use Rattle.segment_builder.specs.Blocks.{live_blocks, objects_of};

use segment_builder::blocks_are_whole;
use segment_view::Entry;

/// How many roots of an entry are live: one for each live block.
pub fn live_roots(entry: &Entry) -> u32
    ensures { result ≡ length (live_blocks entry.now) }
{
    let live = entry.live();
    blocks_are_whole(entry.segment());
    live.live_roots().count()
}

/// How many roots of some entries are live.
pub(crate) fn live_roots_in(entries: &[Entry]) -> u64
    requires { objects_of (live_in_all entries.now) ≤ most_live }
    ensures { result ≡ length (live_in_all entries.now) }
{
    let mut live = 0;
    'entries: for entry in entries {
        live += live_roots(entry) as u64;
    }
    live
}
