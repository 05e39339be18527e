//! A view that may be committed.

ghost use Rattle.std.specs.Prelude.{All};
ghost use Rattle.segment.specs.Live.{EntryState};
ghost use Rattle.segment_parts.specs.Agree.{AreColumns};
ghost use Rattle.segment_view.specs.Views.{HaveOwnIds};
ghost use Rattle.commit_store.specs.Preparing.{IsCommittable};
ghost use Rattle.store_commands.specs.Commands.{HaveColumns};
ghost use Rattle.store_commands.specs.Ready.{HasItems, IsReady};

use commit_store::Store;
use index_core::IndexCore;
use mapping::Mapping;
use segment_builder::fitting_segments_are_blocks;
use segment_view::Entry;

/// The view of an index with an empty buffer may be committed, by what the index and the store keep. Does nothing.
pub(crate) fn view_is_committable(mapping: &Mapping, index: &IndexCore, store: &Store)
    requires { IsReady mapping.now index.now store.now }
    ensures committable { IsCommittable store.now mapping.now index.now.next index.now.entries }
    ensures agree { HaveColumns index.now }
    ensures ids { HaveOwnIds index.now.entries }
    ensures items { All HasItems index.now.entries }
{
    fitting_segments_are_blocks();
    let _next = index.next();
    columns_agree(index.view().entries());
}

/// The columns of entries agree. Does nothing but look.
fn columns_agree(entries: &[Entry])
    ensures { All (λ (entry : EntryState). AreColumns entry.columns) entries.now }
{
    'entries: for entry in entries {
        let _documents = entry.segment().docs();
    }
}
