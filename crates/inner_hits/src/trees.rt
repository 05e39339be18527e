//! The trees of documents.
ghost use Rattle.std.specs.Prelude.{◌≡◌, ◌<◌, List, length};
ghost use Rattle.flattener.specs.StandsFor.{EntryStandsFor, Marked};
ghost use Rattle.mapping.specs.Mapping.{Mapping as Meaning};
ghost use Rattle.segment.specs.Live.{LiveState, root_of as block_root};
ghost use Rattle.segment_parts.specs.Parts.{root_flags};
ghost use Rattle.inner_hits.specs.Roots.{IsRootOf};
ghost use Rattle.tree_objects.specs.Tree.{Tree};

use segment::{Segment, scopes_are_of_documents};
use view_objects::documents_are_of_objects;

/// The root of a document's block.
pub(crate) fn root_of(segment: &Segment, doc: u32) -> u32
    requires { doc < segment.now.documents }
    ensures within { result < length segment.now.roots }
    ensures index { result ≡ block_root (root_flags segment.now.scopes) doc }
    ensures root { (m : Meaning) (bits : LiveState) (trees : List (Marked Tree)) → EntryStandsFor m segment.now bits trees → IsRootOf m segment.now bits trees doc result }
{
    documents_are_of_objects();
    scopes_are_of_documents(segment);
    let _documents = segment.docs();
    segment.root_of_doc(doc)
}
