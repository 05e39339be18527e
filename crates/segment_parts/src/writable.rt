//! Whether columns can be written: whether their lists are as long as there are documents and roots.

ghost use Rattle.std.specs.Prelude.{◌≡◌, ◌↔◌, length, IsTrue};
ghost use Rattle.std.specs.List.{All};
ghost use Rattle.segment_parts.specs.Fields.{AreByField};
ghost use Rattle.segment_parts.specs.Parts.{IsHead, IsPresence, AreParts};

use crate::parts::count_roots;
use crate::{ByField, Columns};
use block_bits::BitSet;

/// Whether columns can be written.
pub(crate) fn are_parts(columns: &Columns) -> bool
    ensures { IsTrue result ↔ AreParts columns.now }
{
    let scopes = columns.scopes.as_slice();
    let roots = columns.roots.as_slice();
    let _terms = columns.terms.as_slice();
    let _ordinals = columns.ordinals.as_slice();
    let _numbers = columns.numbers.as_slice();
    is_head(columns.documents, scopes)
        && roots.len() == count_roots(scopes) as usize
        && are_present(columns.documents, &columns.present)
}

/// Whether there are documents and scopes, each scope with a bit for each document.
fn is_head(documents: u32, scopes: &[BitSet]) -> bool
    ensures { IsTrue result ↔ IsHead documents scopes.now }
{
    documents >= 1
        && !scopes.is_empty()
        && scopes.len() <= u32::MAX as usize
        && scopes.iter().all(|scope| scope.len() == documents)
}

/// Whether text fields are numbered by u32, each with a bit for each document.
fn are_present(documents: u32, present: &ByField<BitSet>) -> bool
    ensures { IsTrue result ↔ AreByField (IsPresence documents) present.now }
{
    let columns = present.as_slice();
    columns.len() <= u32::MAX as usize && have_length(documents, columns)
}

/// Whether each text field has a bit for each document.
fn have_length(documents: u32, columns: &[(u32, BitSet)]) -> bool
    ensures { IsTrue result ↔ All (IsPresence documents) columns.now }
{
    'columns: for (field, set) in columns {
        let _field = *field;
        if set.len() != documents {
            return false;
        }
    }
    true
}
