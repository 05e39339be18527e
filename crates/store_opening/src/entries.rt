//! The segments that a record names, as entries of a view.

ghost use Rattle.std.specs.Prelude.{◌≡◌, ◌++◌, ◌∷◌, [], ℕ, List, Some, length, IfOk, OnOk, IsErrOf};
ghost use Rattle.std.specs.List.{All};
ghost use Rattle.disk.specs.Stops.{LenOf};
ghost use Rattle.segment.specs.Live.{EntryState};
ghost use Rattle.segment_view.specs.Views.{IsNewId};
ghost use Rattle.store_text.specs.Record.{IsRow};
ghost use Rattle.store_opening.specs.Entries.{AreNumbered, IsEntryOf, StandsFor};
ghost use Rattle.store_opening.specs.Looking.{Looked, HasOpenCause};

use crate::dead::live_bits_of;
use crate::once::columns_are_read_once;
use crate::refusal::OpenRefusal;
use crate::segments::read_segment;
use disk::Disk;
use extent_pool::Extent;
use mapping::Mapping;
use segment_fits::fits;
use segment_view::{Entry, View};
use std::alloc::Global;
use store_text::Row;

/// The segments that the rows of a record name, as entries of a view with ids from 0 on: each is read once, and is one that the
/// mapping can have made. `old` says whether they are of the form from before mappings grew. Damaged exactly where there are no
/// such segments in the file, whose length is known.
#[tactic(auto, using(crate::proofs::Numbered::numbered))]
pub fn read_entries<D: Disk>(
    alloc: Global,
    disk: &mut D,
    file_len: u64,
    mapping: &Mapping,
    old: bool,
    rows: &[Row],
) -> Result<View, OpenRefusal>
    requires len { LenOf (D.content disk.old) file_len }
    requires rows { All IsRow rows.now }
    ensures are { IfOk result (AreNumbered (IsEntryOf mapping.now old) 0 rows.now) }
    ensures stand { IfOk result (λ view. (file : List ℕ) → D.content disk.old ≡ Some file → AreNumbered (StandsFor old (length mapping.now.scopes) file) 0 rows.now view) }
    ensures damaged { IsErrOf result OpenRefusal.Damaged → (file : List ℕ) (view : List EntryState) → D.content disk.old ≡ Some file
        → AreNumbered (IsEntryOf mapping.now old) 0 rows.now view → AreNumbered (StandsFor old (length mapping.now.scopes) file) 0 rows.now view → ⊥ }
    ensures not_a_store { IsErrOf result OpenRefusal.NotAStore → ⊥ }
    ensures content { OnOk result (D.content disk.new ≡ D.content disk.old) }
    ensures looked { Looked (D.content disk.old) (D.content disk.new) (D.image disk.old) (D.image disk.new) (D.moment disk.old) (D.moment disk.new) (D.image_since disk.old) (D.image_since disk.new) }
    ensures cause { HasOpenCause (D.faults disk.old) (D.faults disk.new) result }
{
    let mut view = View::empty(alloc);
    'rows: for row in rows {
        let id = view.entries().len() as u128;
        let entry = read_entry(alloc, disk, file_len, mapping, old, id, row)?;
        view.push(entry)?;
    }
    Ok(view)
}

/// The segment that a row names, as an entry under this id.
#[tactic(auto, using(crate::proofs::Numbered::not_of_row))]
fn read_entry<D: Disk>(
    alloc: Global,
    disk: &mut D,
    file_len: u64,
    mapping: &Mapping,
    old: bool,
    id: u128,
    row: &Row,
) -> Result<Entry, OpenRefusal>
    requires len { LenOf (D.content disk.old) file_len }
    requires row { IsRow row.now }
    ensures is { IfOk result (IsEntryOf mapping.now old id row.now) }
    ensures stands { IfOk result (λ entry. (file : List ℕ) → D.content disk.old ≡ Some file → StandsFor old (length mapping.now.scopes) file id row.now entry) }
    ensures damaged { IsErrOf result OpenRefusal.Damaged → (file : List ℕ) (entry : EntryState) → D.content disk.old ≡ Some file
        → IsEntryOf mapping.now old id row.now entry → StandsFor old (length mapping.now.scopes) file id row.now entry → ⊥ }
    ensures not_a_store { IsErrOf result OpenRefusal.NotAStore → ⊥ }
    ensures content { OnOk result (D.content disk.new ≡ D.content disk.old) }
    ensures looked { Looked (D.content disk.old) (D.content disk.new) (D.image disk.old) (D.image disk.new) (D.moment disk.old) (D.moment disk.new) (D.image_since disk.old) (D.image_since disk.new) }
    ensures cause { HasOpenCause (D.faults disk.old) (D.faults disk.new) result }
{
    columns_are_read_once();
    let extent = Extent {
        at: row.at,
        len: row.len,
    };
    let segment = read_segment(alloc, disk, file_len, extent, old, mapping.scope_count())?;
    if !fits(alloc, mapping, &segment)? {
        return Err(OpenRefusal::Damaged);
    }
    let Some(live) = live_bits_of(alloc, &segment, row.dead.as_slice())? else {
        return Err(OpenRefusal::Damaged);
    };
    Ok(Entry::new(alloc, id, segment, live)?)
}
