//! A commit, read from where a slot leads.

ghost use Rattle.std.specs.Prelude.{◌≡◌, ◌≤◌, ◌^◌, ◌∷◌, ℕ, List, Some, map, IfOk, OnOk, IsErrOf};
ghost use Rattle.disk.specs.Stops.{LenOf};
ghost use Rattle.mapping.specs.Mapping.{Mapping as Mappings};
ghost use Rattle.segment.specs.Live.{EntryState};
ghost use Rattle.store_text.specs.declared.record.RecordText.{RecordText as Record};
ghost use Rattle.store_opening.specs.Entries.{IsHead, IsSaid, StandsSaid, extent_in, extents_named};
ghost use Rattle.store_opening.specs.Looking.{Looked, HasOpenCause};
ghost use Rattle.store_opening.specs.Read.{HasRecord};

use crate::blocks::are_blocks;
use crate::bodies::mapping_of_bodies;
use crate::entries::read_entries;
use crate::extents::are_placed;
use crate::once::columns_are_read_once;
use crate::record::read_record_at;
use crate::refusal::{NoMemory, OpenRefusal};
use disk::Disk;
use extent_pool::{Extent, ExtentList};
use mapping::Mapping;
use segment_view::View;
use std::alloc::Global;
use store_text::{RecordText, Row, record_has_one_text};

/// The last sequence number that there is.
const LAST_NUMBER: u64 = 1 << 62;

/// What was read of a commit: its record, the extents that it names, its mapping, and its segments as a view.
#[derive(Drop)]
pub struct CommitRead {
    pub record: RecordText,
    pub named: ExtentList,
    pub mapping: Mapping,
    pub view: View,
}

/// The commit whose record stands at a place of the file, whose length is known, with a text of `len` bytes. Damaged exactly
/// where no good commit of a store of at most `limit` bytes stands there.
#[tactic(auto, using(crate::proofs::Refusing::refused))]
pub fn read_commit<D: Disk>(
    alloc: Global,
    disk: &mut D,
    file_len: u64,
    limit: u64,
    at: u64,
    len: u64,
) -> Result<CommitRead, OpenRefusal>
    requires len { LenOf (D.content disk.old) file_len }
    requires limit { limit ≤ 2 ^ 38 }
    ensures said { IfOk result (λ c. IsSaid limit at len c.record c.mapping c.view) }
    ensures named { IfOk result (λ c. c.named.extents ≡ extents_named at len c.record) }
    ensures stands { IfOk result (λ c. (file : List ℕ) → D.content disk.old ≡ Some file → StandsSaid at len c.record c.mapping c.view file) }
    ensures damaged { IsErrOf result OpenRefusal.Damaged → (file : List ℕ) (it : Record) (m : Mappings) (view : List EntryState) → D.content disk.old ≡ Some file
        → IsSaid limit at len it m view → StandsSaid at len it m view file → ⊥ }
    ensures not_a_store { IsErrOf result OpenRefusal.NotAStore → ⊥ }
    ensures content { OnOk result (D.content disk.new ≡ D.content disk.old) }
    ensures looked { Looked (D.content disk.old) (D.content disk.new) (D.image disk.old) (D.image disk.new) (D.moment disk.old) (D.moment disk.new) (D.image_since disk.old) (D.image_since disk.new) }
    ensures cause { HasOpenCause (D.faults disk.old) (D.faults disk.new) result }
{
    columns_are_read_once();
    record_has_one_text();
    let RecordRead {
        record,
        named,
        mapping,
    } = read_said(alloc, disk, file_len, limit, at, len)?;
    let view = read_entries(
        alloc,
        disk,
        file_len,
        &mapping,
        record.old,
        record.rows.as_slice(),
    )?;
    if !are_blocks(alloc, view.entries(), record.next)? {
        return Err(OpenRefusal::Damaged);
    }
    Ok(CommitRead {
        record,
        named,
        mapping,
        view,
    })
}

/// What was read of a record: the extents that it names, and its mapping.
#[derive(Drop)]
struct RecordRead {
    record: RecordText,
    named: ExtentList,
    mapping: Mapping,
}

/// The record that stands at a place of the file, whose length is known, with a text of `len` bytes; its next number is one that
/// there is, the extents that it names are a store's, and its bodies a mapping.
#[tactic(auto, using(crate::proofs::Refusing::refused))]
fn read_said<D: Disk>(
    alloc: Global,
    disk: &mut D,
    file_len: u64,
    limit: u64,
    at: u64,
    len: u64,
) -> Result<RecordRead, OpenRefusal>
    requires len { LenOf (D.content disk.old) file_len }
    requires limit { limit ≤ 2 ^ 38 }
    ensures head { IfOk result (λ c. IsHead limit at len c.record c.mapping) }
    ensures named { IfOk result (λ c. c.named.extents ≡ extents_named at len c.record) }
    ensures stands { IfOk result (λ c. (file : List ℕ) → D.content disk.old ≡ Some file → HasRecord at len c.record file) }
    ensures damaged { IsErrOf result OpenRefusal.Damaged → (file : List ℕ) (it : Record) (m : Mappings) → D.content disk.old ≡ Some file
        → IsHead limit at len it m → HasRecord at len it file → ⊥ }
    ensures not_a_store { IsErrOf result OpenRefusal.NotAStore → ⊥ }
    ensures content { OnOk result (D.content disk.new ≡ D.content disk.old) }
    ensures looked { Looked (D.content disk.old) (D.content disk.new) (D.image disk.old) (D.image disk.new) (D.moment disk.old) (D.moment disk.new) (D.image_since disk.old) (D.image_since disk.new) }
    ensures cause { HasOpenCause (D.faults disk.old) (D.faults disk.new) result }
{
    record_has_one_text();
    let record = read_record_at(alloc, disk, file_len, at, len)?;
    if record.next > LAST_NUMBER {
        return Err(OpenRefusal::Damaged);
    }
    let named = extents_of(alloc, at, len, record.rows.as_slice())?;
    if !are_placed(alloc, limit, &named)? {
        return Err(OpenRefusal::Damaged);
    }
    let Some(mapping) = mapping_of_bodies(alloc, record.bodies.as_slice(), record.dynamic)? else {
        return Err(OpenRefusal::Damaged);
    };
    Ok(RecordRead {
        record,
        named,
        mapping,
    })
}

/// The extents that a record of this place and length names, its own first.
fn extents_of(alloc: Global, at: u64, len: u64, rows: &[Row]) -> Result<ExtentList, NoMemory>
    ensures { IfOk result (λ named. named.extents ≡ record { at = at; len = len } ∷ map extent_in rows.now) }
{
    let mut named = Vec::with_capacity(alloc, rows.len() + 1)?;
    named.push(Extent { at, len })?;
    'rows: for row in rows {
        named.push(Extent {
            at: row.at,
            len: row.len,
        })?;
    }
    Ok(ExtentList::of(named))
}
