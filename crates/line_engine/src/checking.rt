//! The word `check`: whether a store is sound, and what it holds.

ghost use Rattle.std.specs.Prelude.{◌≡◌, ◌≤◌, ◌^◌, ◌⊎◌, ◌↔◌, false, IsTrue, ℕ, List, Some, IfOk, IsErrOf};
ghost use Rattle.line_engine.specs.Checked.{AreHeld, IsOfFile};
ghost use Rattle.line_engine.specs.Printing.{Checks, IsChecked, IsUnsound, rows_of};
ghost use Rattle.line_engine.specs.Run.{IsCaused, IsDamaged, has_begun};
ghost use Rattle.store_opening.specs.Beginning.{IsOther};
ghost use Rattle.store_opening.specs.Looking.{HasOpenCause, Looked};
ghost use Rattle.store_opening.specs.Opening.{IsWhole};

use crate::printing::{line_of, print};
use crate::status::Status;
use disk::Disk;
use index_core::IndexCore;
use io_edges::Sink;
use layout_commands::rows;
use reply_text::{Reply, SegmentRows};
use std::alloc::Global;
use store_check::holds;
use store_opening::{Inspected, OpenRefusal, inspected};
use tree_json::OutText;

/// Reads the store of at most `limit` bytes in the disk's file, and prints a line of what it holds. Nothing is written to the disk.
/// Damaged: it is no store, or one whose segments aren't those of their sources. Nothing is printed before all was looked at.
#[tactic(auto, using(crate::proofs::Sound::prints))]
pub(crate) fn check<K: Sink, D: Disk>(
    alloc: Global,
    limit: u64,
    sink: &mut K,
    disk: &mut D,
) -> Status
    requires { limit ≤ 2 ^ 38 }
    ensures checks { Checks result limit (D.content disk.old) (K.taken sink.old) (K.taken sink.new) }
    ensures looks { Looked (D.content disk.old) (D.content disk.new) (D.image disk.old) (D.image disk.new) (D.moment disk.old) (D.moment disk.new) (D.image_since disk.old) (D.image_since disk.new) }
    ensures cause { (source : ℕ) → IsCaused result (record { source = source; sink = K.faults sink.old; disk = D.faults disk.old })
        (record { source = source; sink = K.faults sink.new; disk = D.faults disk.new }) }
    ensures untouched { has_begun result ≡ false → sink.new ≡ sink.old }
{
    match checked_line(alloc, limit, disk) {
        Ok(line) => print(sink, line.as_slice()),
        Err(why) => Status::from(why),
    }
}

// The line of a sound store.
#[tactic(auto, using(crate::proofs::Sound::checked_file))]
fn checked_line<D: Disk>(alloc: Global, limit: u64, disk: &mut D) -> Result<OutText, OpenRefusal>
    requires { limit ≤ 2 ^ 38 }
    ensures line { IfOk result (λ line. (bytes : List ℕ) → D.content disk.old ≡ Some bytes → IsChecked limit bytes (λ text. line.bytes ≡ text)) }
    ensures not_a_store { IsErrOf result OpenRefusal.NotAStore → (bytes : List ℕ) → D.content disk.old ≡ Some bytes → IsOther bytes }
    ensures damaged { IsErrOf result OpenRefusal.Damaged → (bytes : List ℕ) → D.content disk.old ≡ Some bytes → IsDamaged limit bytes ⊎ IsUnsound limit bytes }
    ensures looks { Looked (D.content disk.old) (D.content disk.new) (D.image disk.old) (D.image disk.new) (D.moment disk.old) (D.moment disk.new) (D.image_since disk.old) (D.image_since disk.new) }
    ensures cause { HasOpenCause (D.faults disk.old) (D.faults disk.new) result }
{
    let found = sound_store(alloc, limit, disk)?;
    let next = found.next;
    let Ok(segments) = segment_rows(alloc, found) else {
        return Err(OpenRefusal::NoMemory);
    };
    match line_of(alloc, &Reply::Checked { next, segments }) {
        Ok(line) => Ok(line),
        Err(_) => Err(OpenRefusal::NoMemory),
    }
}

// What a sound store holds.
#[tactic(auto, using(crate::proofs::Sound::found))]
fn sound_store<D: Disk>(alloc: Global, limit: u64, disk: &mut D) -> Result<Inspected, OpenRefusal>
    requires { limit ≤ 2 ^ 38 }
    ensures found { IfOk result (λ it. (bytes : List ℕ) → D.content disk.old ≡ Some bytes → IsOfFile limit bytes it) }
    ensures whole { IfOk result (λ it. IsWhole it.mapping it.next it.view) }
    ensures not_a_store { IsErrOf result OpenRefusal.NotAStore → (bytes : List ℕ) → D.content disk.old ≡ Some bytes → IsOther bytes }
    ensures damaged { IsErrOf result OpenRefusal.Damaged → (bytes : List ℕ) → D.content disk.old ≡ Some bytes → IsDamaged limit bytes ⊎ IsUnsound limit bytes }
    ensures looks { Looked (D.content disk.old) (D.content disk.new) (D.image disk.old) (D.image disk.new) (D.moment disk.old) (D.moment disk.new) (D.image_since disk.old) (D.image_since disk.new) }
    ensures cause { HasOpenCause (D.faults disk.old) (D.faults disk.new) result }
{
    let found = inspected(alloc, disk, limit)?;
    match is_sound(alloc, &found) {
        Ok(true) => Ok(found),
        Ok(false) => Err(OpenRefusal::Damaged),
        Err(_) => Err(OpenRefusal::NoMemory),
    }
}

// Whether the segments are those of their sources.
#[tactic(auto, using(crate::proofs::Sound::wholes))]
fn is_sound(alloc: Global, found: &Inspected) -> Result<bool, store_check::NoMemory>
    requires { IsWhole found.now.mapping found.now.next found.now.view }
    ensures { IfOk result (λ sound. IsTrue sound ↔ AreHeld found.now.mapping found.now.view) }
{
    match &found.mapping {
        Some(mapping) => holds(alloc, mapping, &found.view),
        None => Ok(true),
    }
}

// The rows of the segments, as `segments` shows them.
#[tactic(auto, using(crate::proofs::Sound::wholes))]
fn segment_rows(alloc: Global, found: Inspected) -> Result<SegmentRows, index_core::NoMemory>
    requires { IsWhole found.mapping found.next found.view }
    ensures { IfOk result (λ rows. rows ≡ rows_of found.view) }
{
    let index = IndexCore::over(alloc, found.view, found.next, 0)?;
    let Reply::Layout { segments, .. } = rows(alloc, &index)? else {
        unreachable!()
    };
    Ok(segments)
}
