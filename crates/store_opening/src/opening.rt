//! Opening a store.

ghost use Rattle.std.specs.Prelude.{◌≡◌, ◌≢◌, ◌≤◌, ◌^◌, [], ℕ, List, Option, None, Some, true, length, IfOk, IfErr, OnOk, IsErrOf};
ghost use Rattle.io_edges.specs.Faults.{HasCause};
ghost use Rattle.disk.specs.Stops.{IsTold, Only};
ghost use Rattle.store_text.specs.Header.{magic};
ghost use Rattle.store_text.specs.Pieces.{Stands};
ghost use Rattle.commit_images.specs.Commits.{IsBlank};
ghost use Rattle.commit_store.specs.Saying.{StoreCommit, Found};
ghost use Rattle.store_opening.specs.Beginning.{IsOther};
ghost use Rattle.store_opening.specs.Looking.{Looked, HasOpenCause};
ghost use Rattle.store_opening.specs.Opening.{Inspects, IsFitting, IsInspected, IsLeftBy, IsOpenedAs, IsWhole, Opens};
ghost use Rattle.store_opening.specs.Shown.{IsCommitWhole, ShowsCommit, known_read};

use crate::blocks::entries_are_known;
use crate::commit::CommitRead;
use crate::holding::{CommitFound, StoreRead, read_store};
use crate::opened::{Inspected, Opened};
use crate::refusal::{NoMemory, OpenRefusal};
use commit_images::an_opened_store_keeps_its_commit;
use commit_store::{KnownSegment, Store, StoreSaying};
use disk::Disk;
use extent_pool::{Extent, ExtentList};
use io_edges::Failed;
use segment_builder::fitting_segments_are_blocks;
use segment_view::{Entry, View};
use std::alloc::Global;
use store_text::{Row, header_bytes};

/// Opens the store of at most `limit` bytes in the disk's file. An empty file is made a store without a commit first, and synced;
/// no other is written. Each segment is read once. NotAStore: the file has bytes, but doesn't begin with the magic. Damaged: it
/// begins with the magic, and holds neither a good commit nor none. NoMemory: as much as the file says isn't to be had.
#[tactic(auto, using(crate::proofs::Shows::shown))]
pub fn open_store<D: Disk>(alloc: Global, disk: &mut D, limit: u64) -> Result<Opened, OpenRefusal>
    requires { limit ≤ 2 ^ 38 }
    ensures fits { IfOk result (IsFitting limit) }
    ensures opens { IfOk result (λ it. (file : List ℕ) → D.content disk.old ≡ Some file → Opens limit file it (D.content disk.old) (D.content disk.new) (D.image disk.old) (D.image disk.new)) }
    ensures not_a_store { IsErrOf result OpenRefusal.NotAStore → (file : List ℕ) → D.content disk.old ≡ Some file → IsOther file }
    ensures damaged { IsErrOf result OpenRefusal.Damaged → (file : List ℕ) → D.content disk.old ≡ Some file → Stands file magic × ((found : Option StoreCommit) → Found limit file found → ⊥) }

    // A file that isn't empty is only looked at; so is each that isn't opened, but where a call of the disk failed.
    ensures looked { (file : List ℕ) → D.content disk.old ≡ Some file → file ≢ []
        → Looked (D.content disk.old) (D.content disk.new) (D.image disk.old) (D.image disk.new) (D.moment disk.old) (D.moment disk.new) (D.image_since disk.old) (D.image_since disk.new) }
    ensures left { IfErr result (IsLeftBy (Looked (D.content disk.old) (D.content disk.new) (D.image disk.old) (D.image disk.new) (D.moment disk.old) (D.moment disk.new) (D.image_since disk.old) (D.image_since disk.new))) }
    ensures told { IsTold (D.content disk.new) → IsTold (D.content disk.old) }
    ensures later { D.moment disk.old ≤ D.moment disk.new }
    ensures cause { HasOpenCause (D.faults disk.old) (D.faults disk.new) result }
{
    match read_store(alloc, disk, limit)? {
        StoreRead::Empty => {
            prepare(disk)?;
            an_opened_store_keeps_its_commit::<StoreSaying, D>(disk);
            Ok(without_commit(alloc, limit))
        }
        StoreRead::Blank => {
            an_opened_store_keeps_its_commit::<StoreSaying, D>(disk);
            Ok(without_commit(alloc, limit))
        }
        StoreRead::Commit(found) => {
            an_opened_store_keeps_its_commit::<StoreSaying, D>(disk);
            Ok(with_commit(alloc, limit, found)?)
        }
    }
}

/// Reads what the store of at most `limit` bytes in the disk's file holds, of which an empty file holds nothing. Nothing is
/// written. The refusals are those of `open_store`.
pub fn inspected<D: Disk>(alloc: Global, disk: &mut D, limit: u64) -> Result<Inspected, OpenRefusal>
    requires { limit ≤ 2 ^ 38 }
    ensures fits { IfOk result (λ it. IsWhole it.mapping it.next it.view) }
    ensures inspects { IfOk result (λ it. (file : List ℕ) → D.content disk.old ≡ Some file → Inspects limit file it) }
    ensures not_a_store { IsErrOf result OpenRefusal.NotAStore → (file : List ℕ) → D.content disk.old ≡ Some file → IsOther file }
    ensures damaged { IsErrOf result OpenRefusal.Damaged → (file : List ℕ) → D.content disk.old ≡ Some file → Stands file magic × ((found : Option StoreCommit) → Found limit file found → ⊥) }
    ensures content { OnOk result (D.content disk.new ≡ D.content disk.old) }
    ensures looked { Looked (D.content disk.old) (D.content disk.new) (D.image disk.old) (D.image disk.new) (D.moment disk.old) (D.moment disk.new) (D.image_since disk.old) (D.image_since disk.new) }
    ensures cause { HasOpenCause (D.faults disk.old) (D.faults disk.new) result }
{
    match read_store(alloc, disk, limit)? {
        StoreRead::Empty => Ok(nothing(alloc)),
        StoreRead::Blank => Ok(nothing(alloc)),
        StoreRead::Commit(found) => Ok(told_by(found)),
    }
}

/// What a commit that was read says.
fn told_by(found: CommitFound) -> Inspected
    requires { (limit : ℕ) × IsCommitWhole limit found }
    ensures fits { IsWhole result.mapping result.next result.view }
    ensures inspected { (limit : ℕ) (file : List ℕ) (shows : ShowsCommit limit found file) → IsInspected (Some shows.commit) result }
{
    let CommitFound {
        side: _side,
        generation: _generation,
        at: _at,
        len: _len,
        closed: _closed,
        commit,
    } = found;
    let CommitRead {
        record,
        named: _named,
        mapping,
        view,
    } = commit;
    Inspected {
        mapping: Some(mapping),
        next: record.next,
        view,
    }
}

/// What there is where there is no commit, and no store. Takes no memory.
fn nothing(alloc: Global) -> Inspected
    ensures fits { IsWhole result.mapping result.next result.view }
    ensures inspected { IsInspected None result }
{
    Inspected {
        mapping: None,
        next: 0,
        view: View::empty(alloc),
    }
}

/// A store without a commit, whose idle gate is closed. Takes no memory.
fn without_commit(alloc: Global, limit: u64) -> Opened
    requires { limit ≤ 2 ^ 38 }
    ensures opened { IsOpenedAs limit None true result }
    ensures fits { IsFitting limit result }
{
    let named = ExtentList::of(Vec::new(alloc));
    Opened {
        store: Store::over(alloc, limit, None, Vec::new(alloc), named, 0, true),
        mapping: None,
        next: 0,
        view: View::empty(alloc),
    }
}

/// Makes an empty file a store without a commit, and syncs it.
fn prepare<D: Disk>(disk: &mut D) -> Result<(), Failed>
    ensures blank { OnOk result (D.content disk.old ≡ Some [] → (file : List ℕ) × (D.content disk.new ≡ Some file) × IsBlank file) }
    ensures only { OnOk result (Only (D.content disk.new) (D.image disk.new)) }
    ensures told { IsTold (D.content disk.new) → IsTold (D.content disk.old) }
    ensures later { D.moment disk.old ≤ D.moment disk.new }
    ensures cause { HasCause (D.faults disk.old) (D.faults disk.new) result }
{
    disk.write_at(0, &header_bytes())?;
    disk.sync()?;
    Ok(())
}

/// The store of a commit that was read.
fn with_commit(alloc: Global, limit: u64, found: CommitFound) -> Result<Opened, NoMemory>
    requires limit { limit ≤ 2 ^ 38 }
    requires whole { IsCommitWhole limit found }
    ensures opened { IfOk result (λ it. (file : List ℕ) (shows : ShowsCommit limit found file) → IsOpenedAs limit (Some shows.commit) found.closed it) }
    ensures fits { IfOk result (IsFitting limit) }
{
    entries_are_known(found.commit.view.entries());
    fitting_segments_are_blocks();
    let CommitFound {
        side,
        generation,
        at: _at,
        len: _len,
        closed,
        commit,
    } = found;
    let CommitRead {
        record,
        named,
        mapping,
        view,
    } = commit;
    let known = known_by(alloc, record.old, view.entries(), record.rows.as_slice())?;
    Ok(Opened {
        store: Store::over(alloc, limit, Some(side), known, named, generation, closed),
        mapping: Some(mapping),
        next: record.next,
        view,
    })
}

/// What a store knows of the segments of a commit: each with its extent, and none where they are of the form from before
/// mappings grew.
fn known_by(
    alloc: Global,
    old: bool,
    entries: &[Entry],
    rows: &[Row],
) -> Result<Vec<KnownSegment>, NoMemory>
    requires { length entries.now ≡ length rows.now }
    ensures { IfOk result (λ known. known.items ≡ known_read old entries.now rows.now) }
{
    let mut known = Vec::new(alloc);
    if old {
        return Ok(known);
    }
    'entries: for index in 0..entries.len() {
        known.push(KnownSegment {
            entry: entries[index].share()?,
            extent: Extent {
                at: rows[index].at,
                len: rows[index].len,
            },
        })?;
    }
    Ok(known)
}
