//! The record of a commit that is prepared.

ghost use Rattle.std.specs.Prelude.{◌≡◌, map, IfOk, length};
ghost use Rattle.store_text.specs.Record.{record_text, IsRecord};
ghost use Rattle.commit_store.specs.Saying.{dead_of};
ghost use Rattle.commit_store.specs.Planned.{all_planned};
ghost use Rattle.commit_store.specs.Rows.{planned_row, record_planned};

use crate::prepared::Planned;
use crate::refusal::NoMemory;
use segment::LiveBits;
use std::alloc::Global;
use store_text::{Body, BodyList, DeadRoots, RecordText, Row, RowList, put_record};

/// The text of a commit's record.
pub(crate) fn record_bytes(
    alloc: Global,
    bodies: Vec<Body>,
    dynamic: bool,
    next: u64,
    segments: &[Planned],
) -> Result<Vec<u8>, NoMemory>
    requires { IsRecord (record_planned bodies.items dynamic next (all_planned segments.now)) }
    ensures { IfOk result (λ text. text.items ≡ record_text (record_planned bodies.items dynamic next (all_planned segments.now))) }
{
    let rows = rows(alloc, segments)?;
    let record = RecordText {
        old: false,
        next,
        dynamic,
        bodies: BodyList::of(bodies),
        rows: RowList::of(rows),
    };
    let mut bytes = Vec::new(alloc);
    put_record(&record, &mut bytes)?;
    Ok(bytes)
}

/// A row for each segment, in order.
fn rows(alloc: Global, segments: &[Planned]) -> Result<Vec<Row>, NoMemory>
    ensures { IfOk result (λ rows. rows.items ≡ map planned_row (all_planned segments.now)) }
{
    let mut rows = Vec::with_capacity(alloc, segments.len())?;
    'segments: for segment in segments {
        rows.push(Row {
            at: segment.extent.at,
            len: segment.extent.len,
            dead: DeadRoots::of(dead_roots(
                alloc,
                segment.seen.live(),
                segment.seen.segment().roots(),
            )?),
        })?;
    }
    Ok(rows)
}

/// The indexes of the roots that are dead, ascending.
fn dead_roots(alloc: Global, live: &LiveBits, roots: u32) -> Result<Vec<u32>, NoMemory>
    requires { length live.now.roots ≡ roots }
    ensures { IfOk result (λ dead. dead.items ≡ dead_of live.now.roots) }
{
    let mut dead = Vec::new(alloc);
    'roots: for root in 0..roots {
        if !live.root(root) {
            dead.push(root)?;
        }
    }
    Ok(dead)
}
