//! A record appended to bytes as text. After NoMemory the bytes are longer at most, and `put_record` cuts them again.

ghost use Rattle.std.specs.Prelude.{◌≡◌, ◌+◌, ◌<◌, ◌^◌, ◌++◌, false, length, OnOk, OnErr};
ghost use Rattle.std.specs.List.{All};
ghost use Rattle.part_text.specs.Text.{u32_text, counted_text};
ghost use Rattle.part_text.specs.Written.{Extends};
ghost use Rattle.store_text.specs.Record.{mark, bool_text, row_text, rows_text, bodies_text, record_text, record_size, AreBodyTexts, IsRow, IsRecord};
ghost use Rattle.store_text.specs.Reading.{new_after};

use crate::record::{Body, RecordText, Row};
use part_text::{NoMemory, put_string, put_u32, put_u64};

/// Appends a record in the form of today. After NoMemory the bytes are as they were.
#[tactic(auto, using(crate::proofs::Whole::whole))]
pub fn put_record(it: &RecordText, into: &mut Vec<u8>) -> Result<(), NoMemory>
    requires record { IsRecord it.now }
    requires form { it.now.old ≡ false }
    ensures put { OnOk result (into.new.items ≡ into.old.items ++ record_text it.now) }
    ensures size { OnOk result (length into.new.items ≡ length into.old.items + record_size it.now) }
    ensures unchanged { OnErr result (into.new.items ≡ into.old.items) }
{
    let old = into.len();
    let done = put_whole(it, into);
    if done.is_err() {
        into.truncate(old);
    }
    done
}

/// Appends the mark and what stands behind it.
#[tactic(auto, using(part_text::specs::Written::extends))]
fn put_whole(it: &RecordText, into: &mut Vec<u8>) -> Result<(), NoMemory>
    requires { IsRecord it.now }
    ensures put { OnOk result (into.new.items ≡ into.old.items ++ (mark ++ new_after it.now)) }
    ensures grown { Extends into.old.items into.new.items }
{
    into.extend_from_slice(b"REC2".as_slice())?;
    put_after(it, into)
}

/// Appends what stands behind the mark.
#[tactic(auto, using(part_text::specs::Written::extends), unfolding(crate::specs::Reading::new_after))]
fn put_after(it: &RecordText, into: &mut Vec<u8>) -> Result<(), NoMemory>
    requires { IsRecord it.now }
    ensures put { OnOk result (into.new.items ≡ into.old.items ++ new_after it.now) }
    ensures grown { Extends into.old.items into.new.items }
{
    put_u64(into, it.next)?;
    put_lists(it, into)
}

/// Appends the dynamic byte, the bodies and the rows.
#[tactic(auto, using(part_text::specs::Written::extends))]
fn put_lists(it: &RecordText, into: &mut Vec<u8>) -> Result<(), NoMemory>
    requires { IsRecord it.now }
    ensures put { OnOk result (into.new.items ≡ into.old.items ++ (bool_text it.now.dynamic ++ (bodies_text it.now.bodies ++ rows_text it.now.rows))) }
    ensures grown { Extends into.old.items into.new.items }
{
    put_bool(it.dynamic, into)?;
    put_bodies(it.bodies.as_slice(), into)?;
    put_rows(it.rows.as_slice(), into)
}

/// Appends a byte for yes or no.
#[tactic(auto, using(part_text::specs::Written::extends))]
fn put_bool(value: bool, into: &mut Vec<u8>) -> Result<(), NoMemory>
    ensures put { OnOk result (into.new.items ≡ into.old.items ++ bool_text value) }
    ensures grown { Extends into.old.items into.new.items }
{
    if value {
        Ok(into.push(1)?)
    } else {
        Ok(into.push(0)?)
    }
}

/// Appends bodies behind their number.
#[tactic(auto, using(part_text::specs::Written::extends))]
fn put_bodies(bodies: &[Body], into: &mut Vec<u8>) -> Result<(), NoMemory>
    requires { AreBodyTexts bodies.now }
    ensures put { OnOk result (into.new.items ≡ into.old.items ++ bodies_text bodies.now) }
    ensures grown { Extends into.old.items into.new.items }
{
    put_u32(into, bodies.len() as u32)?;
    'bodies: for body in bodies {
        put_string(into, body.as_slice())?;
    }
    Ok(())
}

/// Appends rows behind their number.
#[tactic(auto, using(part_text::specs::Written::extends))]
fn put_rows(rows: &[Row], into: &mut Vec<u8>) -> Result<(), NoMemory>
    requires few { length rows.now < 2 ^ 32 }
    requires rows { All IsRow rows.now }
    ensures put { OnOk result (into.new.items ≡ into.old.items ++ rows_text rows.now) }
    ensures grown { Extends into.old.items into.new.items }
{
    put_u32(into, rows.len() as u32)?;
    'rows: for row in rows {
        put_row(row, into)?;
    }
    Ok(())
}

/// Appends a row.
#[tactic(auto, using(part_text::specs::Written::extends))]
fn put_row(row: &Row, into: &mut Vec<u8>) -> Result<(), NoMemory>
    requires { length row.now.dead < 2 ^ 32 }
    ensures put { OnOk result (into.new.items ≡ into.old.items ++ row_text row.now) }
    ensures grown { Extends into.old.items into.new.items }
{
    put_u64(into, row.at)?;
    put_u64(into, row.len)?;
    put_dead(row.dead.as_slice(), into)
}

/// Appends the indexes of dead roots behind their number.
#[tactic(auto, using(part_text::specs::Written::extends))]
fn put_dead(indexes: &[u32], into: &mut Vec<u8>) -> Result<(), NoMemory>
    requires { length indexes.now < 2 ^ 32 }
    ensures put { OnOk result (into.new.items ≡ into.old.items ++ counted_text u32_text u32_text indexes.now) }
    ensures grown { Extends into.old.items into.new.items }
{
    put_u32(into, indexes.len() as u32)?;
    'indexes: for index in indexes {
        put_u32(into, *index)?;
    }
    Ok(())
}
