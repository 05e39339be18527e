//! The file of one commit, byte for byte, in today's form and in the one before mappings grew: it is read, written, cut and changed.

ghost use Rattle.std.specs.Prelude.{◌<◌, length};

use crate::segment_bytes;
use std::alloc::Global;
use std::process::Abort;
use std::test::Fail;
use store_text::{
    Header, NoMemory, OPEN_BYTE, Side, Slot, header_bytes, put_record, read_record, slot_bytes,
};

/// The body of the mapping.
const BODY: &[u8] = b"{\"properties\":{\"k\":{\"type\":\"keyword\"}}}";

/// The record: that body, and a segment of 116 bytes at 2,048.
const RECORD: &[u8] = b"REC2\x01\0\0\0\0\0\0\0\0\
    \x01\0\0\0\x27\0\0\0{\"properties\":{\"k\":{\"type\":\"keyword\"}}}\
    \x01\0\0\0\0\x08\0\0\0\0\0\0\x74\0\0\0\0\0\0\0\0\0\0\0";

/// The same before mappings grew: the segment has 112 bytes.
const RECORD_BEFORE: &[u8] = b"REC1\x01\0\0\0\0\0\0\0\
    \x27\0\0\0{\"properties\":{\"k\":{\"type\":\"keyword\"}}}\
    \x01\0\0\0\0\x08\0\0\0\0\0\0\x70\0\0\0\0\0\0\0\0\0\0\0";

/// Slot A: generation 1, and the place and the length of the record.
const SLOT: &[u8] = b"\x01\0\0\0\0\0\0\0\x80\x08\0\0\0\0\0\0\x54\0\0\0\0\0\0\0";

/// The same before mappings grew.
const SLOT_BEFORE: &[u8] = b"\x01\0\0\0\0\0\0\0\x80\x08\0\0\0\0\0\0\x4f\0\0\0\0\0\0\0";

/// A file of pieces, each at its place, with zeros in between.
fn pieces(alloc: Global, pieces: &[(usize, &[u8])]) -> Result<Vec<u8>, NoMemory> {
    let mut file = Vec::new(alloc);
    'pieces: for (at, bytes) in pieces {
        file.resize(*at, 0)?;
        file.extend_from_slice(bytes)?;
    }
    Ok(file)
}

/// The whole file.
fn file<'a>(
    alloc: Global,
    slot: &'a [u8],
    segment: &'a [u8],
    record: &'a [u8],
) -> Result<Vec<u8>, NoMemory> {
    let all: [(usize, &[u8]); 5] = [
        (0, b"NESTSEG1"),
        (512, b"\xa5"),
        (520, slot),
        (2_048, segment),
        (2_176, record),
    ];
    pieces(alloc, &all)
}

/// So many bytes from a place on, or those that are there.
fn part(file: &[u8], at: u64, len: u64) -> &[u8] {
    let own = file.split_at(file.len().min(at as usize)).1;
    own.split_at(own.len().min(len as usize)).0
}

/// Checks what a file names: the record of slot A, and its body and segment.
fn read_file(
    rt: &impl Abort,
    alloc: Global,
    file: &[u8],
    old: bool,
    segment: &[u8],
) -> Result<(), Fail> {
    let Some(header) = Header::read(file) else {
        panic!(rt; "it has a header");
    };
    let slot = header.a;
    assert_eq!(rt; (slot.is_open, slot.generation), (true, 1));
    assert_eq!(rt; header.b, CLOSED);
    let Some(record) = read_record(alloc, part(file, slot.at, slot.len))? else {
        panic!(rt; "it has a record");
    };
    assert_eq!(rt; (record.old, record.next, record.dynamic), (old, 1, false));
    let ([body], [row]) = (record.bodies.as_slice(), record.rows.as_slice()) else {
        panic!(rt; "it has one body and one row");
    };
    assert_eq!(rt; body.as_slice(), BODY);
    assert_eq!(rt; part(file, row.at, row.len), segment);
    assert!(rt; row.dead.as_slice().is_empty());
    Ok(())
}

#[test]
fn the_file_is_read(rt: HostRuntime) -> Result<(), Fail> {
    let alloc = rt.alloc();
    let today = file(alloc, SLOT, segment_bytes::ONE, RECORD)?;
    assert_eq!(rt; today.len(), 2_260);
    read_file(&rt, alloc, today.as_slice(), false, segment_bytes::ONE)?;
    let before = file(alloc, SLOT_BEFORE, segment_bytes::BEFORE, RECORD_BEFORE)?;
    assert_eq!(rt; before.len(), 2_255);
    read_file(&rt, alloc, before.as_slice(), true, segment_bytes::BEFORE)
}

#[test]
fn the_file_is_written(rt: HostRuntime) -> Result<(), Fail> {
    let alloc = rt.alloc();
    let Some(read) = read_record(alloc, RECORD)? else {
        panic!(rt; "it is a record");
    };
    assert!(rt; !read.old);
    let mut record = Vec::new(alloc);
    put_record(&read, &mut record)?;
    let header = header_bytes();
    let slot = slot_bytes(1, 2_176, record.len() as u64);
    let gates = [Side::A.gate_at(), Side::B.gate_at(), Side::B.slot_at()];
    assert_eq!(rt; gates, [512, 1_024, 1_032]);
    let all: [(usize, &[u8]); 5] = [
        (0, part(header.as_slice(), 0, Side::A.gate_at())),
        (Side::A.gate_at() as usize, &[OPEN_BYTE]),
        (Side::A.slot_at() as usize, slot.as_slice()),
        (2_048, segment_bytes::ONE),
        (2_176, record.as_slice()),
    ];
    let written = pieces(alloc, &all)?;
    let wanted = file(alloc, SLOT, segment_bytes::ONE, RECORD)?;
    assert_eq!(rt; written.as_slice(), wanted.as_slice());
    Ok(())
}

/// The bytes, with the one at a place raised by one.
fn raised(alloc: Global, bytes: &[u8], place: usize) -> Result<Vec<u8>, NoMemory>
    requires { place < length bytes.now }
{
    let mut copy = bytes.to_vec(alloc)?;
    copy[place] = copy[place].wrapping_add(1);
    Ok(copy)
}

/// Whether bytes are read as a record.
fn is_read(alloc: Global, bytes: &[u8]) -> Result<bool, NoMemory> {
    Ok(read_record(alloc, bytes)?.is_some())
}

/// Checks that a record that is cut anywhere is none, that one with a byte behind it is none, and that of those with a byte raised
/// exactly those are none where that byte is in one of the ranges, each from its first to its last place.
fn change_record(
    rt: &impl Abort,
    alloc: Global,
    bytes: &[u8],
    refused: &[(usize, usize)],
) -> Result<(), Fail> {
    'places: for place in 0..bytes.len() {
        let cut = is_read(alloc, part(bytes, 0, place as u64))?;
        assert!(rt; !cut, "cut to {place}");
        let read = is_read(alloc, raised(alloc, bytes, place)?.as_slice())?;
        let is_refused = refused.iter().any(|it| it.0 <= place && place <= it.1);
        assert_eq!(rt; read, !is_refused, "byte {place}");
    }
    let mut longer = bytes.to_vec(alloc)?;
    longer.push(0)?;
    assert!(rt; !is_read(alloc, longer.as_slice())?);
    Ok(())
}

/// Refused are other marks, numbers of bodies, rows or dead roots, and lengths of the body: all else is another record.
#[test]
fn a_record_is_changed(rt: HostRuntime) -> Result<(), Fail> {
    let alloc = rt.alloc();
    let today = [(0, 3), (13, 20), (60, 63), (80, 83)];
    change_record(&rt, alloc, RECORD, &today)?;
    let before = [(0, 3), (12, 15), (55, 58), (75, 78)];
    change_record(&rt, alloc, RECORD_BEFORE, &before)
}

/// A record of two bodies and a segment, with this dynamic byte, whose dead roots are 4 and that index.
fn grown(alloc: Global, dynamic: u8, index: u8) -> Result<Vec<u8>, NoMemory> {
    let mut bytes = Vec::new(alloc);
    bytes.extend_from_slice(b"REC2\x07\0\0\0\0\0\0\0")?;
    bytes.push(dynamic)?;
    bytes.extend_from_slice(b"\x02\0\0\0\x02\0\0\0{}\x02\0\0\0[]\x01\0\0\0")?;
    bytes.extend_from_slice(b"\0\x08\0\0\0\0\0\0\x09\0\0\0\0\0\0\0\x02\0\0\0\x04\0\0\0")?;
    bytes.push(index)?;
    bytes.extend_from_slice(b"\0\0\0")?;
    Ok(bytes)
}

#[test]
fn dead_roots_ascend(rt: HostRuntime) -> Result<(), Fail> {
    let rows = [
        (1, 5, true),
        (0, 5, true),
        (2, 5, false),
        (255, 5, false),
        (1, 4, false),
        (1, 3, false),
    ];
    'rows: for (dynamic, index, wanted) in rows {
        let bytes = grown(rt.alloc(), dynamic, index)?;
        let read = is_read(rt.alloc(), bytes.as_slice())?;
        assert_eq!(rt; read, wanted, "dynamic {dynamic}, index {index}");
    }
    Ok(())
}

/// What the header says of slot A.
const OPEN: Slot = Slot {
    is_open: true,
    generation: 1,
    at: 2_176,
    len: 84,
};

/// What the header says of slot B.
const CLOSED: Slot = Slot {
    is_open: false,
    generation: 0,
    at: 0,
    len: 0,
};

/// What a slot with its gate at one place says where the byte at another is raised by one: a raised gate is closed, and a byte of
/// the slot has its weight in one of three numbers.
fn raised_slot(slot: Slot, gate: usize, place: usize) -> Slot {
    let mut raised = slot;
    let offset = place.wrapping_sub(gate);
    let weight = 1_u64 << (8 * (offset % 8));
    match offset {
        0 => raised.is_open = false,
        8..=15 => raised.generation = slot.generation.wrapping_add(weight),
        16..=23 => raised.at = slot.at.wrapping_add(weight),
        24..=31 => raised.len = slot.len.wrapping_add(weight),
        _ => {}
    }
    raised
}

#[test]
fn a_header_is_changed(rt: HostRuntime) -> Result<(), Fail> {
    let alloc = rt.alloc();
    let file = file(alloc, SLOT, b"", b"")?;
    let header = part(file.as_slice(), 0, 2_048);
    assert_eq!(rt; header.len(), 2_048);
    'places: for place in 0..header.len() {
        let cut = Header::read(part(header, 0, place as u64));
        assert_eq!(rt; cut, None, "cut to {place}");
        let raised = raised(alloc, header, place)?;
        let mut wanted = None;
        if place >= 8 {
            let a = raised_slot(OPEN, 512, place);
            let b = raised_slot(CLOSED, 1_024, place);
            wanted = Some(Header { a, b });
        }
        assert_eq!(rt; Header::read(raised.as_slice()), wanted, "byte {place}");
    }
    Ok(())
}
