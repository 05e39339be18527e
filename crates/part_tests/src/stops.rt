//! The disk in memory with its record: what is pending in a call, and the images of a stop in it.
use disk::{Bytes, Choice, Disk, MemDisk, Pending, PieceChoice};
use io_edges::{CallList, Failed, NoMemory};
use std::alloc::Global;
use std::process::Abort;
use std::test::Fail;

// What a stop leaves: `o` as if a write or cut hadn't been, `n` as if it was done, and any other byte is given for each byte of a range.
fn choices(alloc: Global, kept: &[u8], pending: &[Pending]) -> Result<PieceChoice, NoMemory> {
    let mut list = Vec::new(alloc);
    'pieces: for (byte, it) in kept.iter().zip(pending) {
        let choice = match *byte {
            b'o' => Choice::Old,
            b'n' => Choice::New,
            other => {
                let mut bytes = Vec::new(alloc);
                if let Pending::Written { len, .. } = *it {
                    'range: for _ in 0..len {
                        bytes.push(other)?;
                    }
                }
                Choice::Given(Bytes::of(bytes))
            }
        };
        list.push(choice)?;
    }
    Ok(PieceChoice::of(list))
}

// The image of a stop in a call, or none where that call isn't in the record or the choices don't fit.
fn image(
    alloc: Global,
    disk: &MemDisk,
    call: u64,
    kept: &[u8],
) -> Result<Option<Vec<u8>>, NoMemory> {
    if call >= disk.calls() {
        return Ok(None);
    }
    let pending = disk.pending(alloc, call)?;
    let kept = choices(alloc, kept, pending.as_slice())?;
    if !kept.fits(&pending) {
        return Ok(None);
    }
    Ok(Some(disk.image(alloc, call, &kept)?))
}

// A disk whose calls 2 and 5 fail.
fn recorded(rt: &impl Abort, alloc: Global) -> Result<MemDisk, Fail> {
    let bytes = Vec::from_slice(alloc, b"abcdef")?;
    let fails = vec![in alloc; 2, 5]?;
    let mut disk = MemDisk::over(alloc, bytes, CallList::of(fails))?;
    assert_eq!(rt; disk.write_at(1, b"XY"), Ok(())); // call 0
    assert_eq!(rt; disk.write_at(8, b"Z"), Ok(())); // call 1
    assert_eq!(rt; disk.write_at(0, b"w"), Err(Failed)); // call 2
    assert_eq!(rt; disk.len(), Ok(9)); // call 3
    assert_eq!(rt; disk.cut(4), Ok(())); // call 4
    assert_eq!(rt; disk.sync(), Err(Failed)); // call 5
    assert_eq!(rt; disk.sync(), Ok(())); // call 6
    assert_eq!(rt; disk.write_at(5, b"!"), Ok(())); // call 7
    assert_eq!(rt; (disk.calls(), disk.no_room()), (8, 0));
    Ok(disk)
}

// Stops in calls of the recorded disk: the call, what the stop leaves of each write and cut, and the image, or - where that doesn't fit.
const STOPS: &str = "\
    0 o abcdef\n\
    0 n aXYdef\n\
    0 ? a??def\n\
    1 oo abcdef\n\
    1 on abcdef\0\0Z\n\
    1 ?n a??def\0\0Z\n\
    2 non wXYdef\n\
    3 no? ?XYdef\n\
    4 noon aXYd\n\
    4 nono wXYdef\n\
    4 no -\n\
    5 ooon abcd\n\
    6 nnoo aXYdef\0\0Z\n\
    7 o aXYd\n\
    7 n aXYd\0!";

#[test]
fn stops(rt: HostRuntime) -> Result<(), Fail> {
    let disk = recorded(&rt, rt.alloc())?;
    'stops: for line in STOPS.lines() {
        let mut words = line.split_whitespace();
        let (Some(call), Some(kept), Some(wanted)) = (words.next(), words.next(), words.next())
        else {
            panic!(rt; "a line has three words");
        };
        let found = image(rt.alloc(), &disk, call.parse::<u64>()?, kept.as_bytes())?;
        match found {
            Some(found) => assert_eq!(rt; found.as_slice(), wanted.as_bytes(), "{line}"),
            None => assert_eq!(rt; wanted, "-", "{line}"),
        }
    }
    Ok(())
}

// Whether these are pending in a call of the record.
fn is_pending(
    alloc: Global,
    disk: &MemDisk,
    call: u64,
    wanted: &[Pending],
) -> Result<bool, NoMemory> {
    if call >= disk.calls() {
        return Ok(false);
    }
    Ok(disk.pending(alloc, call)?.as_slice() == wanted)
}

#[test]
fn pending(rt: HostRuntime) -> Result<(), Fail> {
    let alloc = rt.alloc();
    let mut disk = MemDisk::over(alloc, Vec::new(alloc), CallList::of(Vec::new(alloc)))?;
    assert_eq!(rt; disk.write_at(3, b"ab"), Ok(()));
    assert_eq!(rt; disk.cut(9), Ok(()));
    assert_eq!(rt; disk.write_at(7, b""), Ok(()));
    assert_eq!(rt; disk.sync(), Ok(()));
    assert_eq!(rt; disk.len(), Ok(5));
    let wanted = [
        Pending::Written { at: 3, len: 2 },
        Pending::Cut { len: 9 },
        Pending::Written { at: 7, len: 0 },
    ];
    assert!(rt; is_pending(alloc, &disk, 3, wanted.as_slice())?);
    assert!(rt; is_pending(alloc, &disk, 4, &[])?);
    Ok(())
}
