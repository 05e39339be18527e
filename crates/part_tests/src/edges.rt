//! The disk in memory, call by call. (No line reaches it; sources and sinks with calls that fail have cases.)
use disk::{Disk, MemDisk};
use io_edges::{CallList, Failed};
use std::test::Fail;

// Whether a read from that place on into `room` bytes, at most 16, gives these bytes, or with None fails.
fn disk_gives(disk: &mut MemDisk, at: u64, room: usize, wanted: Option<&[u8]>) -> bool {
    let mut piece = [0_u8; 16];
    let into = piece.split_at_mut(room.min(16)).0;
    match disk.read(at, into) {
        Ok(count) => wanted == Some(into.split_at(count).0),
        Err(Failed) => wanted.is_none(),
    }
}

// Whether the disk's file is these bytes, at most 16.
fn holds(disk: &mut MemDisk, file: &[u8]) -> bool {
    disk.len() == Ok(file.len() as u64) && disk_gives(disk, 0, 16, Some(file))
}

#[test]
fn disk(rt: HostRuntime) -> Result<(), Fail> {
    let alloc = rt.alloc();
    let bytes = Vec::from_slice(alloc, b"abcdef")?;
    let mut disk = MemDisk::over(alloc, bytes, CallList::of(Vec::new(alloc)))?;
    let reads: [(u64, usize, &[u8]); 5] = [
        (0, 3, b"abc"),
        (4, 3, b"ef"),
        (6, 3, b""),
        (u64::MAX, 3, b""),
        (2, 0, b""),
    ];
    'reads: for (at, room, wanted) in reads {
        assert!(rt;
            disk_gives(&mut disk, at, room, Some(wanted)),
            "read at {at}"
        );
    }
    let writes: [(u64, &[u8], &[u8]); 6] = [
        (2, b"XY", b"abXYef"),
        (4, b"ghij", b"abXYghij"),
        (8, b"k", b"abXYghijk"),
        (11, b"l", b"abXYghijk\0\0l"),
        (15, b"", b"abXYghijk\0\0l"),
        (0, b"", b"abXYghijk\0\0l"),
    ];
    'writes: for (at, bytes, file) in writes {
        assert!(rt; disk.write_at(at, bytes).is_ok());
        assert!(rt; disk.sync().is_ok());
        assert!(rt; holds(&mut disk, file), "written at {at}");
    }
    // No memory holds a file that ends there.
    assert!(rt; disk.write_at(u64::MAX, b"m").is_err());
    assert_eq!(rt; disk.no_room(), 1);
    assert!(rt; holds(&mut disk, b"abXYghijk\0\0l"));
    Ok(())
}
