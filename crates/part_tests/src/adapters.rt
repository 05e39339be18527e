//! The real edges: a reader, a writer and a file of the machine's, once each.
use disk::Disk;
use io_edges::{Failed, Sink, Source, Word};
use io_real::{FileDisk, StdinSource, StdoutSink};
use std::fs;
use std::test::Fail;

#[test]
fn reader(rt: HostRuntime) {
    let mut source = StdinSource::over(b"abcde".as_slice());
    let mut piece = [b'-'; 3];
    assert_eq!(rt; source.read(&mut piece), Ok(3));
    assert_eq!(rt; piece, *b"abc");
    assert_eq!(rt; source.read(&mut piece), Ok(2));
    assert_eq!(rt; piece, *b"dec");
    assert_eq!(rt; source.read(&mut piece), Ok(0));
}

#[test]
fn writer(rt: HostRuntime) {
    let mut room = [b'-'; 4];
    let mut sink = StdoutSink::over(room.as_mut_slice());
    assert_eq!(rt; sink.write(b"abc"), Ok(3));
    assert_eq!(rt; sink.write(b"de"), Ok(1));
    assert_eq!(rt; sink.write(b""), Ok(0));
    assert_eq!(rt; sink.write(b"e"), Err(Failed));
    assert_eq!(rt; room, *b"abcd");
}

#[test]
fn file(rt: HostRuntime) -> Result<(), Fail> {
    let path = Word::of(String::from_str(rt.alloc(), "a_file_as_a_disk.nest")?);
    {
        let mut disk = FileDisk::at(&rt, &path);
        assert_eq!(rt; disk.len(), Ok(0));
        assert_eq!(rt; disk.write_at(3, b"abcd"), Ok(()));
        assert_eq!(rt; disk.write_at(4, b"X"), Ok(()));
        assert_eq!(rt; disk.cut(9), Ok(()));
        assert_eq!(rt; disk.cut(6), Ok(()));
        assert_eq!(rt; disk.sync(), Ok(()));
        // The file is locked as long as it is open.
        assert_eq!(rt; FileDisk::at(&rt, &path).len(), Err(Failed));
    }
    let mut disk = FileDisk::at(&rt, &path);
    let mut piece = [b'-'; 8];
    assert_eq!(rt; disk.len(), Ok(6));
    assert_eq!(rt; disk.read(1, &mut piece), Ok(5));
    assert_eq!(rt; piece, *b"\0\0aXc---");
    assert_eq!(rt; disk.read(6, &mut piece), Ok(0));
    fs::remove_file(&rt, path.as_str())?;
    Ok(())
}
