//! Numbers and bytes as fields of a text.
use byte_fields::{put_bytes, put_u8, put_u32, put_u64, take_bytes, take_u8, take_u32, take_u64};
use std::test::Fail;

/// Numbers and lengths have their lowest byte first, and what was put is taken again.
#[test]
fn fields_follow_one_another(rt: HostRuntime) -> Result<(), Fail> {
    let mut bytes = Vec::new(rt.alloc());
    put_u8(&mut bytes, 0xa5)?;
    put_u32(&mut bytes, 0x1234_5678)?;
    put_u64(&mut bytes, 0x0123_4567_89ab_cdef)?;
    put_bytes(&mut bytes, b"abc")?;
    let spelled = [
        0xa5, 0x78, 0x56, 0x34, 0x12, 0xef, 0xcd, 0xab, 0x89, 0x67, 0x45, 0x23, 0x01, 3, 0, 0, 0,
        b'a', b'b', b'c',
    ];
    assert_eq!(rt; bytes.as_slice(), spelled.as_slice());
    assert_eq!(rt; take_u8(bytes.as_slice(), 0), Some((0xa5, 1)));
    assert_eq!(rt; take_u32(bytes.as_slice(), 1), Some((0x1234_5678, 5)));
    assert_eq!(rt;
        take_u64(bytes.as_slice(), 5),
        Some((0x0123_4567_89ab_cdef, 13))
    );
    assert_eq!(rt;
        take_bytes(bytes.as_slice(), 13),
        Some((b"abc".as_slice(), 20))
    );
    assert_eq!(rt; take_u8(bytes.as_slice(), 20), None);
    Ok(())
}
