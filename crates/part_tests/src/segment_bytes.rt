//! Segments written out by hand: they are decoded, and encoded again.

ghost use Rattle.std.specs.Prelude.{◌≡◌, ◌<◌};

use segment::Bytes;
use segment_codec::{decode, decode_old, encode};
use source_steps::Steps;
use std::alloc::Global;
use std::marker::Brand;
use std::process::Abort;
use std::sync::ledger::{Blank, Ledger};
use std::test::Fail;
use stored_sources::{JoinValue, NoMemory, StoredSources};

/// A root with the id `1`, the number 0, the mapping generation 1 and the source `{"k":"a"}`: field 0 is a keyword field.
pub(crate) const ONE: &[u8] = b"SEG2\
    \x01\0\0\0\x01\0\0\0\x01\0\0\0\0\0\0\0\
    \x01\0\0\01\0\0\0\0\0\0\0\0\x01\0\0\0\x09\0\0\0{\"k\":\"a\"}\0\
    \x01\0\0\0\0\0\0\0\0\0\0\0\x01\0\0\0a\x01\0\0\0\0\0\0\0\0\0\0\0\
    \x01\0\0\0\0\0\0\0\x01\0\0\0\0\0\0\0\x01\0\0\0\0\0\0\0\0\0\0\0\
    \0\0\0\0\0\0\0\0";

/// The same in the form before mappings grew: without the generation, and with other first bytes.
pub(crate) const BEFORE: &[u8] = b"SEG1\
    \x01\0\0\0\x01\0\0\0\x01\0\0\0\0\0\0\0\
    \x01\0\0\01\0\0\0\0\0\0\0\0\x09\0\0\0{\"k\":\"a\"}\0\
    \x01\0\0\0\0\0\0\0\0\0\0\0\x01\0\0\0a\x01\0\0\0\0\0\0\0\0\0\0\0\
    \x01\0\0\0\0\0\0\0\x01\0\0\0\0\0\0\0\x01\0\0\0\0\0\0\0\0\0\0\0\
    \0\0\0\0\0\0\0\0";

#[test]
fn one_document_before_mappings_grew(rt: HostRuntime) -> Result<(), Fail> {
    let segment = decode_old(rt.alloc(), Bytes::of(BEFORE.to_vec(rt.alloc())?))?;
    assert_eq!(rt; encode(rt.alloc(), &segment)?.as_slice(), ONE);
    Ok(())
}

/// A parent and its child. Field 3 is a number field: the parent has -2 and 5, and the child has -2.
const TWO: &[u8] = b"SEG2\
    \x02\0\0\0\x01\0\0\0\x03\0\0\0\0\0\0\0\
    \x01\0\0\01\x07\0\0\0\0\0\0\0\x01\0\0\0\x02\0\0\0{}\x01\0\0\0\0\
    \x02\0\0\022\x08\0\0\0\0\0\0\0\x03\0\0\0\x02\0\0\0[]\x02\x01\0\0\0\x01\0\0\01\
    \x02\0\0\0\0\0\0\0\
    \x03\0\0\0\x08\0\0\0\x7f\xff\xff\xff\xff\xff\xff\xfe\x02\0\0\0\0\0\0\0\0\0\0\0\x01\0\0\0\0\0\0\0\
    \x03\0\0\0\x08\0\0\0\x80\0\0\0\0\0\0\x05\x01\0\0\0\0\0\0\0\0\0\0\0\
    \0\0\0\0\
    \x01\0\0\0\x03\0\0\0\x02\0\0\0\
    \0\0\0\0\x02\0\0\0\xfe\xff\xff\xff\xff\xff\xff\xff\x05\0\0\0\0\0\0\0\
    \x01\0\0\0\x01\0\0\0\xfe\xff\xff\xff\xff\xff\xff\xff\
    \0\0\0\0";

#[test]
fn parent_and_child(rt: HostRuntime) -> Result<(), Fail> {
    let segment = decode(rt.alloc(), Bytes::of(TWO.to_vec(rt.alloc())?))?;
    assert_eq!(rt; encode(rt.alloc(), &segment)?.as_slice(), TWO);
    read_child(&rt, rt.alloc(), &segment.sources())?;
    match segment.numbers(3) {
        Some(column) => {
            let mut own = column.values(0);
            assert_eq!(rt;
                (own.next(), own.next(), own.next()),
                (Some(-2), Some(5), None)
            );
        }
        None => panic!(rt; "field 3 has numbers"),
    }
    Ok(())
}

/// Reads root 1.
fn read_child(rt: &impl Abort, alloc: Global, stored: &StoredSources) -> Result<(), Fail> {
    assert!(rt; 1 < stored.count());
    assert_eq!(rt; stored.id(1), b"22".as_slice());
    assert_eq!(rt; (stored.number(1), stored.generation(1)), (8, 3));
    assert_eq!(rt; stored.join(1), JoinValue::Child(1, b"1"));
    let mut out = Vec::new(alloc);
    fetched::<Brand>(rt, stored, &mut out, Blank::new(1))?;
    assert_eq!(rt; out.as_slice(), b"[]".as_slice());
    Ok(())
}

/// The source of root 1. Counting takes no bytes.
fn fetched<L: Ledger>(
    rt: &impl Abort,
    stored: &StoredSources,
    out: &mut Vec<u8>,
    blank: Blank,
) -> Result<(), NoMemory>
    requires name { L.name ≡ blank.name }
    requires parts { L.parts ≡ blank.parts }
    requires some { 0 < blank.parts }
{
    let mut steps = Steps::<L>::start(blank);
    assert_eq!(rt; size_of_val(&steps), 0);
    assert!(rt; 1 < stored.count());
    stored.fetch(1, out, &mut steps)
}
