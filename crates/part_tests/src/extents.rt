//! A pool from call to call: takes, a return and what is left.
use extent_pool::{Extent, ExtentList, ExtentPool, TakeRefusal};
use std::test::Fail;

#[test]
fn extents_come_from_the_first_hole_with_room(rt: HostRuntime) -> Result<(), Fail> {
    let taken = ExtentList::of(vec![in rt.alloc(); Extent { at: 0, len: 256 }]?);
    let mut pool = ExtentPool::over(rt.alloc(), 1024, &taken)?;
    let first = pool.take(100)?;
    assert_eq!(rt; first, Extent { at: 256, len: 100 });
    assert_eq!(rt; pool.take(64)?, Extent { at: 384, len: 64 });
    pool.give_back(first);
    assert_eq!(rt; pool.take(200)?, Extent { at: 448, len: 200 });
    assert_eq!(rt; pool.take(128)?, Extent { at: 256, len: 128 });
    assert_eq!(rt; pool.take(1000), Err(TakeRefusal::Full));
    let left = [Extent { at: 704, len: 320 }];
    assert_eq!(rt; pool.holes().as_slice(), left.as_slice());
    Ok(())
}
