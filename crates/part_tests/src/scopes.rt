//! A block with a chain of scopes, worked by hand.

ghost use Rattle.std.specs.Prelude.{◌≡◌, IfOk};
ghost use Rattle.block_bits.specs.Scopes.{IsScopeTree};

use block_bits::{BitList, BitSet, ScopeBits, ScopeList};
use std::alloc::Global;
use std::process::Abort;
use std::test::Fail;

/// A scope inside a scope inside the root.
fn chain(alloc: Global) -> Result<ScopeList, Fail>
    ensures { IfOk result (λ parents. IsScopeTree parents) }
{
    Ok(ScopeList::of(vec![in alloc; None, Some(0), Some(1)]?))
}

/// The set of these of `len` documents.
fn set_of(rt: &impl Abort, alloc: Global, len: u32, docs: &[u32]) -> Result<BitSet, Fail> {
    let mut set = BitSet::empty(alloc, len)?;
    'docs: for doc in docs {
        assert!(rt; *doc < set.len());
        set.set(*doc);
    }
    Ok(set)
}

/// A set for each scope, of its documents.
fn bits_of(rt: &impl Abort, alloc: Global, len: u32, sets: &[&[u32]]) -> Result<BitList, Fail> {
    let mut list = Vec::new(alloc);
    'sets: for docs in sets {
        list.push(set_of(rt, alloc, len, docs)?)?;
    }
    Ok(BitList::of(list))
}

/// The child range of a document that has that scope.
fn range_of(
    rt: &impl Abort,
    made: &ScopeBits,
    parents: &ScopeList,
    parent: u32,
    scope: u32,
) -> (u32, u32)
    requires { made.now.parents ≡ parents.now }
{
    assert!(rt; (scope as usize) < parents.as_slice().len());
    assert!(rt; parent < made.len());
    assert!(rt; made.documents(scope).has(parent));
    made.child_range(parent, scope)
}

#[test]
fn scopes_in_a_chain(rt: HostRuntime) -> Result<(), Fail> {
    let parents = chain(rt.alloc())?;
    let bits = bits_of(&rt, rt.alloc(), 6, &[&[5], &[2, 4], &[0, 1, 3]])?;
    assert!(rt; bits.give_one_scope(6));
    let made = ScopeBits::over(&parents, &bits)?;
    'parents: for (doc, scope, parent) in [
        (0, 1, Some(2)),
        (3, 1, Some(4)),
        (3, 0, Some(5)),
        (5, 0, None),
        (2, 2, None),
    ] {
        assert!(rt; doc < made.len());
        assert_eq!(rt;
            made.parent_of(doc, scope),
            parent,
            "parent_of({doc}, {scope})"
        );
    }
    'ranges: for (parent, scope, range) in [(2, 1, (0, 2)), (4, 1, (3, 4)), (5, 0, (0, 5))] {
        assert_eq!(rt;
            range_of(&rt, &made, &parents, parent, scope),
            range,
            "child_range({parent}, {scope})"
        );
    }
    assert!(rt; 3 < made.len());
    assert_eq!(rt; made.scope_of(3), 2);
    Ok(())
}
