//! Scopes and the homes of fields, made of the fields that bodies say.
ghost use Rattle.std.specs.Prelude.{◌≡◌, ◌<◌, ◌^◌, map, length, ◌++◌, IfOk, OnOk};
ghost use Rattle.mapping_growth.specs.Kept.{made_of};
ghost use Rattle.mapping.specs.Mapping.{nearest, scope_paths, scopes_by};
ghost use Rattle.mapping.specs.Stored.{scope_parts, scope_seen, nested_path, nested_scope};

use mapping_body::{Kind, Named, NoMemory, lies_above};
use mapping_growth::Draft;
use std::alloc::Global;

/// The path of a scope.
#[derive(Drop)]
pub(crate) struct ScopePath {
    pub bytes: Vec<u8>,
}

impl Named for ScopePath {
    ghost name = { λ p. p.bytes.items };

    fn name(&self) -> &[u8] {
        &self.bytes
    }
}

/// A scope but for its path.
#[derive(Clone, Copy, Drop)]
pub(crate) struct Scope {
    pub around: u32,
    pub in_parent: bool,
    pub in_root: bool,
    pub since: u32,
}

/// The paths of the scopes: the root's, and those of the nested fields.
pub(crate) fn scope_paths(alloc: Global, drafts: &[Draft]) -> Result<Vec<ScopePath>, NoMemory>
    ensures { IfOk result (λ paths. map (λ p. p.bytes.items) paths.items ≡ scope_paths (map made_of drafts.now)) }
{
    let mut paths = Vec::new(alloc);
    paths.push(ScopePath {
        bytes: Vec::new(alloc),
    })?;
    'drafts: for draft in drafts {
        push_nested(alloc, draft, &mut paths)?;
    }
    Ok(paths)
}

fn push_nested(alloc: Global, draft: &Draft, paths: &mut Vec<ScopePath>) -> Result<(), NoMemory>
    ensures { OnOk result (map (λ p. p.bytes.items) paths.new.items ≡ map (λ p. p.bytes.items) paths.old.items ++ nested_path (made_of draft.now)) }
{
    match draft.kind {
        Kind::Nested => {
            paths.push(ScopePath {
                bytes: draft.path.as_slice().to_vec(alloc)?,
            })?;
            Ok(())
        }
        _ => Ok(()),
    }
}

/// The number of the nearest scope strictly above a path.
fn nearest(paths: &[ScopePath], path: &[u8]) -> u32
    requires { length paths.now < 2 ^ 32 }
    ensures { result ≡ nearest (map (λ p. p.bytes.items) paths.now) path.now }
{
    let mut found = 0;
    let mut at: u32 = 0;
    'paths: for above in paths {
        if lies_above(above.bytes.as_slice(), path) {
            found = at;
        }
        at += 1;
    }
    found
}

/// The scopes but for their paths, the root first.
pub(crate) fn scopes(
    alloc: Global,
    drafts: &[Draft],
    paths: &[ScopePath],
) -> Result<Vec<Scope>, NoMemory>
    requires short { length paths.now < 2 ^ 32 }
    requires paths { map (λ p. p.bytes.items) paths.now ≡ scope_paths (map made_of drafts.now) }
    ensures { IfOk result (λ scopes. map scope_seen scopes.items ≡ map scope_parts (scopes_by (map made_of drafts.now))) }
{
    let mut scopes = Vec::new(alloc);
    scopes.push(Scope {
        around: 0,
        in_parent: false,
        in_root: false,
        since: 1,
    })?;
    'drafts: for draft in drafts {
        push_scope(draft, paths, &mut scopes)?;
    }
    Ok(scopes)
}

fn push_scope(draft: &Draft, paths: &[ScopePath], scopes: &mut Vec<Scope>) -> Result<(), NoMemory>
    requires { length paths.now < 2 ^ 32 }
    ensures { OnOk result (map scope_seen scopes.new.items ≡ map scope_seen scopes.old.items ++ nested_scope (map (λ p. p.bytes.items) paths.now) (made_of draft.now)) }
{
    match draft.kind {
        Kind::Nested => {
            scopes.push(Scope {
                around: nearest(paths, draft.path.as_slice()),
                in_parent: draft.in_parent,
                in_root: draft.in_root,
                since: draft.since,
            })?;
            Ok(())
        }
        _ => Ok(()),
    }
}

/// The homes of fields.
pub(crate) fn homes(
    alloc: Global,
    drafts: &[Draft],
    paths: &[ScopePath],
) -> Result<Vec<u32>, NoMemory>
    requires { length paths.now < 2 ^ 32 }
    ensures { IfOk result (λ homes. homes.items ≡ map (λ d. nearest (map (λ p. p.bytes.items) paths.now) d.path) (map made_of drafts.now)) }
{
    let mut homes = Vec::with_capacity(alloc, drafts.len())?;
    'drafts: for draft in drafts {
        homes.push(nearest(paths, draft.path.as_slice()))?;
    }
    Ok(homes)
}
