//! The roots of blocks, written.

ghost use Rattle.std.specs.Prelude.{◌≡◌, ◌<◌, ◌^◌, ◌++◌, length, map, OnOk};
ghost use Rattle.std.specs.List.{All};
ghost use Rattle.part_text.specs.Text.{string_text};
ghost use Rattle.stored_sources.specs.Stands.{IsJoin, IsRoot};
ghost use Rattle.stored_sources.specs.Text.{join_text, root_text, roots_text};

use crate::NoMemory;
use flattener::Block;
use part_text::{put_string, put_u32, put_u64};
use segment::{Join, Root};

/// Appends the roots of blocks, in their order.
pub(crate) fn put_roots(blocks: &[Block], into: &mut Vec<u8>) -> Result<(), NoMemory>
    requires { All IsRoot (map (λ block. block.root) blocks.now) }
    ensures { OnOk result (into.new.items ≡ into.old.items ++ roots_text (map (λ block. block.root) blocks.now)) }
{
    'each: for block in blocks {
        put_root(&block.root, into)?;
    }
    Ok(())
}

/// Appends a root.
fn put_root(root: &Root, into: &mut Vec<u8>) -> Result<(), NoMemory>
    requires { IsRoot root.now }
    ensures { OnOk result (into.new.items ≡ into.old.items ++ root_text root.now) }
{
    put_string(into, root.id.as_slice())?;
    put_u64(into, root.number)?;
    put_u32(into, root.generation)?;
    put_string(into, root.source.as_slice())?;
    put_join(&root.join, into)?;
    Ok(())
}

/// Appends a join value.
fn put_join(join: &Join, into: &mut Vec<u8>) -> Result<(), NoMemory>
    requires { IsJoin join.now }
    ensures { OnOk result (into.new.items ≡ into.old.items ++ join_text join.now) }
{
    match join {
        Join::Unjoined => {
            into.push(0)?;
            Ok(())
        }
        Join::Named(relation) => {
            into.push(1)?;
            put_u32(into, *relation)?;
            Ok(())
        }
        Join::Child(relation, parent) => {
            into.push(2)?;
            put_u32(into, *relation)?;
            put_string(into, parent.as_slice())?;
            Ok(())
        }
    }
}
