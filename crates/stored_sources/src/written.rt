//! Roots appended to bytes as text. After NoMemory the bytes are longer at most.

ghost use Rattle.std.specs.Prelude.{◌≡◌, ◌<◌, ◌^◌, ◌∷◌, [], ◌++◌, length, OnOk};
ghost use Rattle.part_text.specs.Text.{u32_text, u64_text, string_text};
ghost use Rattle.part_text.specs.Written.{Extends};
ghost use Rattle.stored_sources.specs.Text.{join_text, root_text, roots_text};
ghost use Rattle.stored_sources.specs.Stands.{IsJoin, IsRoot};

use crate::{Bytes, Join, Root, RowList};
use part_text::{NoMemory, put_string, put_u32, put_u64};

/// Appends a byte.
#[tactic(auto, using(part_text::specs::Written::extends))]
fn put_byte(byte: u8, into: &mut Vec<u8>) -> Result<(), NoMemory>
    ensures put { OnOk result (into.new.items ≡ into.old.items ++ byte ∷ []) }
    ensures grown { Extends into.old.items into.new.items }
{
    Ok(into.push(byte)?)
}

/// Appends a relation and the id of a parent.
#[tactic(auto, using(part_text::specs::Written::extends))]
fn put_child(relation: u32, parent: &Bytes, into: &mut Vec<u8>) -> Result<(), NoMemory>
    requires { length parent.now < 2 ^ 32 }
    ensures put { OnOk result (into.new.items ≡ into.old.items ++ (u32_text relation ++ string_text parent.now)) }
    ensures grown { Extends into.old.items into.new.items }
{
    put_u32(into, relation)?;
    put_string(into, parent.as_slice())?;
    Ok(())
}

/// Appends a join value.
#[tactic(auto, using(part_text::specs::Written::extends))]
fn put_join(join: &Join, into: &mut Vec<u8>) -> Result<(), NoMemory>
    requires { IsJoin join.now }
    ensures put { OnOk result (into.new.items ≡ into.old.items ++ join_text join.now) }
    ensures grown { Extends into.old.items into.new.items }
{
    match join {
        Join::Unjoined => put_byte(0, into),
        Join::Named(relation) => {
            put_byte(1, into)?;
            put_u32(into, *relation)?;
            Ok(())
        }
        Join::Child(relation, parent) => {
            put_byte(2, into)?;
            put_child(*relation, parent, into)
        }
    }
}

/// Appends a source and a join value.
#[tactic(auto, using(part_text::specs::Written::extends))]
fn put_end(root: &Root, into: &mut Vec<u8>) -> Result<(), NoMemory>
    requires { IsRoot root.now }
    ensures put { OnOk result (into.new.items ≡ into.old.items ++ (string_text root.now.source ++ join_text root.now.join)) }
    ensures grown { Extends into.old.items into.new.items }
{
    put_string(into, root.source.as_slice())?;
    put_join(&root.join, into)
}

/// Appends a number, a mapping generation and what stands behind them.
#[tactic(auto, using(part_text::specs::Written::extends))]
fn put_numbers(root: &Root, into: &mut Vec<u8>) -> Result<(), NoMemory>
    requires { IsRoot root.now }
    ensures put { OnOk result (into.new.items ≡ into.old.items ++ (u64_text root.now.number ++ (u32_text root.now.generation ++ (string_text root.now.source ++ join_text root.now.join)))) }
    ensures grown { Extends into.old.items into.new.items }
{
    put_u64(into, root.number)?;
    put_u32(into, root.generation)?;
    put_end(root, into)
}

/// Appends a root.
#[tactic(auto, using(part_text::specs::Written::extends))]
fn put_root(root: &Root, into: &mut Vec<u8>) -> Result<(), NoMemory>
    requires { IsRoot root.now }
    ensures put { OnOk result (into.new.items ≡ into.old.items ++ root_text root.now) }
    ensures grown { Extends into.old.items into.new.items }
{
    put_string(into, root.id.as_slice())?;
    put_numbers(root, into)
}

/// Appends all roots.
#[tactic(auto, using(part_text::specs::Written::extends))]
pub(crate) fn put_roots(list: &RowList, into: &mut Vec<u8>) -> Result<(), NoMemory>
    ensures put { OnOk result (into.new.items ≡ into.old.items ++ roots_text list.now) }
    ensures grown { Extends into.old.items into.new.items }
{
    let roots = list.as_slice();
    'roots: for root in roots {
        put_root(root, into)?;
    }
    Ok(())
}
