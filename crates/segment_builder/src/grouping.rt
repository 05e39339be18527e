//! Entries put together by key.

ghost use Rattle.std.specs.Prelude.{◌≡◌, ◌++◌, ◌∷◌, [], false, IfOk, OnOk};
ghost use Rattle.std.specs.List.{AllByRecursion};
ghost use Rattle.std.specs.Ordering.{is_gt};
ghost use Rattle.std.specs.declared.cmp.Ordering.TheVariants.{Less};
ghost use Rattle.segment_builder.specs.Groups.{of_key, in_groups, groups_seen, AreGroups, AreOrdered, AreRising, AreUpTo};

use crate::NoMemory;
use std::alloc::Global;

/// What entries carry, put together by key, by ascending key and in the order of the entries.
pub fn grouped<K: Ord + Drop, P: Drop>(
    alloc: Global,
    mut entries: Vec<(K, P)>,
) -> Result<Vec<(K, Vec<P>)>, NoMemory>
    ensures { IfOk result (λ groups. AreGroups K.cmp entries.items (groups_seen groups.items)) }
{
    sort(&mut entries)?;
    Ok(gathered(alloc, entries)?)
}

/// Sorts entries by key; those of one key keep their order.
pub(crate) fn sort<K: Ord, P>(entries: &mut Vec<(K, P)>) -> Result<(), NoMemory>
    ensures same { OnOk result ((key : K) → of_key K.cmp key entries.new.items ≡ of_key K.cmp key entries.old.items) }
    ensures rising { OnOk result (AreRising K.cmp entries.new.items) }
{
    entries.sort_by(|one, other| one.0.cmp(&other.0))?;
    Ok(())
}

/// The groups of entries that stand by ascending key.
fn gathered<K: Ord + Drop, P: Drop>(
    alloc: Global,
    entries: Vec<(K, P)>,
) -> Result<Vec<(K, Vec<P>)>, NoMemory>
    requires { AreRising K.cmp entries.items }
    ensures gather { IfOk result (λ groups. (key : K) → in_groups K.cmp key (groups_seen groups.items) ≡ of_key K.cmp key entries.items) }
    ensures ordered { IfOk result (λ groups. AreOrdered K.cmp (groups_seen groups.items)) }
{
    let mut groups = Vec::new(alloc);
    'entries: for (key, member) in entries {
        put(alloc, key, member, &mut groups)?;
    }
    Ok(groups)
}

/// Adds an entry to the last group, if it is of its key, else as a new group.
fn put<K: Ord + Drop, P: Drop>(
    alloc: Global,
    key: K,
    member: P,
    groups: &mut Vec<(K, Vec<P>)>,
) -> Result<(), NoMemory>
    requires ordered { AreOrdered K.cmp (groups_seen groups.old.items) }
    requires behind { AreUpTo K.cmp key (groups_seen groups.old.items) }
    ensures gather { OnOk result ((any : K) → in_groups K.cmp any (groups_seen groups.new.items) ≡ in_groups K.cmp any (groups_seen groups.old.items) ++ of_key K.cmp any ((key, member) ∷ [])) }
    ensures ordered { OnOk result (AreOrdered K.cmp (groups_seen groups.new.items)) }
    ensures behind { OnOk result ((any : K) → AreUpTo K.cmp any (groups_seen groups.old.items) → is_gt (K.cmp key any) ≡ false → AreUpTo K.cmp any (groups_seen groups.new.items)) }
{
    match groups.pop() {
        Some((last, members)) => {
            if last.cmp(&key).is_eq() {
                let mut members = members;
                members.push(member)?;
                groups.push((last, members))?;
                Ok(())
            } else {
                groups.push((last, members))?;
                begin(alloc, key, member, groups)?;
                Ok(())
            }
        }
        None => {
            begin(alloc, key, member, groups)?;
            Ok(())
        }
    }
}

/// Adds a group of one member.
fn begin<K: Ord + Drop, P: Drop>(
    alloc: Global,
    key: K,
    member: P,
    groups: &mut Vec<(K, Vec<P>)>,
) -> Result<(), NoMemory>
    requires ordered { AreOrdered K.cmp (groups_seen groups.old.items) }
    requires before { AllByRecursion (λ group. K.cmp group.0 key ≡ Less) (groups_seen groups.old.items) }
    ensures gather { OnOk result ((any : K) → in_groups K.cmp any (groups_seen groups.new.items) ≡ in_groups K.cmp any (groups_seen groups.old.items) ++ of_key K.cmp any ((key, member) ∷ [])) }
    ensures ordered { OnOk result (AreOrdered K.cmp (groups_seen groups.new.items)) }
    ensures behind { OnOk result ((any : K) → AreUpTo K.cmp any (groups_seen groups.old.items) → is_gt (K.cmp key any) ≡ false → AreUpTo K.cmp any (groups_seen groups.new.items)) }
{
    let mut members = Vec::new(alloc);
    members.push(member)?;
    groups.push((key, members))?;
    Ok(())
}
