//! Items put in byte order of their names, in about n log n steps.
ghost use Rattle.std.specs.Prelude.{◌≡◌, ℕ, List, ◌<◌, ◌≤◌, ◌-◌, ◌^◌, length, map, IfOk};
ghost use Rattle.std.specs.List.{All, range_with_len};
ghost use Rattle.mapping_body.specs.Names.{AreAscending, in_byte_order};
ghost use Rattle.mapping_body.specs.Order.{order_from, name_at};

use crate::names::Named;
use crate::refusal::NoMemory;
use std::alloc::Global;

/// The items in byte order of their names. Where several have one name, the first stays.
pub fn in_byte_order<T: Named + Copy + Drop>(alloc: Global, items: &[T]) -> Result<Vec<T>, NoMemory>
    ensures items { IfOk result (λ v. v.items ≡ in_byte_order T.name items.now) }
    ensures ascending { IfOk result (λ v. AreAscending (map T.name v.items)) }
{
    let mut sorted = Vec::with_capacity(alloc, items.len())?;
    sorted.extend_from_slice(items)?;
    sorted.sort_by(|one, two| one.name().cmp(two.name()))?;
    sorted.dedup_by(|later, kept| later.name() == kept.name());
    Ok(sorted)
}

/// A name with the number of the item that has it.
#[derive(Clone, Copy, Drop)]
pub struct Entry<'a> {
    pub name: &'a [u8],
    pub number: u32,
}

impl Named for Entry<'_> {
    ghost name = { λ e. e.name.now };

    fn name(&self) -> &[u8] {
        self.name
    }
}

/// The numbers of items from one on, in byte order of the items' names.
pub fn order_from<T: Named>(alloc: Global, items: &[T], first: u32) -> Result<Vec<u32>, NoMemory>
    requires short { length items.now < 2 ^ 32 }
    requires first { first ≤ length items.now }
    ensures { IfOk result (λ order. order.items ≡ order_from first (map T.name items.now)) }
{
    let entries = entries_from(alloc, items, first)?;
    let sorted = in_byte_order(alloc, entries.as_slice())?;
    Ok(numbers_of(alloc, sorted.as_slice())?)
}

/// The names of items from a number on, with their numbers.
fn entries_from<T: Named>(
    alloc: Global,
    items: &[T],
    first: u32,
) -> Result<Vec<Entry<'_>>, NoMemory>
    requires short { length items.now < 2 ^ 32 }
    requires first { first ≤ length items.now }
    ensures numbers { IfOk result (λ entries. map (λ e. e.number) entries.items ≡ range_with_len first (length items.now - first)) }
    ensures names { IfOk result (λ entries. All (λ e. e.name.now ≡ name_at (map T.name items.now) e.number) entries.items) }
{
    let mut entries = Vec::new(alloc);
    'numbers: for number in first..items.len() as u32 {
        entries.push(Entry {
            name: items[number as usize].name(),
            number,
        })?;
    }
    Ok(entries)
}

fn numbers_of(alloc: Global, entries: &[Entry<'_>]) -> Result<Vec<u32>, NoMemory>
    ensures { IfOk result (λ numbers. numbers.items ≡ map (λ e. e.number) entries.now) }
{
    let mut numbers = Vec::with_capacity(alloc, entries.len())?;
    'entries: for entry in entries {
        numbers.push(entry.number)?;
    }
    Ok(numbers)
}
