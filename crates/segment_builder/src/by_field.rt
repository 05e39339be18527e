//! Entries put together by field, without a sort.

ghost use Rattle.std.specs.Prelude.{◌≡◌, ◌<◌, ◌≤◌, ◌++◌, ◌∷◌, [], ℕ, length, slice_index, IfOk, IfErr, OnOk};
ghost use Rattle.std.specs.List.Sorted.{IsStrictlySortedBy};
ghost use Rattle.std.specs.Ordering.{nat_cmp};
ghost use Rattle.segment_builder.specs.Groups.{of_key, in_groups, groups_seen, keys, AreGroups, AreOrdered};

use crate::NoMemory;
use std::alloc::Global;
use std::cmp::Ordering;

/// So many fields have a slot of their own.
const SLOTS: usize = 64;

/// Where the group of a field was found last, in a slot that the field's number gives. It says where to look first: what
/// stands there counts only where it is of the field, so it may be the place of another group.
#[derive(Drop)]
pub(crate) struct KnownPlaces {
    places: [usize; 64],
    /// A new group gets room for so many members, as long as all together get no more than are left.
    room: usize,
    left: usize,
}

impl KnownPlaces {
    /// None yet. A new group gets room for `room` members, and all new ones together for `left`.
    pub(crate) fn new(room: usize, left: usize) -> KnownPlaces {
        KnownPlaces {
            places: [0; 64],
            room,
            left,
        }
    }

    /// Where the group of a field was found last, if it is still there.
    fn place(&self, field: u32) -> usize {
        self.places[field as usize % SLOTS]
    }

    /// The room that a new group gets.
    fn take_room(&mut self) -> usize {
        let room = self.room.min(self.left);
        self.left = self.left.saturating_sub(room);
        room
    }

    /// Notes where the group of a field stands.
    fn note(&mut self, field: u32, place: usize) {
        self.places[field as usize % SLOTS] = place;
    }
}

/// What entries carry, put together by field, by ascending field and in the order of the entries. It is for few fields: the
/// place of each entry's field is looked for among the fields so far, first where it was found last.
pub fn grouped_by_field<P: Drop>(
    alloc: Global,
    entries: Vec<(u32, P)>,
) -> Result<Vec<(u32, Vec<P>)>, NoMemory>
    ensures { IfOk result (λ groups. AreGroups nat_cmp entries.items (groups_seen groups.items)) }
{
    let mut groups = Vec::new(alloc);
    let mut known = KnownPlaces::new(0, 0);
    'entries: for (field, member) in entries {
        put(alloc, field, member, &mut known, &mut groups)?;
    }
    Ok(groups)
}

/// Adds an entry to the group of its field, or as a new group.
pub(crate) fn put<P: Drop>(
    alloc: Global,
    field: u32,
    member: P,
    known: &mut KnownPlaces,
    groups: &mut Vec<(u32, Vec<P>)>,
) -> Result<(), NoMemory>
    requires { AreOrdered nat_cmp (groups_seen groups.old.items) }
    ensures gather { OnOk result ((any : ℕ) → in_groups nat_cmp any (groups_seen groups.new.items) ≡ in_groups nat_cmp any (groups_seen groups.old.items) ++ of_key nat_cmp any ((field, member) ∷ [])) }
    ensures ordered { OnOk result (AreOrdered nat_cmp (groups_seen groups.new.items)) }
{
    match place_from(field, known.place(field), groups.as_slice()) {
        Ok(place) => {
            known.note(field, place);
            let group = &mut groups[place];
            make_room(&mut group.1)?;
            group.1.push(member)?;
            Ok(())
        }
        Err(gap) => {
            known.note(field, gap);
            let mut members = Vec::with_capacity(alloc, known.take_room())?;
            members.push(member)?;
            groups.insert(gap, (field, members))?;
            Ok(())
        }
    }
}

/// Sees to it that there is room for one more, and where room is made, for a quarter more than there are: a segment has few
/// bytes for each member of a group, and groups are not to take many more.
fn make_room<P>(members: &mut Vec<P>) -> Result<(), NoMemory>
    ensures { members.new.items ≡ members.old.items }
{
    let count = members.len();
    if count == members.capacity() {
        members.reserve_exact(count / 4 + 4)?;
    }
    Ok(())
}

/// The place of the group of a field, or else where it belongs. It is looked for first at a place that may be its own.
fn place_from<P>(field: u32, first: usize, groups: &[(u32, P)]) -> Result<usize, usize>
    requires { IsStrictlySortedBy nat_cmp (keys groups.now) }
    ensures place { IfOk result (λ place. (place < length groups.now) × (slice_index (keys groups.now) place ≡ field)) }
    ensures gap { IfErr result (λ gap. (gap ≤ length groups.now) × ((at : ℕ) → at < gap → slice_index (keys groups.now) at < field)
        × ((at : ℕ) → gap ≤ at → at < length groups.now → field < slice_index (keys groups.now) at)) }
{
    if first < groups.len() && groups[first].0 == field {
        return Ok(first);
    }
    place_of(field, groups)
}

/// The place of the group of a field, or else where it belongs, by halves.
fn place_of<P>(field: u32, groups: &[(u32, P)]) -> Result<usize, usize>
    requires { IsStrictlySortedBy nat_cmp (keys groups.now) }
    ensures place { IfOk result (λ place. (place < length groups.now) × (slice_index (keys groups.now) place ≡ field)) }
    ensures gap { IfErr result (λ gap. (gap ≤ length groups.now) × ((at : ℕ) → at < gap → slice_index (keys groups.now) at < field)
        × ((at : ℕ) → gap ≤ at → at < length groups.now → field < slice_index (keys groups.now) at)) }
{
    let mut low = 0;
    let mut high = groups.len();
    'places: while low < high {
        let middle = low + (high - low) / 2;
        match groups[middle].0.cmp(&field) {
            Ordering::Less => low = middle + 1,
            Ordering::Equal => return Ok(middle),
            Ordering::Greater => high = middle,
        }
    }
    Err(low)
}
