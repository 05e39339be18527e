//! Names in byte order: of several things that stand in one object, which comes next. Printing takes no memory of its
//! own, so nothing is sorted: the next thing is looked up. Where the names rise as they stand, which is seen once for each
//! object, it is the first that is left; else all that may be left are looked at.
ghost use Rattle.std.specs.Prelude.{◌≡◌, ◌⊎◌, ◌&&◌, None, Some, map};
ghost use Rattle.std.specs.Option.{option_copied, option_map};
ghost use Rattle.reply_text.specs.Object.{Entry};
ghost use Rattle.reply_text.specs.Next.{ArePassed, is_above, closer, rise};

/// Something that stands in an object under a name.
pub(crate) trait Named {
    // its name and the text of its value
    ghost entry: { Self → Entry };

    fn name(&self) -> &[u8]
        ensures { result.now ≡ (entry self.now).0 };
}

/// Whether a name comes after the last one that was written, if there is one.
fn is_above(last: Option<&[u8]>, name: &[u8]) -> bool
    ensures { result ≡ is_above (option_copied last.entry) name.now }
{
    match last {
        None => true,
        Some(last) => last.cmp(name).is_lt(),
    }
}

/// Whether things stand in the order of their names, no name twice.
pub(crate) fn rise<T: Named>(list: &[T]) -> bool
    ensures { result ≡ rise None (map T.entry list.now) }
{
    let mut last: Option<&[u8]> = None;
    'names: for item in list {
        let name = item.name();
        if !is_above(last, name) {
            return false;
        }
        last = Some(name);
    }
    true
}

/// How many things at the front are passed, since their names don't come after the last one that was written: so many as were
/// before, or more.
pub(crate) fn passed<T: Named>(list: &[T], from: usize, last: &[u8]) -> usize
    ensures { ArePassed (Some last.now) (map T.entry list.now) from → ArePassed (Some last.now) (map T.entry list.now) result }
{
    let mut at = from;
    'names: while at < list.len() {
        if is_above(Some(last), list[at].name()) {
            return at;
        }
        at += 1;
    }
    at
}

/// Whether a thing comes next before all behind it, since it comes after the last name and the names rise.
pub(crate) fn is_first(rising: bool, last: Option<&[u8]>, name: &[u8]) -> bool
    ensures { result ≡ (rising && is_above (option_copied last.entry) name.now) }
{
    rising && is_above(last, name)
}

/// Of what was found so far and a new thing, the one that comes next after the last name; of two things under one name
/// the one that was found.
pub(crate) fn closer<T: Named + Copy>(found: Option<T>, last: Option<&[u8]>, new: T) -> Option<T>
    ensures closer { option_map T.entry result ≡ closer (option_copied last.entry) (option_map T.entry found) (T.entry new) }
    ensures one { (result ≡ found) ⊎ (result ≡ Some new) }
{
    if !is_above(last, new.name()) {
        return found;
    }
    match found {
        None => Some(new),
        Some(first) => {
            if new.name().cmp(first.name()).is_lt() {
                Some(new)
            } else {
                Some(first)
            }
        }
    }
}
