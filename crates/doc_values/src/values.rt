//! The values of one document, read in place.

ghost use Rattle.std.specs.Prelude.{◌≡◌, ◌*◌, ◌/◌, ◌<◌, ◌^◌, [], ◌∷◌, length, Some, slice_get, slice_index, IfSome, IfNone};
ghost use Rattle.doc_values.specs.Kept.{value_in, values_in};

use crate::ColumnValue;
use std::marker::{Model, PhantomData};

/// Values read in place, in order.
#[derive(Drop)]
pub struct Values<'a, T: ColumnValue> {
    bytes: &'a [u8],
    of: PhantomData<T>,
}

impl<'a, T: ColumnValue> Model for Values<'a, T> {
    ghost use Rattle.std.specs.Prelude.{◌<◌, ◌^◌, ◌/◌, List, length};
    ghost use Rattle.doc_values.specs.Kept.{values_in};

    ghost Value = { List T };

    ghost view = { λ it. values_in T.front it.bytes.now };

    ghost invariant = { λ it. length it.bytes.now / 8 < 2 ^ 32 };
}

impl<'a, T: ColumnValue> Values<'a, T> {
    /// The values that these bytes are, eight bytes each.
    pub(crate) fn over(bytes: &'a [u8]) -> Values<'a, T>
        requires { length bytes.now / 8 < 2 ^ 32 }
        ensures { result ≡ values_in T.front bytes.now }
    {
        Values {
            bytes,
            of: PhantomData,
        }
    }

    /// How many there are.
    pub fn len(&self) -> u32
        ensures { result ≡ length self.now }
    {
        (self.bytes.len() / 8) as u32
    }

    /// Value `at`.
    pub fn value(&self, at: u32) -> T
        requires { at < length self.now }
        ensures { slice_get self.now at ≡ Some result }
    {
        value_in(self.bytes, at as usize)
    }

    /// Takes the first value off.
    pub fn next(&mut self) -> Option<T>
        ensures some { IfSome result (λ value. self.old ≡ value ∷ self.new) }
        ensures none { IfNone result (self.old ≡ [] × (self.new ≡ [])) }
    {
        if self.bytes.len() < 8 {
            return None;
        }
        let value = value_in(self.bytes, 0);
        self.bytes = self.bytes.split_at(8).1;
        Some(value)
    }
}

/// Number `at` of bytes.
fn value_in<T: ColumnValue>(bytes: &[u8], at: usize) -> T
    requires { at < length bytes.now / 8 }
    ensures { result ≡ value_in T.front bytes.now at }
{
    T::first(bytes.split_at(8 * at).1)
}
