//! What a column keeps: values of eight bytes, in an order.

ghost use Rattle.std.specs.Prelude.{◌≡◌, ◌≤◌, ◌++◌, ℕ, List, length, Option, OnOk, OnErr, FitsSigned};
ghost use Rattle.std.specs.Int.{w64};
ghost use Rattle.part_text.specs.Text.{u64_text, i64_text};
ghost use Rattle.doc_values.specs.Values.{IsOrdinal};
ghost use Rattle.part_text.specs.Reading.{Gives, u64_at, i64_at};
ghost use Rattle.part_text.specs.Front.{first_u64, first_i64};
ghost use Rattle.part_text.specs.Reads.{Reads, u64_reads, i64_reads, first_u64-text, first_i64-text, length-u64_text, length-i64_text};

use part_text::{NoMemory, first_i64, first_u64, i64_at, put_i64, put_u64, u64_at};

/// A value that a column keeps: a signed number or an ordinal, as eight bytes.
pub trait ColumnValue: Ord + Copy {
    ghost text: { Self → List ℕ };

    ghost Fits: { Self → Type 0 };

    ghost read: { List ℕ → Option (Self × List ℕ) };

    ghost front: { List ℕ → Self };

    /// The value at the front of bytes, and the bytes behind it.
    fn value_at(bytes: &[u8]) -> Option<(Self, &[u8])>
        ensures { Gives (λ x. (x.0, x.1.now)) result (read bytes.now) };

    /// The value that the first eight bytes are.
    fn first(bytes: &[u8]) -> Self
        requires { 8 ≤ length bytes.now }
        ensures { result ≡ front bytes.now };

    /// Appends the value's eight bytes.
    fn put(self, into: &mut Vec<u8>) -> Result<(), NoMemory>
        ensures put { OnOk result (into.new.items ≡ into.old.items ++ text self) }
        ensures unchanged { OnErr result (into.new.items ≡ into.old.items) };

    /// Says that the value fits its eight bytes, as each does.
    fn fits(self)
        ensures { Fits self };

    ghost reads: { Reads {B = Option Self} text (λ _ value. Fits value) (λ _. read) };

    ghost shows: { (value : Self) (rest : List ℕ) → Fits value → front (text value ++ rest) ≡ value };

    ghost long: { (value : Self) → length (text value) ≡ 8 };
}

impl ColumnValue for i64 {
    ghost text = { i64_text };

    ghost Fits = { FitsSigned w64 };

    ghost read = { i64_at };

    ghost front = { first_i64 };

    fn value_at(bytes: &[u8]) -> Option<(i64, &[u8])> {
        i64_at(bytes)
    }

    fn first(bytes: &[u8]) -> i64 {
        first_i64(bytes)
    }

    fn put(self, into: &mut Vec<u8>) -> Result<(), NoMemory> {
        put_i64(into, self)
    }

    fn fits(self) {}

    ghost reads = { i64_reads };

    ghost shows = { first_i64-text };

    ghost long = { length-i64_text };
}

impl ColumnValue for u64 {
    ghost text = { u64_text };

    ghost Fits = { IsOrdinal };

    ghost read = { u64_at };

    ghost front = { first_u64 };

    fn value_at(bytes: &[u8]) -> Option<(u64, &[u8])> {
        u64_at(bytes)
    }

    fn first(bytes: &[u8]) -> u64 {
        first_u64(bytes)
    }

    fn put(self, into: &mut Vec<u8>) -> Result<(), NoMemory> {
        put_u64(into, self)
    }

    fn fits(self) {}

    ghost reads = { u64_reads };

    ghost shows = { first_u64-text };

    ghost long = { length-u64_text };
}
