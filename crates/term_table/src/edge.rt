//! The edges of a range of terms.

/// An edge of a range, low or high. The order of bytes is that of unsigned numbers, one byte after the other.
#[derive(Clone, Copy)]
pub enum Edge<'a> {
    /// No edge: all terms of the field.
    Unbounded,
    /// A closed edge, as of `gte` and `lte`: the term with these bytes is taken in.
    Closed(&'a [u8]),
    /// An open edge, as of `gt` and `lt`: the term with these bytes is left out.
    Past(&'a [u8]),
}
