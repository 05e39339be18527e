//! Places between terms, where a binary search ends.

ghost use Rattle.std.specs.Prelude.{◌≡◌};
ghost use Rattle.term_table.specs.Ranges.{is_from, is_to, is_before};

use crate::Edge;

/// A place between the terms of one field.
#[derive(Clone, Copy)]
pub(crate) enum Cut<'a> {
    /// Before the terms that lie from a low edge on.
    Low(Edge<'a>),
    /// After the terms that lie up to a high edge.
    High(Edge<'a>),
    /// After the last term that begins with these bytes, or comes before all that do.
    Prefix(&'a [u8]),
}

/// Whether bytes lie from a low edge on.
fn is_from(edge: &Edge, bytes: &[u8]) -> bool
    ensures { result ≡ is_from edge.now bytes.now }
{
    match edge {
        Edge::Unbounded => true,
        Edge::Closed(edge) => edge.cmp(&bytes).is_le(),
        Edge::Past(edge) => edge.cmp(&bytes).is_lt(),
    }
}

/// Whether bytes lie up to a high edge.
fn is_to(edge: &Edge, bytes: &[u8]) -> bool
    ensures { result ≡ is_to edge.now bytes.now }
{
    match edge {
        Edge::Unbounded => true,
        Edge::Closed(edge) => bytes.cmp(edge).is_le(),
        Edge::Past(edge) => bytes.cmp(edge).is_lt(),
    }
}

/// Whether bytes lie before a cut.
pub(crate) fn is_before(cut: &Cut, bytes: &[u8]) -> bool
    ensures { result ≡ is_before cut.now bytes.now }
{
    match cut {
        Cut::Low(edge) => !is_from(edge, bytes),
        Cut::High(edge) => is_to(edge, bytes),
        Cut::Prefix(prefix) => bytes
            .split_at(bytes.len().min(prefix.len()))
            .0
            .cmp(prefix)
            .is_le(),
    }
}
