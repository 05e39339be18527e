//! That bytes are those of one segment at most.

ghost use Rattle.store_opening.specs.Segments.{AreOnce};

use block_bits::words_are_of_one_set;
use stored_sources::old_roots_have_one_text;

/// Bytes of either form are those of one segment at most. Does nothing.
pub(crate) fn columns_are_read_once()
    ensures { AreOnce }
{
    words_are_of_one_set();
    old_roots_have_one_text();
}
