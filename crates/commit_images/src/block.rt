//! Bytes to be written.

/// Bytes that are lent to be written into a file, with the byte offset of the first of them.
#[derive(Clone, Copy)]
pub struct Block<'a> {
    pub at: u64,
    pub bytes: &'a [u8],
}
