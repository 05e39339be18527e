//! The text of a segment's parts: numbers, bytes and lists, read from the front of bytes and appended to them.
//!
//! A part is a list of rows, each row's text behind that of the one before. The crate stands on std alone. What others
//! use is that each walker gives exactly what `specs/Reading.antt` reads, which `specs/Reads.antt` shows to undo the texts
//! of `specs/Text.antt`, and that `row` gives what stands between two places. Begin reading with `specs/Text.antt`.
#![tactic(auto)]

mod front;
mod no_memory;
mod place_list;
mod put;
mod walk;

pub use front::{first_i64, first_u32, first_u64};
pub use no_memory::NoMemory;
pub use place_list::{PlaceList, row};
pub use put::{put_i64, put_string, put_u32, put_u64};
pub use walk::{i64_at, string_at, u32_at, u64_at};
