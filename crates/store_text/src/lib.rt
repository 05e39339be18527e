//! The text of a store's file: its header with two slots, and the record that a slot leads to.
//!
//! It stands on `byte_fields` and `part_text`, for the texts of numbers, bytes and lists. What others use is that `read_record`
//! gives a record exactly where the bytes are its text, that no bytes are the text of two, and that `Header::read` tells what
//! gates and slots say. Begin reading with `specs/Header.antt` and `specs/Record.antt`; `docs/STORE.md` has the same grammar.
#![tactic(auto)]

mod header;
mod reading;
mod record;
mod walk;
mod written;

pub use header::{HEADER_SIZE, Header, OPEN_BYTE, Side, Slot, has_magic, header_bytes, slot_bytes};
pub use part_text::NoMemory;
pub use reading::read_record;
pub use record::{
    Body, BodyList, DeadRoots, MOST_BODIES, RecordText, Row, RowList, record_has_one_text,
};
pub use written::put_record;
