//! JSON values, read from bytes and printed as bytes.
//!
//! Stands on `serde_json`, whose grammar decides what is JSON, on `json`'s table of escapes and on `itoa`.
//! `specs/Value` is the plain type of values that every definition of the repository speaks of. The contract that
//! others use: `read` answers as the one function `reading` of the bytes says, and `print` appends `compact`.
#![tactic(auto)]

mod law;
mod one_text;
mod out_text;
mod printer;
mod quick;
mod quote;
mod reader;
mod value;
mod whole;

pub use law::what_is_read_has_few_levels;
pub use one_text::OneText;
pub use out_text::{NoMemory, OutText};
pub use printer::{compact_len, print, put};
pub use quote::{put_quoted, quoted_len};
pub use reader::{JsonReader, JsonRefusal, read};
pub use value::{Json, JsonList, JsonObject, JsonText};
pub use whole::{count_len, put_count, put_whole, whole_len};
