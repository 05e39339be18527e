//! Requests, read from a source of bytes.
//!
//! A reader cuts what the source gives into lines and these into requests, in pieces and within a session's limit, and
//! takes no memory after it is made. The one contract that others use is that of `LineReader::next_request`: the next
//! request of what the source gives, or why there is none. It stands on `io_edges` for the source, and on `memchr`.
//! Begin with `specs/Line` and `specs/Request`, which say what the requests of bytes are, and go on with `specs/Given`.
#![tactic(auto)]

mod input;
mod line;
mod line_buffer;
mod lines;
mod reader;
mod stop;

pub use line::{FirstLine, SourceLine, takes_source};
pub use reader::LineReader;
pub use stop::Stop;
