//! Sessions: requests in, replies out; and the other words of the command line.
//!
//! It reads requests from a source, has each answered and writes the reply to a sink. `specs/Run` says what a run of the plain
//! machine is. The one contract that others use is that of `run`: what the sink takes is such a run over the requests of what
//! the source gives, or what `specs/Printing` says. It stands on `line_reader` for requests, `machine` for the machine, `engine` for
//! the answers, `reply_text` for their texts, `io_edges` and `disk` for the outside, `store_opening` and `store_check` for stores, and
//! `made_load` for the made input. Begin with `specs/Run`.
#![tactic(auto)]

mod checking;
mod fault_count;
mod job;
mod made_run;
mod made_source;
mod making;
mod printing;
mod program;
mod session;
mod status;

pub use job::store_path;
pub use machine::Limits;
pub use program::run;
pub use session::serve;
pub use status::Status;
