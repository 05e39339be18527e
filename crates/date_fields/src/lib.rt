//! Dates in documents and queries: which texts are dates, and which moment each of them names.
//!
//! A moment is a number of milliseconds since 1970-01-01T00:00:00Z. The crate stands on `jiff` for
//! the calendar and takes no memory. Other crates use [`millis`], whose contract says that its
//! answer is `moment` of the text.
#![tactic(auto)]

mod date_text;

pub use date_text::millis;
