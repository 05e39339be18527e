//! Buckets for each combination of values, a page at a time, and for each day, month or year (the composite aggregation and the
//! date histogram of the Elasticsearch reference).
//!
//! It stands on `query_ast` for the order of values and on `calendar_intervals` for the starts of intervals; `specs/Composite`
//! says what a page and a histogram are. The contracts that others use: `page` answers `page_behind` of the full list of some
//! rows, `histogram` answers `histogram_of` them, and `pages_are_the_full_list` says that pages miss no bucket. Begin with `pages`.
#![tactic(auto)]

mod between;
mod compare;
mod intervals;
mod kept;
mod law;
mod pages;
mod refusal;

pub use intervals::histogram;
pub use kept::KeyPlaces;
pub use law::pages_are_the_full_list;
pub use pages::{Row, page};
pub use refusal::{MOST_BUCKETS, MOST_COMBINATIONS, PageRefusal};
