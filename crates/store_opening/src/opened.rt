//! What opening a store gives.

use commit_store::Store;
use mapping::Mapping;
use segment_view::View;

/// A store that was opened: the mapping that its last commit says, the next sequence number, and its segments as a view with ids
/// from 0 on. Without a commit there is no mapping, the number is 0 and the view is empty.
#[derive(Drop)]
pub struct Opened {
    pub store: Store,
    pub mapping: Option<Mapping>,
    pub next: u64,
    pub view: View,
}

/// What a store's file holds, without the means to change it.
#[derive(Drop)]
pub struct Inspected {
    pub mapping: Option<Mapping>,
    pub next: u64,
    pub view: View,
}
