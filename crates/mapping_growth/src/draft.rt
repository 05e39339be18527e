//! A field as the body that adds it says it.
use mapping_body::{Kind, Named};

/// A field before its home is known: its path, its kind, its flags, and the number of the body that adds it, from 1.
#[derive(Drop)]
pub struct Draft {
    pub path: Vec<u8>,
    pub kind: Kind,
    pub in_parent: bool,
    pub in_root: bool,
    pub since: u32,
}

impl Named for Draft {
    ghost name = { λ d. d.path.items };

    fn name(&self) -> &[u8] {
        &self.path
    }
}
