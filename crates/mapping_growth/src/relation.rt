//! A relation of a join field.
use mapping_body::Named;

/// A relation with the number of its parent.
#[derive(Drop)]
pub struct Relation {
    pub name: Vec<u8>,
    pub parent: Option<u32>,
    pub since: u32,
}

impl Named for Relation {
    ghost name = { λ r. r.name.items };

    fn name(&self) -> &[u8] {
        &self.name
    }
}
