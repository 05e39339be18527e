//! What bodies say together: fields and relations by their numbers, with their orders by path and by name.
ghost use Rattle.std.specs.Prelude.{◌≡◌, ℕ, List, [], ◌<◌, ◌^◌, map, length, IfOk, IfSome};
ghost use Rattle.tree_json.specs.View.{view};
ghost use Rattle.mapping_growth.specs.Bodies.{relation_place};
ghost use Rattle.mapping_growth.specs.Fields.{draft_paths, drafts_of};
ghost use Rattle.mapping_growth.specs.Kept.{made_of, relation_of};
ghost use Rattle.mapping_body.specs.Names.{joined, place_of};
ghost use Rattle.mapping_growth.specs.Relations.{relation_names, relations_of};

use crate::draft::Draft;
use crate::relation::Relation;
use mapping_body::{Below, NoMemory, Sought, Whole, number_among};
use std::alloc::Global;
use std::marker::Model;
use tree_json::Json;

/// Bodies with what they say. There may be none.
#[derive(Drop)]
pub(crate) struct Said {
    pub bodies: Vec<Json>,
    pub fields: Vec<Draft>,
    pub by_path: Vec<u32>,
    pub relations: Vec<Relation>,
    pub by_name: Vec<u32>,
    pub counts: Counts,
}

/// How much bodies say: the properties that they say first, the nested ones and the joins among these, and the bytes of
/// the bodies' compact texts.
#[derive(Clone, Copy, Drop)]
pub(crate) struct Counts {
    pub added: usize,
    pub nested: usize,
    pub joins: usize,
    pub bytes: u64,
}

impl Model for Said {
    ghost use Rattle.std.specs.Prelude.{List, map};
    ghost use Rattle.std.specs.Coded.{coded_list};
    ghost use Rattle.tree_json.specs.Value.{JsonValue};
    ghost use Rattle.tree_json.specs.View.{view as value};
    ghost use Rattle.tree_json.specs.Code.{value_code};
    ghost use Rattle.mapping_growth.specs.Kept.{IsKept, AreCounts};

    ghost Value = { List JsonValue };

    ghost coded = { coded_list value_code };

    ghost view = { λ a. map value a.bodies.items };

    ghost invariant = { λ a. IsKept (map value a.bodies.items) a.fields.items a.by_path.items a.relations.items a.by_name.items × AreCounts (map value a.bodies.items) a.counts.added a.counts.nested a.counts.joins a.counts.bytes };
}

impl Said {
    /// No bodies, which say nothing.
    pub fn none(alloc: Global) -> Said
        ensures { result ≡ [] }
    {
        Said {
            bodies: Vec::new(alloc),
            fields: Vec::new(alloc),
            by_path: Vec::new(alloc),
            relations: Vec::new(alloc),
            by_name: Vec::new(alloc),
            counts: Counts {
                added: 0,
                nested: 0,
                joins: 0,
                bytes: 0,
            },
        }
    }

    /// How many bodies there are.
    pub fn count(&self) -> usize
        ensures { result ≡ length self.now }
    {
        self.bodies.len()
    }

    /// The number of the field at a path.
    pub fn field<S: Sought>(&self, path: &S) -> Option<u32>
        ensures number { result ≡ place_of (S.sought path.now) (draft_paths (drafts_of self.now)) }
        ensures bound { IfSome result (λ field. field < length (drafts_of self.now)) }
    {
        number_among(self.fields.as_slice(), self.by_path.as_slice(), path)
    }

    /// The number of the relation of a name.
    pub fn relation(&self, name: &[u8]) -> Option<u32>
        ensures number { result ≡ relation_place (relations_of self.now) name.now }
        ensures bound { IfSome result (λ relation. relation < length (relations_of self.now)) }
    {
        number_among(
            self.relations.as_slice(),
            self.by_name.as_slice(),
            &Whole { name },
        )
    }
}
