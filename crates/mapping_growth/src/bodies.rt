//! Lists of bodies that are mappings.
ghost use Rattle.std.specs.Prelude.{◌≡◌, ◌<◌, ◌≤◌, ◌-◌, ◌^◌, ◌++◌, ◌∷◌, [], length, map, true, false, IfOk, IfSome, IsErrOf, None, Some, List, ℕ, get_or, take};
ghost use Rattle.tree_json.specs.Value.{null};
ghost use Rattle.tree_json.specs.View.{view};
ghost use Rattle.mapping_growth.specs.Bodies.{AreBodies, adds, conflict_of, exceeded, relation_place};
ghost use Rattle.mapping_body.specs.Body.{index_of, is_body};
ghost use Rattle.mapping_growth.specs.Fields.{draft_paths, drafts_of};
ghost use Rattle.mapping_growth.specs.Kept.{made_of, relation_of};
ghost use Rattle.mapping_body.specs.Names.{place_of};
ghost use Rattle.mapping_growth.specs.Relations.{relations_of};
ghost use Rattle.mapping_body.specs.declared.refusal.Limit.{Limit};

use crate::candidate::{candidate_of, has_form};
use crate::conflict::conflict_of;
use crate::draft::Draft;
use crate::relation::Relation;
use crate::said::Said;
use crate::taken::{adds, taken};
use mapping_body::{Limit, MappingRefusal, Sought, Whole, index_of};
use std::alloc::Global;
use std::marker::Model;
use tree_json::Json;

/// Bodies that are a mapping, with the fields and the relations that they say together.
#[derive(Drop)]
pub struct Bodies {
    said: Said,
}

impl Model for Bodies {
    ghost use Rattle.std.specs.Prelude.{List};
    ghost use Rattle.std.specs.Coded.{coded_list};
    ghost use Rattle.tree_json.specs.Value.{JsonValue};
    ghost use Rattle.tree_json.specs.Code.{value_code};
    ghost use Rattle.mapping_growth.specs.Bodies.{AreBodies};

    ghost Value = { List JsonValue };

    ghost coded = { coded_list value_code };

    ghost view = { λ a. a.said };

    ghost invariant = { λ a. AreBodies a.said };
}

impl Bodies {
    /// The first body of a mapping.
    pub fn read(alloc: Global, body: &Json) -> Result<Bodies, MappingRefusal>
        ensures ok { IfOk result (λ bodies. (bodies ≡ view body.now ∷ []) × (is_body (view body.now) ≡ true) × (exceeded (view body.now ∷ []) ≡ None)) }
        ensures bad_request { IsErrOf result MappingRefusal.BadRequest → is_body (view body.now) ≡ false }
        ensures no_conflict { (path : List ℕ) → IsErrOf result (MappingRefusal.Conflict path) → ⊥ }
        ensures too_much { (limit : Limit) → IsErrOf result (MappingRefusal.TooMuch limit) → (is_body (view body.now) ≡ true) × (exceeded (view body.now ∷ []) ≡ Some limit) }
    {
        let none = Said::none(alloc);
        let first = candidate_of(alloc, &none, body)?;
        if !has_form(&none, &first) {
            return Err(MappingRefusal::BadRequest);
        }
        let said = taken(alloc, &none, &first)?;
        Ok(Bodies { said })
    }

    /// The bodies with one more, or none where it adds nothing.
    pub fn grown(&self, alloc: Global, body: &Json) -> Result<Option<Bodies>, MappingRefusal>
        ensures added { IfOk result (λ grown. IfSome grown (λ bodies. (bodies ≡ self.now ++ view body.now ∷ []) × (is_body (view body.now) ≡ true) × (conflict_of self.now (view body.now) ≡ None) × (adds self.now (view body.now) ≡ true) × (exceeded (self.now ++ view body.now ∷ []) ≡ None))) }
        ensures same { IfOk result (λ grown. grown ≡ None → (is_body (view body.now) ≡ true) × (conflict_of self.now (view body.now) ≡ None) × (adds self.now (view body.now) ≡ false)) }
        ensures bad_request { IsErrOf result MappingRefusal.BadRequest → is_body (view body.now) ≡ false }
        ensures conflict { (path : List ℕ) → IsErrOf result (MappingRefusal.Conflict path) → (is_body (view body.now) ≡ true) × (conflict_of self.now (view body.now) ≡ Some path) }
        ensures too_much { (limit : Limit) → IsErrOf result (MappingRefusal.TooMuch limit) → (is_body (view body.now) ≡ true) × (conflict_of self.now (view body.now) ≡ None) × (adds self.now (view body.now) ≡ true) × (exceeded (self.now ++ view body.now ∷ []) ≡ Some limit) }
    {
        let next = candidate_of(alloc, &self.said, body)?;
        if !has_form(&self.said, &next) {
            return Err(MappingRefusal::BadRequest);
        }
        match conflict_of(alloc, &self.said, &next)? {
            Some(path) => return Err(MappingRefusal::Conflict(path)),
            None => {}
        }
        let more = adds(alloc, &self.said, &next)?;
        if !more {
            return Ok(None);
        }
        let said = taken(alloc, &self.said, &next)?;
        Ok(Some(Bodies { said }))
    }

    /// The fields by their numbers, and their homes left aside.
    pub fn fields(&self) -> &[Draft]
        ensures fields { map made_of result.now ≡ drafts_of self.now }
        ensures short { length result.now < 2 ^ 32 }
    {
        self.said.fields.as_slice()
    }

    /// The number of the field at a path.
    pub fn field<S: Sought>(&self, path: &S) -> Option<u32>
        ensures number { result ≡ place_of (S.sought path.now) (draft_paths (drafts_of self.now)) }
        ensures bound { IfSome result (λ field. field < length (drafts_of self.now)) }
    {
        self.said.field(path)
    }

    /// The relations by their numbers.
    pub fn relations(&self) -> &[Relation]
        ensures relations { map relation_of result.now ≡ relations_of self.now }
        ensures short { length result.now < 2 ^ 32 }
    {
        self.said.relations.as_slice()
    }

    /// The number of the relation of a name.
    pub fn relation(&self, name: &[u8]) -> Option<u32>
        ensures number { result ≡ relation_place (relations_of self.now) name.now }
        ensures bound { IfSome result (λ relation. relation < length (relations_of self.now)) }
    {
        self.said.relation(name)
    }

    /// How many relations the bodies up to a generation say. They are the first by number.
    pub fn relations_in(&self, generation: u32) -> u32
        ensures { result ≡ length (relations_of (take generation self.now)) }
    {
        self.relations()
            .partition_point(|relation| relation.since <= generation) as u32
    }

    /// How many bodies there are, one at least. What `are_bodies` says holds of all that were read.
    pub fn count(&self) -> u32
        ensures count { result ≡ length self.now }
        ensures are_bodies { AreBodies self.now }
    {
        self.said.count() as u32
    }

    /// A body by its number, from 1.
    pub fn body(&self, generation: u32) -> &Json
        requires first { 0 < generation }
        requires last { generation ≤ length self.now }
        ensures { view result.now ≡ get_or self.now (generation - 1) null }
    {
        &self.said.bodies[generation as usize - 1]
    }

    /// The index's name, which the first body gives.
    pub fn index_name(&self) -> &[u8]
        ensures { result.now ≡ index_of (get_or self.now 0 null) }
    {
        index_of(&self.said.bodies[0])
    }
}
