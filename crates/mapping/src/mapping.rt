//! A mapping, and its look-ups.
ghost use Rattle.std.specs.Prelude.{◌≡◌, ℕ, List, [], ◌++◌, ◌∷◌, ◌<◌, ◌≤◌, ◌-◌, ◌^◌, map, length, nat_le, ◌==◌, ◌&&◌, ◌||◌, IfOk, IfSome, IsErrOf, IsTrue, ◌↔◌, Some, None, true, false, get_or};
ghost use Rattle.tree_json.specs.Value.{null};
ghost use Rattle.tree_json.specs.View.{view};
ghost use Rattle.mapping_growth.specs.Bodies.{AreBodies, adds, conflict_of, exceeded, is_number};
ghost use Rattle.mapping_body.specs.Body.{is_body};
ghost use Rattle.std.specs.List.{list_any};
ghost use Rattle.mapping_growth.specs.Kept.{relation_of};
ghost use Rattle.mapping_body.specs.Names.{joined};
ghost use Rattle.mapping_body.specs.declared.refusal.Limit.{Limit};
ghost use Rattle.mapping.specs.IsMapping.{IsMapping};
ghost use Rattle.mapping.specs.Mapping.{Mapping, mapping_of, field_at, scope_at, relation_at, kind_at, home_of, around_of, field_named, field_below, scope_named, relation_named, relation_known, scope_field_of, reaches, included, knows, knows_relation, is_above, is_parent, generation_of, mapping_at};
ghost use Rattle.mapping.specs.Growth.{IsGrown};
ghost use Rattle.mapping.specs.Stored.{scope_seen, part_at, reaches_among};

use crate::scope::{Scope, ScopePath, homes, scope_paths, scopes};
use mapping_body::{
    Below, Kind, MappingRefusal, NoMemory, Whole, has_dot, lies_above, number_among, order_from,
};
use mapping_growth::{Bodies, Relation};
use std::alloc::Global;
use std::marker::Model;
use tree_json::Json;

/// A mapping: the fields, the scopes and the relations that its bodies say.
#[derive(Drop)]
pub struct Mapping {
    bodies: Bodies,
    dynamic: bool,
    homes: Vec<u32>,
    paths: Vec<ScopePath>,
    scopes: Vec<Scope>,
    by_path: Vec<u32>,
}

impl Model for Mapping {
    ghost use Rattle.mapping.specs.Code.{mapping_code};
    ghost use Rattle.mapping.specs.Mapping.{Mapping as Meaning, mapping_of};
    ghost use Rattle.mapping.specs.Stored.{IsKept};

    ghost Value = { Meaning };

    ghost coded = { mapping_code };

    ghost view = { λ a. mapping_of a.bodies a.dynamic };

    ghost invariant = { λ a. IsKept (mapping_of a.bodies a.dynamic) a.homes.items a.paths.items a.scopes.items a.by_path.items };
}

/// What becomes of a mapping by a further body.
#[derive(Drop)]
pub enum Growth {
    /// The body adds no property and no relation.
    Same,
    /// The mapping with the body.
    Added(Mapping),
}

impl Mapping {
    /// The mapping of a first body, to which sources don't add.
    pub fn read(alloc: Global, body: &Json) -> Result<Mapping, MappingRefusal>
        ensures mapping { IfOk result (λ m. m ≡ mapping_of (view body.now ∷ []) false) }
        ensures is_mapping { IfOk result IsMapping }
        ensures is_body { IfOk result (λ _. is_body (view body.now) ≡ true) }
        ensures bad_request { IsErrOf result MappingRefusal.BadRequest → is_body (view body.now) ≡ false }
        ensures no_conflict { (path : List ℕ) → IsErrOf result (MappingRefusal.Conflict path) → ⊥ }
        ensures too_much { (limit : Limit) → IsErrOf result (MappingRefusal.TooMuch limit) → (is_body (view body.now) ≡ true) × (exceeded (view body.now ∷ []) ≡ Some limit) }
    {
        let bodies = Bodies::read(alloc, body)?;
        Ok(built(alloc, bodies, false)?)
    }

    /// The mapping with a further body. The body's `index` and `dynamic` are tested for their form alone.
    pub fn grown(&self, alloc: Global, body: &Json) -> Result<Growth, MappingRefusal>
        ensures grown { IfOk result (IsGrown self.now (view body.now)) }
        ensures bad_request { IsErrOf result MappingRefusal.BadRequest → is_body (view body.now) ≡ false }
        ensures conflict { (path : List ℕ) → IsErrOf result (MappingRefusal.Conflict path) → (is_body (view body.now) ≡ true) × (conflict_of self.now.bodies (view body.now) ≡ Some path) }
        ensures too_much { (limit : Limit) → IsErrOf result (MappingRefusal.TooMuch limit) → (is_body (view body.now) ≡ true) × (conflict_of self.now.bodies (view body.now) ≡ None) × (adds self.now.bodies (view body.now) ≡ true) × (exceeded (self.now.bodies ++ view body.now ∷ []) ≡ Some limit) }
    {
        match self.bodies.grown(alloc, body)? {
            Some(bodies) => Ok(Growth::Added(built(alloc, bodies, self.dynamic)?)),
            None => Ok(Growth::Same),
        }
    }

    /// Whether sources add to the mapping.
    pub fn dynamic(&self) -> bool
        ensures { result ≡ self.now.dynamic }
    {
        self.dynamic
    }

    /// Sets whether sources add to the mapping.
    pub fn set_dynamic(&mut self, on: bool)
        ensures { self.new ≡ mapping_of self.old.bodies on }
    {
        self.dynamic = on;
    }

    /// The number of the last body, which is the mapping's last generation.
    pub fn generation(&self) -> u32
        ensures generation { result ≡ generation_of self.now }
        ensures bodies { AreBodies self.now.bodies }
        ensures mapping { self.now ≡ mapping_of self.now.bodies self.now.dynamic }
    {
        self.bodies.count()
    }

    /// The body that made a generation.
    pub fn body(&self, generation: u32) -> &Json
        requires first { 0 < generation }
        requires last { generation ≤ generation_of self.now }
        ensures { view result.now ≡ get_or self.now.bodies (generation - 1) null }
    {
        self.bodies.body(generation)
    }

    /// The index's name: that of the first body, or `main` where it gives none.
    pub fn index_name(&self) -> &[u8]
        ensures { result.now ≡ self.now.index }
    {
        self.bodies.index_name()
    }

    /// The number of the field at a path, whose names are joined by dots.
    pub fn field(&self, path: &[u8]) -> Option<u32>
        ensures number { result ≡ field_named self.now path.now }
        ensures bound { IfSome result (λ field. field < length self.now.fields) }
    {
        self.bodies.field(&Whole { name: path })
    }

    /// The field of a name below the path of a field, or below the root's, which is empty, if it stands in the mapping of
    /// a generation. A name with a dot has none.
    pub fn field_below(&self, generation: u32, path: &[u8], name: &[u8]) -> Option<u32>
        ensures field { result ≡ field_below self.now generation path.now name.now }
        ensures bound { IfSome result (λ field. field < length self.now.fields) }
        ensures path { IfSome result (λ field. (field_at self.now field).path ≡ joined path.now name.now) }
    {
        if has_dot(name) {
            return None;
        }
        match self.field_joined(path, name) {
            Some(field) => if self.knows(generation, field) {
                Some(field)
            } else {
                None
            },
            None => None,
        }
    }

    /// The field of a name below a path.
    fn field_joined(&self, path: &[u8], name: &[u8]) -> Option<u32>
        ensures field { result ≡ field_named self.now (joined path.now name.now) }
        ensures bound { IfSome result (λ field. field < length self.now.fields) }
        ensures path { IfSome result (λ field. (field_at self.now field).path ≡ joined path.now name.now) }
    {
        self.bodies.field(&Below { path, name })
    }

    /// Whether a field stands in the mapping of a generation.
    pub fn knows(&self, generation: u32, field: u32) -> bool
        requires { field < length self.now.fields }
        ensures { result ≡ knows self.now generation field }
    {
        self.bodies.fields()[field as usize].since <= generation
    }

    /// The kind of a field.
    pub fn kind(&self, field: u32) -> Kind
        requires { field < length self.now.fields }
        ensures { result ≡ kind_at self.now field }
    {
        self.bodies.fields()[field as usize].kind
    }

    /// The scope that is the home of a field: the nearest nested path strictly above it, or the root.
    pub fn home(&self, field: u32) -> u32
        requires { field < length self.now.fields }
        ensures { result ≡ home_of self.now field }
    {
        self.homes[field as usize]
    }

    /// The path of a field: its names from the top, joined by dots.
    pub fn path(&self, field: u32) -> &[u8]
        requires { field < length self.now.fields }
        ensures { result.now ≡ (field_at self.now field).path }
    {
        self.bodies.fields()[field as usize].path.as_slice()
    }

    /// How many fields there are, in all generations.
    pub fn field_count(&self) -> u32
        ensures { result ≡ length self.now.fields }
    {
        self.bodies.fields().len() as u32
    }

    /// The number of the scope at a path; the empty path is the root's, which is 0.
    pub fn scope(&self, path: &[u8]) -> Option<u32>
        ensures number { result ≡ scope_named self.now path.now }
        ensures bound { IfSome result (λ scope. scope < length self.now.scopes) }
    {
        number_among(
            self.paths.as_slice(),
            self.by_path.as_slice(),
            &Whole { name: path },
        )
    }

    /// The numbers of the nested scopes, in byte order of their paths.
    pub fn order(&self) -> &[u32]
        ensures { result.now ≡ self.now.order }
    {
        self.by_path.as_slice().split_at(1).1
    }

    /// The path of a scope; the root's is empty.
    pub fn scope_path(&self, scope: u32) -> &[u8]
        requires { scope < length self.now.scopes }
        ensures { result.now ≡ (scope_at self.now scope).path }
    {
        self.paths[scope as usize].bytes.as_slice()
    }

    /// Whether a scope stands in the mapping of a generation.
    pub fn knows_scope(&self, generation: u32, scope: u32) -> bool
        requires { scope < length self.now.scopes }
        ensures { result ≡ nat_le (scope_at self.now scope).since generation }
    {
        self.scopes[scope as usize].since <= generation
    }

    /// The scope around a nested path, and none for the root.
    pub fn around(&self, scope: u32) -> Option<u32>
        requires { scope < length self.now.scopes }
        ensures { result ≡ around_of self.now scope }
    {
        if scope == 0 {
            None
        } else {
            Some(self.scopes[scope as usize].around)
        }
    }

    /// Whether a scope lies above another; a number past the scopes lies nowhere.
    pub fn is_above(&self, above: u32, below: u32) -> bool
        ensures { result ≡ is_above self.now above below }
    {
        let paths = self.paths.as_slice();
        let above = above as usize;
        let below = below as usize;
        if above < paths.len() {
            if below < paths.len() {
                lies_above(paths[above].bytes.as_slice(), paths[below].bytes.as_slice())
            } else {
                false
            }
        } else {
            false
        }
    }

    /// The nested field of a scope, and none for the root.
    pub fn scope_field(&self, scope: u32) -> Option<u32>
        requires { scope < length self.now.scopes }
        ensures { result ≡ scope_field_of self.now scope }
    {
        if scope == 0 {
            None
        } else {
            self.bodies.field(&Whole {
                name: self.paths[scope as usize].bytes.as_slice(),
            })
        }
    }

    /// Whether a field shows its values in a scope: at its home, or by the include flags of nested paths.
    pub fn included(&self, field: u32, scope: u32) -> bool
        requires field { field < length self.now.fields }
        requires scope { scope < length self.now.scopes }
        ensures { result ≡ included self.now field scope }
    {
        let home = self.homes[field as usize];
        reaches(self.scopes.as_slice(), home, home, scope)
    }

    /// How many scopes there are, the root among them. What `is_mapping` says holds of every mapping: proofs about scopes
    /// and objects ask for it, and find it here.
    pub fn scope_count(&self) -> u32
        ensures count { result ≡ length self.now.scopes }
        ensures is_mapping { IsMapping self.now }
    {
        self.paths.len() as u32
    }

    /// How many scopes the mapping of a generation has, the root among them. They are the first by number.
    pub fn scopes(&self, generation: u32) -> u32
        ensures { result ≡ length (mapping_at self.now generation).scopes }
    {
        let nested = self.scopes.as_slice().split_at(1).1;
        nested.partition_point(|scope| scope.since <= generation) as u32 + 1
    }

    /// How many relations the mapping of a generation has. They are the first by number.
    pub fn relations(&self, generation: u32) -> u32
        ensures { result ≡ length (mapping_at self.now generation).relations }
    {
        self.bodies.relations_in(generation)
    }

    /// The number of a relation, by its name.
    pub fn relation(&self, name: &[u8]) -> Option<u32>
        ensures number { result ≡ relation_named self.now name.now }
        ensures bound { IfSome result (λ relation. relation < length self.now.relations) }
    {
        self.bodies.relation(name)
    }

    /// The number of a relation that stands in the mapping of a generation, by its name.
    pub fn relation_known(&self, generation: u32, name: &[u8]) -> Option<u32>
        ensures number { result ≡ relation_known self.now generation name.now }
        ensures bound { IfSome result (λ relation. relation < length self.now.relations) }
    {
        match self.relation(name) {
            Some(relation) => if self.knows_relation(generation, relation) {
                Some(relation)
            } else {
                None
            },
            None => None,
        }
    }

    /// Whether a relation stands in the mapping of a generation.
    pub fn knows_relation(&self, generation: u32, relation: u32) -> bool
        requires { relation < length self.now.relations }
        ensures { result ≡ knows_relation self.now generation relation }
    {
        self.bodies.relations()[relation as usize].since <= generation
    }

    /// The relation that is the parent of a relation, and none for a root relation.
    pub fn parent_relation(&self, relation: u32) -> Option<u32>
        requires { relation < length self.now.relations }
        ensures { result ≡ (relation_at self.now relation).parent }
    {
        self.bodies.relations()[relation as usize].parent
    }

    /// Whether a relation has children.
    pub fn is_parent_relation(&self, relation: u32) -> bool
        ensures { result ≡ is_parent self.now relation }
    {
        some_has_parent(self.bodies.relations(), relation)
    }

    /// How many relations there are, in all generations.
    pub fn relation_count(&self) -> u32
        ensures { result ≡ length self.now.relations }
    {
        self.bodies.relations().len() as u32
    }
}

fn some_has_parent(relations: &[Relation], parent: u32) -> bool
    ensures { result ≡ list_any (λ r. is_number parent r.parent) (map relation_of relations.now) }
{
    'relations: for relation in relations {
        if has_parent(relation, parent) {
            return true;
        }
    }
    false
}

fn has_parent(relation: &Relation, parent: u32) -> bool
    ensures { result ≡ is_number parent (relation_of relation.now).parent }
{
    match relation.parent {
        Some(number) => number == parent,
        None => false,
    }
}

/// A scope by its number; past the end there is none that includes anything.
#[tactic(auto, using(crate::proofs::LookUps::parts))]
fn part_at(scopes: &[Scope], number: u32) -> Scope
    ensures { scope_seen result ≡ part_at (map scope_seen scopes.now) number }
{
    if (number as usize) < scopes.len() {
        scopes[number as usize]
    } else {
        Scope {
            around: 0,
            in_parent: false,
            in_root: false,
            since: 1,
        }
    }
}

/// Whether the values that objects of a scope show are included in another, at most so many steps up.
#[cycle(reaches)]
fn reaches(scopes: &[Scope], left: u32, from: u32, to: u32) -> bool
    ensures { result ≡ reaches_among (map scope_seen scopes.now) left from to }
{
    if left == 0 {
        from == to
    } else {
        let scope = part_at(scopes, from);
        from == to || climbs(scopes, left - 1, scope, to)
    }
}

/// Whether a scope's flags include its values in another scope.
#[cycle(reaches)]
fn climbs(scopes: &[Scope], left: u32, scope: Scope, to: u32) -> bool
    ensures { result ≡ ((scope.in_parent && reaches_among (map scope_seen scopes.now) left scope.around to) || (scope.in_root && to == 0)) }
{
    (scope.in_parent && reaches(scopes, left, scope.around, to)) || (scope.in_root && to == 0)
}

/// The mapping of bodies.
fn built(alloc: Global, bodies: Bodies, dynamic: bool) -> Result<Mapping, NoMemory>
    ensures mapping { IfOk result (λ m. m ≡ mapping_of bodies dynamic) }
    ensures is_mapping { IfOk result IsMapping }
{
    let drafts = bodies.fields();
    let paths = scope_paths(alloc, drafts)?;
    if !is_short(paths.len()) {
        return Err(NoMemory);
    }
    let items = paths.as_slice();
    let scopes = scopes(alloc, drafts, items)?;
    let homes = homes(alloc, drafts, items)?;
    let by_path = order_from(alloc, items, 0)?;
    Ok(Mapping {
        bodies,
        dynamic,
        homes,
        paths,
        scopes,
        by_path,
    })
}

/// Whether so many things can have numbers of 32 bits; more find no memory here.
fn is_short(len: usize) -> bool
    ensures { IsTrue result ↔ (len < 2 ^ 32) }
{
    len < 4_294_967_296
}
