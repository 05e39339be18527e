//! Names that were looked up before. A body asks the same few fields and paths again and again.
ghost use Rattle.std.specs.Prelude.{◌≡◌, ◌<◌, IsTrue, IfSome, Some, length};
ghost use Rattle.mapping.specs.Mapping.{field_named};
ghost use Rattle.tree_json.specs.Value.{members_of};
ghost use Rattle.search_walk.specs.Names.{kind_named, nested_scope, scope_inside};

use crate::names::{nested_scope, scope_inside, text_under};
use mapping::{Kind, Mapping, names_lead_to_fields};
use search_form::Form;
use tree_json::JsonObject;

/// So many fields are remembered.
const SLOTS: usize = 128;

/// The fields that were found last, each in a slot that its path gives, and the nested path that was found last. They say
/// where to look first: what stands there counts only where it has the path that is sought, so it may be of another path,
/// or of another mapping.
#[derive(Drop)]
pub struct KnownNames {
    fields: [u32; 128],
    scope: u32,
}

impl KnownNames {
    /// None yet.
    pub fn new() -> KnownNames {
        KnownNames {
            fields: [0; 128],
            scope: 0,
        }
    }

    /// The number of the field at a path.
    pub fn field(&mut self, mapping: &Mapping, path: &[u8]) -> Option<u32>
        ensures number { result ≡ field_named mapping.now path.now }
        ensures bound { IfSome result (λ field. field < length mapping.now.fields) }
    {
        let slot = slot_of(path);
        let known = self.fields[slot];
        if stands_at(mapping, known, path) {
            return Some(known);
        }
        let found = mapping.field(path);
        if let Some(field) = found {
            self.fields[slot] = field;
        }
        found
    }

    /// The kind of the field at a path, and none where the path is unmapped.
    pub(crate) fn kind(&mut self, mapping: &Mapping, path: &[u8]) -> Option<Kind>
        ensures { result ≡ kind_named mapping.now path.now }
    {
        match self.field(mapping, path) {
            Some(field) => Some(mapping.kind(field)),
            None => None,
        }
    }

    /// The number of a nested path. The empty path is the root's, which is no nested one.
    fn nested_scope(&mut self, mapping: &Mapping, path: &[u8]) -> Option<u32>
        ensures { result ≡ nested_scope mapping.now path.now }
    {
        if is_scope_at(mapping, self.scope, path) {
            return Some(self.scope);
        }
        let found = nested_scope(mapping, path);
        if let Some(scope) = found {
            self.scope = scope;
        }
        found
    }

    /// The scope in which the parts of an object stand; none inside an ignored clause.
    pub fn scope_inside(
        &mut self,
        mapping: &Mapping,
        scope: Option<u32>,
        form: Form,
        object: &JsonObject,
    ) -> Option<u32>
        ensures { result ≡ scope_inside mapping.now scope form (members_of object.now) }
    {
        match form {
            Form::Nested => match scope {
                Some(_) => self.nested_scope(mapping, text_under(object, b"path")),
                None => None,
            },
            Form::ToChild | Form::HasChild | Form::HasParent | Form::SortNested | Form::Bucket =>
                scope_inside(mapping, scope, form, object),
            _ => scope,
        }
    }
}

// The slot of a path: by its length, its first byte and its last two.
fn slot_of(path: &[u8]) -> usize
    ensures { result < 128 }
{
    let len = path.len();
    if len < 2 {
        return 0;
    }
    let first = path[0] as usize;
    let last = path[len - 1] as usize;
    let before = path[len - 2] as usize;
    (len % SLOTS + 13 * first + 29 * before + 7 * last) % SLOTS
}

// Whether a number is that of the field at a path.
#[tactic(auto, using(crate::proofs::KnownPaths::known))]
fn stands_at(mapping: &Mapping, field: u32, path: &[u8]) -> bool
    ensures { IsTrue result → (field < length mapping.now.fields) × (field_named mapping.now path.now ≡ Some field) }
{
    if mapping.field_count() <= field {
        return false;
    }
    mapping.generation();
    names_lead_to_fields();
    mapping.path(field) == path
}

// Whether a number is that of the nested scope at a path.
#[tactic(auto, using(crate::proofs::KnownPaths::known_scope))]
fn is_scope_at(mapping: &Mapping, scope: u32, path: &[u8]) -> bool
    ensures { IsTrue result → nested_scope mapping.now path.now ≡ Some scope }
{
    if path.is_empty() {
        return false;
    }
    if mapping.scope_count() <= scope {
        return false;
    }
    mapping.scope_path(scope) == path
}
