//! The documents that show a value of a field.

ghost use Rattle.std.specs.Prelude.{◌≡◌, ◌<◌, length};
ghost use Rattle.mapping.specs.Mapping.{kind_at};
ghost use Rattle.leaf_search.specs.Sets.{Gains};
ghost use Rattle.segment.specs.Shows.{has_term, has_text};
ghost use Rattle.leaf_search.specs.Values.{always, is_inside, shows_inner, shows_part, shows_value};

use crate::terms::mark_range;
use block_bits::BitSet;
use mapping::{Kind, Mapping};
use mapping_body::lies_above;
use segment::{Segment, values_are_of_documents};
use term_table::Edge;

/// Adds the documents that show a value of a field. Plain objects, nested fields and joins have none.
pub(crate) fn mark_shown(mapping: &Mapping, segment: &Segment, field: u32, set: &mut BitSet)
    requires field { field < length mapping.now.fields }
    requires long { length set.old ≡ segment.now.documents }
    ensures { Gains segment.now (shows_value field (kind_at mapping.now field)) set.old set.new }
{
    match mapping.kind(field) {
        Kind::Text => mark_texts(segment, field, set),
        Kind::Keyword => mark_all(segment, field, set),
        Kind::Long => mark_all(segment, field, set),
        Kind::Boolean => mark_all(segment, field, set),
        Kind::Date => mark_all(segment, field, set),
        Kind::Object => {}
        Kind::Nested => {}
        Kind::Join => {}
    }
}

/// Adds the documents that have a term of a field.
fn mark_all(segment: &Segment, field: u32, set: &mut BitSet)
    requires { length set.old ≡ segment.now.documents }
    ensures { Gains segment.now (has_term field always) set.old set.new }
{
    mark_range(segment, field, Edge::Unbounded, Edge::Unbounded, set);
}

/// Adds the documents that have a value of a text field, also one without words.
fn mark_texts(segment: &Segment, field: u32, set: &mut BitSet)
    requires { length set.old ≡ segment.now.documents }
    ensures { Gains segment.now (has_text field) set.old set.new }
{
    values_are_of_documents(segment);
    let _documents = segment.docs();
    if let Some(present) = segment.present(field) {
        set.or(present);
    }
}

/// Adds the documents that show a value of a field that lies inside a plain object and has its home.
pub(crate) fn mark_parts(mapping: &Mapping, segment: &Segment, field: u32, set: &mut BitSet)
    requires field { field < length mapping.now.fields }
    requires long { length set.old ≡ segment.now.documents }
    ensures { Gains segment.now (shows_part mapping.now field) set.old set.new }
{
    'fields: for inner in 0..mapping.field_count() {
        mark_part(mapping, segment, field, inner, set);
    }
}

/// Adds the documents that show a value of another field, if it lies inside a plain object and has its home.
fn mark_part(mapping: &Mapping, segment: &Segment, field: u32, inner: u32, set: &mut BitSet)
    requires field { field < length mapping.now.fields }
    requires inner { inner < length mapping.now.fields }
    requires long { length set.old ≡ segment.now.documents }
    ensures { Gains segment.now (λ d. shows_inner mapping.now field d inner) set.old set.new }
{
    if is_inside(mapping, field, inner) {
        mark_shown(mapping, segment, inner, set);
    }
}

/// Whether a field lies inside a plain object and has its home.
fn is_inside(mapping: &Mapping, field: u32, inner: u32) -> bool
    requires field { field < length mapping.now.fields }
    requires inner { inner < length mapping.now.fields }
    ensures { result ≡ is_inside mapping.now field inner }
{
    lies_above(mapping.path(field), mapping.path(inner))
        && mapping.home(inner) == mapping.home(field)
}
