//! The forms that a field's values have in a segment, and the fields of a mapping that have them.
ghost use Rattle.std.specs.Prelude.{◌≡◌, ◌↔◌, ◌<◌, IsTrue, length};
ghost use Rattle.segment_fits.specs.Tested.{has_form, IsField};

use mapping::Mapping;
use mapping_body::Kind;

/// How the values of a field stand in a segment.
#[derive(Clone, Copy, Debug, PartialEq, Eq)]
pub(crate) enum Form {
    /// As signed numbers.
    Numbers,
    /// As ordinals of terms.
    Keywords,
    /// As words with positions, and a flag for each document with a value.
    Words,
}

/// Whether the fields of a kind have their values in a form.
fn has_form(kind: Kind, form: Form) -> bool
    ensures { result ≡ has_form form kind }
{
    match form {
        Form::Numbers => match kind {
            Kind::Long => true,
            Kind::Boolean => true,
            Kind::Date => true,
            Kind::Text => false,
            Kind::Keyword => false,
            Kind::Object => false,
            Kind::Nested => false,
            Kind::Join => false,
        },
        Form::Keywords => matches!(kind, Kind::Keyword),
        Form::Words => matches!(kind, Kind::Text),
    }
}

/// Whether a field is one of the mapping, of a kind that has the form.
pub(crate) fn is_field(mapping: &Mapping, form: Form, field: u32) -> bool
    ensures { IsTrue result ↔ IsField mapping.now form field }
{
    if field >= mapping.field_count() {
        return false;
    }
    has_form(mapping.kind(field), form)
}
