//! Which kinds of fields the parts of a search ask, and which values a kind takes.
ghost use Rattle.std.specs.Prelude.{◌≡◌, Some};
ghost use Rattle.tree_json.specs.View.{view};
ghost use Rattle.search_walk.specs.Kinds.{is_keyword, is_sortable, is_measured, is_valued, may_ask, is_taken};

use mapping::Kind;
use search_form::Form;
use tree_json::Json;
use tree_objects::is_of_kind;

pub(crate) fn is_keyword(kind: Kind) -> bool
    ensures { result ≡ is_keyword kind }
{
    matches!(kind, Kind::Keyword)
}

/// Whether the values of a kind have an order: they sort, and make buckets.
pub(crate) fn is_sortable(kind: Kind) -> bool
    ensures { result ≡ is_sortable kind }
{
    matches!(
        kind,
        Kind::Keyword | Kind::Long | Kind::Boolean | Kind::Date
    )
}

fn is_measured(kind: Kind) -> bool
    ensures { result ≡ is_measured kind }
{
    matches!(kind, Kind::Long | Kind::Date)
}

fn is_valued(kind: Kind) -> bool
    ensures { result ≡ is_valued kind }
{
    matches!(kind, Kind::Text) || is_sortable(kind)
}

/// Whether a leaf, a bucket or a metric may ask fields of a kind.
pub(crate) fn may_ask(form: Form, kind: Kind) -> bool
    ensures { result ≡ may_ask form kind }
{
    match form {
        Form::Range => is_measured(kind) || is_keyword(kind),
        Form::Prefix => matches!(kind, Kind::Text) || is_keyword(kind),
        Form::TermsBucket | Form::ValueCount => is_sortable(kind),
        Form::Metric => is_measured(kind),
        _ => is_valued(kind),
    }
}

/// Whether a value that is asked is one of a kind.
pub(crate) fn is_taken(kind: Kind, value: &Json) -> bool
    ensures { result ≡ is_taken kind (Some (view value.now)) }
{
    is_of_kind(kind, value)
}
