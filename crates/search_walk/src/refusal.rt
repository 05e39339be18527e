//! Why a search body is refused.
use mapping::NoMemory;

/// Why a search body has no search under a mapping.
#[derive(Clone, Copy, Debug, PartialEq, Eq)]
pub enum SearchRefusal {
    /// A path is no nested path of the mapping.
    UnknownPath,
    /// A path doesn't lie strictly below, or above, the scope at hand.
    PathOutOfScope,
    /// A relation isn't one of the mapping with a parent, or with children.
    UnknownRelation,
    /// A value isn't of its field's kind, or the kind doesn't allow the query.
    BadValue,
    /// A sort's field is unmapped or of a kind that doesn't sort.
    SortFieldUnmapped,
    /// A sort's mode or its value for missing ones doesn't go with the field's kind.
    BadSort,
    /// Two inner hits have one name.
    DuplicateInnerName,
    /// `from` and `size` are more than 10,000 together.
    WindowTooLarge,
    /// `from` and `size` of inner hits are more than 100 together.
    InnerWindowTooLarge,
    /// More than 1,024 queries and buckets.
    TooManyClauses,
    /// A query or a bucket lies deeper than 30.
    QueryTooDeep,
    /// More than 65,536 values in one `terms`.
    TooManyTerms,
    /// Memory was wanted.
    NoMemory,
}

impl From<NoMemory> for SearchRefusal {
    ghost use Rattle.std.specs.Prelude.{◌≡◌};
    ghost use Rattle.search_walk.specs.declared.refusal.SearchRefusal.TheVariants.{NoMemory};

    ghost from_gives = { λ _ e. e ≡ NoMemory };

    fn from(_error: mapping::NoMemory) -> SearchRefusal {
        SearchRefusal::NoMemory
    }
}
