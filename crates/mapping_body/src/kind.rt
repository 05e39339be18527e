//! The kinds of fields.
ghost use Rattle.std.specs.Prelude.{◌≡◌};
ghost use Rattle.mapping_body.specs.Code.{is_same_kind};

/// What a field holds (Elasticsearch reference, field data types).
#[derive(Clone, Copy, Debug, PartialEq, Eq)]
pub enum Kind {
    /// Words of a text.
    Text,
    /// A text as a whole.
    Keyword,
    /// A whole number of 64 bits, signed; `integer`, `short` and `byte` are read as this.
    Long,
    Boolean,
    /// A moment in milliseconds since 1970-01-01T00:00:00Z.
    Date,
    /// A plain object: its fields are fields of the object around it.
    Object,
    /// Objects that are documents of their own.
    Nested,
    /// A relation to other trees.
    Join,
}

/// Whether two kinds are the same.
pub fn is_same_kind(one: Kind, two: Kind) -> bool
    ensures { result ≡ is_same_kind one two }
{
    one as u8 == two as u8
}
