//! The forms of the parts of a search body.

/// What a part of a search body has to look like. `lines_of` says which names the objects have.
#[derive(Clone, Copy, Debug, PartialEq, Eq)]
pub enum Form {
    // the body
    Body,
    Pit,

    // queries; what stands under a field's name has a form of its own
    Query,
    MatchAll,
    MatchNone,
    Term,
    TermField,
    Terms,
    Range,
    RangeField,
    Exists,
    Prefix,
    PrefixField,
    Match,
    MatchField,
    MatchPhrase,
    PhraseField,
    Ids,
    BoolQuery,
    ConstantScore,
    DisMax,
    Nested,
    ToChild,
    HasChild,
    HasParent,
    ParentId,

    // sorts, by score or by a field, the latter with a chain of nested paths
    SortClause,
    ScoreSort,
    FieldSort,
    SortNested,

    // inner hits
    InnerHits,

    // buckets: their definitions by name, and one definition
    Buckets,
    Bucket,
    NestedBucket,
    ReverseNestedBucket,
    TermsBucket,
    BucketOrder,
    Metric,
    ValueCount,
    JoinBucket,

    // lists; a query or a sort clause may stand for the list that has it alone
    Queries,
    QueryList,
    ValueList,
    TextList,
    Sort,
    SearchAfter,

    // single values
    Flag,
    True,
    Whole,
    Positive,
    Boost,
    BucketCount,
    Value,
    Bound,
    Text,
    Name,
    Direction,
    ScoreMode,
    SortMode,
    Operator,

    /// Whatever stands there.
    Any,
    /// Nothing has this form.
    Unknown,
}

/// Whether a name has to be there.
#[derive(Clone, Copy, Debug, PartialEq, Eq)]
pub enum Presence {
    /// It has to be there.
    Required,
    /// It may be left out.
    Optional,
    /// Of the names of this kind, exactly one is there.
    Choice,
}

/// A name that an object may have, whether it has to be there, and the form of what stands under it.
pub type Line = (&'static [u8], Presence, Form);
