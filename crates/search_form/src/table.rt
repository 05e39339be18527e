//! The tables of forms: the names of objects, the elements of lists, and what may stand alone.
ghost use Rattle.std.specs.Prelude.{◌≡◌, if◌then◌else◌, map, option_map};
ghost use Rattle.search_form.specs.declared.form.Form.TheVariants.{Query, Nested, InnerHits, Bucket, Unknown};
ghost use Rattle.search_form.specs.Form.{line_at};
ghost use Rattle.search_form.specs.Table.{lines_of, other_of, is_choice_of_one, apart_in, element_of, single_of, is_name};

use crate::form::{Form, Line, Presence};

/// Two names of which one object has at most one.
pub(crate) type Pair = (&'static [u8], &'static [u8]);

/// The longest name of a bucket and of inner hits, in bytes.
const LONGEST_NAME: usize = 255;

const QUERY: &[Line] = &[
    (b"match_all", Presence::Choice, Form::MatchAll),
    (b"match_none", Presence::Choice, Form::MatchNone),
    (b"term", Presence::Choice, Form::Term),
    (b"terms", Presence::Choice, Form::Terms),
    (b"range", Presence::Choice, Form::Range),
    (b"exists", Presence::Choice, Form::Exists),
    (b"prefix", Presence::Choice, Form::Prefix),
    (b"match", Presence::Choice, Form::Match),
    (b"match_phrase", Presence::Choice, Form::MatchPhrase),
    (b"ids", Presence::Choice, Form::Ids),
    (b"bool", Presence::Choice, Form::BoolQuery),
    (b"constant_score", Presence::Choice, Form::ConstantScore),
    (b"dis_max", Presence::Choice, Form::DisMax),
    (b"nested", Presence::Choice, Form::Nested),
    (b"to_child", Presence::Choice, Form::ToChild),
    (b"has_child", Presence::Choice, Form::HasChild),
    (b"has_parent", Presence::Choice, Form::HasParent),
    (b"parent_id", Presence::Choice, Form::ParentId),
];

/// What stands under a name of a query, as the table has it. Each clause has such a name, and this finds it without a walk
/// over the table.
pub(crate) fn query_line(name: &[u8]) -> (Presence, Form)
    ensures { result ≡ line_at Query name.now }
{
    if name == b"match_all".as_slice() {
        (Presence::Choice, Form::MatchAll)
    } else if name == b"match_none".as_slice() {
        (Presence::Choice, Form::MatchNone)
    } else if name == b"term".as_slice() {
        (Presence::Choice, Form::Term)
    } else if name == b"terms".as_slice() {
        (Presence::Choice, Form::Terms)
    } else if name == b"range".as_slice() {
        (Presence::Choice, Form::Range)
    } else if name == b"exists".as_slice() {
        (Presence::Choice, Form::Exists)
    } else if name == b"prefix".as_slice() {
        (Presence::Choice, Form::Prefix)
    } else if name == b"match".as_slice() {
        (Presence::Choice, Form::Match)
    } else if name == b"match_phrase".as_slice() {
        (Presence::Choice, Form::MatchPhrase)
    } else if name == b"ids".as_slice() {
        (Presence::Choice, Form::Ids)
    } else if name == b"bool".as_slice() {
        (Presence::Choice, Form::BoolQuery)
    } else if name == b"constant_score".as_slice() {
        (Presence::Choice, Form::ConstantScore)
    } else if name == b"dis_max".as_slice() {
        (Presence::Choice, Form::DisMax)
    } else if name == b"nested".as_slice() {
        (Presence::Choice, Form::Nested)
    } else if name == b"to_child".as_slice() {
        (Presence::Choice, Form::ToChild)
    } else if name == b"has_child".as_slice() {
        (Presence::Choice, Form::HasChild)
    } else if name == b"has_parent".as_slice() {
        (Presence::Choice, Form::HasParent)
    } else if name == b"parent_id".as_slice() {
        (Presence::Choice, Form::ParentId)
    } else {
        other_of(Form::Query, name)
    }
}

/// The same of `nested`.
pub(crate) fn nested_line(name: &[u8]) -> (Presence, Form)
    ensures { result ≡ line_at Nested name.now }
{
    if name == b"path".as_slice() {
        (Presence::Required, Form::Text)
    } else if name == b"query".as_slice() {
        (Presence::Required, Form::Query)
    } else if name == b"score_mode".as_slice() {
        (Presence::Optional, Form::ScoreMode)
    } else if name == b"ignore_unmapped".as_slice() {
        (Presence::Optional, Form::Flag)
    } else if name == b"inner_hits".as_slice() {
        (Presence::Optional, Form::InnerHits)
    } else {
        other_of(Form::Nested, name)
    }
}

/// The same of inner hits.
pub(crate) fn inner_hits_line(name: &[u8]) -> (Presence, Form)
    ensures { result ≡ line_at InnerHits name.now }
{
    if name == b"name".as_slice() {
        (Presence::Optional, Form::Name)
    } else if name == b"from".as_slice() || name == b"size".as_slice() {
        (Presence::Optional, Form::Whole)
    } else if name == b"sort".as_slice() {
        (Presence::Optional, Form::Sort)
    } else if name == b"_source".as_slice() {
        (Presence::Optional, Form::Flag)
    } else {
        other_of(Form::InnerHits, name)
    }
}

const MATCH_ALL: &[Line] = &[(b"boost", Presence::Optional, Form::Boost)];

const TERM_FIELD: &[Line] = &[
    (b"value", Presence::Required, Form::Value),
    (b"boost", Presence::Optional, Form::Boost),
];

const TERMS: &[Line] = &[(b"boost", Presence::Optional, Form::Boost)];

const RANGE_FIELD: &[Line] = &[
    (b"gt", Presence::Optional, Form::Bound),
    (b"gte", Presence::Optional, Form::Bound),
    (b"lt", Presence::Optional, Form::Bound),
    (b"lte", Presence::Optional, Form::Bound),
    (b"boost", Presence::Optional, Form::Boost),
];

const EXISTS: &[Line] = &[
    (b"field", Presence::Required, Form::Text),
    (b"boost", Presence::Optional, Form::Boost),
];

const PREFIX_FIELD: &[Line] = &[
    (b"value", Presence::Required, Form::Text),
    (b"boost", Presence::Optional, Form::Boost),
];

const MATCH_FIELD: &[Line] = &[
    (b"query", Presence::Required, Form::Value),
    (b"operator", Presence::Optional, Form::Operator),
    (b"boost", Presence::Optional, Form::Boost),
];

const PHRASE_FIELD: &[Line] = &[
    (b"query", Presence::Required, Form::Value),
    (b"boost", Presence::Optional, Form::Boost),
];

const IDS: &[Line] = &[
    (b"values", Presence::Required, Form::TextList),
    (b"boost", Presence::Optional, Form::Boost),
];

const BOOL_QUERY: &[Line] = &[
    (b"must", Presence::Optional, Form::Queries),
    (b"filter", Presence::Optional, Form::Queries),
    (b"should", Presence::Optional, Form::Queries),
    (b"must_not", Presence::Optional, Form::Queries),
    (b"minimum_should_match", Presence::Optional, Form::Whole),
];

const CONSTANT_SCORE: &[Line] = &[
    (b"filter", Presence::Required, Form::Query),
    (b"boost", Presence::Optional, Form::Boost),
];

const DIS_MAX: &[Line] = &[(b"queries", Presence::Required, Form::QueryList)];

const NESTED: &[Line] = &[
    (b"path", Presence::Required, Form::Text),
    (b"query", Presence::Required, Form::Query),
    (b"score_mode", Presence::Optional, Form::ScoreMode),
    (b"ignore_unmapped", Presence::Optional, Form::Flag),
    (b"inner_hits", Presence::Optional, Form::InnerHits),
];

const TO_CHILD: &[Line] = &[
    (b"path", Presence::Required, Form::Text),
    (b"query", Presence::Required, Form::Query),
];

const HAS_CHILD: &[Line] = &[
    (b"type", Presence::Required, Form::Text),
    (b"query", Presence::Required, Form::Query),
    (b"score_mode", Presence::Optional, Form::ScoreMode),
    (b"min_children", Presence::Optional, Form::Positive),
    (b"max_children", Presence::Optional, Form::Positive),
    (b"ignore_unmapped", Presence::Optional, Form::Flag),
    (b"inner_hits", Presence::Optional, Form::InnerHits),
];

const HAS_PARENT: &[Line] = &[
    (b"parent_type", Presence::Required, Form::Text),
    (b"query", Presence::Required, Form::Query),
    (b"score", Presence::Optional, Form::Flag),
    (b"boost", Presence::Optional, Form::Boost),
    (b"ignore_unmapped", Presence::Optional, Form::Flag),
    (b"inner_hits", Presence::Optional, Form::InnerHits),
];

const PARENT_ID: &[Line] = &[
    (b"type", Presence::Required, Form::Text),
    (b"id", Presence::Required, Form::Text),
    (b"ignore_unmapped", Presence::Optional, Form::Flag),
    (b"boost", Presence::Optional, Form::Boost),
];

const BODY: &[Line] = &[
    (b"query", Presence::Optional, Form::Query),
    (b"from", Presence::Optional, Form::Whole),
    (b"size", Presence::Optional, Form::Whole),
    (b"sort", Presence::Optional, Form::Sort),
    (b"search_after", Presence::Optional, Form::SearchAfter),
    (b"aggs", Presence::Optional, Form::Buckets),
    (b"aggregations", Presence::Optional, Form::Buckets),
    (b"pit", Presence::Optional, Form::Pit),
    (b"_source", Presence::Optional, Form::Flag),
    (b"track_total_hits", Presence::Optional, Form::True),
];

const PIT: &[Line] = &[(b"id", Presence::Required, Form::Whole)];

const SORT_CLAUSE: &[Line] = &[(b"_score", Presence::Choice, Form::ScoreSort)];

const SCORE_SORT: &[Line] = &[(b"order", Presence::Optional, Form::Direction)];

const FIELD_SORT: &[Line] = &[
    (b"order", Presence::Optional, Form::Direction),
    (b"mode", Presence::Optional, Form::SortMode),
    (b"missing", Presence::Optional, Form::Value),
    (b"nested", Presence::Optional, Form::SortNested),
];

const SORT_NESTED: &[Line] = &[
    (b"path", Presence::Required, Form::Text),
    (b"filter", Presence::Optional, Form::Query),
    (b"nested", Presence::Optional, Form::SortNested),
];

const INNER_HITS: &[Line] = &[
    (b"name", Presence::Optional, Form::Name),
    (b"from", Presence::Optional, Form::Whole),
    (b"size", Presence::Optional, Form::Whole),
    (b"sort", Presence::Optional, Form::Sort),
    (b"_source", Presence::Optional, Form::Flag),
];

const BUCKETS: &[Line] = &[
    (b"doc_count", Presence::Optional, Form::Unknown),
    (b"key", Presence::Optional, Form::Unknown),
];

const BUCKET: &[Line] = &[
    (b"filter", Presence::Choice, Form::Query),
    (b"nested", Presence::Choice, Form::NestedBucket),
    (
        b"reverse_nested",
        Presence::Choice,
        Form::ReverseNestedBucket,
    ),
    (b"terms", Presence::Choice, Form::TermsBucket),
    (b"min", Presence::Choice, Form::Metric),
    (b"max", Presence::Choice, Form::Metric),
    (b"sum", Presence::Choice, Form::Metric),
    (b"value_count", Presence::Choice, Form::ValueCount),
    (b"children", Presence::Choice, Form::JoinBucket),
    (b"parent", Presence::Choice, Form::JoinBucket),
    (b"aggs", Presence::Optional, Form::Buckets),
    (b"aggregations", Presence::Optional, Form::Buckets),
];

const NESTED_BUCKET: &[Line] = &[(b"path", Presence::Required, Form::Text)];

const REVERSE_NESTED_BUCKET: &[Line] = &[(b"path", Presence::Optional, Form::Text)];

const TERMS_BUCKET: &[Line] = &[
    (b"field", Presence::Required, Form::Text),
    (b"size", Presence::Optional, Form::BucketCount),
    (b"order", Presence::Optional, Form::BucketOrder),
];

const BUCKET_ORDER: &[Line] = &[
    (b"_count", Presence::Choice, Form::Direction),
    (b"_key", Presence::Choice, Form::Direction),
];

const METRIC: &[Line] = &[(b"field", Presence::Required, Form::Text)];

const VALUE_COUNT: &[Line] = &[(b"field", Presence::Required, Form::Text)];

const JOIN_BUCKET: &[Line] = &[(b"type", Presence::Required, Form::Text)];

const NO_NAMES: &[Line] = &[];

/// The names that an object of a form may have, and None where a form isn't one of an object.
pub(crate) fn lines_of(form: Form) -> Option<&'static [Line]>
    ensures { option_map (λ lines. map (λ l. (l.0.now, l.1, l.2)) lines.now) result ≡ lines_of form }
{
    match form {
        Form::Query => Some(QUERY),
        Form::MatchAll => Some(MATCH_ALL),
        Form::MatchNone => Some(NO_NAMES),
        Form::Term => Some(NO_NAMES),
        Form::TermField => Some(TERM_FIELD),
        Form::Terms => Some(TERMS),
        Form::Range => Some(NO_NAMES),
        Form::RangeField => Some(RANGE_FIELD),
        Form::Exists => Some(EXISTS),
        Form::Prefix => Some(NO_NAMES),
        Form::PrefixField => Some(PREFIX_FIELD),
        Form::Match => Some(NO_NAMES),
        Form::MatchField => Some(MATCH_FIELD),
        Form::MatchPhrase => Some(NO_NAMES),
        Form::PhraseField => Some(PHRASE_FIELD),
        Form::Ids => Some(IDS),
        Form::BoolQuery => Some(BOOL_QUERY),
        Form::ConstantScore => Some(CONSTANT_SCORE),
        Form::DisMax => Some(DIS_MAX),
        Form::Nested => Some(NESTED),
        Form::ToChild => Some(TO_CHILD),
        Form::HasChild => Some(HAS_CHILD),
        Form::HasParent => Some(HAS_PARENT),
        Form::ParentId => Some(PARENT_ID),
        Form::Body => Some(BODY),
        Form::Pit => Some(PIT),
        Form::SortClause => Some(SORT_CLAUSE),
        Form::ScoreSort => Some(SCORE_SORT),
        Form::FieldSort => Some(FIELD_SORT),
        Form::SortNested => Some(SORT_NESTED),
        Form::InnerHits => Some(INNER_HITS),
        Form::Buckets => Some(BUCKETS),
        Form::Bucket => Some(BUCKET),
        Form::NestedBucket => Some(NESTED_BUCKET),
        Form::ReverseNestedBucket => Some(REVERSE_NESTED_BUCKET),
        Form::TermsBucket => Some(TERMS_BUCKET),
        Form::BucketOrder => Some(BUCKET_ORDER),
        Form::Metric => Some(METRIC),
        Form::ValueCount => Some(VALUE_COUNT),
        Form::JoinBucket => Some(JOIN_BUCKET),
        Form::Any => Some(NO_NAMES),
        _ => None,
    }
}

/// What stands under a name that isn't in the table of its form.
pub(crate) fn other_of(form: Form, name: &[u8]) -> (Presence, Form)
    ensures { result ≡ other_of form name.now }
{
    match form {
        Form::Term => (Presence::Choice, Form::TermField),
        Form::Terms => (Presence::Choice, Form::ValueList),
        Form::Range => (Presence::Choice, Form::RangeField),
        Form::Prefix => (Presence::Choice, Form::PrefixField),
        Form::Match => (Presence::Choice, Form::MatchField),
        Form::MatchPhrase => (Presence::Choice, Form::PhraseField),
        Form::SortClause => (Presence::Choice, Form::FieldSort),
        Form::Buckets => (Presence::Optional, bucket_under(name)),
        Form::Any => (Presence::Optional, Form::Any),
        _ => (Presence::Optional, Form::Unknown),
    }
}

fn bucket_under(name: &[u8]) -> Form
    ensures { result ≡ (if is_name name.now then Bucket else Unknown) }
{
    if is_name(name) {
        Form::Bucket
    } else {
        Form::Unknown
    }
}

/// Whether a name has 1 to 255 bytes.
pub(crate) fn is_name(name: &[u8]) -> bool
    ensures { result ≡ is_name name.now }
{
    1 <= name.len() && name.len() <= LONGEST_NAME
}

/// Whether the objects of a form are a choice of one name.
pub(crate) fn is_choice_of_one(form: Form) -> bool
    ensures { result ≡ is_choice_of_one form }
{
    match form {
        Form::Query
        | Form::Term
        | Form::Terms
        | Form::Range
        | Form::Prefix
        | Form::Match
        | Form::MatchPhrase
        | Form::SortClause
        | Form::Bucket
        | Form::BucketOrder => true,
        _ => false,
    }
}

const BOUNDS_APART: &[Pair] = &[(b"gt", b"gte"), (b"lt", b"lte")];

const BODY_APART: &[Pair] = &[(b"aggs", b"aggregations")];

const BUCKET_APART: &[Pair] = &[
    (b"aggs", b"aggregations"),
    (b"aggs", b"min"),
    (b"aggs", b"max"),
    (b"aggs", b"sum"),
    (b"aggs", b"value_count"),
    (b"aggregations", b"min"),
    (b"aggregations", b"max"),
    (b"aggregations", b"sum"),
    (b"aggregations", b"value_count"),
];

const NOTHING_APART: &[Pair] = &[];

/// The pairs of names of which an object of a form has at most one.
pub(crate) fn apart_in(form: Form) -> &'static [Pair]
    ensures { map (λ p. (p.0.now, p.1.now)) result.now ≡ apart_in form }
{
    match form {
        Form::RangeField => BOUNDS_APART,
        Form::Body => BODY_APART,
        Form::Bucket => BUCKET_APART,
        _ => NOTHING_APART,
    }
}

/// The form of the elements of a list.
pub fn element_of(form: Form) -> Form
    ensures { result ≡ element_of form }
{
    match form {
        Form::Queries | Form::QueryList => Form::Query,
        Form::ValueList => Form::Value,
        Form::TextList => Form::Text,
        Form::Sort => Form::SortClause,
        Form::SearchAfter | Form::Any => Form::Any,
        _ => Form::Unknown,
    }
}

/// The form of what may stand in place of the list that has it alone; other forms are their own.
pub fn single_of(form: Form) -> Form
    ensures { result ≡ single_of form }
{
    match form {
        Form::Queries => Form::Query,
        Form::Sort => Form::SortClause,
        form => form,
    }
}
