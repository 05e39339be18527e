//! Refusals: why a request is refused, by the number and the word under which users know it.
ghost use Rattle.std.specs.Prelude.{◌≡◌};
ghost use Rattle.reply_text.specs.Refusal.{limit_word, told_by};

use tree_objects::Bytes;

/// The limit that a mapping passes.
#[derive(Clone, Copy, Debug, PartialEq, Eq)]
pub enum MappingLimit {
    /// Too many properties.
    Fields,
    /// A path of too many names.
    Depth,
    /// Too many nested properties.
    Nested,
    /// Relations that form no forest of names, or more than one join field.
    Relations,
    /// Too many bodies, one for each time that the mapping grew.
    Generations,
    /// Bodies of too many bytes.
    Size,
}

impl MappingLimit {
    /// The word for it.
    pub(crate) fn word(self) -> &'static str
        ensures { result.now ≡ limit_word self }
    {
        match self {
            MappingLimit::Fields => "fields",
            MappingLimit::Depth => "depth",
            MappingLimit::Nested => "nested",
            MappingLimit::Relations => "relations",
            MappingLimit::Generations => "generations",
            MappingLimit::Size => "size",
        }
    }
}

/// Why a request is refused, in the order of the numbers.
#[derive(Drop)]
pub enum Refusal {
    /// 1: the line is no JSON value (RFC 8259).
    BadJson,
    /// 2: a number in it is no whole one of 64 bits, signed.
    FractionNumber,
    /// 3: the line has more than 1,048,576 bytes.
    LineTooLong,
    /// 4: it has not the form of a request.
    BadRequest,
    /// 5: the input ended before the source line.
    MissingSource,
    /// 6: there is no mapping yet.
    NoMapping,
    /// 7: there is a mapping already.
    MappingExists,
    /// 8: the mapping passes a limit.
    MappingLimit { limit: MappingLimit },
    /// 9: the index that is named isn't this one.
    IndexNotFound,
    /// 10: the id has more than 512 bytes.
    IdTooLong,
    /// 11: the field's kind doesn't take the value.
    WrongType { field: Bytes },
    /// 12: a keyword value or a word of a text is too long.
    TermTooLong { field: Bytes },
    /// 13: the source has too many nested objects.
    TooManyObjects,
    /// 14: the live tree has another number, or there is none.
    VersionConflict { live: Option<u64> },
    /// 15: the id that was to be created is live, with this number.
    DocumentExists { live: u64 },
    /// 16: there is no live tree to update.
    DocumentMissing,
    /// 17: the value of the join field names no relation.
    BadJoin,
    /// 18: there is no such nested path.
    UnknownPath,
    /// 18: the nested path doesn't lie on the right side of the scope.
    PathOutOfScope,
    /// 19: no relation of that name has that side.
    UnknownRelation,
    /// 20: the field of a sort can't be sorted by.
    SortFieldUnmapped,
    /// 21: the sort's mode or its missing value doesn't fit the field.
    BadSort,
    /// 22: the page ends too far down.
    WindowTooLarge,
    /// 23: a page of inner hits ends too far down.
    InnerWindowTooLarge,
    /// 24: two definitions of inner hits have one name.
    DuplicateInnerName,
    /// 25: the search has too many clauses.
    TooManyClauses,
    /// 25: its clauses stand too deep in one another.
    QueryTooDeep,
    /// 25: one of its lists of terms is too long.
    TooManyTerms,
    /// 26: that point in time isn't open.
    UnknownPit,
    /// 27: too many points in time are open.
    TooManyPits,
    /// 28: the range of a merge is empty or ends past the segments.
    BadMergeRange,
    /// 29: the range shares a segment with this open merge.
    MergeOverlaps { merge: u64 },
    /// 30: no open merge has that id.
    UnknownMerge,
    /// 31: so many roots are left.
    MergeNotDone { left: u64, merge: u64 },
    /// 32: the store has no hole for what is to be written.
    StoreFull,
    /// 33: the index can't take the change.
    IndexFull,
    /// 34: the reply is longer than the limit.
    ReplyTooLarge,
    /// 35: the disk failed.
    DiskFailure,
    /// 36: a query's value isn't of its field's kind.
    BadValue,
    /// 37: too many merges are open.
    TooManyMerges,
    /// 38: the source is too long.
    SourceTooLong,
    /// 39: a kept field or relation is given another form.
    MappingConflict { field: Bytes },
    /// 40: a histogram would have too many buckets.
    TooManyBuckets,
    /// 41: an object would stand in too many composite buckets.
    TooManyCombinations,
}

impl Refusal {
    // The number and the reason.
    pub(crate) fn known(&self) -> (u64, &'static str)
        ensures number { result.0 ≡ (told_by self.now).number }
        ensures reason { result.1.now ≡ (told_by self.now).reason }
    {
        match self {
            Refusal::BadJson => (1, "bad_json"),
            Refusal::FractionNumber => (2, "fraction_number"),
            Refusal::LineTooLong => (3, "line_too_long"),
            Refusal::BadRequest => (4, "bad_request"),
            Refusal::MissingSource => (5, "missing_source"),
            Refusal::NoMapping => (6, "no_mapping"),
            Refusal::MappingExists => (7, "mapping_exists"),
            Refusal::MappingLimit { .. } => (8, "mapping_limit"),
            Refusal::IndexNotFound => (9, "index_not_found"),
            Refusal::IdTooLong => (10, "id_too_long"),
            Refusal::WrongType { .. } => (11, "wrong_type"),
            Refusal::TermTooLong { .. } => (12, "term_too_long"),
            Refusal::TooManyObjects => (13, "too_many_objects"),
            Refusal::VersionConflict { .. } => (14, "version_conflict"),
            Refusal::DocumentExists { .. } => (15, "document_exists"),
            Refusal::DocumentMissing => (16, "document_missing"),
            Refusal::BadJoin => (17, "bad_join"),
            Refusal::UnknownPath => (18, "unknown_path"),
            Refusal::PathOutOfScope => (18, "path_out_of_scope"),
            Refusal::UnknownRelation => (19, "unknown_relation"),
            Refusal::SortFieldUnmapped => (20, "sort_field_unmapped"),
            Refusal::BadSort => (21, "bad_sort"),
            Refusal::WindowTooLarge => (22, "window_too_large"),
            Refusal::InnerWindowTooLarge => (23, "inner_window_too_large"),
            Refusal::DuplicateInnerName => (24, "duplicate_inner_name"),
            Refusal::TooManyClauses => (25, "too_many_clauses"),
            Refusal::QueryTooDeep => (25, "query_too_deep"),
            Refusal::TooManyTerms => (25, "too_many_terms"),
            Refusal::UnknownPit => (26, "unknown_pit"),
            Refusal::TooManyPits => (27, "too_many_pits"),
            Refusal::BadMergeRange => (28, "bad_merge_range"),
            Refusal::MergeOverlaps { .. } => (29, "merge_overlaps"),
            Refusal::UnknownMerge => (30, "unknown_merge"),
            Refusal::MergeNotDone { .. } => (31, "merge_not_done"),
            Refusal::StoreFull => (32, "store_full"),
            Refusal::IndexFull => (33, "index_full"),
            Refusal::ReplyTooLarge => (34, "reply_too_large"),
            Refusal::DiskFailure => (35, "disk_failure"),
            Refusal::BadValue => (36, "bad_value"),
            Refusal::TooManyMerges => (37, "too_many_merges"),
            Refusal::SourceTooLong => (38, "source_too_long"),
            Refusal::MappingConflict { .. } => (39, "mapping_conflict"),
            Refusal::TooManyBuckets => (40, "too_many_buckets"),
            Refusal::TooManyCombinations => (41, "too_many_combinations"),
        }
    }
}
