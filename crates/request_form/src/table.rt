//! The tables of names: those of commands, and those of their objects.

use crate::form::{Form, Name, Presence};
use crate::object::Line;

/// The commands by their names.
pub(crate) const NAMES: &[(&[u8], Name)] = &[
    (b"index", Name::Index),
    (b"create", Name::Create),
    (b"update", Name::Update),
    (b"delete", Name::Delete),
    (b"mapping", Name::Mapping),
    (b"search", Name::Search),
    (b"refresh", Name::Refresh),
    (b"segments", Name::Segments),
    (b"open_pit", Name::OpenPit),
    (b"close_pit", Name::ClosePit),
    (b"forcemerge", Name::ForceMerge),
    (b"merge", Name::Merge),
    (b"commit", Name::Commit),
    (b"compact", Name::Compact),
    (b"trim", Name::Trim),
    (b"automerge", Name::Automerge),
];

/// The action line of `create`.
pub(crate) const CREATE: &[Line] = &[
    (b"_id", Presence::Required, Form::Id),
    (b"_index", Presence::Optional, Form::Text),
    (b"routing", Presence::Optional, Form::Text),
    (b"if_primary_term", Presence::Optional, Form::One),
];

/// The action lines of the other writes.
pub(crate) const WRITE: &[Line] = &[
    (b"if_seq_no", Presence::Optional, Form::Whole),
    (b"_id", Presence::Required, Form::Id),
    (b"_index", Presence::Optional, Form::Text),
    (b"routing", Presence::Optional, Form::Text),
    (b"if_primary_term", Presence::Optional, Form::One),
];

pub(crate) const CLOSE_PIT: &[Line] = &[(b"id", Presence::Required, Form::Whole)];

pub(crate) const FORCE_MERGE: &[Line] = &[(
    b"max_num_segments",
    Presence::Optional,
    Form::Positive,
)];

/// The parts of `merge`.
pub(crate) const START: &[Line] = &[
    (b"from", Presence::Required, Form::Whole),
    (b"count", Presence::Required, Form::Whole),
];

pub(crate) const ADVANCE: &[Line] = &[
    (b"id", Presence::Required, Form::Whole),
    (b"roots", Presence::Required, Form::Whole),
];

pub(crate) const MERGE_ID: &[Line] = &[(b"id", Presence::Required, Form::Whole)];

pub(crate) const COMPACT: &[Line] = &[(b"moves", Presence::Optional, Form::Moves)];

pub(crate) const AUTOMERGE: &[Line] = &[
    (b"on", Presence::Required, Form::Flag),
    (b"factor", Presence::Optional, Form::Factor),
];

/// The source line of `update`.
pub(crate) const UPDATE: &[Line] = &[
    (b"doc", Presence::Required, Form::Object),
    (b"upsert", Presence::Optional, Form::Object),
    (b"doc_as_upsert", Presence::Optional, Form::Flag),
];
