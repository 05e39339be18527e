//! Cases of bodies alone: what the body of a mapping or of a search says by itself, before any tree is looked at.

use anyhow::{Context, Result, bail, ensure};
use mapping::{Growth, Limit, Mapping, MappingRefusal};
use query_parser::{SearchRefusal, resolved};
use reply_text::{MappingLimit, Refusal, Reply, text};
use scenario_cases::Case;
use search_form::search;
use std::alloc::Global;
use tree_json::{Json, OutText, read};

/// Judges the bodies of a case one after another, up to the first whose answer differs from its reply: a line on what
/// differs there. A refusal is compared whole; of what is accepted no more is said here.
pub fn first_difference(alloc: Global, case: &Case<'_>) -> Result<Option<String>> {
    let mut mapping = None;
    for exchange in case.exchanges.as_slice() {
        let request = exchange.request.as_slice();
        let wanted = exchange.reply.as_slice();
        ensure!(!wanted.is_empty(), "a body without its reply");
        let line = String::from_utf8_lossy(alloc, request)?;
        let refused = refusal_of(alloc, &mut mapping, request).context(format_args!("{line}"))?;
        let Some(refusal) = refused else {
            if is_refusal(wanted) {
                return Ok(Some(format!(in alloc; "{line} is accepted")?));
            }
            continue;
        };
        let got = line_of(alloc, refusal)?;
        if got.as_slice() != wanted {
            let got = String::from_utf8_lossy(alloc, got.as_slice())?;
            return Ok(Some(format!(in alloc; "{line} is refused by {got}")?));
        }
    }
    Ok(None)
}

// Whether a reply refuses a body. A point in time that isn't open is found after the body was accepted.
fn is_refusal(reply: &[u8]) -> bool {
    reply.starts_with(b"{\"error\":") && !reply.starts_with(b"{\"error\":{\"number\":26,")
}

// Why a line is refused for its body, under the mapping so far, which a body of a mapping changes.
fn refusal_of(
    alloc: Global,
    mapping: &mut Option<Mapping>,
    request: &[u8],
) -> Result<Option<Refusal>> {
    let Ok(value) = read(alloc, request) else {
        bail!("no JSON value");
    };
    let Json::Object(command) = &value else {
        bail!("no command");
    };
    ensure!(command.as_slice().len() == 1, "no single command");
    if let Some(body) = command.member(b"mapping") {
        return mapping_refusal(alloc, mapping, body);
    }
    let body = command.member(b"search").context("another command")?;
    let mapping = mapping.as_ref().context("a search before its mapping")?;
    search_refusal(alloc, mapping, body)
}

fn mapping_refusal(
    alloc: Global,
    mapping: &mut Option<Mapping>,
    body: &Json,
) -> Result<Option<Refusal>> {
    let answer = match &*mapping {
        None => Mapping::read(alloc, body).map(Growth::Added),
        Some(kept) => kept.grown(alloc, body),
    };
    match answer {
        Ok(Growth::Same) => Ok(None),
        Ok(Growth::Added(grown)) => {
            *mapping = Some(grown);
            Ok(None)
        }
        Err(MappingRefusal::BadRequest) => Ok(Some(Refusal::BadRequest)),
        Err(MappingRefusal::Conflict(field)) => Ok(Some(Refusal::MappingConflict { field })),
        Err(MappingRefusal::TooMuch(limit)) => Ok(Some(Refusal::MappingLimit {
            limit: limit_of(limit),
        })),
        Err(MappingRefusal::NoMemory) => bail!("no memory for a mapping"),
    }
}

fn limit_of(limit: Limit) -> MappingLimit {
    match limit {
        Limit::Fields => MappingLimit::Fields,
        Limit::Depth => MappingLimit::Depth,
        Limit::Nested => MappingLimit::Nested,
        Limit::Relations => MappingLimit::Relations,
        Limit::Generations => MappingLimit::Generations,
        Limit::Size => MappingLimit::Size,
    }
}

fn search_refusal(alloc: Global, mapping: &Mapping, body: &Json) -> Result<Option<Refusal>> {
    let Ok(shape) = search(body) else {
        return Ok(Some(Refusal::BadRequest));
    };
    match resolved(alloc, shape, mapping) {
        Ok(_) => Ok(None),
        Err(SearchRefusal::UnknownPath) => Ok(Some(Refusal::UnknownPath)),
        Err(SearchRefusal::PathOutOfScope) => Ok(Some(Refusal::PathOutOfScope)),
        Err(SearchRefusal::UnknownRelation) => Ok(Some(Refusal::UnknownRelation)),
        Err(SearchRefusal::BadValue) => Ok(Some(Refusal::BadValue)),
        Err(SearchRefusal::SortFieldUnmapped) => Ok(Some(Refusal::SortFieldUnmapped)),
        Err(SearchRefusal::BadSort) => Ok(Some(Refusal::BadSort)),
        Err(SearchRefusal::DuplicateInnerName) => Ok(Some(Refusal::DuplicateInnerName)),
        Err(SearchRefusal::WindowTooLarge) => Ok(Some(Refusal::WindowTooLarge)),
        Err(SearchRefusal::InnerWindowTooLarge) => Ok(Some(Refusal::InnerWindowTooLarge)),
        Err(SearchRefusal::TooManyClauses) => Ok(Some(Refusal::TooManyClauses)),
        Err(SearchRefusal::QueryTooDeep) => Ok(Some(Refusal::QueryTooDeep)),
        Err(SearchRefusal::TooManyTerms) => Ok(Some(Refusal::TooManyTerms)),
        Err(SearchRefusal::NoMemory) => bail!("no memory for a search"),
    }
}

// The line of a refusal.
fn line_of(alloc: Global, refusal: Refusal) -> Result<Vec<u8>> {
    let mut into = OutText::empty(alloc);
    match text(&Reply::Refused { why: refusal }, u64::MAX, &mut into) {
        Ok(()) => Ok(into.into_vec()),
        Err(_) => bail!("no room for a refusal"),
    }
}
