//! Damaged files: a store's file that is cut short, or one of whose bytes is raised.

use anyhow::{Context, Result, ensure};
use std::alloc::{AllocError, Global};

/// What is done to a file at a place.
#[derive(Clone, Copy, Debug)]
pub enum Damage {
    /// It is cut to so many bytes.
    Length,
    /// The byte there is raised by one, 255 to 0.
    Byte,
}

/// How runs end over a file that is damaged at a place behind those of the range before, and in front of a last one.
#[derive(Clone, Copy)]
pub struct DamagedRange<'a> {
    pub damage: Damage,
    pub until: usize,
    /// From the first of these places on, each of so many is tried.
    pub step: usize,
    pub status: u8,
    /// What a run prints, without its newline, where that isn't what the case says.
    pub line: Option<&'a str>,
}

/// The range that is written `length until PLACE ends STATUS`, with `by STEP` behind the place where not each one is tried, with
/// ` with LINE` behind the status 0 where a run prints that, or so with `byte`; None where the text is something else.
pub fn range_of<'a>(text: &'a str) -> Result<Option<DamagedRange<'a>>> {
    let (name, value) = text.split_once(" until ").unwrap_or((text, ""));
    let damage = match name {
        "length" => Damage::Length,
        "byte" => Damage::Byte,
        _ => return Ok(None),
    };
    let (places, end) = value.split_once(" ends ").context("a place and a status")?;
    let (until, step) = places.split_once(" by ").unwrap_or((places, "1"));
    let (status, line) = match end.split_once(" with ") {
        Some((status, line)) => (status, Some(line)),
        None => (end, None),
    };
    let status: u8 = status.parse().context("a status")?;
    ensure!(status == 0 || line.is_none(), "a line of a run that fails");
    Ok(Some(DamagedRange {
        damage,
        until: until.parse().context("a place")?,
        step: step.parse().context("a step")?,
        status,
        line,
    }))
}

/// The file with a damage at a place.
pub fn damaged(
    alloc: Global,
    file: &[u8],
    damage: Damage,
    place: usize,
) -> Result<Vec<u8>, AllocError> {
    let mut bytes = Vec::from_slice(alloc, file)?;
    match damage {
        Damage::Length => bytes.truncate(place),
        Damage::Byte => {
            if let Some(byte) = bytes.as_mut_slice().get_mut(place) {
                *byte = byte.wrapping_add(1);
            }
        }
    }
    Ok(bytes)
}
