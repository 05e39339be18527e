//! Runs over damaged files: a store's file is cut short, or one of its bytes is raised, and a run over it has to end as the case says.

use crate::run::{Setup, disk_of, run_over};
use anyhow::{Result, ensure};
use scenario_cases::{Case, Damage, DamagedRange, Failing, damaged};
use std::alloc::{AllocError, Global};

/// Runs a case over its file with each damage that it asks for: cut to each length from 1 on, and with each byte raised. A line on the
/// first run that ends otherwise than the case says. Ranges that leave out an end of the file are errors.
pub fn first_bad_file(
    alloc: Global,
    case: &Case<'_>,
    setup: Setup<'_>,
    runs: &mut u64,
) -> Result<Option<String>> {
    let size = setup.file.len();
    let mut length: usize = 1;
    let mut byte: usize = 0;
    for range in case.settings.damaged.as_slice() {
        let from = match range.damage {
            Damage::Length => length,
            Damage::Byte => byte,
        };
        let is_range = from < range.until && range.until <= size && range.step > 0;
        ensure!(is_range, "no such range");
        let found = first_of_range(alloc, case, setup, *range, from, runs)?;
        if found.is_some() {
            return Ok(found);
        }
        match range.damage {
            Damage::Length => length = range.until,
            Damage::Byte => byte = range.until,
        }
    }
    ensure!(length == 1 || length == size, "lengths are left out");
    ensure!(byte == 0 || byte == size, "bytes are left out");
    Ok(None)
}

// The same for the places of one range.
fn first_of_range(
    alloc: Global,
    case: &Case<'_>,
    setup: Setup<'_>,
    range: DamagedRange<'_>,
    from: usize,
    runs: &mut u64,
) -> Result<Option<String>> {
    for place in from..range.until {
        if place.saturating_sub(from).checked_rem(range.step) != Some(0) {
            continue;
        }
        let file = damaged(alloc, setup.file, range.damage, place)?;
        let (status, output) = ended_over(alloc, case, setup, file.as_slice(), runs)?;
        if status != range.status || output != printed(alloc, case, range)? {
            let damage = range.damage;
            let output = String::from_utf8_lossy(alloc, output.as_slice())?;
            return Ok(Some(format!(in alloc;
                "{damage:?} {place} ends with status {status} and {output}"
            )?));
        }
    }
    Ok(None)
}

// What a run over a file with a damage of a range is to print.
fn printed(alloc: Global, case: &Case<'_>, range: DamagedRange<'_>) -> Result<Vec<u8>, AllocError> {
    let mut bytes = Vec::new(alloc);
    if range.status != 0 {
        return Ok(bytes);
    }
    let Some(line) = range.line else {
        return case.output(alloc);
    };
    bytes.extend_from_slice(line.as_bytes())?;
    bytes.push(b'\n')?;
    Ok(bytes)
}

// The status and the output of the case over this file.
fn ended_over(
    alloc: Global,
    case: &Case<'_>,
    setup: Setup<'_>,
    file: &[u8],
    runs: &mut u64,
) -> Result<(u8, Vec<u8>)> {
    let setup = Setup {
        pieces: setup.pieces,
        most: setup.most,
        failing: Failing::default(),
        limits: setup.limits,
        file,
    };
    let mut disk = disk_of(alloc, setup)?;
    let words = case.settings.words.as_slice();
    let ended = run_over(
        alloc,
        words,
        case.input(alloc)?,
        None,
        setup,
        &mut disk,
        runs,
    )?;
    Ok((ended.status, ended.output))
}
