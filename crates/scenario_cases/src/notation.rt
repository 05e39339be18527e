//! The notation of a line: marks for what can't be seen, and for what is long.

use anyhow::{Context, Result, bail, ensure};

/// Appends the bytes that a line stands for, its newline included where it has one. The round is the number of the
/// repetition that the line stands in.
pub fn expand(text: &str, round: u64, into: &mut Vec<u8>) -> Result<()> {
    let start = into.len();
    let mut ends = true;
    for (index, piece) in text.split("@(").enumerate() {
        let mut plain = piece;
        if index > 0 {
            let (mark, rest) = piece.split_once(")@").context("a mark without its )@")?;
            if mark == "end" {
                ends = false;
            } else {
                expand_mark(mark, round, start, into)?;
            }
            plain = rest;
        }
        into.extend_from_slice(plain.as_bytes())?;
    }
    if ends {
        into.push(b'\n')?;
    }
    Ok(())
}

// Appends what a mark stands for, on a line whose bytes begin at `start`.
fn expand_mark(mark: &str, round: u64, start: usize, into: &mut Vec<u8>) -> Result<()> {
    if let Some((text, length)) = mark.rsplit_once("*to ") {
        let length: usize = length.parse().context("a line's length")?;
        let missing = length.saturating_sub(into.len().saturating_sub(start));
        ensure!(!text.is_empty(), "nothing to repeat");
        return repeat(text, missing / text.len(), into);
    }
    if let Some((text, times)) = mark.rsplit_once('*') {
        return repeat(text, times.parse().context("how many times")?, into);
    }
    match mark.split_once(' ').unwrap_or((mark, "")) {
        ("cr", "") => into.push(b'\r')?,
        ("tab", "") => into.push(b'\t')?,
        ("byte", number) => into.push(number.parse().context("a byte")?)?,
        ("n", "") => push_number(round, into)?,
        ("n+", more) => {
            let more: u64 = more.parse().context("a number")?;
            push_number(round.saturating_add(more), into)?;
        }
        _ => bail!("unknown mark"),
    }
    Ok(())
}

fn repeat(text: &str, times: usize, into: &mut Vec<u8>) -> Result<()> {
    for _ in 0..times {
        into.extend_from_slice(text.as_bytes())?;
    }
    Ok(())
}

fn push_number(number: u64, into: &mut Vec<u8>) -> Result<()> {
    let text = format!(in *into.allocator(); "{number}")?;
    into.extend_from_slice(text.as_bytes())?;
    Ok(())
}
