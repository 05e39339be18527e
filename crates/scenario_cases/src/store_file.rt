//! The file of a store as a case writes it: pieces at their places, with zeros in between.

use anyhow::{Context, Result, ensure};
use std::alloc::{AllocError, Global};

/// Bytes at a place of a file.
#[derive(Drop)]
pub struct Piece {
    at: usize,
    bytes: Vec<u8>,
}

/// The piece that is written `PLACE HEX`, where blanks may stand between two bytes.
pub fn piece_of(alloc: Global, text: &str) -> Result<Piece> {
    let (at, hex) = text.split_once(' ').context("a place and bytes")?;
    let at: usize = at.parse().context("a place")?;
    ensure!(at <= MOST_BYTES, "a place too far behind");
    let mut bytes = Vec::new(alloc);
    for word in hex.split_whitespace() {
        push_bytes(word.as_bytes(), &mut bytes)?;
    }
    Ok(Piece { at, bytes })
}

/// The greatest place that a piece may have.
const MOST_BYTES: usize = 1_000_000;

/// The file with these pieces put into it, one after the other.
pub fn with_pieces(alloc: Global, file: &[u8], pieces: &[Piece]) -> Result<Vec<u8>, AllocError> {
    let mut whole = Vec::from_slice(alloc, file)?;
    for piece in pieces {
        put(&mut whole, piece.at, piece.bytes.as_slice())?;
    }
    Ok(whole)
}

// Puts bytes at a place of a file, in front of which a gap is zeros.
fn put(file: &mut Vec<u8>, at: usize, bytes: &[u8]) -> Result<(), AllocError> {
    let longer = file.len().max(at);
    file.resize(longer, 0)?;
    for (index, byte) in bytes.iter().enumerate() {
        let place = at.saturating_add(index);
        match file.as_mut_slice().get_mut(place) {
            Some(old) => *old = *byte,
            None => file.push(*byte)?,
        }
    }
    Ok(())
}

// Appends the bytes that hex digits stand for, two digits each.
fn push_bytes(digits: &[u8], into: &mut Vec<u8>) -> Result<()> {
    let mut high = None;
    for digit in digits {
        let digit = digit_of(*digit).context("a hex digit")?;
        match high {
            None => high = Some(digit),
            Some(high_digit) => {
                let high_digit: u8 = high_digit;
                into.push(high_digit.wrapping_mul(16).wrapping_add(digit))?;
                high = None;
            }
        }
    }
    ensure!(high.is_none(), "half a byte");
    Ok(())
}

fn digit_of(digit: u8) -> Option<u8> {
    match digit {
        b'0'..=b'9' => Some(digit.wrapping_sub(b'0')),
        b'a'..=b'f' => Some(digit.wrapping_sub(b'a').wrapping_add(10)),
        _ => None,
    }
}
