//! A case: settings, requests with their replies, and what a store that a stop leaves may answer.

use crate::settings::Settings;
use std::alloc::{AllocError, Global};

/// A request and its reply, or a line that is printed.
#[derive(Drop)]
pub struct Exchange {
    /// The bytes of the request and of what stands before it: blank lines, the newline at its end. No byte where a line is printed that
    /// answers no request.
    pub request: Vec<u8>,
    /// The reply with its newline; empty where these bytes get none.
    pub reply: Vec<u8>,
}

/// What a store answers to the probe that a stop left behind so many requests, or later.
#[derive(Drop)]
pub struct Stop {
    /// How many requests stand before it.
    pub behind: usize,
    /// The reply with its newline.
    pub reply: Vec<u8>,
    /// Whether it may also answer what it might before.
    pub also: bool,
}

/// A turn of a dialogue.
#[derive(Clone, Copy)]
pub struct Turn {
    /// Where the request ends in the input.
    pub asked: usize,
    /// Where its reply ends in the output.
    pub replied: usize,
}

/// A case of a case file.
#[derive(Drop)]
pub struct Case<'a> {
    /// What the case shows.
    pub name: &'a str,
    /// How it is run, and how it ends.
    pub settings: Settings<'a>,
    /// What goes in and what comes out, in order.
    pub exchanges: Vec<Exchange>,
    /// What stops may leave, in order.
    pub stops: Vec<Stop>,
}

impl Stop {
    // The same, so many requests later.
    fn moved(&self, alloc: Global, later: usize, also: bool) -> Result<Stop, AllocError> {
        Ok(Stop {
            behind: self.behind.saturating_add(later),
            reply: Vec::from_slice(alloc, self.reply.as_slice())?,
            also,
        })
    }
}

impl Case<'_> {
    /// All bytes that go in.
    pub fn input(&self, alloc: Global) -> Result<Vec<u8>, AllocError> {
        self.input_of(alloc, self.exchanges.len())
    }

    /// All bytes that come out where nothing fails.
    pub fn output(&self, alloc: Global) -> Result<Vec<u8>, AllocError> {
        let mut output = Vec::new(alloc);
        for exchange in self.exchanges.as_slice() {
            output.extend_from_slice(exchange.reply.as_slice())?;
        }
        Ok(output)
    }

    /// The bytes of the first so many requests.
    pub fn input_of(&self, alloc: Global, count: usize) -> Result<Vec<u8>, AllocError> {
        let mut input = Vec::new(alloc);
        for exchange in self.exchanges.as_slice().iter().take(count) {
            input.extend_from_slice(exchange.request.as_slice())?;
        }
        Ok(input)
    }

    /// Whether a store that a stop between two requests left may answer the probe so, with so many requests before the stop.
    pub fn allows(&self, count: usize, reply: &[u8]) -> bool {
        let mut allowed = false;
        for stop in self.stops.as_slice() {
            if stop.behind <= count {
                allowed = stop.reply.as_slice() == reply || (stop.also && allowed);
            }
        }
        allowed
    }

    /// Which request a run answered with this line in place of its reply, where it is the first that differs.
    pub fn answered_so(&self, output: &[u8], line: &[u8]) -> Option<usize> {
        let mut rest = output;
        for (index, exchange) in self.exchanges.as_slice().iter().enumerate() {
            match rest.strip_prefix(exchange.reply.as_slice()) {
                Some(behind) => rest = behind,
                None => {
                    if rest.starts_with(line) {
                        return Some(index);
                    }
                    return None;
                }
            }
        }
        None
    }

    /// The requests with the one of this index sent twice: the first time it gets this line, and a stop leaves what one before or one
    /// behind it may leave.
    pub fn sent_again(
        &self,
        alloc: Global,
        twice: usize,
        line: &[u8],
    ) -> Result<(Vec<Exchange>, Vec<Stop>), AllocError> {
        let mut exchanges = Vec::new(alloc);
        for (index, exchange) in self.exchanges.as_slice().iter().enumerate() {
            if index == twice {
                exchanges.push(Exchange {
                    request: Vec::from_slice(alloc, exchange.request.as_slice())?,
                    reply: Vec::from_slice(alloc, line)?,
                })?;
            }
            exchanges.push(Exchange {
                request: Vec::from_slice(alloc, exchange.request.as_slice())?,
                reply: Vec::from_slice(alloc, exchange.reply.as_slice())?,
            })?;
        }
        let mut stops = Vec::new(alloc);
        for stop in self.stops.as_slice() {
            if stop.behind == twice.saturating_add(1) {
                stops.push(stop.moved(alloc, 0, true)?)?;
            }
            let later = (stop.behind > twice) as usize;
            stops.push(stop.moved(alloc, later, stop.also)?)?;
        }
        Ok((exchanges, stops))
    }

    /// The requests and their replies by where they end.
    pub fn turns(&self, alloc: Global) -> Result<Vec<Turn>, AllocError> {
        let mut turns = Vec::new(alloc);
        let mut asked: usize = 0;
        let mut replied: usize = 0;
        for exchange in self.exchanges.as_slice() {
            asked = asked.saturating_add(exchange.request.len());
            replied = replied.saturating_add(exchange.reply.len());
            turns.push(Turn { asked, replied })?;
        }
        Ok(turns)
    }

    /// How many bytes of the output the requests get whose last newline is among the first so many bytes of the input.
    pub fn replied_within(&self, given: usize) -> usize {
        let mut end: usize = 0;
        let mut written: usize = 0;
        let mut replied: usize = 0;
        for exchange in self.exchanges.as_slice() {
            end = end.saturating_add(exchange.request.len());
            written = written.saturating_add(exchange.reply.len());
            if end <= given && exchange.request.as_slice().last() == Some(&b'\n') {
                replied = written;
            }
        }
        replied
    }

    /// How many bytes of the output so many writes take, of at most so many bytes each, where no write has bytes of two
    /// replies.
    pub fn written_after(&self, writes: u64, most: usize) -> usize {
        let most = most.max(1);
        let mut left = writes;
        let mut written: usize = 0;
        for exchange in self.exchanges.as_slice() {
            let needed = exchange.reply.len().div_ceil(most) as u64;
            if left < needed {
                return written.saturating_add(most.saturating_mul(left as usize));
            }
            left -= needed;
            written = written.saturating_add(exchange.reply.len());
        }
        written
    }
}
