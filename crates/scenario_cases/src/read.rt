//! Reading a case file.

use crate::case::{Case, Exchange, Stop};
use crate::notation::expand;
use crate::settings::Settings;
use anyhow::{Context, Result, bail, ensure};
use std::alloc::Global;

/// The cases of a file's text. A text with no case, a case with no request and no line that is printed, a request with no reply and
/// a line of another form are errors, which name the line.
pub fn cases_of<'a>(alloc: Global, text: &'a str) -> Result<Vec<Case<'a>>> {
    let mut reader = Reader {
        alloc,
        cases: Vec::new(alloc),
        common: Vec::new(alloc),
        request: None,
        repeated: None,
    };
    for (index, line) in text.lines().enumerate() {
        let number = (index as u64).saturating_add(1);
        reader
            .take(line)
            .context(format_args!("line {number}: {line}"))?;
    }
    reader.close_case().context("the last case")?;
    ensure!(reader.repeated.is_none(), "a repetition without its end");
    ensure!(!reader.cases.is_empty(), "no case");
    let Reader { cases, .. } = reader;
    Ok(cases)
}

/// Lines that are repeated, and how often.
#[derive(Drop)]
struct Repeated<'a> {
    times: u64,
    lines: Vec<&'a str>,
}

/// What was read of a file so far.
#[derive(Drop)]
struct Reader<'a> {
    alloc: Global,
    cases: Vec<Case<'a>>,
    // the settings of all cases of the file
    common: Vec<&'a str>,
    // a request that has no reply yet
    request: Option<Vec<u8>>,
    repeated: Option<Repeated<'a>>,
}

impl<'a> Reader<'a> {
    // Takes a line, or keeps it where it is repeated.
    fn take(&mut self, line: &'a str) -> Result<()> {
        if let Some(times) = line.strip_prefix("repeat ") {
            ensure!(self.repeated.is_none(), "a repetition in another");
            self.repeated = Some(Repeated {
                times: times.parse().context("how many times")?,
                lines: Vec::new(self.alloc),
            });
            return Ok(());
        }
        if line == "end repeat" {
            return self.take_repeated();
        }
        if let Some(repeated) = &mut self.repeated {
            repeated.lines.push(line)?;
            return Ok(());
        }
        self.take_single(line, 0)
    }

    fn take_repeated(&mut self) -> Result<()> {
        let repeated = self.repeated.take().context("no repetition")?;
        for round in 0..repeated.times {
            for line in repeated.lines.as_slice() {
                self.take_single(*line, round)?;
            }
        }
        Ok(())
    }

    fn take_single(&mut self, line: &'a str, round: u64) -> Result<()> {
        if line.is_empty() || line.starts_with('#') {
            return Ok(());
        }
        if let Some(name) = line.strip_prefix("case ") {
            return self.open_case(name);
        }
        let (mark, text) = line.split_once(' ').unwrap_or((line, ""));
        match mark {
            ">" => self.take_request(text, round),
            "<" => self.take_reply(text, round),
            "prints" => self.take_print(text, round),
            "stop" => self.take_stop(text, round),
            _ => {
                if line == "no reply" {
                    return self.close_request(Vec::new(self.alloc));
                }
                self.take_setting(line)
            }
        }
    }

    fn open_case(&mut self, name: &'a str) -> Result<()> {
        self.close_case()?;
        let mut settings = Settings::usual(self.alloc)?;
        for line in self.common.as_slice() {
            settings.set(self.alloc, *line)?;
        }
        self.cases.push(Case {
            name,
            settings,
            exchanges: Vec::new(self.alloc),
            stops: Vec::new(self.alloc),
        })?;
        Ok(())
    }

    // Refuses a case that isn't whole.
    fn close_case(&mut self) -> Result<()> {
        ensure!(self.request.is_none(), "a request without its reply");
        if let Some(case) = self.cases.as_slice().last() {
            ensure!(
                !case.exchanges.is_empty(),
                "a case without a request or a line that is printed"
            );
            ensure!(
                case.stops.is_empty() == case.settings.probe.is_none(),
                "a probe without a stop, or a stop without a probe"
            );
            case.settings.check()?;
        }
        Ok(())
    }

    // A setting of the case, or before the first case of all of them.
    fn take_setting(&mut self, line: &'a str) -> Result<()> {
        let Some(case) = self.cases.as_mut_slice().last_mut() else {
            self.common.push(line)?;
            return Ok(());
        };
        ensure!(
            case.exchanges.is_empty() && case.stops.is_empty() && self.request.is_none(),
            "no setting, or one behind a request"
        );
        case.settings.set(self.alloc, line)
    }

    fn take_request(&mut self, text: &str, round: u64) -> Result<()> {
        ensure!(!self.cases.is_empty(), "a request before the first case");
        let mut bytes = match self.request.take() {
            Some(bytes) => bytes,
            None => Vec::new(self.alloc),
        };
        expand(text, round, &mut bytes)?;
        self.request = Some(bytes);
        Ok(())
    }

    fn take_reply(&mut self, text: &str, round: u64) -> Result<()> {
        let mut bytes = Vec::new(self.alloc);
        expand(text, round, &mut bytes)?;
        self.close_request(bytes)
    }

    // A line that answers no request.
    fn take_print(&mut self, text: &str, round: u64) -> Result<()> {
        ensure!(self.request.is_none(), "a request without its reply");
        self.request = Some(Vec::new(self.alloc));
        self.take_reply(text, round)
    }

    fn take_stop(&mut self, text: &str, round: u64) -> Result<()> {
        ensure!(self.request.is_none(), "a stop within a request");
        let more = text.strip_prefix("also ");
        let mut reply = Vec::new(self.alloc);
        expand(more.unwrap_or(text), round, &mut reply)?;
        let case = self.cases.as_mut_slice().last_mut();
        let case = case.context("a stop before the first case")?;
        case.stops.push(Stop {
            behind: case.exchanges.len(),
            reply,
            also: more.is_some(),
        })?;
        Ok(())
    }

    fn close_request(&mut self, reply: Vec<u8>) -> Result<()> {
        let request = self.request.take().context("a reply without its request")?;
        let Some(case) = self.cases.as_mut_slice().last_mut() else {
            bail!("a reply before the first case");
        };
        case.exchanges.push(Exchange { request, reply })?;
        Ok(())
    }
}
