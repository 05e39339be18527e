//! The program again, which the gate runs on words that it doesn't know.
#![tactic(auto)]

use command_line::exit_code;
use std::process::ExitCode;

fn main(rt: HostRuntime) -> ExitCode {
    exit_code(&rt)
}
