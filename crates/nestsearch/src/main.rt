//! The program: `nestsearch serve STORE` answers the lines of its standard input on its standard output, `check STORE` looks whether a
//! store is sound, `make NUMBER COUNT` writes the made input, and `run-made NUMBER COUNT` answers it in memory.
#![tactic(auto)]

use command_line::exit_code;
use std::process::ExitCode;

fn main(rt: HostRuntime) -> ExitCode {
    exit_code(&rt)
}
