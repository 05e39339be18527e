//! Worked examples as data: every case of the case files, run through the engine of lines.
//!
//! It stands on `line_engine`, `disk` and `io_edges`, and on `scenario_cases`, which reads the files. Its word is the folder of
//! the case files, `data` where it has none; docs/SCENARIOS.md says how they are written. A line is printed for each case that
//! differs, then the counts; the status is 1 where a case differs or can't be read. No contract says more than that the program is
//! safe. Begin with `run.rt`, which runs a case in every way that it asks for; `stops.rt` opens what a stop in each call of the disk
//! leaves, and `damaged_files.rt` what is left of a damaged file.
#![tactic(auto)]

mod bodies;
mod damaged_files;
mod run;
mod stops;

use anyhow::{Context, Result, ensure};
use run::first_difference;
use scenario_cases::cases_of;
use std::rt::Files;
use std::{env, fs};

fn main(rt: HostRuntime) -> Result<()> {
    let given = env::args(&rt)?.nth(1);
    match &given {
        Some(folder) => run_folder(&rt, folder.as_str()),
        None => run_folder(&rt, "data"),
    }
}

// Runs the cases of every file of the folder.
fn run_folder<R: Files + Print + AllocGlobal + Clone + Drop>(rt: &R, folder: &str) -> Result<()> {
    let names = names_in_order(rt, folder)?;
    ensure!(!names.is_empty(), "there are no case files");
    let mut all = Counts::default();
    for name in names.as_slice() {
        let counts = run_file(rt, folder, name.as_str()).context(format_args!("{name}"))?;
        println!(rt; "{name}: {} cases, {} runs", counts.cases, counts.runs)?;
        all.add(counts);
    }
    println!(rt; "{} cases, {} runs", all.cases, all.runs)?;
    ensure!(all.differ == 0, "{} cases differ", all.differ);
    Ok(())
}

// The names of the folder's files, in byte order.
fn names_in_order<R: Files + AllocGlobal + Clone + Drop>(
    rt: &R,
    folder: &str,
) -> Result<Vec<String>> {
    let alloc = rt.alloc();
    let mut names = Vec::new(alloc);
    for entry in fs::read_dir(rt, folder)? {
        names.push(String::from_str(alloc, entry?.file_name())?)?;
    }
    names.sort()?;
    Ok(names)
}

/// How many cases and runs there were, and how many cases differ.
#[derive(Clone, Copy, Default)]
struct Counts {
    cases: u64,
    runs: u64,
    differ: u64,
}

impl Counts {
    fn add(&mut self, more: Counts) {
        self.cases = self.cases.saturating_add(more.cases);
        self.runs = self.runs.saturating_add(more.runs);
        self.differ = self.differ.saturating_add(more.differ);
    }
}

// Runs the cases of one file, and prints those that differ.
fn run_file<R: Files + Print + AllocGlobal>(rt: &R, folder: &str, name: &str) -> Result<Counts> {
    let alloc = rt.alloc();
    let path = format!(in alloc; "{folder}/{name}")?;
    let text = fs::read_to_string(rt, path.as_str())?;
    let cases = cases_of(alloc, text.as_str())?;
    let mut counts = Counts::default();
    let mut kept = Vec::new(alloc);
    for case in cases.as_slice() {
        let mut runs = 0;
        let found = first_difference(alloc, case, &mut kept, &mut runs).context(format_args!(
            "{}",
            case.name
        ))?;
        if let Some(difference) = &found {
            println!(rt; "{name}: {}: {difference}", case.name)?;
        }
        counts.add(Counts {
            cases: 1,
            runs,
            differ: found.is_some() as u64,
        });
    }
    Ok(counts)
}
