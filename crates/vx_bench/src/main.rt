//! Runs operations on large arrays and says how long they take; `bench/peer` runs the same in plain
//! Rust, and `tools/bench` compares the two.
//!
//! `vx_bench OPERATION RUNS ROWS` readies the data of an operation, so many rows, a million if left
//! out, and runs it that often. It prints a line for each run: its nanoseconds and a checksum of what
//! it made. `vx_bench` alone runs each operation once on a thousand rows, and prints its name and its
//! checksum. The exit status is 0, or 1 where the words are not understood or something fails.
#![tactic(auto)]

mod steps;

use std::env;
use std::process::ExitCode;
use vx_timed::{Bench, Fault, Report, Scale, measure, measure_all};

// How many rows there are where the arguments do not say.
const ROWS: u32 = 1_000_000;

// The names of the operations of steps, which stand last.
const STEPS: [&str; 2] = ["steps_run", "steps_direct"];

// Each operation once, on a thousand rows.
fn run_all(rt: &HostRuntime) -> Result<(), Fault> {
    let bench = Bench {
        scale: Scale::of_rows(1_000),
        report: Report::Checksum,
    };
    measure_all(rt, &bench)?;
    for name in STEPS {
        print!(rt; "{name} ")?;
        measure_steps(rt, &bench, name)?;
    }
    Ok(())
}

// Measures a list of steps, or the same calls.
fn measure_steps(rt: &HostRuntime, bench: &Bench, name: &str) -> Result<(), Fault> {
    bench.measure(rt, steps::ready(rt.alloc(), bench.scale, name)?)
}

// Measures the operation of a name.
fn measure_named(rt: &HostRuntime, bench: &Bench, name: &str) -> Result<(), Fault> {
    let (verb, _rest) = name.split_once('_').unwrap_or((name, ""));
    if verb == "steps" {
        return measure_steps(rt, bench, name);
    }
    measure(rt, bench, name)
}

// The runs and the rows that the arguments after the operation ask for.
fn asked(runs: Option<&str>, rows: Option<&str>) -> Option<Bench> {
    let runs = runs?.parse::<usize>().ok()?;
    let rows = match rows {
        Some(word) => word.parse::<u32>().ok()?,
        None => ROWS,
    };
    Some(Bench {
        scale: Scale::of_rows(rows),
        report: Report::Times { runs },
    })
}

// What the arguments ask for.
fn start(rt: &HostRuntime) -> Result<(), Fault> {
    let mut words = env::args(rt)?;
    let _program = words.next();
    let Some(name) = words.next() else {
        return run_all(rt);
    };
    let (runs, rows) = (words.next(), words.next());
    match asked(runs.as_deref(), rows.as_deref()) {
        Some(bench) => measure_named(rt, &bench, &name),
        None => Err(Fault::Usage),
    }
}

fn main(rt: HostRuntime) -> ExitCode {
    match start(&rt) {
        Ok(()) => ExitCode::SUCCESS,
        Err(_) => ExitCode::FAILURE,
    }
}
