//! Runs a script from standard input and writes what it prints to standard output.
//!
//! The exit status is 0 where the script ends without fault, else 1. Arguments are ignored.
#![tactic(auto)]

#[cfg(test)]
mod record_steps;
#[cfg(test)]
mod step_arrays;
#[cfg(test)]
mod steps;
#[cfg(test)]
mod streams;
#[cfg(test)]
mod written_rows;

use std::process::ExitCode;
use vx_run::run_script;

fn main(rt: HostRuntime) -> ExitCode {
    ExitCode::from(run_script(rt.alloc(), &mut rt.stdin(), &mut rt.stdout()))
}
