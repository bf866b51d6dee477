//! Runs many scripts in one process. `tools/test` makes them, with the byte 30 between two of them.
//!
//! After what a script prints come the byte 30, its status as a digit, and a line feed.
#![tactic(auto)]

use std::io::{Read, Write};
use std::process::ExitCode;
use vx_run::run_script;

// What stands between two scripts: no script of the repository has this byte.
const BETWEEN: u8 = 30;

fn main(rt: HostRuntime) -> ExitCode {
    let alloc = rt.alloc();
    let mut all = Vec::new(alloc);
    if rt.stdin().read_to_end(&mut all).is_err() {
        return ExitCode::from(2);
    }
    let mut output = rt.stdout();
    for script in all.as_slice().split(|byte| *byte == BETWEEN) {
        let mut rest = script;
        let status = run_script(alloc, &mut rest, &mut output);
        let end = if status == 0 { b"\x1e0\n" } else { b"\x1e1\n" };
        if output.write_all(end).is_err() {
            return ExitCode::from(2);
        }
    }
    ExitCode::from(0)
}
