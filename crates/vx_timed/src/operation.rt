// One operation, and how it is measured.

use crate::data::Scale;
use crate::fault::Fault;
use crate::made::Made;
use std::alloc::Global;
use std::time::Instant;

/// An operation over data that is ready.
pub trait Operation {
    /// The operation: this alone is timed.
    fn run(&mut self, alloc: Global) -> Result<Made, Fault>;
}

/// What is printed.
#[derive(Drop)]
pub enum Report {
    /// The checksum of one run.
    Checksum,
    /// Nanoseconds and checksum of each of some runs.
    Times { runs: usize },
}

/// How operations are measured.
#[derive(Drop)]
pub struct Bench {
    /// How much data they have.
    pub scale: Scale,
    /// What is printed of them.
    pub report: Report,
}

// Runs the operation so many times, and once where that is 0: each result but the last is let go at
// once.
fn run_often<O: Operation>(operation: &mut O, alloc: Global, times: usize) -> Result<Made, Fault> {
    for _ in 1..times {
        drop(operation.run(alloc)?);
    }
    operation.run(alloc)
}

impl Bench {
    // How often an operation runs.
    pub(crate) fn runs(&self) -> usize {
        match self.report {
            Report::Checksum => 1,
            Report::Times { runs } => runs,
        }
    }

    // Measures an operation whose data is ready. One that takes no time by the row is quick: one run
    // of it repeats it once for ten rows.
    pub(crate) fn measure_often<O: Operation + Drop>(
        &self,
        rt: &HostRuntime,
        operation: O,
        is_quick: bool,
    ) -> Result<(), Fault> {
        let mut operation = operation;
        let times = if is_quick { self.scale.rows() / 10 } else { 1 };
        for _ in 0..self.runs() {
            let start = Instant::now(rt)?;
            let made = run_often(&mut operation, rt.alloc(), times)?;
            let elapsed = start.elapsed(rt);
            let checksum = made.checksum()?;
            self.print(rt, elapsed?.as_nanos(), checksum)?;
        }
        Ok(())
    }

    /// Measures an operation whose data is ready.
    pub fn measure<O: Operation + Drop>(
        &self,
        rt: &HostRuntime,
        operation: O,
    ) -> Result<(), Fault> {
        self.measure_often(rt, operation, false)
    }

    // Prints what a run took and what it made.
    fn print(&self, rt: &HostRuntime, nanos: u128, checksum: u64) -> Result<(), Fault> {
        match self.report {
            Report::Checksum => println!(rt; "{checksum}")?,
            Report::Times { .. } => println!(rt; "{nanos} {checksum}")?,
        }
        Ok(())
    }
}
