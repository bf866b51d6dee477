//! The jobs that a user of these arrays waits for, on made columns of real shape.
//!
//! `vx_jobs JOB SEED` runs a job and prints a digest of all its results; the seed, a number below
//! 2^32, says which columns are made. `vx_jobs` alone runs each job on a few rows, and prints its
//! name and its digest. The exit status is 0, or 1 where the words are not understood or something
//! fails. `bench/run` times the jobs.
#![tactic(auto)]

mod batches;
mod columns;
mod digest;
mod fault;
mod lists;
mod nulls;
mod query;
mod random;
mod reader;
mod scale;
mod texts;
mod writer;

use crate::digest::Digest;
use crate::fault::Fault;
use crate::random::Random;
use crate::scale::Scale;
use std::alloc::Global;
use std::env;
use std::process::ExitCode;

// The names of the jobs.
const JOBS: [&str; 6] = ["reader", "query", "lists", "writer", "nulls", "batches"];

// How many batches a job works on.
fn rounds_of(job: &str) -> usize {
    match job {
        "reader" => 250,
        "query" => 60,
        "lists" => 120,
        "writer" => 90,
        "nulls" => 1_600,
        _ => 1_000,
    }
}

// The digest of all that a job makes.
fn run(alloc: Global, job: &str, seed: u32, scale: Scale) -> Result<Digest, Fault> {
    let random = &mut Random::new(seed);
    match job {
        "reader" => reader::run(alloc, random, scale),
        "query" => query::run(alloc, random, scale),
        "lists" => lists::run(alloc, random, scale),
        "writer" => writer::run(alloc, random, scale),
        "nulls" => nulls::run(alloc, random, scale),
        "batches" => batches::run(alloc, random, scale),
        _ => Err(Fault::Usage),
    }
}

// Each job on a few rows.
fn run_all(rt: &HostRuntime) -> Result<(), Fault> {
    for job in JOBS {
        let digest = run(rt.alloc(), job, 1, Scale::small())?.value();
        println!(rt; "{job} {digest}")?;
    }
    Ok(())
}

// What the arguments ask for.
fn start(rt: &HostRuntime) -> Result<(), Fault> {
    let mut words = env::args(rt)?;
    let _program = words.next();
    let Some(job) = words.next() else {
        return run_all(rt);
    };
    let Some(seed) = words.next() else {
        return Err(Fault::Usage);
    };
    let Ok(seed) = seed.parse::<u32>() else {
        return Err(Fault::Usage);
    };
    let digest = run(rt.alloc(), &job, seed, Scale::whole(rounds_of(&job)))?.value();
    println!(rt; "{job} {digest}")?;
    Ok(())
}

fn main(rt: HostRuntime) -> ExitCode {
    match start(&rt) {
        Ok(()) => ExitCode::SUCCESS,
        Err(_) => ExitCode::FAILURE,
    }
}
