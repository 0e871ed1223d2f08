//! Carries out the jobs that users wait for, over inputs that it makes, and prints a digest of all results:
//! `jobs_bench JOB ROUNDS SEED`. Without words it carries out a small part of each. docs/PERF.md tells how it is used.
#![tactic(auto)]

mod dice;
mod digest;
mod jobs;
mod pixels;
mod session;
mod stock;
mod styles;

use crate::jobs::{BANDS, Work, awkward, checks, logs, mends, pictures, surveys};
use anyhow::anyhow;
use std::alloc::AllocError;
use std::env::Env;
use std::process::ExitCode;

/// A job, by its name.
#[derive(Clone, Copy, Debug, PartialEq, Eq)]
enum Job {
    Checks,
    Surveys,
    Mends,
    Pictures,
    Logs,
    Awkward,
}

const JOBS: [Job; 6] = [
    Job::Checks,
    Job::Surveys,
    Job::Mends,
    Job::Pictures,
    Job::Logs,
    Job::Awkward,
];

impl Job {
    fn name(self) -> &'static str {
        match self {
            Job::Checks => "checks",
            Job::Surveys => "surveys",
            Job::Mends => "mends",
            Job::Pictures => "pictures",
            Job::Logs => "logs",
            Job::Awkward => "awkward",
        }
    }

    /// Carries out the job, and returns the digest of its results.
    fn carry_out(self, work: &mut Work) -> Result<u64, AllocError> {
        match self {
            Job::Checks => checks(work)?,
            Job::Surveys => surveys(work)?,
            Job::Mends => mends(work)?,
            Job::Pictures => pictures(work)?,
            Job::Logs => logs(work)?,
            Job::Awkward => awkward(work)?,
        }
        Ok(work.sum())
    }
}

fn job_named(name: &str) -> Option<Job> {
    JOBS.iter().copied().find(|job| job.name() == name)
}

/// The number that is the argument with this index.
fn number_at(rt: &HostRuntime, index: usize) -> Option<u64> {
    let mut room = [0u8; 32];
    let length = rt.arg(index, &mut room).ok()?;
    let text = std::str::from_utf8(&room[..length]).ok()?;
    text.parse().ok()
}

/// The job that the first argument names.
fn job_at(rt: &HostRuntime) -> Option<Job> {
    let mut room = [0u8; 32];
    let length = rt.arg(1, &mut room).ok()?;
    job_named(std::str::from_utf8(&room[..length]).ok()?)
}

/// Carries out the job, and prints it and its digest.
fn print(rt: &HostRuntime, job: Job, mut work: Work) -> Result<(), anyhow::Error> {
    let sum = job.carry_out(&mut work)?;
    println!(rt; "{} {sum:016x}", job.name())?;
    Ok(())
}

fn main(rt: HostRuntime) -> Result<ExitCode, anyhow::Error> {
    match (job_at(&rt), number_at(&rt, 2), number_at(&rt, 3)) {
        (Some(job), Some(rounds), Some(seed)) => {
            print(&rt, job, Work::new(rt.alloc(), seed, rounds, BANDS))?
        }
        (None, None, None) => {
            for job in JOBS {
                print(&rt, job, Work::new(rt.alloc(), 1, 1, 2))?;
            }
        }
        _ => return Err(anyhow!("jobs_bench JOB ROUNDS SEED")),
    }
    Ok(ExitCode::SUCCESS)
}
