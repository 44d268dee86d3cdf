//! Times the readers, for bench/run: `wf_bench registry|table|numbers ROUNDS FILE` prints the least
//! nanoseconds of so many rounds over the file.
#![tactic(auto)]

mod work;

use crate::work::Work;
use std::time::Instant;
use std::{env, fs};

const USAGE: &str = "usage: wf_bench registry|table|numbers ROUNDS FILE";

/// The least nanoseconds of a round, or the most there are where there is no round.
fn least(rt: &HostRuntime, work: &Work, rounds: u32) -> anyhow::Result<u128> {
    let mut least = u128::MAX;
    for _ in 0..rounds {
        let start = Instant::now(rt)?;
        let done = work.run(rt.alloc());
        let taken = start.elapsed(rt)?.as_nanos();
        if done {
            least = least.min(taken);
        }
    }
    Ok(least)
}

fn measured(rt: &HostRuntime, words: &[String]) -> anyhow::Result<Option<u128>> {
    let [kind, rounds, file] = words else {
        return Ok(None);
    };
    let Ok(rounds) = rounds.parse::<u32>() else {
        return Ok(None);
    };
    let bytes = fs::read(rt, file.as_str())?;
    match Work::new(rt.alloc(), kind.as_str(), bytes)? {
        Some(work) => Ok(Some(least(rt, &work, rounds)?)),
        None => Ok(None),
    }
}

fn main(rt: HostRuntime) -> anyhow::Result<()> {
    let mut words = Vec::new(rt.alloc());
    for word in env::args(&rt)?.skip(1) {
        words.push(word)?;
    }
    match measured(&rt, &words)? {
        Some(nanoseconds) => println!(rt; "{nanoseconds}")?,
        None => println!(rt; "{USAGE}")?,
    }
    Ok(())
}
