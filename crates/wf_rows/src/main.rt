//! Runs worked cases: `wf_rows FILE..` performs data files, line by line, and prints what each
//! case gives. The gate runs it on the files of `data/`, and compares what it prints with
//! `stdout`, which was not taken from the program. The lines of a data file:
//!
//! - nothing, or `# TEXT`: a comment.
//! - `case NAME`: a case begins. Its files are those that stand before the first case.
//! - `file NAME`: gives the name an empty file. `without NAME`: takes the file out.
//! - `line NAME N`: takes out a line, by its number from 1. `at NAME AT COUNT`: takes out so many
//!   bytes from byte AT, from 0. `end NAME`: goes to the file's end.
//! - `|TEXT`: a line of text. `bytes WORDS`: bytes, as hex digits or `'TEXT'`. `numbers WORDS`:
//!   numbers of 4 bytes. They come in the place that the line before them left.
//! - `fail CALL KEPT`: in the next run this call of the store fails, counted from 1, with so many
//!   bytes of its write kept. `fail put CALL`: this put of the sink fails.
//! - `stored NAME ARITY ..`: the next run's table stores these functions for calls, with ids from 0
//!   in their order, each of at most 8 arguments. Each answers its second argument, or 0 where it
//!   has fewer than two. Without this line a run's table stores the shipped functions.
//! - `run WORDS`: runs `tool_main` with these words, on a store of the case's files, and prints the
//!   status, the number of the store's faults and the text that the sink took. Where a stored name
//!   stands twice, it prints `stored Repeated NAME` in place of these.
//! - `show NAME`: prints the length of a file that the run left, and the MD5 digest of its bytes.
//! - `look NAME AT COUNT`: prints so many numbers of 4 bytes of it, from byte AT.
//!
//! A line that is none of these ends the program with status 1, and is named with its file.
#![tactic(auto)]

mod files;
mod pieces;
mod script;
mod stored;

use crate::script::Script;
use anyhow::{Context, Result};
use std::alloc::Global;
use std::thread::Threads;
use std::{env, fs};

fn perform_file<R: Threads + Sync + Print>(
    rt: &R,
    alloc: Global,
    name: &str,
    text: &str,
) -> Result<()> {
    let mut script = Script::new(alloc);
    for (before, line) in text.lines().enumerate() {
        script
            .perform(rt, line)
            .context(format_args!("{name} line {}", before.saturating_add(1)))?;
    }
    Ok(())
}

fn main(rt: HostRuntime) -> Result<()> {
    for name in env::args(&rt)?.skip(1) {
        let name = name.as_str();
        let text = fs::read_to_string(&rt, name).context(format_args!("reading {name}"))?;
        perform_file(&rt, rt.alloc(), name, &text)?;
    }
    Ok(())
}
