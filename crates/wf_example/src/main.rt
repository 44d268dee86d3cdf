//! A program like `wrftool` that stores a function of its own: a `relax` that goes the whole way at
//! once.
#![tactic(auto)]

mod group;

use crate::group::{Group, group_answer, group_names};
use std::alloc::Global;
use std::env;
use std::io::ErrorKind;
use std::process::ExitCode;
use std::thread::Threads;
use wf_hooks::{Answering, HookError, HookTable};
use wf_io::{DirStore, Sink, StdSink, Store};
use wf_top::tool_main;

const MEMORY: u8 = 10;

// The words after the program's name, or none for want of memory. Where one of them is no text,
// they are no command, as no words are.
fn words(rt: &HostRuntime) -> Option<Vec<String>> {
    let mut words = Vec::new(rt.alloc());
    match env::args(rt) {
        Ok(args) => {
            for word in args.skip(1) {
                words.push(word).ok()?;
            }
        }
        Err(e) => {
            if e.kind() == ErrorKind::OutOfMemory {
                return None;
            }
        }
    }
    Some(words)
}

/// Runs a command over a table of the group's function, which this one answers.
fn run<R: Threads + Sync, S: Store, O: Sink, F: Answering<Group>>(
    rt: &R,
    alloc: Global,
    words: &[String],
    store: &mut S,
    out: &mut O,
    function: F,
) -> u8
    requires { F.keeps function }
{
    let Ok(names) = group_names(alloc) else {
        return MEMORY;
    };
    let made: Result<HookTable<Group, F>, HookError> = HookTable::new(
        alloc,
        names.as_slice(),
        function,
    );
    match made {
        Ok(hooks) => tool_main(rt, alloc, words, store, out, &hooks),
        Err(HookError::Memory) => MEMORY,
        Err(HookError::Repeated { name: _ }) => unreachable!(),
    }
}

fn main(rt: HostRuntime) -> ExitCode {
    let Some(words) = words(&rt) else {
        return ExitCode::from(MEMORY);
    };
    let Ok(mut store) = DirStore::new(rt, rt.alloc(), ".") else {
        return ExitCode::from(MEMORY);
    };
    let mut out = StdSink::new(rt);
    let status = run(
        &rt,
        rt.alloc(),
        words.as_slice(),
        &mut store,
        &mut out,
        |id: u32, arguments: &[i64]| group_answer(id, arguments),
    );
    ExitCode::from(status)
}
