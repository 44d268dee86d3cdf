//! The top call of `wrftool`.

ghost use Rattle.std.specs.Prelude.{◌≡◌, ℕ, ◌+◌, ◌≤◌, ◌++◌, map, IfOk, OnOk, OnErr, IsErrOf};
ghost use Rattle.std.specs.Prelude.{string_bytes};
ghost use Rattle.wf_io.specs.Files.{Counted};
ghost use Rattle.wf_model.specs.StoreRuns.{Ran, Stopped};
ghost use Rattle.wf_model.specs.Answer.{summary_line, memory_text, how};
ghost use Rattle.wf_model.specs.Demo.{demo_file, demo_calls, demo_summary, demo_memories};
ghost use Rattle.wf_model.specs.Demo.{demo_answer, tool_answer};
ghost use Rattle.wf_hooks.specs.Accepts.{AcceptsHooks};
ghost use Rattle.wf_top.specs.Limits.{InLimits};
ghost use Rattle.wf_model.specs.Failed.{Failed};
ghost use Rattle.wf_top.specs.Ends.{Said, Ended};
ghost use Rattle.wf_top.specs.Plain.{storing};
ghost use Rattle.wf_top.specs.Tool.{ToolEnded};

use crate::checks::end_check;
use crate::frames::write_file;
use crate::header::demo_header;
use crate::patches::Patches;
use crate::plain::end_plain;
use crate::say::say;
use crate::text::{demo_text, too_many_patches};
use crate::words::{is_command, read_words};
use std::alloc::Global;
use std::thread::Threads;
use wf_hooks::{Answering, HookTable, Meanings};
use wf_io::{IoError, Sink, Store};
use wf_model::Demo;

// Runs a demo with no more patches than columns, and gives what it prints.
fn run_demo<S: Store>(alloc: Global, demo: &Demo, store: &mut S) -> Result<String, IoError>
    requires limits { InLimits demo.now }
    requires patches { demo.now.px ≤ demo.now.nx }
    ensures ok { OnOk result (Ran (demo_calls demo.now) (S.files store.old) (S.files store.new)) }
    ensures text { IfOk result (λ t. string_bytes t ≡ summary_line (demo_summary demo.now)
        ++ memory_text (how demo.now.each) (demo_memories demo.now)) }
    ensures err { OnErr result
        (Stopped (demo_calls demo.now) (S.files store.old) (S.files store.new)) }
    ensures failed_call { IsErrOf result IoError.Fault
        → Failed (demo_calls demo.now) demo_file (S.files store.old) (S.files store.new) }
    ensures faults { Counted (S.faults store.old) (S.faults store.new) result }
    ensures failed { IsErrOf result IoError.Fault → S.failed store.new ≡ demo_file }
{
    let header = match demo_header(alloc, demo.nx, demo.ny, demo.steps) {
        Ok(header) => header,
        Err(_) => return Err(IoError::Memory),
    };
    let mut patches = match Patches::new(
        alloc,
        demo.nx as usize,
        demo.ny as usize,
        demo.px as usize,
    ) {
        Ok(patches) => patches,
        Err(_) => return Err(IoError::Memory),
    };
    let sum = match write_file(alloc, store, &header, &mut patches, demo.steps) {
        Ok(sum) => sum,
        Err(e) => return Err(e),
    };
    match demo_text(alloc, demo, sum, &patches) {
        Ok(text) => Ok(text),
        Err(_) => Err(IoError::Memory),
    }
}

// Answers a demo.
fn end_demo<S: Store, O: Sink>(alloc: Global, demo: &Demo, store: &mut S, out: &mut O) -> u8
    requires { InLimits demo.now }
    ensures { Ended (demo_answer demo.now) (S.files store.old) (S.files store.new)
        (S.faults store.old) (S.faults store.new) (S.failed store.new)
        (λ status text. Said status text (O.taken out.old) (O.taken out.new) (O.faults out.old)
        (O.faults out.new) result) }
{
    if demo.px > demo.nx {
        return match too_many_patches(alloc, demo.px) {
            Ok(line) => say(out, line.as_bytes(), 7),
            Err(_) => say(out, b"memory\n", 10),
        };
    }
    match run_demo(alloc, demo, store) {
        Ok(text) => say(out, text.as_bytes(), 0),
        Err(IoError::Fault) => say(out, b"store wrfout_d01_2000-01-01_00:00:00\n", 9),
        Err(IoError::Memory) => say(out, b"memory\n", 10),
    }
}

// Runs a command that is neither `check` nor `plain`.
fn end_other<S: Store, O: Sink>(alloc: Global, words: &[String], store: &mut S, out: &mut O) -> u8
    ensures { Ended (tool_answer (map string_bytes words.now)) (S.files store.old)
        (S.files store.new) (S.faults store.old) (S.faults store.new) (S.failed store.new)
        (λ status text. Said status text (O.taken out.old) (O.taken out.new) (O.faults out.old)
        (O.faults out.new) result) }
{
    match read_words(words) {
        None => say(out, b"usage: wrftool COMMAND [WORDS]\n", 1),
        Some(demo) => end_demo(alloc, &demo, store, out),
    }
}

/// Runs a command of `wrftool` and gives its status.
///
/// `words` are those after the program's name. The table may call the functions that `hooks`
/// stores; each has at most 8 arguments and accepts every list of so many numbers of 64 bits.
/// Whatever `rt` starts is joined before the call returns, and nothing waits for anything else;
/// today no command starts a thread. The commands are:
/// - `demo NX NY STEPS PX [--memory]`: a built-in field of NX by NY points, from 1 to 200 each, is
///   stepped STEPS times, from 0 to 100, on PX column patches, from 1 to 256, and written frame by
///   frame to the file `wrfout_d01_2000-01-01_00:00:00` of the store.
/// - `check [--define LIST]`: the files `Registry`, with the includes that it wants,
///   `namelist.input` and `stencil.table` of the store are read and judged, with the names of LIST,
///   `NAME=VALUE,NAME=VALUE`, defined for the Registry's ifdefs, and the plan that they ask for is
///   tested.
/// - `plain [--define LIST]`: the same files are read and judged, and then the input file
///   `wrfinput_d01`, where the namelist asks for it; the whole domain is stepped point by point,
///   and its history is written, frame by frame.
///
/// The statuses are this project's own:
/// - 0: of `demo`, the files are written; the text is the summary, and a line on each patch's
///   memory or one on all. Of `check`, nothing is refused; the text is a line `field NAME` for each
///   active field level, and `read`. Of `plain`, all frames are written; the text is the summary
///   alone, `files F records R bytes B sum S`: files created, records written, bytes behind the
///   headers, and their sum.
/// - 1: the words are no command; the text is the usage line.
/// - 2, 3, 4: the Registry, the namelist or the config, the table or the plan is refused; the text
///   says what is wrong and where.
/// - 6: an input file is refused; the text is `input FILE KIND`, with ` at N` behind where there is
///   a place.
/// - 7: there are more patches than columns; the text says so.
/// - 8: a value does not fit; the text is `overflow DOMAIN STEP WHAT FIELD K J I`, the first such
///   point, with all indices from 1. The frames before it are written, and no others.
/// - 9: a call of the store failed, which the store counted; no call followed it. The text names
///   the file.
/// - 10: want of memory.
/// - 11: the sink failed, which it counted; this takes the place of the status that the text was
///   put for.
///
/// `check` leaves the files of the store as they were, and so do 1 to 7. After 9, 10 and 11 of
/// `demo` and `plain` a first part of the calls of a whole run was made.
pub fn tool_main<R: Threads + Sync, S: Store, O: Sink, M: Meanings, F: Answering<M>>(
    _rt: &R,
    alloc: Global,
    words: &[String],
    store: &mut S,
    out: &mut O,
    hooks: &HookTable<M, F>,
) -> u8
    requires { AcceptsHooks M.accepts hooks.now }
    ensures { ToolEnded (storing hooks.now M.answer) (map string_bytes words.now)
        (S.files store.old) (S.files store.new) (S.faults store.old) (S.faults store.new)
        (S.failed store.new)
        (λ status text. Said status text (O.taken out.old) (O.taken out.new) (O.faults out.old)
        (O.faults out.new) result) }
{
    if is_command("check", words) {
        end_check(alloc, words, store, out, hooks)
    } else if is_command("plain", words) {
        end_plain(alloc, words, store, out, hooks)
    } else {
        end_other(alloc, words, store, out)
    }
}
