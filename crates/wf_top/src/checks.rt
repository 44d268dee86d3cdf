//! The command `check`.

ghost use Rattle.std.specs.Prelude.{map, string_bytes};
ghost use Rattle.wf_hooks.specs.Accepts.{AcceptsHooks};
ghost use Rattle.wf_words.specs.Commands.{check_words};
ghost use Rattle.wf_top.specs.Ends.{Said};
ghost use Rattle.wf_top.specs.Checks.{CheckEnded};
ghost use Rattle.wf_top.specs.Tool.{WordsEnded};

use crate::case::case_of_store;
use crate::check_text::{read_text, store_text};
use crate::say::say;
use std::alloc::Global;
use wf_hooks::{Answering, HookTable, Meanings};
use wf_io::{Sink, Store};
use wf_model::Name;
use wf_setup::SetupError;
use wf_words::{WordsError, check_words};

/// Reads a case, and says what it is.
fn check_case<S: Store, O: Sink, M: Meanings, F: Answering<M>>(
    alloc: Global,
    defines: &[(Name, Name)],
    store: &mut S,
    out: &mut O,
    hooks: &HookTable<M, F>,
) -> u8
    requires { AcceptsHooks M.accepts hooks.now }
    ensures { CheckEnded hooks.now defines.now (S.files store.old) (S.files store.new)
        (S.faults store.old) (S.faults store.new) (S.failed store.new)
        (λ status text. Said status text (O.taken out.old) (O.taken out.new) (O.faults out.old)
        (O.faults out.new) result) }
{
    match case_of_store(alloc, store, defines, hooks) {
        Ok(case) => match read_text(alloc, &case.config) {
            Ok(text) => say(out, &text, 0),
            Err(_) => say(out, b"memory\n", 10),
        },
        Err(SetupError::Refused(refused)) => say(out, refused.line.as_slice(), refused.status),
        Err(SetupError::Store(name)) => match store_text(alloc, name.as_slice()) {
            Ok(text) => say(out, &text, 9),
            Err(_) => say(out, b"memory\n", 10),
        },
        Err(SetupError::Memory) => say(out, b"memory\n", 10),
    }
}

/// Runs `check` with these words, the command's name first.
pub fn end_check<S: Store, O: Sink, M: Meanings, F: Answering<M>>(
    alloc: Global,
    words: &[String],
    store: &mut S,
    out: &mut O,
    hooks: &HookTable<M, F>,
) -> u8
    requires { AcceptsHooks M.accepts hooks.now }
    ensures { WordsEnded (CheckEnded hooks.now) (check_words (map string_bytes words.now))
        (S.files store.old) (S.files store.new) (S.faults store.old) (S.faults store.new)
        (S.failed store.new)
        (λ status text. Said status text (O.taken out.old) (O.taken out.new) (O.faults out.old)
        (O.faults out.new) result) }
{
    match check_words(alloc, words) {
        Ok(defines) => check_case(alloc, &defines, store, out, hooks),
        Err(WordsError::Usage) => say(out, b"usage: wrftool COMMAND [WORDS]\n", 1),
        Err(WordsError::Memory) => say(out, b"memory\n", 10),
    }
}
