//! The lines, judged one after another.

ghost use Rattle.std.specs.Prelude.{◌≡◌, ◌<◌, [], IfOk, length, map};
ghost use Rattle.std.specs.List.{All};
ghost use Rattle.wf_model.specs.Reading.{Gives};
ghost use Rattle.wf_model.specs.Registry.{fault_at};
ghost use Rattle.wf_registry_columns.specs.Words.{word_texts};
ghost use Rattle.wf_registry_lines.specs.Kept.{IsThere, kept_in};
ghost use Rattle.wf_registry.specs.Judged.{TellsAt, lines_judged, words_judged};
ghost use Rattle.wf_registry.specs.RegistryErrors.{fault_of, rule_of};

use crate::declared::Declared;
use crate::error::{LineError, RegistryError};
use crate::line::line_entry;
use std::alloc::{AllocError, Global};
use wf_model::{Bytes, RegistryFault, RegistryKind, SourceFile, Word};
use wf_registry_columns::Axes;
use wf_registry_lines::{KeptLine, words_at};

/// What is wrong at a line, with its file's name.
pub(crate) fn fault_at(
    alloc: Global,
    files: &[SourceFile],
    line: &KeptLine,
    kind: RegistryKind,
) -> Result<RegistryFault, AllocError>
    requires { line.now.file < length files.now }
    ensures { IfOk result (λ f. f ≡ fault_at (kept_in files.now line.now) kind) }
{
    let file = Bytes::from_vec(Vec::from_slice(alloc, files[line.file].name.as_slice())?);
    Ok(RegistryFault {
        file,
        line: line.number,
        kind,
    })
}

/// The entries before, and that of a line of these words behind them.
fn with_words(
    alloc: Global,
    all: &Axes,
    before: Declared,
    words: &[Word],
) -> Result<Declared, LineError>
    ensures { Gives (λ d. d) rule_of result (words_judged all.now before (word_texts words.now)) }
{
    let entry = line_entry(alloc, all, &before, words)?;
    let after = before.with(alloc, entry)?;
    Ok(after)
}

/// Why a line has no entry, with its file's name.
fn located(alloc: Global, files: &[SourceFile], line: &KeptLine, error: LineError) -> RegistryError
    requires { line.now.file < length files.now }
    ensures { TellsAt (kept_in files.now line.now) (rule_of error) (fault_of result) }
{
    match error {
        LineError::Memory => RegistryError::Memory,
        LineError::Rule(kind) => match fault_at(alloc, files, line, kind) {
            Ok(fault) => RegistryError::Fault(fault),
            Err(_) => RegistryError::Memory,
        },
    }
}

/// The entries of the lines, in order, or the first line that breaks a rule. The words of each line
/// are read as it is judged, and given back then.
pub(crate) fn lines_judged(
    alloc: Global,
    files: &[SourceFile],
    all: &Axes,
    lines: &[KeptLine],
) -> Result<Declared, RegistryError>
    requires { All (IsThere files.now) lines.now }
    ensures { Gives (λ d. d) fault_of result
        (lines_judged all.now [] (map (kept_in files.now) lines.now)) }
{
    let mut declared = Declared::with_capacity(alloc, lines.len())?;
    for line in lines {
        let words = words_at(alloc, files, line)?;
        match with_words(alloc, all, declared, words.as_slice()) {
            Ok(after) => declared = after,
            Err(error) => return Err(located(alloc, files, line, error)),
        }
    }
    Ok(declared)
}
