//! The lines of the Registry's files that count, in reading order.
//!
//! Reading begins at the file `Registry`. A file stands in place of each include that names it, and
//! the lines that an ifdef drops don't count, as in WRF's Registry. How many files and lines there
//! may be, and which fault each other text has, are this project's own rules.
#![tactic(auto)]

ghost use Rattle.std.specs.Prelude.{◌≡◌, ◌<◌, IfOk, length, map};
ghost use Rattle.std.specs.List.{All};
ghost use Rattle.wf_model.specs.KeptLines.{registry_lines};
ghost use Rattle.wf_model.specs.Registry.{met_of, stop_of};
ghost use Rattle.wf_registry_lines.specs.Kept.{IsThere, TellsDimspec, kept_in, text_at};
ghost use Rattle.wf_registry_lines.specs.FileLines.{line_at};

mod ahead;
mod condition;
mod kind;
mod progress;
mod reader;

use crate::progress::ReadingError;
use crate::reader::Reader;
use std::alloc::{AllocError, Global};
use wf_model::{List, Name, RegistryFault, SourceFile, Word};
use wf_text::{TextError, next_line};

/// A line that counts: the place, from 0, of its file among the files that are read, and the number
/// of its first physical line, from 1. Its words are those of the first line of its file's text
/// behind so many bytes and physical lines.
#[derive(Clone, Copy)]
pub struct KeptLine {
    pub file: usize,
    pub number: u32,
    pub from: u32,
    pub before: u32,
    /// Whether it is a dimspec.
    pub dimspec: bool,
}

/// The lines that count, in reading order, till the end or till reading stops, and why it stops.
#[derive(Drop)]
pub struct KeptLines {
    pub lines: Vec<KeptLine>,
    pub fault: Option<RegistryFault>,
}

/// The lines, with no more room than they take.
fn fitted(mut lines: Vec<KeptLine>) -> Vec<KeptLine>
    ensures { result.items ≡ lines.items }
{
    lines.shrink_to_fit();
    lines
}

/// The lines that count among these files, where these names are defined, each with a value.
///
/// A line counts where no ifdef around it drops it, and where it is no include, ifdef or endif. An
/// `ifdef NAME=VALUE` keeps the lines up to its endif where NAME, ignoring case, is defined with
/// that very value; the words `include`, `ifdef` and `endif` ignore case too. Reading stops at the
/// first fault, in reading order:
///
/// - `MissingFile`, line 0: there is no file `Registry`;
/// - `NotText`, line 0: a file that is read isn't UTF-8;
/// - `BadText`: a quoted word has no end, or a continued line ends the text; the lines
///   before count;
/// - `MissingInclude`: there is no file with the name that an include has;
/// - `IncludeLoop`: the file that an include names is being read;
/// - `UnclosedIf`: an ifdef where lines are kept has no endif in its file, whose text has no fault;
/// - `StrayEndif`: an endif has no ifdef in its file;
/// - `Columns`: an include has no name, or an ifdef where lines are kept no `NAME=VALUE`;
/// - `TooLong`: an include would be the 65th file, or a line the 100,001st of all, dropped
///   ones counted.
///
/// The call fails only where memory runs out, or where a line or a column has no number of 32 bits.
pub fn kept_lines(
    alloc: Global,
    files: &[SourceFile],
    defines: &[(Name, Name)],
) -> Result<KeptLines, AllocError>
    ensures lines { IfOk result (λ k. map (kept_in files.now) k.lines.items
        ≡ (met_of (registry_lines files.now defines.now)).kept) }
    ensures fault { IfOk result (λ k. k.fault ≡ stop_of (registry_lines files.now defines.now)) }
    ensures places { IfOk result (λ k. All (IsThere files.now) k.lines.items) }
    ensures dimspecs { IfOk result (λ k. All (TellsDimspec files.now) k.lines.items) }
{
    let reader = Reader {
        alloc,
        files,
        defines,
    };
    match reader.registry() {
        Ok(progress) => Ok(KeptLines {
            lines: fitted(progress.kept),
            fault: None,
        }),
        Err(ReadingError::Stopped(stopped)) => Ok(KeptLines {
            lines: fitted(stopped.progress.kept),
            fault: Some(stopped.fault),
        }),
        Err(ReadingError::Memory) => Err(AllocError),
    }
}

/// The words of a line that counts, read again.
pub fn words_at(
    alloc: Global,
    files: &[SourceFile],
    line: &KeptLine,
) -> Result<List<Word>, AllocError>
    requires { IsThere files.now line.now }
    ensures { IfOk result
        (λ w. w ≡ (line_at (text_at files.now line.now.file) line.now.from line.now.before).words) }
{
    let text = files[line.file].text.as_slice();
    let (_, rest) = text.split_at(line.from as usize);
    match next_line(alloc, rest, line.before) {
        Ok(Some(next)) => Ok(next.line.words),
        Err(TextError::Memory) => Err(AllocError),
        Ok(None)
        | Err(TextError::UnclosedQuote { .. })
        | Err(TextError::DanglingBackslash { .. }) => unreachable!(),
    }
}
