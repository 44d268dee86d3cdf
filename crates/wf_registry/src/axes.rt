//! The letters of the dimspecs of all lines.

ghost use Rattle.std.specs.Prelude.{◌≡◌, ◌++◌, IfOk, OnOk};
ghost use Rattle.std.specs.List.{All};
ghost use Rattle.std.specs.Option.{option_to_list};
ghost use Rattle.wf_model.specs.Entries.{dimspecs};
ghost use Rattle.wf_registry_columns.specs.Axes.{HasAxesOf};
ghost use Rattle.wf_registry_columns.specs.Words.{word_texts};
ghost use Rattle.wf_registry_lines.specs.Kept.{IsThere, TellsDimspec};
ghost use Rattle.wf_registry.specs.LineEntries.{words_entry, lines_entries};
ghost use Rattle.wf_registry.specs.Lines.{word_kind};

use std::alloc::{AllocError, Global};
use wf_model::{SourceFile, Word};
use wf_registry_columns::{Axes, LineKind, column, columns_of, least_columns, only_byte};
use wf_registry_lines::{KeptLine, words_at};

/// Adds the letter of a dimspec of these words, where it has enough columns.
fn add_dimspec(axes: &mut Axes, words: &[Word]) -> Result<(), AllocError>
    requires { word_kind (word_texts words.now) ≡ dimspecs }
    ensures { OnOk result
        (HasAxesOf axes.new (axes.old ++ option_to_list (words_entry (word_texts words.now)))) }
{
    let columns = columns_of(words);
    if columns.len() < least_columns(LineKind::Dimspec) {
        return Ok(());
    }
    axes.add(only_byte(column(columns, 0)), only_byte(column(columns, 3)))?;
    Ok(())
}

/// The letters of all dimspecs with enough columns, also of those that break another rule. The
/// words of each dimspec are given back once its letter is added; those of other lines are
/// not read.
pub(crate) fn axes_of(
    alloc: Global,
    files: &[SourceFile],
    lines: &[KeptLine],
) -> Result<Axes, AllocError>
    requires there { All (IsThere files.now) lines.now }
    requires dimspecs { All (TellsDimspec files.now) lines.now }
    ensures { IfOk result (λ a. HasAxesOf a (lines_entries files.now lines.now)) }
{
    let mut axes = Axes::new(alloc);
    for line in lines {
        if line.dimspec {
            let words = words_at(alloc, files, line)?;
            add_dimspec(&mut axes, words.as_slice())?;
        }
    }
    Ok(axes)
}
