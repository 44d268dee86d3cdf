//! The table: its text, its lines, and an item a line.

ghost use Rattle.std.specs.Prelude.{◌≡◌, []};
ghost use Rattle.wf_model.specs.KeptLines.{fault_line};
ghost use Rattle.wf_model.specs.Reading.{Gives};
ghost use Rattle.wf_model.specs.Table.{items_from, table_of};
ghost use Rattle.wf_table.specs.Faults.{fault_of, kind_of};
ghost use Rattle.wf_table.specs.Lines.{item_of_line, items_of_text, line_fault};

use crate::error::{LineError, TableError};
use crate::item::item_of_text;
use crate::tokens::joined_text;
use std::alloc::Global;
use std::str::from_utf8;
use wf_model::limits::TABLE_ITEMS;
use wf_model::{Item, Line, List, Names, TableFault, TableKind, TextFault};
use wf_text::read_until_fault;

/// What an error in this line tells.
fn in_line(line: u32, error: LineError) -> TableError
    ensures { fault_of result ≡ line_fault line (kind_of error) }
{
    match error {
        LineError::Memory => TableError::Memory,
        LineError::Kind(kind) => TableError::Fault(TableFault { line, kind }),
    }
}

/// The item of a line, behind these.
#[tactic(auto, unfolding(crate::specs::Lines::item_of_line))]
fn item_of_line(
    alloc: Global,
    names: &Names,
    before: &[Item],
    line: &Line,
) -> Result<Item, TableError>
    ensures { Gives (λ r. r) fault_of result (item_of_line names.now before.now line.now) }
{
    if before.len() >= TABLE_ITEMS {
        let line = line.number;
        let kind = TableKind::TooLong;
        return Err(TableError::Fault(TableFault { line, kind }));
    }
    let text = joined_text(alloc, line)?;
    match item_of_text(alloc, names, before, text.as_slice()) {
        Ok(item) => Ok(item),
        Err(error) => Err(in_line(line.number, error)),
    }
}

/// The items of all lines.
fn items(alloc: Global, names: &Names, lines: &[Line]) -> Result<Vec<Item>, TableError>
    ensures { Gives (λ v. v.items) fault_of result (items_from names.now [] lines.now) }
{
    let mut items = Vec::new(alloc);
    for line in lines {
        let item = item_of_line(alloc, names, items.as_slice(), line)?;
        items.push(item)?;
    }
    Ok(items)
}

/// The physical line of a text's fault.
fn fault_line(fault: TextFault) -> u32
    ensures { result ≡ fault_line fault }
{
    match fault {
        TextFault::UnclosedQuote { line, .. } => line,
        TextFault::DanglingBackslash { line } => line,
    }
}

/// The items of a text, unless a line of it is refused.
#[tactic(auto, unfolding(crate::specs::Lines::items_of_text))]
fn items_of_text(alloc: Global, text: &str, names: &Names) -> Result<Vec<Item>, TableError>
    ensures { Gives (λ v. v.items) fault_of result (items_of_text text.now names.now) }
{
    let read = read_until_fault(alloc, text)?;
    let items = items(alloc, names, &read.lines)?;
    match read.fault {
        None => Ok(items),
        Some(fault) => {
            let line = fault_line(fault);
            let kind = TableKind::BadText;
            Err(TableError::Fault(TableFault { line, kind }))
        }
    }
}

/// The items of a stencil table, in order, or its first refusal from left to right.
///
/// Each logical line holds one item: `halo NAME`, `period NAME`, `swap FIELD`, or
/// `phase NAME writes LEVEL [margin X Y] [levels FROM TO] [extend N] = EXPRESSION`. An expression
/// has whole numbers, `i`, `j`, `k`, `step`, reads `LEVEL[di,dk,dj]`, `(..)`, `-`, `*`, `div` and
/// `mod` by a number, `+` and `-`, `min(a, b)`, `max(a, b)`, `if a < b then c else d` (also with
/// `<=` and `=`), and `call FUNCTION(a, ..)`; operators group from the left. Keywords and names
/// ignore case. Lines are those of `wf_text::read_until_fault`; a fault of the text comes after the
/// refusals of the lines before it.
///
/// At most 256 items, and 1,024 nodes and a depth of 64 in an expression; parentheses and operators
/// each add one to the depth. Offsets are at most 6 in i and j, and 127 in k, or 0 at a level
/// without a z letter. `Syntax` has the column, from 1, of the first token that can't stand there,
/// in the line's words joined by blanks. The language and its limits are this project's own. It
/// fails with `Memory` too where a line, a column or a level has no number of 32 bits.
#[tactic(auto, using(crate::proofs::TextOf::table_of_text, crate::proofs::TextOf::table_of_no_text))]
pub fn read_table(alloc: Global, text: &[u8], names: &Names) -> Result<List<Item>, TableError>
    ensures { Gives (λ r. r) fault_of result (table_of text.now names.now) }
{
    match from_utf8(text) {
        Ok(text) => Ok(List::from_vec(items_of_text(alloc, text, names)?)),
        Err(_) => {
            let line = 0;
            let kind = TableKind::NotText;
            Err(TableError::Fault(TableFault { line, kind }))
        }
    }
}
