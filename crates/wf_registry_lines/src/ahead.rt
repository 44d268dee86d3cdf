//! The lines of a file that are still to be read.

ghost use Rattle.std.specs.Prelude.{◌≡◌, ◌+◌, ◌<◌, ◌≤◌, ◌^◌, ℕ, IfOk, IsSome, List as Items, drop};
ghost use Rattle.std.specs.Prelude.{length, map, reverse};
ghost use Rattle.std.specs.List.{All};
ghost use Rattle.wf_model.specs.Lines.{lines_read};
ghost use Rattle.wf_registry_lines.specs.Ahead.{kind_spare, marks, seen};
ghost use Rattle.wf_text.specs.Rest.{rest_read};
ghost use Rattle.wf_text.specs.TextError.{fault_of};
ghost use Rattle.wf_registry_lines.specs.FileLines.{IsHeld, held, line_at};

use crate::kind::{Kind, kind_of};
use std::alloc::{AllocError, Global};
use wf_model::{Line, List, TextFault};
use wf_text::{TextError, next_line};

/// A line of a text, and how many bytes and physical lines stand before it. Its words are here only
/// where they say what is read; others are read again from the text.
#[derive(Drop)]
pub struct FileLine {
    pub kind: Kind,
    pub line: Line,
    pub from: u32,
    pub before: u32,
}

/// The lines of a text before its first fault, in order, and that fault.
#[derive(Drop)]
pub struct FileLines {
    pub lines: Vec<FileLine>,
    pub fault: Option<TextFault>,
}

/// A line, and whether an endif that would be its own follows in its file. Where the file's text
/// has a fault further on, this is told of each line.
#[derive(Drop)]
pub struct AheadLine {
    pub line: FileLine,
    pub closed: bool,
}

/// A line, which loses its words where they are read again.
fn file_line(alloc: Global, line: Line, from: u32, before: u32) -> FileLine
    ensures place { (result.from ≡ from) × (result.before ≡ before) }
    ensures held { (text : Items ℕ) → line_at text from before ≡ line → from ≤ length text
        → 0 < length (rest_read before (drop from text)).lines → IsHeld text result }
{
    let kind = kind_of(&line);
    let line = match kind {
        Kind::Ifdef | Kind::Endif | Kind::Include => line,
        Kind::Dimspec | Kind::Other => Line {
            number: line.number,
            words: List::from_vec(Vec::new(alloc)),
        },
    };
    FileLine {
        kind,
        line,
        from,
        before,
    }
}

/// The lines before a fault, and that fault; want of memory is handed on.
fn stopped(lines: Vec<FileLine>, error: &TextError) -> Result<FileLines, AllocError>
    ensures lines { IfOk result (λ r. r.lines.items ≡ lines.items) }
    ensures fault { IfOk result (λ r. r.fault ≡ fault_of error.now) }
    ensures found { IfOk result (λ r. IsSome r.fault) }
{
    match error.fault() {
        Some(fault) => Ok(FileLines {
            lines,
            fault: Some(fault),
        }),
        None => Err(AllocError),
    }
}

/// A place in a text as it is kept, in 32 bits.
fn kept_place(at: usize) -> Result<u32, AllocError>
    ensures { IfOk result (λ n. n ≡ at) }
{
    u32::try_from(at).map_err(|_| AllocError)
}

/// The lines of a text before its first fault, and that fault.
pub fn file_lines(alloc: Global, text: &[u8]) -> Result<FileLines, AllocError>
    ensures lines { IfOk result
        (λ r. map (held text.now) r.lines.items ≡ (lines_read text.now).lines) }
    ensures fault { IfOk result (λ r. r.fault ≡ (lines_read text.now).fault) }
    ensures held { IfOk result (λ r. All (IsHeld text.now) r.lines.items) }
{
    let mut lines = Vec::new(alloc);
    let mut at: usize = 0;
    let mut before: u32 = 0;
    while at < text.len() {
        let (_, rest) = text.split_at(at);
        match next_line(alloc, rest, before) {
            Ok(Some(next)) => {
                let from = kept_place(at)?;
                lines.push(file_line(alloc, next.line, from, before))?;
                at += next.taken;
                before = next.number;
            }
            Ok(None) => return Ok(FileLines { lines, fault: None }),
            Err(error) => return stopped(lines, &error),
        }
    }
    Ok(FileLines { lines, fault: None })
}

/// How many endifs close no ifdef among these lines, where a line of this kind is put in front
/// of them.
fn spare_with(kind: Kind, spare: usize) -> usize
    requires { spare + 1 < 2 ^ 64 }
    ensures { result ≡ kind_spare kind spare }
{
    match kind {
        Kind::Ifdef => spare.saturating_sub(1),
        Kind::Endif => spare + 1,
        Kind::Include | Kind::Dimspec | Kind::Other => spare,
    }
}

/// The lines of a file, the last one first.
pub fn ahead(
    alloc: Global,
    mut lines: Vec<FileLine>,
    faulty: bool,
) -> Result<Vec<AheadLine>, AllocError>
    ensures marked { IfOk result (λ v. (text : Items ℕ) → All (IsHeld text) lines.items
        → map (seen text) (reverse v.items) ≡ marks faulty (map (held text) lines.items)) }
    ensures held { IfOk result (λ v. (text : Items ℕ) → All (IsHeld text) lines.items
        → All (λ a. IsHeld text a.line) v.items) }
{
    let mut ahead = Vec::with_capacity(alloc, lines.len())?;
    let mut spare: usize = 0;
    while let Some(line) = lines.pop() {
        let closed = faulty || spare > 0;
        spare = spare_with(line.kind, spare);
        ahead.push(AheadLine { line, closed })?;
    }
    Ok(ahead)
}
