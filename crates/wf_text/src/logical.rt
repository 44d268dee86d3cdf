//! Logical lines: physical lines joined where one goes on.

ghost use Rattle.std.specs.Prelude.{◌≡◌, ◌+◌, ◌++◌, ◌∷◌, ◌<◌, ◌≤◌, [], IfErr, IfNone, IfOk, IfSome};
ghost use Rattle.std.specs.Prelude.{IsSome, None, OnOk, Some, drop, filter, length};
ghost use Rattle.wf_model.specs.Lines.{goes_on, has_words, last_is, last_of, line, lines_of};
ghost use Rattle.wf_model.specs.Lines.{lines_read, shortened, without_backslash};
ghost use Rattle.wf_model.specs.Reading.{Gives};
ghost use Rattle.wf_text.specs.Pending.{first_of, unfinished, words_so_far};
ghost use Rattle.wf_text.specs.Rest.{StopsAt, led, no_lines, rest_read};
ghost use Rattle.wf_text.specs.TextError.{fault_of};

use crate::error::TextError;
use crate::physical::first_line;
use crate::words::words_of;
use std::alloc::{AllocError, Global};
use wf_model::{Bytes, Line, List, TextFault, Word};

/// The whole logical lines of a text that stand before its first fault, and that fault.
#[derive(Drop)]
pub struct LinesRead {
    pub lines: Vec<Line>,
    pub fault: Option<TextFault>,
}

/// A logical line whose last physical line so far goes on, with the number of its first one.
#[derive(Drop)]
struct Pending {
    number: u32,
    words: Vec<Word>,
}

fn ends_with(bytes: &[u8], b: u8) -> bool
    ensures { result ≡ last_is b bytes.now }
{
    if bytes.is_empty() {
        return false;
    }
    bytes[bytes.len() - 1] == b
}

/// Whether a physical line with these words goes on: its last word isn't quoted and ends in `\`.
fn goes_on(words: &[Word]) -> bool
    ensures { result ≡ goes_on (last_of words.now) }
{
    match words.last() {
        Some(word) => !word.quoted && ends_with(word.text.as_slice(), b'\\'),
        None => false,
    }
}

/// The words and one more, which loses its last byte; where that was all of it, it is no word.
fn with_shortened(alloc: Global, mut front: Vec<Word>, word: &Word) -> Result<Vec<Word>, AllocError>
    ensures { IfOk result (λ v. v.items ≡ front.items ++ shortened (Some word.now)) }
{
    let text = word.text.as_slice();
    if text.len() <= 1 {
        return Ok(front);
    }
    let column = word.column;
    let quoted = false;
    let text = Bytes::from_vec(Vec::from_slice(alloc, &text[..text.len() - 1])?);
    front.push(Word {
        text,
        quoted,
        column,
    })?;
    Ok(front)
}

/// The words without the `\` at their end.
fn without_backslash(alloc: Global, mut words: Vec<Word>) -> Result<Vec<Word>, AllocError>
    ensures { IfOk result (λ v. v.items ≡ without_backslash words.items) }
{
    match words.pop() {
        Some(word) => with_shortened(alloc, words, &word),
        None => Ok(words),
    }
}

/// The logical line with the words of one more physical line, which has this number.
fn extended(
    pending: Option<Pending>,
    number: u32,
    mut words: Vec<Word>,
) -> Result<Pending, AllocError>
    ensures number { IfOk result (λ p. p.number ≡ first_of pending number) }
    ensures words { IfOk result (λ p. p.words.items ≡ words_so_far pending words.items) }
{
    match pending {
        None => Ok(Pending { number, words }),
        Some(mut pending) => {
            pending.words.append(&mut words)?;
            Ok(pending)
        }
    }
}

/// The number of the next physical line, in 32 bits.
fn next_number(number: u32) -> Result<u32, AllocError>
    ensures { IfOk result (λ n. n ≡ number + 1) }
{
    number.checked_add(1).ok_or(AllocError)
}

/// Adds the line, where it has words, with no more room than these take.
fn push_line(done: &mut Vec<Line>, whole: Pending) -> Result<(), AllocError>
    ensures { OnOk result (done.new.items
        ≡ done.old.items ++ filter has_words (line whole.number whole.words.items ∷ [])) }
{
    if !whole.words.is_empty() {
        let number = whole.number;
        let mut words = whole.words;
        words.shrink_to_fit();
        let words = List::from_vec(words);
        done.push(Line { number, words })?;
    }
    Ok(())
}

/// The lines before a fault, and that fault; want of memory is handed on.
fn stopped(lines: Vec<Line>, error: &TextError) -> Result<LinesRead, AllocError>
    ensures lines { IfOk result (λ r. r.lines.items ≡ lines.items) }
    ensures fault { IfOk result (λ r. r.fault ≡ fault_of error.now) }
    ensures found { IfOk result (λ r. IsSome r.fault) }
{
    match error.fault() {
        Some(fault) => Ok(LinesRead {
            lines,
            fault: Some(fault),
        }),
        None => Err(AllocError),
    }
}

/// The lines of a text that ends at the physical line with this number: a line that goes on there
/// is a fault.
fn finished(lines: Vec<Line>, pending: Option<Pending>, number: u32) -> LinesRead
    ensures lines { result.lines.items ≡ lines.items }
    ensures fault { result.fault ≡ unfinished pending number }
{
    match pending {
        None => LinesRead { lines, fault: None },
        Some(_) => LinesRead {
            lines,
            fault: Some(TextFault::DanglingBackslash { line: number }),
        },
    }
}

/// The whole logical lines of a text that stand before its first fault, in order, and that fault.
///
/// A logical line that holds the faulty physical line is not among them. It fails only where
/// memory runs out, or where a line or a column has no number of 32 bits.
pub fn read_until_fault(alloc: Global, text: &str) -> Result<LinesRead, AllocError>
    ensures lines { IfOk result (λ r. r.lines.items ≡ (lines_read text.now).lines) }
    ensures fault { IfOk result (λ r. r.fault ≡ (lines_read text.now).fault) }
{
    let mut done = Vec::new(alloc);
    let mut pending = None;
    let mut number: u32 = 0;
    let mut rest = text.as_bytes();
    while !rest.is_empty() {
        let (line, after) = first_line(rest);
        number = next_number(number)?;
        let words = match words_of(alloc, number, line) {
            Ok(words) => words,
            Err(error) => return stopped(done, &error),
        };
        if goes_on(&words) {
            let words = without_backslash(alloc, words)?;
            pending = Some(extended(pending, number, words)?);
        } else {
            let whole = extended(pending, number, words)?;
            pending = None;
            push_line(&mut done, whole)?;
        }
        rest = after;
    }
    Ok(finished(done, pending, number))
}

/// A logical line, the number of the physical line that it ends at, and how many bytes it takes
/// with the lines without words before it.
#[derive(Drop)]
pub struct NextLine {
    pub line: Line,
    pub number: u32,
    pub taken: usize,
}

/// That a text has no further line: a line that goes on where it ends, at the physical line with
/// this number, is a fault.
fn no_more(pending: Option<Pending>, number: u32) -> Result<Option<NextLine>, TextError>
    ensures end { IfOk result (λ next. (next ≡ None) × (unfinished pending number ≡ None)) }
    ensures fault { IfErr result (λ e. fault_of e ≡ unfinished pending number) }
{
    match pending {
        None => Ok(None),
        Some(_) => Err(TextError::DanglingBackslash { line: number }),
    }
}

/// The first logical line of what follows so many physical lines of a text; none where no
/// line follows.
///
/// The lines of a text can be read by this one after the other, with no more memory than one of
/// them takes. It fails at the first fault of the text if no whole line stands before it.
pub fn next_line(alloc: Global, text: &[u8], before: u32) -> Result<Option<NextLine>, TextError>
    ensures line { IfOk result (λ next. IfSome next (λ n.
        rest_read before text.now ≡ led n.line (rest_read n.number (drop n.taken text.now)))) }
    ensures bound { IfOk result
        (λ next. IfSome next (λ n. (0 < n.taken) × (n.taken ≤ length text.now))) }
    ensures end { IfOk result (λ next. IfNone next (rest_read before text.now ≡ no_lines None)) }
    ensures fault { IfErr result (λ e. StopsAt (rest_read before text.now) (fault_of e)) }
{
    let mut pending = None;
    let mut number = before;
    let mut rest = text;
    while !rest.is_empty() {
        let (line, after) = first_line(rest);
        number = next_number(number)?;
        let words = words_of(alloc, number, line)?;
        rest = after;
        if goes_on(&words) {
            let words = without_backslash(alloc, words)?;
            pending = Some(extended(pending, number, words)?);
        } else {
            let joined = extended(pending, number, words)?;
            if !joined.words.is_empty() {
                let words = List::from_vec(joined.words);
                let line = Line {
                    number: joined.number,
                    words,
                };
                let taken = text.len() - rest.len();
                return Ok(Some(NextLine {
                    line,
                    number,
                    taken,
                }));
            }
            pending = None;
        }
    }
    no_more(pending, number)
}

/// The logical lines of a text, in order, or its first fault.
///
/// Words are parted by spaces and tabs. A `"` where a word would begin starts a quoted word, which
/// ends at the next `"` of the line and may be empty. `#` outside a quoted word begins a comment to
/// the end of the line. A `\` at the end of a line, but for blanks and the comment, is dropped and
/// joins the next line as a blank would. A carriage return just before a line feed is dropped, and
/// so is a line without words. Quoted words, comments and continued lines are those of WRF's
/// Registry; columns, faults and the rules for edges are this project's own.
pub fn read_lines(alloc: Global, text: &str) -> Result<Vec<Line>, TextError>
    ensures { Gives (λ v. v.items) fault_of result (lines_of text.now) }
{
    let read = read_until_fault(alloc, text)?;
    match read.fault {
        None => Ok(read.lines),
        Some(fault) => Err(TextError::from(fault)),
    }
}
