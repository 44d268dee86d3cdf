//! Which lines say what is read.

ghost use Rattle.std.specs.Prelude.{◌≡◌, MatchOption, None, Some};
ghost use Rattle.std.specs.Str.{bytes_eq};
ghost use Rattle.wf_model.specs.KeptLines.{columns, first_column, kind_word, texts};
ghost use Rattle.wf_model.specs.Letters.{lower};
ghost use Rattle.wf_registry_lines.specs.Kinds.{is_dimspec, kind_of};

use wf_model::Line;

/// What the first word of a line says, ignoring case.
#[derive(Clone, Copy)]
pub enum Kind {
    Ifdef,
    Endif,
    Include,
    /// A line that is judged with its like before all others.
    Dimspec,
    Other,
}

/// Whether a line of this kind is a dimspec.
pub fn is_dimspec(kind: Kind) -> bool
    ensures { result ≡ is_dimspec kind }
{
    matches!(kind, Kind::Dimspec)
}

/// Whether the words are equal but for the case of their letters.
pub fn equal_ignoring_case(a: &[u8], b: &[u8]) -> bool
    ensures { result ≡ bytes_eq (lower a.now) (lower b.now) }
{
    a.eq_ignore_ascii_case(b)
}

fn kind_of_word(word: &[u8]) -> Kind
    ensures { result ≡ kind_of (lower word.now) }
{
    if equal_ignoring_case(word, b"ifdef") {
        Kind::Ifdef
    } else if equal_ignoring_case(word, b"endif") {
        Kind::Endif
    } else if equal_ignoring_case(word, b"include") {
        Kind::Include
    } else if equal_ignoring_case(word, b"dimspec") {
        Kind::Dimspec
    } else {
        Kind::Other
    }
}

pub fn kind_of(line: &Line) -> Kind
    ensures { result ≡ kind_of (kind_word (texts line.now)) }
{
    match line.words.as_slice().first() {
        None => Kind::Other,
        Some(word) => kind_of_word(word.text.as_slice()),
    }
}

/// The second word of a line.
pub fn first_column(line: &Line) -> Option<&[u8]>
    ensures { MatchOption result (first_column (columns (texts line.now)) ≡ None)
        (λ s. first_column (columns (texts line.now)) ≡ Some s.now) }
{
    match line.words.as_slice().get(1) {
        None => None,
        Some(word) => Some(word.text.as_slice()),
    }
}
