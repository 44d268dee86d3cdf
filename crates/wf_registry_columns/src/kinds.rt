//! The kinds of lines.

ghost use Rattle.std.specs.Prelude.{◌≡◌};
ghost use Rattle.std.specs.Str.{bytes_eq};
ghost use Rattle.wf_model.specs.Letters.{lower};
ghost use Rattle.wf_model.specs.Entries.{named, kind_names, no_kind, least_columns};
ghost use Rattle.wf_model.specs.KeptLines.{kind_word};
ghost use Rattle.wf_registry_columns.specs.Words.{word_texts};
ghost use Rattle.wf_registry_columns.specs.Kinds.{kind_seen, left_out_names};

use wf_model::Word;

/// The kind of a line, by its first word, whose case does not count.
#[derive(Clone, Copy, Debug, PartialEq, Eq)]
pub enum LineKind {
    Dimspec,
    State,
    Rconfig,
    Package,
    Halo,
    Period,
    /// A kind that WRF has and that is not supported.
    LeftOut,
    /// Any other word.
    Unknown,
}

/// Whether a word is this name, where its case does not count. The name is in lower case.
fn is_named(name: &[u8], word: &[u8]) -> bool
    ensures { result ≡ bytes_eq (lower name.now) (lower word.now) }
{
    name.eq_ignore_ascii_case(word)
}

/// A kind that WRF has and that is not supported, or none.
fn other_kind(word: &[u8]) -> LineKind
    ensures { kind_seen result ≡ named left_out_names (lower word.now) no_kind }
{
    let is_left_out = is_named(b"typedef", word)
        || is_named(b"i1", word)
        || is_named(b"xpose", word)
        || is_named(b"define", word)
        || is_named(b"ifndef", word);
    if is_left_out {
        LineKind::LeftOut
    } else {
        LineKind::Unknown
    }
}

fn kind_named(word: &[u8]) -> LineKind
    ensures { kind_seen result ≡ named kind_names (lower word.now) no_kind }
{
    if is_named(b"dimspec", word) {
        LineKind::Dimspec
    } else if is_named(b"state", word) {
        LineKind::State
    } else if is_named(b"rconfig", word) {
        LineKind::Rconfig
    } else if is_named(b"package", word) {
        LineKind::Package
    } else if is_named(b"halo", word) {
        LineKind::Halo
    } else if is_named(b"period", word) {
        LineKind::Period
    } else {
        other_kind(word)
    }
}

/// The kind of a line of these words.
pub fn kind_of(words: &[Word]) -> LineKind
    ensures { kind_seen result ≡ named kind_names (kind_word (word_texts words.now)) no_kind }
{
    match words {
        [] => LineKind::Unknown,
        [first, ..] => kind_named(first.text.as_slice()),
    }
}

/// How many columns a line of this kind must have.
pub fn least_columns(kind: LineKind) -> usize
    ensures { result ≡ least_columns (kind_seen kind) }
{
    match kind {
        LineKind::Dimspec => 5,
        LineKind::State => 7,
        LineKind::Rconfig | LineKind::Package => 4,
        LineKind::Halo | LineKind::Period => 3,
        LineKind::LeftOut | LineKind::Unknown => 0,
    }
}
