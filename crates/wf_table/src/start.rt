//! What a factor begins with.

ghost use Rattle.std.specs.Prelude.{◌≡◌, ◌≢◌, IsTrue, length};
ghost use Rattle.wf_model.specs.Letters.{is_digits};
ghost use Rattle.wf_model.specs.Tokens.{keyword, next};
ghost use Rattle.wf_table.specs.Place.{at_of};
ghost use Rattle.wf_table.specs.Start.{start_of, word_start, HasToken};

use crate::place::Place;
use wf_text::is_digits;

/// What a factor is, as its first token tells.
#[derive(Clone, Copy)]
pub(crate) enum Start {
    Parenthesis,
    Minus,
    Digits,
    I,
    J,
    K,
    Step,
    Min,
    Max,
    If,
    Call,
    /// A read of a level, or what can't stand there.
    Field,
}

/// What begins with a word.
#[tactic(auto, unfolding(crate::specs::Start::word_start))]
fn word_start(at: Place) -> Start
    ensures start { result ≡ word_start (keyword (at_of at.entry)) }
    ensures digits { result ≢ Start.Digits }
    ensures token { HasToken result (length at.entry.tokens.now) }
{
    if at.is_next(b"i") {
        Start::I
    } else if at.is_next(b"j") {
        Start::J
    } else if at.is_next(b"k") {
        Start::K
    } else if at.is_next(b"step") {
        Start::Step
    } else if at.is_next(b"min") {
        Start::Min
    } else if at.is_next(b"max") {
        Start::Max
    } else if at.is_next(b"if") {
        Start::If
    } else if at.is_next(b"call") {
        Start::Call
    } else {
        Start::Field
    }
}

/// What begins at a place.
#[tactic(auto, using(crate::proofs::Letters::is_digits_lower), unfolding(crate::specs::Start::start_of))]
pub(crate) fn factor_start(at: Place) -> Start
    ensures start { result ≡ start_of (keyword (at_of at.entry)) }
    ensures digits { result ≡ Start.Digits → IsTrue (is_digits (next (at_of at.entry))) }
    ensures token { HasToken result (length at.entry.tokens.now) }
{
    if at.is_next(b"(") {
        Start::Parenthesis
    } else if at.is_next(b"-") {
        Start::Minus
    } else if is_digits(at.text()) {
        Start::Digits
    } else {
        word_start(at)
    }
}
