//! Where reading stands in a line, and the readers of single tokens.

ghost use Rattle.std.specs.Prelude.{◌≡◌, ◌<◌, ◌≤◌, ◌-◌, ◌&&◌, IfOk, IsTrue, length, nat_le, Some};
ghost use Rattle.std.specs.Bool.{then_some};
ghost use Rattle.std.specs.Str.{bytes_eq};
ghost use Rattle.wf_model.specs.Letters.{lower, is_digits, digits_value};
ghost use Rattle.wf_model.specs.ExprText.{node};
ghost use Rattle.wf_model.specs.Reading.{Gives};
ghost use Rattle.wf_model.specs.Tokens.{expect, first_token, is_next, name_next, next, number};
ghost use Rattle.wf_model.specs.Tokens.{past, signed};
ghost use Rattle.wf_model.specs.declared.table.TableKind.TheVariants.{Syntax};
ghost use Rattle.wf_table.specs.Faults.{kind_of};
ghost use Rattle.wf_table.specs.Place.{at_of};

use crate::error::LineError;
use wf_model::limits::NODES;
use wf_model::{Name, TableKind};
use wf_text::digits_up_to;

/// A token, whose text is a part of its line's, and the column of its first byte, from 1.
///
/// The end of the line is a token without text.
#[derive(Clone, Copy)]
pub(crate) struct Token<'a> {
    pub text: &'a [u8],
    pub column: u32,
}

/// The tokens that are left, and how many nodes the expression has so far.
#[derive(Clone, Copy)]
pub(crate) struct Place<'a> {
    pub tokens: &'a [Token<'a>],
    pub nodes: u32,
}

/// Whether the text, in lower case, is this word.
pub(crate) fn is_word(text: &[u8], word: &[u8]) -> bool
    ensures { result ≡ bytes_eq (lower text.now) word.now }
{
    if text.len() != word.len() {
        return false;
    }
    for i in 0..text.len() {
        if text[i].to_ascii_lowercase() != word[i] {
            return false;
        }
    }
    true
}

/// Whether this name is the text in lower case.
#[tactic(auto, using(crate::proofs::Words::bytes_eq_symmetric))]
pub(crate) fn is_name_of(name: &[u8], text: &[u8]) -> bool
    ensures { result ≡ bytes_eq name.now (lower text.now) }
{
    is_word(text, name)
}

impl<'a> Place<'a> {
    /// The next token's text.
    pub(crate) fn text(self) -> &'a [u8]
        ensures text { result.now ≡ next (at_of self.entry) }
        ensures some { 0 < length result.now → 0 < length self.entry.tokens.now }
    {
        match self.tokens {
            [] => b"",
            [token, ..] => token.text,
        }
    }

    /// The next token's column.
    pub(crate) fn column(self) -> u32
        ensures { result ≡ (first_token (at_of self.entry).tokens).column }
    {
        match self.tokens {
            [] => 0,
            [token, ..] => token.column,
        }
    }

    /// Whether the next token is this word, in either case.
    pub(crate) fn is_next(self, word: &[u8]) -> bool
        ensures test { result ≡ is_next word.now (at_of self.entry) }
        ensures some { IsTrue result → 0 < length word.now → 0 < length self.entry.tokens.now }
    {
        is_word(self.text(), word)
    }

    /// The place behind the next token.
    pub(crate) fn past(self) -> Place<'a>
        ensures place { at_of result ≡ past (at_of self.entry) }
        ensures length { length result.tokens.now ≡ length self.entry.tokens.now - 1 }
    {
        let nodes = self.nodes;
        match self.tokens {
            [] => self,
            [_, tokens @ ..] => Place { tokens, nodes },
        }
    }

    /// The refusal of the next token, which can't stand there.
    pub(crate) fn refusal(self) -> LineError
        ensures { kind_of result ≡ Some (Syntax (first_token (at_of self.entry).tokens).column) }
    {
        LineError::Kind(TableKind::Syntax {
            column: self.column(),
        })
    }

    /// The place behind this word, which has to be the next token.
    pub(crate) fn expect(self, word: &[u8]) -> Result<Place<'a>, LineError>
        ensures place { Gives at_of kind_of result (expect word.now (at_of self.entry)) }
        ensures length { IfOk result (λ p. length p.tokens.now ≤ length self.entry.tokens.now) }
    {
        if self.is_next(word) {
            Ok(self.past())
        } else {
            Err(self.refusal())
        }
    }

    /// The same place with one node more.
    pub(crate) fn node(self) -> Result<Place<'a>, LineError>
        ensures place { Gives at_of kind_of result (node (at_of self.entry)) }
        ensures length { IfOk result (λ p. length p.tokens.now ≡ length self.entry.tokens.now) }
    {
        if self.nodes < NODES {
            let tokens = self.tokens;
            let nodes = self.nodes + 1;
            Ok(Place { tokens, nodes })
        } else {
            Err(LineError::Kind(TableKind::TooLong))
        }
    }

    /// The name that the next token is, in any case of its letters. It isn't passed.
    pub(crate) fn name(self) -> Result<&'a [u8], LineError>
        ensures name { Gives (λ w. lower w.now) kind_of result (name_next (at_of self.entry)) }
        ensures token { IfOk result (λ w. w.now ≡ next (at_of self.entry)) }
        ensures some { IfOk result (λ w. 0 < length self.entry.tokens.now) }
    {
        let text = self.text();
        if Name::is_name(text) {
            Ok(text)
        } else {
            Err(self.refusal())
        }
    }

    /// A number of decimal digits within a range.
    pub(crate) fn number(self, low: u64, high: u64) -> Result<(u64, Place<'a>), LineError>
        ensures number { Gives (λ x. (x.0, at_of x.1)) kind_of result
            (number low high (at_of self.entry)) }
        ensures within { IfOk result (λ x. x.0 ≤ high) }
        ensures length { IfOk result (λ x. length x.1.tokens.now < length self.entry.tokens.now) }
    {
        match number_up_to(self.text(), high) {
            Some(number) if low <= number => Ok((number, self.past())),
            _ => Err(self.refusal()),
        }
    }

    /// A number up to `most`, with `-` or without.
    pub(crate) fn signed(self, most: u64) -> Result<(i32, Place<'a>), LineError>
        requires { most < 128 }
        ensures number { Gives (λ x. (x.0, at_of x.1)) kind_of result
            (signed most (at_of self.entry)) }
        ensures length { IfOk result (λ x. length x.1.tokens.now < length self.entry.tokens.now) }
    {
        if self.is_next(b"-") {
            let (number, end) = self.past().number(0, most)?;
            Ok((-(number as i32), end))
        } else {
            let (number, end) = self.number(0, most)?;
            Ok((number as i32, end))
        }
    }
}

/// The number of decimal digits, at most `most`.
pub(crate) fn number_up_to(word: &[u8], most: u64) -> Option<u64>
    ensures { result ≡ then_some (is_digits word.now && nat_le (digits_value word.now) most)
        (digits_value word.now) }
{
    match digits_up_to(word, u128::from(most)) {
        Some(number) => u64::try_from(number).ok(),
        None => None,
    }
}
