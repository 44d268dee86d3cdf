//! The condition of a package line: `symbol==value`.

ghost use Rattle.std.specs.Prelude.{◌≡◌};
ghost use Rattle.wf_model.specs.Entries.{package_symbol, package_value};
ghost use Rattle.wf_model.specs.Judging.{is_package_condition};

use crate::words::place_of;
use wf_model::Name;

/// What stands before the first `=`.
pub fn package_symbol(word: &[u8]) -> &[u8]
    ensures { result.now ≡ package_symbol word.now }
{
    match place_of(word, b'=') {
        Some(at) => &word[..at],
        None => word,
    }
}

/// What stands behind the symbol and the two bytes after it.
pub fn package_value(word: &[u8]) -> &[u8]
    ensures { result.now ≡ package_value word.now }
{
    let at = package_symbol(word).len() + 2;
    if word.len() < at {
        return &[];
    }
    let (_, value) = word.split_at(at);
    value
}

/// Whether the word is a name and `==`, whatever follows.
pub fn is_package_condition(word: &[u8]) -> bool
    ensures { result ≡ is_package_condition word.now }
{
    let symbol = package_symbol(word);
    let (_, rest) = word.split_at(symbol.len());
    Name::is_name(symbol) && rest.starts_with(b"==".as_slice())
}
