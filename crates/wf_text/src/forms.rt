//! Forms of words: digits, whole and decimal numbers, logicals, and letters in one case.
//!
//! Numbers and logicals are written as Fortran's namelists and WRF's Registry write them.

ghost use Rattle.std.specs.Prelude.{◌≡◌, ◌≤◌, ◌+◌, ◌*◌, ◌-◌, ◌&&◌, IfOk, length, position, nat_le};
ghost use Rattle.std.specs.Prelude.{pos, neg_ℤ, if◌then◌else◌};
ghost use Rattle.std.specs.Bool.{then_some};
ghost use Rattle.std.specs.List.{position_or_len};
ghost use Rattle.wf_model.specs.Letters.{lower, upper, is_digits, digits_value, is_number_within};
ghost use Rattle.wf_model.specs.Letters.{is_dash};
ghost use Rattle.wf_model.specs.ValueForms.{without_sign, has_minus, fits_bits, whole_value};
ghost use Rattle.wf_model.specs.ValueForms.{is_whole_in, is_point, is_exponent_letter, all_digits};
ghost use Rattle.wf_model.specs.ValueForms.{is_pointed, is_decimal_body, is_decimal, is_true_word};
ghost use Rattle.wf_model.specs.ValueForms.{is_false_word};

use std::alloc::{AllocError, Global};

/// The word with its ASCII letters in lower case.
pub fn lower(alloc: Global, word: &[u8]) -> Result<Vec<u8>, AllocError>
    ensures { IfOk result (λ v. v.items ≡ lower word.now) }
{
    let mut letters = Vec::from_slice(alloc, word)?;
    letters.as_mut_slice().make_ascii_lowercase();
    Ok(letters)
}

/// The word with its ASCII letters in upper case.
pub fn upper(alloc: Global, word: &[u8]) -> Result<Vec<u8>, AllocError>
    ensures { IfOk result (λ v. v.items ≡ upper word.now) }
{
    let mut letters = Vec::from_slice(alloc, word)?;
    letters.as_mut_slice().make_ascii_uppercase();
    Ok(letters)
}

/// Whether the word is `-`, which stands for nothing.
pub fn is_dash(word: &[u8]) -> bool
    ensures { result ≡ is_dash word.now }
{
    word == b"-".as_slice()
}

fn all_digits(word: &[u8]) -> bool
    ensures { result ≡ all_digits word.now }
{
    word.iter().all(|b| b.is_ascii_digit())
}

/// Whether the word is one or more decimal digits.
pub fn is_digits(word: &[u8]) -> bool
    ensures { result ≡ is_digits word.now }
{
    0 < word.len() && all_digits(word)
}

/// One digit more behind a number, where it stays within `most`.
fn with_digit(value: u128, digit: u8, most: u128) -> Option<u128>
    ensures { result
        ≡ then_some (nat_le (value * 10 + (digit - 48)) most) (value * 10 + (digit - 48)) }
{
    let digit = u128::from(digit.saturating_sub(b'0'));
    let value = value.checked_mul(10)?.checked_add(digit)?;
    if value <= most { Some(value) } else { None }
}

/// The number that digits write, leading zeros allowed; none where they write one above `most`.
fn value_up_to(digits: &[u8], most: u128) -> Option<u128>
    ensures { result ≡ then_some (nat_le (digits_value digits.now) most) (digits_value digits.now) }
{
    let mut value: u128 = 0;
    for digit in digits {
        value = with_digit(value, *digit, most)?;
    }
    Some(value)
}

/// The number of a word of decimal digits, leading zeros allowed; none where the word has another
/// form or its number is above `most`.
pub fn digits_up_to(word: &[u8], most: u128) -> Option<u128>
    ensures { result ≡ then_some (is_digits word.now && nat_le (digits_value word.now) most)
        (digits_value word.now) }
{
    if is_digits(word) {
        value_up_to(word, most)
    } else {
        None
    }
}

/// Whether the word is decimal digits of a number from `low` to `high`.
pub fn is_number_within(word: &[u8], low: u32, high: u32) -> bool
    ensures { result ≡ is_number_within low high word.now }
{
    match digits_up_to(word, u128::from(high)) {
        Some(number) => u128::from(low) <= number,
        None => false,
    }
}

/// The word without the sign that it may begin with.
fn without_sign(word: &[u8]) -> &[u8]
    ensures { result.now ≡ without_sign word.now }
{
    match word {
        [b'+' | b'-', rest @ ..] => rest,
        _ => word,
    }
}

fn has_minus(word: &[u8]) -> bool
    ensures { result ≡ has_minus word.now }
{
    match word {
        [first, ..] => *first == b'-',
        [] => false,
    }
}

/// The whole number of this size and sign, where 128 bits hold it.
fn signed(minus: bool, size: u128) -> Option<i128>
    ensures { result ≡ then_some (fits_bits 128 (if minus then neg_ℤ (pos size) else pos size))
        (if minus then neg_ℤ (pos size) else pos size) }
{
    if minus {
        0i128.checked_sub_unsigned(size)
    } else {
        i128::try_from(size).ok()
    }
}

/// The whole number of a word: decimal digits, with or without a sign. None where the word has
/// another form or its number doesn't fit 128 bits.
pub fn whole(word: &[u8]) -> Option<i128>
    ensures { result ≡ then_some (is_whole_in 128 word.now) (whole_value word.now) }
{
    let size = digits_up_to(without_sign(word), 1 << 127)?;
    signed(has_minus(word), size)
}

/// The whole number of a word, where 32 bits hold it.
pub fn whole_in_32(word: &[u8]) -> Option<i32>
    ensures { result ≡ then_some (is_whole_in 32 word.now) (whole_value word.now) }
{
    i32::try_from(whole(word)?).ok()
}

/// Whether the word is a whole number that 32 bits hold.
pub fn is_whole_in_32(word: &[u8]) -> bool
    ensures { result ≡ is_whole_in 32 word.now }
{
    whole_in_32(word).is_some()
}

fn is_exponent_letter(b: u8) -> bool
    ensures { result ≡ is_exponent_letter b }
{
    matches!(b, b'e' | b'd' | b'E' | b'D')
}

fn find_exponent(word: &[u8]) -> Option<usize>
    ensures { result ≡ position is_exponent_letter word.now }
{
    word.iter().position(|b| is_exponent_letter(*b))
}

/// The place of the first exponent letter, or the word's length where there is none.
#[tactic(auto, using(wf_model::proofs::FirstPlaces::found, wf_model::proofs::FirstPlaces::not_found))]
fn exponent_at(word: &[u8]) -> usize
    ensures place { result ≡ position_or_len is_exponent_letter word.now }
    ensures bound { result ≤ length word.now }
{
    match find_exponent(word) {
        Some(place) => place,
        None => word.len(),
    }
}

fn find_point(word: &[u8]) -> Option<usize>
    ensures { result ≡ position is_point word.now }
{
    word.iter().position(|b| *b == b'.')
}

/// The place of the first point, or the word's length where there is none.
#[tactic(auto, using(wf_model::proofs::FirstPlaces::found, wf_model::proofs::FirstPlaces::not_found))]
fn point_at(word: &[u8]) -> usize
    ensures place { result ≡ position_or_len is_point word.now }
    ensures bound { result ≤ length word.now }
{
    match find_point(word) {
        Some(place) => place,
        None => word.len(),
    }
}

/// Whether the word is digits with one point before, among or after them.
fn is_pointed(word: &[u8]) -> bool
    ensures { result ≡ is_pointed word.now }
{
    let point = point_at(word);
    if point == word.len() {
        return false;
    }
    let (_, after) = word.split_at(point + 1);
    all_digits(&word[..point]) && all_digits(after) && 1 < word.len()
}

/// Whether the word, which has no sign, is a decimal number.
fn is_decimal_body(word: &[u8]) -> bool
    ensures { result ≡ is_decimal_body word.now }
{
    let letter = exponent_at(word);
    if letter == word.len() {
        return is_pointed(word);
    }
    let (_, exponent) = word.split_at(letter + 1);
    let front = &word[..letter];
    (is_pointed(front) || is_digits(front)) && is_digits(without_sign(exponent))
}

/// Whether the word is a decimal number: perhaps a sign, then digits with one point before, among
/// or after them and perhaps an exponent, or digits and an exponent. An exponent is `e` or `d` in
/// either case, perhaps a sign, and digits.
pub fn is_decimal(word: &[u8]) -> bool
    ensures { result ≡ is_decimal word.now }
{
    is_decimal_body(without_sign(word))
}

/// Whether the word is a logical that is true: `.true.`, `.t.`, `true` or `t`, in either case.
pub fn is_true_word(word: &[u8]) -> bool
    ensures { result ≡ is_true_word word.now }
{
    word.eq_ignore_ascii_case(b".true.".as_slice())
        || word.eq_ignore_ascii_case(b".t.".as_slice())
        || word.eq_ignore_ascii_case(b"true".as_slice())
        || word.eq_ignore_ascii_case(b"t".as_slice())
}

/// Whether the word is a logical that is false: `.false.`, `.f.`, `false` or `f`, in either case.
pub fn is_false_word(word: &[u8]) -> bool
    ensures { result ≡ is_false_word word.now }
{
    word.eq_ignore_ascii_case(b".false.".as_slice())
        || word.eq_ignore_ascii_case(b".f.".as_slice())
        || word.eq_ignore_ascii_case(b"false".as_slice())
        || word.eq_ignore_ascii_case(b"f".as_slice())
}
