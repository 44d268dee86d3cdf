//! The IO column of a state line.

ghost use Rattle.std.specs.Prelude.{◌≡◌, ◌+◌, ◌<◌, ◌≤◌, IfErr, IfOk, IfSome, Some, length};
ghost use Rattle.std.specs.Prelude.{position, take_while};
ghost use Rattle.std.specs.List.{before_first};
ghost use Rattle.std.specs.Char.{is_ascii_digit};
ghost use Rattle.wf_model.specs.Io.{io_from, io_of, is_closing, is_colon};
ghost use Rattle.wf_model.specs.Judging.{fault_of_result};
ghost use Rattle.wf_registry_columns.specs.IoLengths.{function_len, letter_len, part_len};

use wf_model::{Name, RegistryKind};
use wf_text::is_dash;

/// How many of these bytes stand before the first `)`.
fn closing_at(bytes: &[u8]) -> Option<usize>
    ensures place { result ≡ position is_closing bytes.now }
    ensures bound { IfSome result (λ k. k < length bytes.now) }
{
    bytes.iter().position(|b| *b == b')')
}

/// How many of these bytes stand before the first `:`.
fn colon_at(bytes: &[u8]) -> Option<usize>
    ensures place { result ≡ position is_colon bytes.now }
    ensures bound { IfSome result (λ k. k < length bytes.now) }
{
    bytes.iter().position(|b| *b == b':')
}

/// How many digits stand at the front.
fn digit_count(bytes: &[u8]) -> usize
    ensures count { result ≡ length (take_while is_ascii_digit bytes.now) }
    ensures bound { result ≤ length bytes.now }
{
    bytes.iter().take_while(|b| b.is_ascii_digit()).count()
}

/// The name of a function: what stands before the first `:`, or all.
fn function_name(bytes: &[u8]) -> &[u8]
    ensures { result.now ≡ before_first is_colon bytes.now }
{
    match colon_at(bytes) {
        Some(count) => &bytes[..count],
        None => bytes,
    }
}

/// How many bytes `=(name)` or `=(name:anything)` has, of which these follow the `=`.
fn function_len(bytes: &[u8]) -> Result<usize, RegistryKind>
    ensures len { result ≡ function_len bytes.now }
    ensures bound { IfOk result (λ n. n ≤ length bytes.now + 1) }
{
    let [b'(', rest @ ..] = bytes else {
        return Err(RegistryKind::Columns);
    };
    let Some(count) = closing_at(rest) else {
        return Err(RegistryKind::Columns);
    };
    if !Name::is_name(function_name(&rest[..count])) {
        return Err(RegistryKind::Columns);
    }
    Ok(count + 3)
}

/// How many bytes belong to `u`, `d` or `f`, of which these follow the letter.
fn letter_len(bytes: &[u8]) -> Result<usize, RegistryKind>
    ensures len { result ≡ letter_len bytes.now }
    ensures bound { IfOk result (λ n. n ≤ length bytes.now) }
{
    match bytes {
        [b'=', rest @ ..] => function_len(rest),
        _ => Ok(0),
    }
}

/// How many bytes belong to the part that begins with `first`, of those that follow it.
fn part_len(first: u8, after: &[u8]) -> Result<usize, RegistryKind>
    ensures len { result ≡ part_len first after.now }
    ensures bound { IfOk result (λ n. n ≤ length after.now) }
{
    match first {
        b'i' | b'h' => Ok(digit_count(after)),
        b'r' | b's' => Ok(0),
        b'u' | b'd' | b'f' => letter_len(after),
        b'{' => Err(RegistryKind::Unsupported),
        _ => Err(RegistryKind::Columns),
    }
}

/// What stands behind the part at the front.
fn behind_part(bytes: &[u8]) -> Result<&[u8], RegistryKind>
    ensures read { IfOk result
        (λ rest. fault_of_result (io_from 0 rest.now) ≡ fault_of_result (io_from 0 bytes.now)) }
    ensures fault { IfErr result (λ kind. fault_of_result (io_from 0 bytes.now) ≡ Some kind) }
    ensures bound { IfOk result (λ rest. 0 < length bytes.now
        → length rest.now < length bytes.now) }
{
    match bytes {
        [] => Ok(bytes),
        [first, after @ ..] => match part_len(*first, after) {
            Ok(len) => {
                let (_, rest) = after.split_at(len);
                Ok(rest)
            }
            Err(kind) => Err(kind),
        },
    }
}

/// What is wrong in the IO column.
///
/// It is `-`, or a run of `i` and `h` with digits of streams, `r`, `s`, and `u`, `d` and `f` with
/// or without `=(name)` or `=(name:anything)`. Streams in braces are `Unsupported`, anything else
/// is `Columns`.
pub fn io_fault(word: &[u8]) -> Option<RegistryKind>
    ensures { result ≡ fault_of_result (io_of word.now) }
{
    if is_dash(word) {
        return None;
    }
    let mut rest = word;
    while !rest.is_empty() {
        match behind_part(rest) {
            Ok(next) => rest = next,
            Err(kind) => return Some(kind),
        }
    }
    None
}
