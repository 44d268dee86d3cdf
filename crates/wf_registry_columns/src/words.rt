//! Parts of words.

ghost use Rattle.std.specs.Prelude.{◌≡◌, ◌==◌, ◌<◌, IfSome, length, position};
ghost use Rattle.std.specs.Bool.{then_some};
ghost use Rattle.std.specs.Option.{option_copied};
ghost use Rattle.wf_model.specs.Letters.{begins, behind};
ghost use Rattle.wf_model.specs.ValueForms.{has};

/// The place of the first such byte, from 0.
pub(crate) fn place_of(bytes: &[u8], wanted: u8) -> Option<usize>
    ensures place { result ≡ position (λ b. b == wanted) bytes.now }
    ensures bound { IfSome result (λ at. at < length bytes.now) }
{
    bytes.iter().position(|b| *b == wanted)
}

pub(crate) fn has_byte(bytes: &[u8], wanted: u8) -> bool
    ensures { result ≡ has (λ b. b == wanted) bytes.now }
{
    place_of(bytes, wanted).is_some()
}

/// What stands behind a front that the word begins with.
pub fn behind<'a>(word: &'a [u8], front: &[u8]) -> Option<&'a [u8]>
    ensures { option_copied result
        ≡ then_some (begins word.now front.now) (behind word.now front.now) }
{
    if !word.starts_with(front) {
        return None;
    }
    let (_, rest) = word.split_at(front.len());
    Some(rest)
}
