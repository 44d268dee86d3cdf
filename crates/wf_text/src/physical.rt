//! Physical lines: they end at a line feed, or where the text ends.

ghost use Rattle.std.specs.Prelude.{◌≡◌, ◌≢◌, ◌+◌, ◌-◌, ◌<◌, ◌≤◌, ◌∷◌, ℕ, drop, length};
ghost use Rattle.std.specs.Prelude.{MatchOption, slice_index};
ghost use Rattle.wf_model.specs.Lines.{physical};
ghost use Rattle.wf_text.specs.Physical.{trimmed};

/// The place of the first line feed, from 0.
fn line_feed_at(text: &[u8]) -> Option<usize>
    ensures { MatchOption result ((j : ℕ) → j < length text.now → slice_index text.now j ≢ 10)
        (λ k. (k < length text.now) × (slice_index text.now k ≡ 10)
        × ((j : ℕ) → j < k → slice_index text.now j ≢ 10)) }
{
    text.iter().position(|b| *b == b'\n')
}

/// The bytes before a line feed, without the carriage return at their end.
fn without_return(line: &[u8]) -> &[u8]
    ensures line { result.now ≡ trimmed line.now }
    ensures bound { length result.now ≤ length line.now }
{
    if line.is_empty() {
        return line;
    }
    let last = line.len() - 1;
    if line[last] != b'\r' {
        return line;
    }
    let (front, _) = line.split_at(last);
    front
}

/// The first physical line of a text that isn't empty, and what follows it.
pub fn first_line(text: &[u8]) -> (&[u8], &[u8])
    requires { 0 < length text.now }
    ensures line { physical text.now ≡ result.0.now ∷ physical result.1.now }
    ensures after { result.1.now ≡ drop (length text.now - length result.1.now) text.now }
    ensures shorter { length result.1.now < length text.now }
    ensures within { length result.0.now + length result.1.now < length text.now + 1 }
{
    match line_feed_at(text) {
        None => text.split_at(text.len()),
        Some(place) => {
            let (line, rest) = text.split_at(place);
            let (_, after) = rest.split_at(1);
            (without_return(line), after)
        }
    }
}
