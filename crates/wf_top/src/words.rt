//! The words of a command, read by hand.

ghost use Rattle.std.specs.Prelude.{◌≡◌, ℕ, ◌<◌, ◌≤◌, length, map, string_bytes, IfSome};
ghost use Rattle.std.specs.List.{list_all};
ghost use Rattle.std.specs.Char.{is_ascii_digit};
ghost use Rattle.wf_model.specs.Letters.{is_digits, digits_value};
ghost use Rattle.wf_model.specs.Demo.{is_word_number, word_number, word_at, demo_numbers, demo_of};
ghost use Rattle.wf_top.specs.Limits.{InLimits};
ghost use Rattle.wf_top.specs.Tool.{is_command};

use wf_model::Demo;

fn all_digits(word: &[u8]) -> bool
    ensures { result ≡ list_all is_ascii_digit word.now }
{
    word.iter().all(|b| b.is_ascii_digit())
}

fn is_digits(word: &[u8]) -> bool
    ensures { result ≡ is_digits word.now }
{
    0 < word.len() && all_digits(word)
}

// 1 to 4 digits, and no zero before another digit.
fn is_word_number(word: &[u8]) -> bool
    ensures { result ≡ is_word_number word.now }
{
    is_digits(word) && word.len() <= 4 && (word[0] != b'0' || word.len() == 1)
}

// The number that some digits say.
fn digits_value(word: &[u8]) -> u32
    requires { length word.now ≤ 4 }
    ensures { result ≡ digits_value word.now }
{
    let mut n = 0;
    for b in word {
        n = n * 10 + u32::from(b.saturating_sub(b'0'));
    }
    n
}

// A number from `low` to `high`.
fn word_number(low: u32, high: u32, word: &[u8]) -> Option<u32>
    ensures number { result ≡ word_number low high word.now }
    ensures within { IfSome result (λ n. (low ≤ n) × (n ≤ high)) }
{
    if !is_word_number(word) {
        return None;
    }
    let n = digits_value(word);
    if low <= n && n <= high { Some(n) } else { None }
}

fn word_at(words: &[String], place: usize) -> &[u8]
    ensures { result.now ≡ word_at (map string_bytes words.now) place }
{
    match words.get(place) {
        Some(word) => word.as_bytes(),
        None => b"",
    }
}

fn demo_numbers(x: &[u8], y: &[u8], n: &[u8], p: &[u8], each: bool) -> Option<Demo>
    ensures demo { result ≡ demo_numbers x.now y.now n.now p.now each }
    ensures limits { IfSome result InLimits }
{
    let nx = word_number(1, 200, x)?;
    let ny = word_number(1, 200, y)?;
    let steps = word_number(0, 100, n)?;
    let px = word_number(1, 256, p)?;
    Some(Demo {
        nx,
        ny,
        steps,
        px,
        each,
    })
}

/// The demo that the words ask for, `demo NX NY STEPS PX [--memory]`, or none where they are no
/// such words.
#[tactic(auto, unfolding(wf_model::specs::Demo::demo_of))]
pub fn read_words(words: &[String]) -> Option<Demo>
    ensures demo { result ≡ demo_of (map string_bytes words.now) }
    ensures limits { IfSome result InLimits }
{
    let shown = words.len() == 6 && word_at(words, 5) == b"--memory".as_slice();
    if word_at(words, 0) == b"demo".as_slice() && (words.len() == 5 || shown) {
        demo_numbers(
            word_at(words, 1),
            word_at(words, 2),
            word_at(words, 3),
            word_at(words, 4),
            shown,
        )
    } else {
        None
    }
}

/// Whether the words ask for the command of this name, by the first one.
pub fn is_command(name: &str, words: &[String]) -> bool
    ensures { result ≡ is_command name.now (map string_bytes words.now) }
{
    word_at(words, 0) == name.as_bytes()
}
