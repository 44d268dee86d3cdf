//! What the shipped functions answer.

ghost use Rattle.std.specs.Prelude.{◌≡◌};
ghost use Rattle.wf_shipped.specs.Shipping.{limit_of, relax_of};

use crate::shipped::Shipped;
use wf_hooks::Meanings;

/// The answer of the shipped function of this id. It takes no memory.
pub fn shipped_answer(id: u32, arguments: &[i64]) -> i64
    requires { ⟦<Shipped as Meanings>⟧.accepts id arguments.now }
    ensures { result ≡ ⟦<Shipped as Meanings>⟧.answer id arguments.now }
{
    let first = arguments[0];
    let second = arguments[1];
    let third = arguments[2];
    if id == 0 {
        limit(first, second, third)
    } else {
        relax(first, second, third)
    }
}

/// The number, at least the low and then at most the high one.
fn limit(number: i64, low: i64, high: i64) -> i64
    ensures { result ≡ limit_of number low high }
{
    number.max(low).min(high)
}

/// The number moved toward another by a part of what lies between them, rounded down. Where the
/// parts are fewer than one, it stays.
fn relax(number: i64, toward: i64, parts: i64) -> i64
    ensures { result ≡ relax_of number toward parts }
{
    if parts < 1 {
        return number;
    }
    let way = i128::from(toward) - i128::from(number);
    let sum = i128::from(number) + way.div_euclid(i128::from(parts));
    sum as i64
}
