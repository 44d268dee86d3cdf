//! How many numbers the levels of a memory have, and their sum.

ghost use Rattle.std.specs.Prelude.{◌≡◌, ◌*◌, ◌^◌, ◌≤◌, flat_map, fold, length, pos, ◌+ℤ◌};
ghost use Rattle.wf_field.specs.Kept.{AreModest};
ghost use Rattle.wf_field.specs.Sums.{IsWithinSum};

use wf_model::List;

/// How many numbers all lists have.
pub(crate) fn count_cells(levels: &[List<i32>]) -> u64
    requires { AreModest levels.now }
    ensures { result ≡ length (flat_map (λ xs. xs) levels.now) }
{
    let mut total: u64 = 0;
    for level in levels {
        total += level.as_slice().len() as u64;
    }
    total
}

/// The sum of some numbers.
fn sum_of(list: &[i32]) -> i128
    requires { length list.now ≤ 2 ^ 37 }
    ensures value { result ≡ fold ◌+ℤ◌ (pos 0) list.now }
    ensures small { IsWithinSum (2 ^ 31 * length list.now) result }
{
    let mut total: i128 = 0;
    for value in list {
        total += i128::from(*value);
    }
    total
}

/// The sum of the numbers of all lists.
pub(crate) fn sum_levels(levels: &[List<i32>]) -> i128
    requires { AreModest levels.now }
    ensures { result ≡ fold ◌+ℤ◌ (pos 0) (flat_map (λ xs. xs) levels.now) }
{
    let mut total: i128 = 0;
    for level in levels {
        total += sum_of(level.as_slice());
    }
    total
}
