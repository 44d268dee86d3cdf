//! The first read of an expression that leaves its bounds.

ghost use Rattle.std.specs.Prelude.{◌≡◌, ◌∷◌, [], ◌++◌};
ghost use Rattle.wf_model.specs.Reads.{reads_of};
ghost use Rattle.wf_plan_reads.specs.Regions.{first_of, is_outside};
ghost use Rattle.wf_plan_reads.specs.Sizes.{reads_of_list};

use crate::bounds::{Bounds, is_outside};
use wf_model::{Args, Expr};

/// The level of this read, where it leaves the bounds.
fn outside(bounds: &Bounds, field: u32, di: i32, dk: i32, dj: i32) -> Option<u32>
    ensures { result ≡ first_of (is_outside bounds.now)
        (record { field = field; di = di; dk = dk; dj = dj } ∷ []) }
{
    if is_outside(bounds, field, di, dk, dj) {
        Some(field)
    } else {
        None
    }
}

/// The level of the first read of an expression, from left to right, that leaves the bounds. All
/// operands of a choice count.
#[cycle(walk)]
pub(crate) fn first_outside(expression: &Expr, bounds: &Bounds) -> Option<u32>
    ensures { result ≡ first_of (is_outside bounds.now) (reads_of expression.now) }
{
    match expression {
        Expr::Num(_) => None,
        Expr::I => None,
        Expr::J => None,
        Expr::K => None,
        Expr::Step => None,
        Expr::Read { field, di, dk, dj } => outside(bounds, *field, *di, *dk, *dj),
        Expr::Neg(a) => first_outside(a.get(), bounds),
        Expr::Add(a, b) => first_of_two(a.get(), b.get(), bounds),
        Expr::Sub(a, b) => first_of_two(a.get(), b.get(), bounds),
        Expr::Mul(a, b) => first_of_two(a.get(), b.get(), bounds),
        Expr::Div(a, _) => first_outside(a.get(), bounds),
        Expr::Mod(a, _) => first_outside(a.get(), bounds),
        Expr::Min(a, b) => first_of_two(a.get(), b.get(), bounds),
        Expr::Max(a, b) => first_of_two(a.get(), b.get(), bounds),
        Expr::If {
            left,
            right,
            yes,
            no,
            ..
        } => match first_of_two(left.get(), right.get(), bounds) {
            Some(field) => Some(field),
            None => first_of_two(yes.get(), no.get(), bounds),
        },
        Expr::Call { arguments, .. } => first_in_list(arguments.get(), bounds),
    }
}

/// The same of two expressions, one behind the other.
#[cycle(walk)]
fn first_of_two(a: &Expr, b: &Expr, bounds: &Bounds) -> Option<u32>
    ensures { result ≡ first_of (is_outside bounds.now) (reads_of a.now ++ reads_of b.now) }
{
    match first_outside(a, bounds) {
        Some(field) => Some(field),
        None => first_outside(b, bounds),
    }
}

/// The same of the arguments of a call.
#[cycle(walk)]
fn first_in_list(arguments: &Args, bounds: &Bounds) -> Option<u32>
    ensures { result ≡ first_of (is_outside bounds.now) (reads_of_list arguments.now) }
{
    match arguments {
        Args::End => None,
        Args::More(first, others) => match first_outside(first.get(), bounds) {
            Some(field) => Some(field),
            None => first_in_list(others.get(), bounds),
        },
    }
}
