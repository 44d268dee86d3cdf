//! The first read of an expression that is not covered.

ghost use Rattle.std.specs.Prelude.{◌≡◌, ◌∷◌, [], ◌++◌, ◌≤◌, length};
ghost use Rattle.wf_model.specs.Reads.{reads_of};
ghost use Rattle.wf_plan_reads.specs.Sizes.{reads_of_list};
ghost use Rattle.wf_check.specs.Errors.{first_error};

use crate::error::HaloError;
use crate::place::Place;
use crate::scan::is_covered;
use wf_check_walk::Question;
use wf_model::{Args, Expr};

/// This read, where it is not covered.
fn read_error(place: &Place, field: u32, di: i32, dk: i32, dj: i32) -> Option<HaloError>
    ensures { result
        ≡ first_error place.now (record { field = field; di = di; dk = dk; dj = dj } ∷ []) }
{
    let question = Question {
        item: place.item,
        phase: place.phase,
        field,
        di,
        dk,
        dj,
    };
    if is_covered(place.home, &question) {
        return None;
    }
    Some(HaloError {
        domain: place.home.number,
        phase: place.item,
        field,
        di,
        dj,
    })
}

/// The first read of an expression, from left to right, that is not covered. All operands of a
/// choice count.
#[cycle(reads)]
pub fn first_error(expression: &Expr, place: &Place) -> Option<HaloError>
    ensures { result ≡ first_error place.now (reads_of expression.now) }
{
    match expression {
        Expr::Num(_) => None,
        Expr::I => None,
        Expr::J => None,
        Expr::K => None,
        Expr::Step => None,
        Expr::Read { field, di, dk, dj } => read_error(place, *field, *di, *dk, *dj),
        Expr::Neg(a) => first_error(a.get(), place),
        Expr::Add(a, b) => first_of_two(a.get(), b.get(), place),
        Expr::Sub(a, b) => first_of_two(a.get(), b.get(), place),
        Expr::Mul(a, b) => first_of_two(a.get(), b.get(), place),
        Expr::Div(a, _) => first_error(a.get(), place),
        Expr::Mod(a, _) => first_error(a.get(), place),
        Expr::Min(a, b) => first_of_two(a.get(), b.get(), place),
        Expr::Max(a, b) => first_of_two(a.get(), b.get(), place),
        Expr::If {
            left,
            right,
            yes,
            no,
            ..
        } => match first_of_two(left.get(), right.get(), place) {
            Some(error) => Some(error),
            None => first_of_two(yes.get(), no.get(), place),
        },
        Expr::Call { arguments, .. } => first_in_list(arguments.get(), place),
    }
}

/// The same of two expressions, one behind the other.
#[cycle(reads)]
fn first_of_two(a: &Expr, b: &Expr, place: &Place) -> Option<HaloError>
    ensures { result ≡ first_error place.now (reads_of a.now ++ reads_of b.now) }
{
    match first_error(a, place) {
        Some(error) => Some(error),
        None => first_error(b, place),
    }
}

/// The same of the arguments of a call.
#[cycle(reads)]
fn first_in_list(arguments: &Args, place: &Place) -> Option<HaloError>
    ensures { result ≡ first_error place.now (reads_of_list arguments.now) }
{
    match arguments {
        Args::End => None,
        Args::More(first, others) => match first_error(first.get(), place) {
            Some(error) => Some(error),
            None => first_in_list(others.get(), place),
        },
    }
}
