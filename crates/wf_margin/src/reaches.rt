//! How far an expression reads.

ghost use Rattle.std.specs.Prelude.{◌≡◌, ◌∷◌, [], ◌++◌};
ghost use Rattle.wf_model.specs.Reads.{reads_of};
ghost use Rattle.wf_plan_reads.specs.Sizes.{reads_of_list};
ghost use Rattle.wf_margin.specs.Reaches.{reach_in};

use wf_model::{Args, Expr};

/// How far one read goes in i or in j.
fn read_reach(field: u32, di: i32, dk: i32, dj: i32) -> u32
    ensures { result ≡ reach_in (record { field = field; di = di; dk = dk; dj = dj } ∷ []) }
{
    di.unsigned_abs().max(dj.unsigned_abs())
}

/// How far the reads of an expression go in i or in j, those of both branches of a choice too.
#[cycle(walk)]
pub(crate) fn expr_reach(expression: &Expr) -> u32
    ensures { result ≡ reach_in (reads_of expression.now) }
{
    match expression {
        Expr::Num(_) => 0,
        Expr::I => 0,
        Expr::J => 0,
        Expr::K => 0,
        Expr::Step => 0,
        Expr::Read { field, di, dk, dj } => read_reach(*field, *di, *dk, *dj),
        Expr::Neg(a) => expr_reach(a.get()),
        Expr::Add(a, b) => reach_of_two(a.get(), b.get()),
        Expr::Sub(a, b) => reach_of_two(a.get(), b.get()),
        Expr::Mul(a, b) => reach_of_two(a.get(), b.get()),
        Expr::Div(a, _) => expr_reach(a.get()),
        Expr::Mod(a, _) => expr_reach(a.get()),
        Expr::Min(a, b) => reach_of_two(a.get(), b.get()),
        Expr::Max(a, b) => reach_of_two(a.get(), b.get()),
        Expr::If {
            left,
            right,
            yes,
            no,
            ..
        } => {
            let compared = reach_of_two(left.get(), right.get());
            let chosen = reach_of_two(yes.get(), no.get());
            compared.max(chosen)
        }
        Expr::Call { arguments, .. } => list_reach(arguments.get()),
    }
}

/// The same of two expressions.
#[cycle(walk)]
fn reach_of_two(a: &Expr, b: &Expr) -> u32
    ensures { result ≡ reach_in (reads_of a.now ++ reads_of b.now) }
{
    let one = expr_reach(a);
    let two = expr_reach(b);
    one.max(two)
}

/// The same of the arguments of a call.
#[cycle(walk)]
fn list_reach(arguments: &Args) -> u32
    ensures { result ≡ reach_in (reads_of_list arguments.now) }
{
    match arguments {
        Args::End => 0,
        Args::More(first, others) => {
            let one = expr_reach(first.get());
            let rest = list_reach(others.get());
            one.max(rest)
        }
    }
}
