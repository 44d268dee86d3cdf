//! The walk over an expression's tree.

ghost use Rattle.std.specs.Prelude.{◌≡◌, ◌+◌, ◌≤◌, ◌++◌, length, Some, option_map};
ghost use Rattle.std.specs.Option.{OnSome};
ghost use Rattle.wf_model.specs.Numbers.{and_then, in_i32, of_both};
ghost use Rattle.wf_model.specs.Value.{number_of, value_of};
ghost use Rattle.wf_eval.specs.Arguments.{count_in, numbers_in};
ghost use Rattle.wf_eval.specs.Evaluable.{AreEvaluable, IsEvaluable, pair, unless_none};

use crate::arguments::Arguments;
use crate::arithmetic::{
    compared, difference, greatest, least, negative, product, quotient, remainder, sum, whole,
};
use crate::overflow::Overflow;
use crate::reader::Reader;
use wf_hooks::{Answering, HookTable, Meanings};
use wf_model::{Args, Expr};

/// The value of an expression at the reader's point, within 32 bits.
///
/// It overflows exactly where a part that is evaluated leaves 64 bits or the value leaves 32. Of an
/// `if` both sides of the test are evaluated, and of its branches the chosen one alone. `div`
/// rounds to the next whole number below, and `mod` is what that leaves. A stored function answers
/// its meaning at the numbers
/// of its arguments, which are evaluated from left to right. It takes no memory.
pub fn eval<R: Reader, M: Meanings, F: Answering<M>>(
    expression: &Expr,
    reader: &R,
    hooks: &HookTable<M, F>,
) -> Result<i32, Overflow>
    requires { IsEvaluable M.accepts (R.CanRead reader.now) expression.now }
    ensures { result ≡ unless_none (value_of M.answer (R.sight reader.now) expression.now) }
{
    written(number(expression, reader, hooks))
}

/// The number, where there is one that fits 32 bits.
fn written(number: Option<i64>) -> Result<i32, Overflow>
    ensures { result ≡ unless_none (and_then number in_i32) }
{
    match number {
        Some(value) => i32::try_from(value).map_err(|_| Overflow),
        None => Err(Overflow),
    }
}

/// The numbers of two operands; none where one of them has none. The second is evaluated only where
/// the first has one.
#[inline(always)]
#[cycle(number)]
fn both<R: Reader, M: Meanings, F: Answering<M>>(
    a: &Expr,
    b: &Expr,
    reader: &R,
    hooks: &HookTable<M, F>,
) -> Option<(i64, i64)>
    requires first { IsEvaluable M.accepts (R.CanRead reader.now) a.now }
    requires second { IsEvaluable M.accepts (R.CanRead reader.now) b.now }
    ensures { result ≡ of_both pair (number_of M.answer (R.sight reader.now) a.now)
        (number_of M.answer (R.sight reader.now) b.now) }
{
    let first = number(a, reader, hooks)?;
    let second = number(b, reader, hooks)?;
    Some((first, second))
}

/// The number that an expression is; none where a part that is evaluated leaves 64 bits.
#[cycle(number)]
fn number<R: Reader, M: Meanings, F: Answering<M>>(
    expression: &Expr,
    reader: &R,
    hooks: &HookTable<M, F>,
) -> Option<i64>
    requires { IsEvaluable M.accepts (R.CanRead reader.now) expression.now }
    ensures { result ≡ number_of M.answer (R.sight reader.now) expression.now }
{
    match expression {
        Expr::Num(number) => whole(*number),
        Expr::I => Some(i64::from(reader.i())),
        Expr::J => Some(i64::from(reader.j())),
        Expr::K => Some(i64::from(reader.k())),
        Expr::Step => whole(reader.step()),
        Expr::Read { field, di, dk, dj } => Some(i64::from(reader.read(*field, *di, *dk, *dj))),
        Expr::Neg(a) => negative(number(a.get(), reader, hooks)),
        Expr::Add(a, b) => sum(both(a.get(), b.get(), reader, hooks)),
        Expr::Sub(a, b) => difference(both(a.get(), b.get(), reader, hooks)),
        Expr::Mul(a, b) => product(both(a.get(), b.get(), reader, hooks)),
        Expr::Div(a, divisor) => quotient(number(a.get(), reader, hooks), *divisor),
        Expr::Mod(a, divisor) => remainder(number(a.get(), reader, hooks), *divisor),
        Expr::Min(a, b) => least(both(a.get(), b.get(), reader, hooks)),
        Expr::Max(a, b) => greatest(both(a.get(), b.get(), reader, hooks)),
        Expr::If {
            test,
            left,
            right,
            yes,
            no,
        } => match compared(both(left.get(), right.get(), reader, hooks), *test) {
            Some(true) => number(yes.get(), reader, hooks),
            Some(false) => number(no.get(), reader, hooks),
            None => None,
        },
        Expr::Call { id, arguments } => {
            let mut numbers = Arguments::new();
            gather(arguments.get(), reader, hooks, &mut numbers)?;
            Some(hooks.call(*id, numbers.as_slice()))
        }
    }
}

/// Adds the numbers of the arguments to those before them; none where an argument has none. From
/// one that has none on, no argument is evaluated.
#[cycle(number)]
fn gather<R: Reader, M: Meanings, F: Answering<M>>(
    list: &Args,
    reader: &R,
    hooks: &HookTable<M, F>,
    before: &mut Arguments,
) -> Option<()>
    requires room { length before.old + count_in list.now ≤ 8 }
    requires each { AreEvaluable M.accepts (R.CanRead reader.now) list.now }
    ensures numbers { option_map (λ _. before.new) result ≡ and_then
        (numbers_in M.answer (R.sight reader.now) list.now) (λ zs. Some (before.old ++ zs)) }
    ensures count { OnSome result (length before.new ≡ length before.old + count_in list.now) }
{
    match list {
        Args::End => Some(()),
        Args::More(first, rest) => {
            before.push(number(first.get(), reader, hooks)?);
            gather(rest.get(), reader, hooks, before)
        }
    }
}
