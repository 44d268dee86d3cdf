//! Expressions, by recursive descent.
//!
//! `room` is how deep an expression may be where it stands, at most 64. A factor of several parts
//! gives each of them one less; so does an operator to its right operand, and its left operand has
//! to fit with the operator above it.

ghost use Rattle.std.specs.Prelude.{◌<◌, ◌≤◌, ◌+◌, ◌-◌, IfOk, length, map};
ghost use Rattle.wf_model.specs.ExprText.{all_arguments, arguments, whole_expr};
ghost use Rattle.wf_model.specs.Reading.{Gives};
ghost use Rattle.wf_table.specs.Expressions.{AllBelow, Within, asked, branches_of, call_at};
ghost use Rattle.wf_table.specs.Expressions.{choice_of, condition_of, expr_at, factor_at};
ghost use Rattle.wf_table.specs.Expressions.{inside_and, negation_of, pair_of, parenthesis_of};
ghost use Rattle.wf_table.specs.Expressions.{product_turn, seen, sum_turn, term_at, tree_of};
ghost use Rattle.wf_table.specs.Faults.{kind_of};
ghost use Rattle.wf_table.specs.Place.{at_of};

use crate::error::LineError;
use crate::factor::{
    call_of, called, divisor, leaf, numeral, operator, product_operator, read, sum_operator, test,
};
use crate::place::Place;
use crate::start::{Start, factor_start};
use crate::tree::{
    Binary, Condition, Product, Tree, choice, deeper, negated, over, quotient, remainder,
};
use std::alloc::Global;
use wf_model::limits::DEPTH;
use wf_model::{Expr, Names, TableKind};

/// A factor.
#[cycle(expression)]
#[tactic(auto, using(crate::proofs::Factors::factor_less, crate::proofs::Factors::factor_none))]
fn factor<'a>(
    alloc: Global,
    names: &Names,
    room: u32,
    at: Place<'a>,
) -> Result<(Tree, Place<'a>), LineError>
    requires { room ≤ 64 }
    ensures found { Gives seen kind_of result (factor_at names.now room (at_of at.entry)) }
    ensures within { IfOk result (Within room (length at.entry.tokens.now)) }
{
    if room == 0 {
        return Err(LineError::Kind(TableKind::TooDeep));
    }
    match factor_start(at) {
        Start::Parenthesis => parenthesis(alloc, names, room - 1, at),
        Start::Minus => negation(alloc, names, room - 1, at),
        Start::Digits => numeral(at),
        Start::I => leaf(Expr::I, at),
        Start::J => leaf(Expr::J, at),
        Start::K => leaf(Expr::K, at),
        Start::Step => leaf(Expr::Step, at),
        Start::Min => pair(alloc, names, room - 1, Binary::Least, at),
        Start::Max => pair(alloc, names, room - 1, Binary::Greatest, at),
        Start::If => if_then_else(alloc, names, room - 1, at),
        Start::Call => call(alloc, names, room - 1, at),
        Start::Field => read(names, at),
    }
}

/// An expression in parentheses.
#[cycle(expression)]
#[tactic(auto, unfolding(crate::specs::Expressions::parenthesis_of))]
fn parenthesis<'a>(
    alloc: Global,
    names: &Names,
    room: u32,
    at: Place<'a>,
) -> Result<(Tree, Place<'a>), LineError>
    requires { room < 64 }
    ensures found { Gives seen kind_of result
        (parenthesis_of (expr_at names.now room) (at_of at.entry)) }
    ensures within { IfOk result (Within (room + 1) (length at.entry.tokens.now)) }
{
    let (inner, end) = inside_and(alloc, names, room, b")", at.past())?;
    Ok((deeper(inner), end))
}

/// `-` and a factor.
#[cycle(expression)]
#[tactic(auto, unfolding(crate::specs::Expressions::negation_of))]
fn negation<'a>(
    alloc: Global,
    names: &Names,
    room: u32,
    at: Place<'a>,
) -> Result<(Tree, Place<'a>), LineError>
    requires { room < 64 }
    ensures found { Gives seen kind_of result
        (negation_of (factor_at names.now room) (at_of at.entry)) }
    ensures within { IfOk result (Within (room + 1) (length at.entry.tokens.now)) }
{
    let counted = at.node()?;
    let (inner, end) = factor(alloc, names, room, counted.past())?;
    Ok((negated(alloc, inner)?, end))
}

/// An expression, and this word behind it.
#[cycle(expression)]
#[tactic(auto, unfolding(crate::specs::Expressions::inside_and))]
fn inside_and<'a>(
    alloc: Global,
    names: &Names,
    room: u32,
    word: &[u8],
    at: Place<'a>,
) -> Result<(Tree, Place<'a>), LineError>
    requires { room < 64 }
    ensures found { Gives seen kind_of result
        (inside_and word.now (expr_at names.now room) (at_of at.entry)) }
    ensures within { IfOk result (Within room (length at.entry.tokens.now)) }
{
    let (tree, end) = expression(alloc, names, room, at)?;
    Ok((tree, end.expect(word)?))
}

/// `min` or `max` of two expressions.
#[cycle(expression)]
#[tactic(auto, unfolding(crate::specs::Expressions::pair_of))]
fn pair<'a>(
    alloc: Global,
    names: &Names,
    room: u32,
    operator: Binary,
    at: Place<'a>,
) -> Result<(Tree, Place<'a>), LineError>
    requires { room < 64 }
    ensures found { Gives seen kind_of result
        (pair_of operator (expr_at names.now room) (at_of at.entry)) }
    ensures within { IfOk result (Within (room + 1) (length at.entry.tokens.now)) }
{
    let counted = at.node()?;
    let at = counted.past().expect(b"(")?;
    let (left, at) = inside_and(alloc, names, room, b",", at)?;
    let (right, end) = inside_and(alloc, names, room, b")", at)?;
    Ok((over(alloc, operator, left, right)?, end))
}

/// What an `if` asks, and its `then`.
#[cycle(expression)]
#[tactic(auto, unfolding(crate::specs::Expressions::condition_of))]
fn condition<'a>(
    alloc: Global,
    names: &Names,
    room: u32,
    at: Place<'a>,
) -> Result<(Condition, Place<'a>), LineError>
    requires { room < 64 }
    ensures found { Gives (λ x. (asked x.0, at_of x.1)) kind_of result
        (condition_of (expr_at names.now room) (at_of at.entry)) }
    ensures left { IfOk result (λ x. x.0.left.depth ≤ room) }
    ensures right { IfOk result (λ x. x.0.right.depth ≤ room) }
    ensures shorter { IfOk result (λ x. length x.1.tokens.now < length at.entry.tokens.now) }
{
    let (left, at) = expression(alloc, names, room, at)?;
    let (test, at) = test(at)?;
    let (right, end) = inside_and(alloc, names, room, b"then", at)?;
    Ok((Condition { test, left, right }, end))
}

/// The two branches of an `if`, with `else` between them.
#[cycle(expression)]
#[tactic(auto, unfolding(crate::specs::Expressions::branches_of))]
fn branches<'a>(
    alloc: Global,
    names: &Names,
    room: u32,
    at: Place<'a>,
) -> Result<((Tree, Tree), Place<'a>), LineError>
    requires { room < 64 }
    ensures found { Gives (λ x. ((tree_of (x.0).0, tree_of (x.0).1), at_of x.1)) kind_of result
        (branches_of (expr_at names.now room) (at_of at.entry)) }
    ensures yes { IfOk result (λ x. (x.0).0.depth ≤ room) }
    ensures no { IfOk result (λ x. (x.0).1.depth ≤ room) }
    ensures shorter { IfOk result (λ x. length x.1.tokens.now < length at.entry.tokens.now) }
{
    let (yes, at) = inside_and(alloc, names, room, b"else", at)?;
    let (no, end) = expression(alloc, names, room, at)?;
    Ok(((yes, no), end))
}

/// A choice between two expressions by a test.
#[cycle(expression)]
#[tactic(auto, unfolding(crate::specs::Expressions::choice_of))]
fn if_then_else<'a>(
    alloc: Global,
    names: &Names,
    room: u32,
    at: Place<'a>,
) -> Result<(Tree, Place<'a>), LineError>
    requires { room < 64 }
    ensures found { Gives seen kind_of result
        (choice_of (expr_at names.now room) (at_of at.entry)) }
    ensures within { IfOk result (Within (room + 1) (length at.entry.tokens.now)) }
{
    let counted = at.node()?;
    let (condition, at) = condition(alloc, names, room, counted.past())?;
    let ((yes, no), end) = branches(alloc, names, room, at)?;
    Ok((choice(alloc, condition, yes, no)?, end))
}

/// Expressions parted by commas, one at least.
#[cycle(expression)]
fn arguments<'a>(
    alloc: Global,
    names: &Names,
    room: u32,
    at: Place<'a>,
) -> Result<(Vec<Tree>, Place<'a>), LineError>
    requires room { room < 64 }
    requires token { 0 < length at.tokens.now }
    ensures found { Gives (λ x. (map tree_of x.0.items, at_of x.1)) kind_of result
        (arguments (expr_at names.now room) (length (at_of at.entry).tokens) (at_of at.entry)) }
    ensures depth { IfOk result (λ x. AllBelow (room + 1) x.0.items) }
    ensures length { IfOk result (λ x. length x.1.tokens.now ≤ length at.entry.tokens.now) }
{
    let mut trees = Vec::new(alloc);
    let mut at = at;
    loop {
        let (tree, end) = expression(alloc, names, room, at)?;
        trees.push(tree)?;
        if !end.is_next(b",") {
            return Ok((trees, end));
        }
        at = end.past();
    }
}

/// The arguments of a call, of which there may be none.
#[cycle(expression)]
#[tactic(auto, unfolding(wf_model::specs::ExprText::arguments))]
fn all_arguments<'a>(
    alloc: Global,
    names: &Names,
    room: u32,
    at: Place<'a>,
) -> Result<(Vec<Tree>, Place<'a>), LineError>
    requires { room < 64 }
    ensures found { Gives (λ x. (map tree_of x.0.items, at_of x.1)) kind_of result
        (all_arguments (expr_at names.now room) (at_of at.entry)) }
    ensures depth { IfOk result (λ x. AllBelow (room + 1) x.0.items) }
    ensures length { IfOk result (λ x. length x.1.tokens.now ≤ length at.entry.tokens.now) }
{
    if at.is_next(b")") {
        return Ok((Vec::new(alloc), at));
    }
    if at.tokens.is_empty() {
        return Ok((Vec::new(alloc), at));
    }
    arguments(alloc, names, room, at)
}

/// A call of a stored function.
#[cycle(expression)]
#[tactic(auto, unfolding(crate::specs::Expressions::call_at))]
fn call<'a>(
    alloc: Global,
    names: &Names,
    room: u32,
    at: Place<'a>,
) -> Result<(Tree, Place<'a>), LineError>
    requires { room < 64 }
    ensures found { Gives seen kind_of result
        (call_at names.now (expr_at names.now room) (at_of at.entry)) }
    ensures within { IfOk result (Within (room + 1) (length at.entry.tokens.now)) }
{
    let (hook, at) = called(names, at)?;
    let (trees, at) = all_arguments(alloc, names, room, at)?;
    call_of(alloc, hook, trees, at)
}

/// One operand of a term more, behind an operator.
#[cycle(expression)]
#[tactic(auto, unfolding(crate::specs::Expressions::product_turn))]
fn product<'a>(
    alloc: Global,
    names: &Names,
    room: u32,
    sign: Product,
    left: Tree,
    at: Place<'a>,
) -> Result<(Tree, Place<'a>), LineError>
    requires { room ≤ 64 }
    ensures found { Gives seen kind_of result
        (product_turn (factor_at names.now (room - 1)) room sign (tree_of left) (at_of at.entry)) }
    ensures within { IfOk result (Within room (length at.entry.tokens.now)) }
{
    let at = operator(room, &left, at)?;
    match sign {
        Product::Multiply => {
            let (right, end) = factor(alloc, names, room - 1, at)?;
            Ok((over(alloc, Binary::Multiply, left, right)?, end))
        }
        Product::Divide => {
            let (number, end) = divisor(at)?;
            Ok((quotient(alloc, left, number)?, end))
        }
        Product::Remainder => {
            let (number, end) = divisor(at)?;
            Ok((remainder(alloc, left, number)?, end))
        }
    }
}

/// Factors with `*`, `div` and `mod` between them.
#[cycle(expression)]
fn term<'a>(
    alloc: Global,
    names: &Names,
    room: u32,
    at: Place<'a>,
) -> Result<(Tree, Place<'a>), LineError>
    requires { room ≤ 64 }
    ensures found { Gives seen kind_of result (term_at names.now room (at_of at.entry)) }
    ensures within { IfOk result (Within room (length at.entry.tokens.now)) }
{
    let (mut left, mut rest) = factor(alloc, names, room, at)?;
    while let Some(sign) = product_operator(rest) {
        let (tree, end) = product(alloc, names, room, sign, left, rest)?;
        left = tree;
        rest = end;
    }
    Ok((left, rest))
}

/// One operand of a sum more, behind an operator.
#[cycle(expression)]
#[tactic(auto, unfolding(crate::specs::Expressions::sum_turn))]
fn sum<'a>(
    alloc: Global,
    names: &Names,
    room: u32,
    sign: Binary,
    left: Tree,
    at: Place<'a>,
) -> Result<(Tree, Place<'a>), LineError>
    requires { room ≤ 64 }
    ensures found { Gives seen kind_of result
        (sum_turn (term_at names.now (room - 1)) room sign (tree_of left) (at_of at.entry)) }
    ensures within { IfOk result (Within room (length at.entry.tokens.now)) }
{
    let at = operator(room, &left, at)?;
    let (right, end) = term(alloc, names, room - 1, at)?;
    Ok((over(alloc, sign, left, right)?, end))
}

/// Terms with `+` and `-` between them.
#[cycle(expression)]
fn expression<'a>(
    alloc: Global,
    names: &Names,
    room: u32,
    at: Place<'a>,
) -> Result<(Tree, Place<'a>), LineError>
    requires { room ≤ 64 }
    ensures found { Gives seen kind_of result (expr_at names.now room (at_of at.entry)) }
    ensures within { IfOk result (Within room (length at.entry.tokens.now)) }
{
    let (mut left, mut rest) = term(alloc, names, room, at)?;
    while let Some(sign) = sum_operator(rest) {
        let (tree, end) = sum(alloc, names, room, sign, left, rest)?;
        left = tree;
        rest = end;
    }
    Ok((left, rest))
}

/// An expression of the table.
#[tactic(auto, using(crate::proofs::Factors::whole_is))]
pub(crate) fn whole_expression<'a>(
    alloc: Global,
    names: &Names,
    at: Place<'a>,
) -> Result<(Tree, Place<'a>), LineError>
    ensures found { Gives seen kind_of result (whole_expr names.now (at_of at.entry)) }
{
    expression(alloc, names, DEPTH, at)
}
