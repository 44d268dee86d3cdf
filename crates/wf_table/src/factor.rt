//! Factors of one token, reads and the tokens between expressions.

ghost use Rattle.std.specs.Prelude.{◌≡◌, ◌+◌, ◌<◌, ◌≤◌, IfOk, IfSome, IsTrue, length, map};
ghost use Rattle.wf_model.specs.ExprText.{deepest, divisor, leaf, numeral, operator, test, test_of};
ghost use Rattle.wf_model.specs.Letters.{is_digits};
ghost use Rattle.wf_model.specs.Reading.{Gives};
ghost use Rattle.wf_model.specs.Tokens.{keyword, next};
ghost use Rattle.wf_table.specs.Expressions.{AllBelow, Within, called_at, call_of, offset_and};
ghost use Rattle.wf_table.specs.Expressions.{offsets, product_operator, read_of, seen};
ghost use Rattle.wf_table.specs.Expressions.{sum_operator, tree_of};
ghost use Rattle.wf_table.specs.Faults.{kind_of};
ghost use Rattle.wf_table.specs.Place.{at_of};

use crate::error::LineError;
use crate::names::{called_hook, level, most_dk};
use crate::place::{Place, number_up_to};
use crate::tree::{Binary, Product, Tree, call};
use std::alloc::Global;
use wf_model::limits::OFFSET;
use wf_model::{Expr, HookName, Names, TableKind, Test};

/// The greatest number that may stand in an expression.
const GREATEST_NUMBER: u64 = 9_223_372_036_854_775_807;

/// An expression of one token.
pub(crate) fn leaf<'a>(expr: Expr, at: Place<'a>) -> Result<(Tree, Place<'a>), LineError>
    requires { 0 < length at.tokens.now }
    ensures found { Gives seen kind_of result (leaf expr (at_of at.entry)) }
    ensures within { IfOk result (Within 1 (length at.entry.tokens.now)) }
{
    let counted = at.node()?;
    let depth = 1;
    Ok((Tree { expr, depth }, counted.past()))
}

/// A number that fits 64 bits with a sign.
pub(crate) fn numeral<'a>(at: Place<'a>) -> Result<(Tree, Place<'a>), LineError>
    requires digits { IsTrue (is_digits (next (at_of at))) }
    requires token { 0 < length at.tokens.now }
    ensures found { Gives seen kind_of result (numeral (at_of at.entry)) }
    ensures within { IfOk result (Within 1 (length at.entry.tokens.now)) }
{
    match number_up_to(at.text(), GREATEST_NUMBER) {
        Some(number) => leaf(Expr::Num(number), at),
        None => Err(at.refusal()),
    }
}

/// An offset, and the word behind it.
fn offset_and<'a>(word: &[u8], most: u64, at: Place<'a>) -> Result<(i32, Place<'a>), LineError>
    requires { most < 128 }
    ensures found { Gives (λ x. (x.0, at_of x.1)) kind_of result
        (offset_and word.now most (at_of at.entry)) }
    ensures shorter { IfOk result (λ x. length x.1.tokens.now < length at.entry.tokens.now) }
{
    let (offset, end) = at.signed(most)?;
    Ok((offset, end.expect(word)?))
}

/// The offsets of a read in i, k and j, in brackets.
#[tactic(auto, unfolding(crate::specs::Expressions::offsets))]
fn offsets<'a>(most_dk: u64, at: Place<'a>) -> Result<((i32, i32, i32), Place<'a>), LineError>
    requires { most_dk < 128 }
    ensures found { Gives (λ x. (x.0, at_of x.1)) kind_of result
        (offsets most_dk (at_of at.entry)) }
    ensures shorter { IfOk result (λ x. length x.1.tokens.now < length at.entry.tokens.now) }
{
    let at = at.expect(b"[")?;
    let (di, at) = offset_and(b",", OFFSET, at)?;
    let (dk, at) = offset_and(b",", most_dk, at)?;
    let (dj, at) = offset_and(b"]", OFFSET, at)?;
    Ok(((di, dk, dj), at))
}

/// A level's name, and the offsets from the point.
#[tactic(auto, unfolding(crate::specs::Expressions::read_of))]
pub(crate) fn read<'a>(names: &Names, at: Place<'a>) -> Result<(Tree, Place<'a>), LineError>
    ensures found { Gives seen kind_of result (read_of names.now (at_of at.entry)) }
    ensures within { IfOk result (Within 1 (length at.entry.tokens.now)) }
{
    let (field, at) = level(names, at)?;
    let counted = at.node()?;
    let ((di, dk, dj), end) = offsets(most_dk(names, field), counted)?;
    let expr = Expr::Read { field, di, dk, dj };
    let depth = 1;
    Ok((Tree { expr, depth }, end))
}

/// Behind an operator, which is a node and makes its left operand one deeper.
pub(crate) fn operator<'a>(room: u32, left: &Tree, at: Place<'a>) -> Result<Place<'a>, LineError>
    ensures found { Gives at_of kind_of result (operator room (tree_of left.now) (at_of at.entry)) }
    ensures room { IfOk result (λ p. left.now.depth < room) }
    ensures length { IfOk result (λ p. length p.tokens.now ≤ length at.entry.tokens.now) }
{
    if left.depth >= room {
        return Err(LineError::Kind(TableKind::TooDeep));
    }
    let counted = at.node()?;
    Ok(counted.past())
}

/// The operator of a sum, if the next token is one.
pub(crate) fn sum_operator(at: Place) -> Option<Binary>
    ensures operator { result ≡ sum_operator (keyword (at_of at.entry)) }
    ensures token { IfSome result (λ op. 0 < length at.entry.tokens.now) }
{
    if at.is_next(b"+") {
        Some(Binary::Add)
    } else if at.is_next(b"-") {
        Some(Binary::Subtract)
    } else {
        None
    }
}

/// The operator of a product, if the next token is one.
pub(crate) fn product_operator(at: Place) -> Option<Product>
    ensures operator { result ≡ product_operator (keyword (at_of at.entry)) }
    ensures token { IfSome result (λ op. 0 < length at.entry.tokens.now) }
{
    if at.is_next(b"*") {
        Some(Product::Multiply)
    } else if at.is_next(b"div") {
        Some(Product::Divide)
    } else if at.is_next(b"mod") {
        Some(Product::Remainder)
    } else {
        None
    }
}

/// A number from 1 on.
pub(crate) fn divisor<'a>(at: Place<'a>) -> Result<(u64, Place<'a>), LineError>
    ensures found { Gives (λ x. (x.0, at_of x.1)) kind_of result (divisor (at_of at.entry)) }
    ensures shorter { IfOk result (λ x. length x.1.tokens.now < length at.entry.tokens.now) }
{
    if number_up_to(at.text(), 0) == Some(0) {
        return Err(LineError::Kind(TableKind::ZeroDivisor));
    }
    at.number(1, GREATEST_NUMBER)
}

fn test_of(text: &[u8]) -> Option<Test>
    ensures { result ≡ test_of text.now }
{
    match text {
        b"<" => Some(Test::Less),
        b"<=" => Some(Test::AtMost),
        b"=" => Some(Test::Equal),
        _ => None,
    }
}

/// One of the three tests.
pub(crate) fn test<'a>(at: Place<'a>) -> Result<(Test, Place<'a>), LineError>
    ensures found { Gives (λ x. (x.0, at_of x.1)) kind_of result (test (at_of at.entry)) }
    ensures length { IfOk result (λ x. length x.1.tokens.now ≤ length at.entry.tokens.now) }
{
    match test_of(at.text()) {
        Some(test) => Ok((test, at.past())),
        None => Err(at.refusal()),
    }
}

/// The stored function that a call names, and the place behind the `(` after it.
#[tactic(auto, unfolding(crate::specs::Expressions::called_at))]
pub(crate) fn called<'a, 'b>(
    names: &'b Names,
    at: Place<'a>,
) -> Result<(&'b HookName, Place<'a>), LineError>
    ensures found { Gives (λ x. (x.0.now, at_of x.1)) kind_of result
        (called_at names.now (at_of at.entry)) }
    ensures length { IfOk result (λ x. length x.1.tokens.now < length at.entry.tokens.now) }
{
    let counted = at.node()?;
    let at = counted.past();
    let name = at.name()?;
    match called_hook(names, name) {
        Some(hook) => Ok((hook, at.past().expect(b"(")?)),
        None => Err(LineError::Kind(TableKind::UnknownHook)),
    }
}

/// The call of a stored function, whose arguments end here and are as many as it takes.
#[tactic(auto, unfolding(crate::specs::Expressions::call_of))]
pub(crate) fn call_of<'a>(
    alloc: Global,
    hook: &HookName,
    trees: Vec<Tree>,
    at: Place<'a>,
) -> Result<(Tree, Place<'a>), LineError>
    requires { AllBelow 64 trees.items }
    ensures found { Gives seen kind_of result
        (call_of hook.now (map tree_of trees.items) (at_of at.entry)) }
    ensures depth { IfOk result (λ x. x.0.depth ≡ 1 + deepest (map tree_of trees.items)) }
    ensures length { IfOk result (λ x. length x.1.tokens.now ≤ length at.entry.tokens.now) }
{
    if at.is_next(b")") && trees.len() != hook.arity as usize {
        return Err(LineError::Kind(TableKind::Arity));
    }
    let end = at.expect(b")")?;
    let tree = call(alloc, hook.id, trees)?;
    Ok((tree, end))
}
