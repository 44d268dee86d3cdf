//! Trees of expressions, each with its depth.

ghost use Rattle.std.specs.Prelude.{◌≡◌, ◌<◌, ◌+◌, max, map, IfOk};
ghost use Rattle.wf_model.specs.declared.expr.Expr.{roll-Expr};
ghost use Rattle.wf_model.specs.declared.expr.Args.TheOpen as e;
ghost use Rattle.wf_model.specs.ExprText.{arguments_tree, deepest, over, tree};
ghost use Rattle.wf_table.specs.Expressions.{AllBelow, asked, chosen, made, tree_of};

use sqlite_items::Boxed;
use std::alloc::{AllocError, Global};
use wf_model::{Args, Expr, Test};

/// An expression that was read, and its depth.
#[derive(Drop)]
pub(crate) struct Tree {
    pub expr: Expr,
    pub depth: u32,
}

/// An operator over two expressions.
#[derive(Clone, Copy)]
pub(crate) enum Binary {
    Add,
    Subtract,
    Multiply,
    Least,
    Greatest,
}

/// An operator of a term.
#[derive(Clone, Copy)]
pub(crate) enum Product {
    Multiply,
    Divide,
    Remainder,
}

/// The operator over two expressions.
fn made(alloc: Global, operator: Binary, left: Expr, right: Expr) -> Result<Expr, AllocError>
    ensures { IfOk result (λ x. x ≡ made operator left right) }
{
    let left = Boxed::new(alloc, left)?;
    let right = Boxed::new(alloc, right)?;
    match operator {
        Binary::Add => Ok(Expr::Add(left, right)),
        Binary::Subtract => Ok(Expr::Sub(left, right)),
        Binary::Multiply => Ok(Expr::Mul(left, right)),
        Binary::Least => Ok(Expr::Min(left, right)),
        Binary::Greatest => Ok(Expr::Max(left, right)),
    }
}

/// The operator over two trees.
pub(crate) fn over(
    alloc: Global,
    operator: Binary,
    left: Tree,
    right: Tree,
) -> Result<Tree, AllocError>
    requires left { left.depth < 64 }
    requires right { right.depth < 64 }
    ensures { IfOk result (λ t. tree_of t ≡ over (made operator) (tree_of left) (tree_of right)) }
{
    let depth = left.depth.max(right.depth) + 1;
    let expr = made(alloc, operator, left.expr, right.expr)?;
    Ok(Tree { expr, depth })
}

/// The tree in parentheses, one deeper.
pub(crate) fn deeper(inner: Tree) -> Tree
    requires { inner.depth < 64 }
    ensures { tree_of result ≡ tree inner.expr (1 + inner.depth) }
{
    let depth = 1 + inner.depth;
    let expr = inner.expr;
    Tree { expr, depth }
}

/// The tree with `-` before it.
pub(crate) fn negated(alloc: Global, inner: Tree) -> Result<Tree, AllocError>
    requires { inner.depth < 64 }
    ensures { IfOk result (λ t. tree_of t ≡ tree (roll-Expr (e.Neg inner.expr)) (1 + inner.depth)) }
{
    let depth = inner.depth + 1;
    let expr = Expr::Neg(Boxed::new(alloc, inner.expr)?);
    Ok(Tree { expr, depth })
}

/// The tree divided by a number.
pub(crate) fn quotient(alloc: Global, left: Tree, n: u64) -> Result<Tree, AllocError>
    requires { left.depth < 64 }
    ensures { IfOk result (λ t. tree_of t ≡ tree (roll-Expr (e.Div left.expr n)) (1 + left.depth)) }
{
    let depth = left.depth + 1;
    let expr = Expr::Div(Boxed::new(alloc, left.expr)?, n);
    Ok(Tree { expr, depth })
}

/// What is left of the tree where it is divided by a number.
pub(crate) fn remainder(alloc: Global, left: Tree, n: u64) -> Result<Tree, AllocError>
    requires { left.depth < 64 }
    ensures { IfOk result (λ t. tree_of t ≡ tree (roll-Expr (e.Mod left.expr n)) (1 + left.depth)) }
{
    let depth = left.depth + 1;
    let expr = Expr::Mod(Boxed::new(alloc, left.expr)?, n);
    Ok(Tree { expr, depth })
}

/// What an `if` asks: two sides and a test.
#[derive(Drop)]
pub(crate) struct Condition {
    pub test: Test,
    pub left: Tree,
    pub right: Tree,
}

fn deepest_of_four(first: u32, second: u32, third: u32, fourth: u32) -> u32
    ensures { result ≡ max (max first second) (max third fourth) }
{
    first.max(second).max(third.max(fourth))
}

/// The choice between two trees.
pub(crate) fn choice(
    alloc: Global,
    condition: Condition,
    yes: Tree,
    no: Tree,
) -> Result<Tree, AllocError>
    requires left { condition.left.depth < 64 }
    requires right { condition.right.depth < 64 }
    requires yes { yes.depth < 64 }
    requires no { no.depth < 64 }
    ensures { IfOk result (λ t. tree_of t ≡ chosen (asked condition) (tree_of yes) (tree_of no)) }
{
    let Condition { test, left, right } = condition;
    let depth = deepest_of_four(left.depth, right.depth, yes.depth, no.depth) + 1;
    let left = Boxed::new(alloc, left.expr)?;
    let right = Boxed::new(alloc, right.expr)?;
    let yes = Boxed::new(alloc, yes.expr)?;
    let no = Boxed::new(alloc, no.expr)?;
    let expr = Expr::If {
        test,
        left,
        right,
        yes,
        no,
    };
    Ok(Tree { expr, depth })
}

/// The depth of the deepest tree; 0 where there is none.
fn deepest(trees: &[Tree]) -> u32
    requires { AllBelow 64 trees.now }
    ensures value { result ≡ deepest (map tree_of trees.now) }
    ensures bound { result < 64 }
{
    let mut deepest = 0;
    for tree in trees {
        deepest = deepest.max(tree.depth);
    }
    deepest
}

/// The list of a call's arguments.
fn arguments_list(alloc: Global, mut trees: Vec<Tree>) -> Result<Args, AllocError>
    ensures { IfOk result (λ a. a ≡ arguments_tree (map tree_of trees.items)) }
{
    let mut list = Args::End;
    while let Some(tree) = trees.pop() {
        list = Args::More(Boxed::new(alloc, tree.expr)?, Boxed::new(alloc, list)?);
    }
    Ok(list)
}

/// The call of a stored function.
pub(crate) fn call(alloc: Global, id: u32, trees: Vec<Tree>) -> Result<Tree, AllocError>
    requires { AllBelow 64 trees.items }
    ensures tree { IfOk result (λ t. tree_of t ≡ tree (roll-Expr (e.Call id
        (arguments_tree (map tree_of trees.items)))) (1 + deepest (map tree_of trees.items))) }
    ensures depth { IfOk result (λ t. t.depth ≡ 1 + deepest (map tree_of trees.items)) }
{
    let depth = deepest(&trees) + 1;
    let arguments = Boxed::new(alloc, arguments_list(alloc, trees)?)?;
    let expr = Expr::Call { id, arguments };
    Ok(Tree { expr, depth })
}
