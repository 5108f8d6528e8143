//! Builders of operators. The left operand is lent, and becomes the whole expression.
ghost use Rattle.std.specs.Prelude.{◌≡◌, ◌∷◌, [], ◌≤◌, IsTrue};
ghost use Rattle.lay_form.specs.Depth.{least_depth};
ghost use Rattle.lay_code.specs.Operators.{op_level};
ghost use Rattle.lay_code.specs.Reading.{top};
ghost use Rattle.lay_code.specs.nodes.Exprs.{is_chain_level};
ghost use Rattle.lay_code.specs.declared.exprs.Expr.TheVariants as variant;
ghost use Rattle.lay_build_types.specs.Answers.{Gives, Makes};
ghost use Rattle.lay_build_types.specs.Kinds.{form_of_expr};
ghost use Rattle.lay_build_exprs.specs.Nodes as node;
ghost use Rattle.lay_build_exprs.specs.Parts.{WithNeed};

use crate::keeping::kept_with;
use crate::operands::operand;
use lay_build_types::{BuildError, BuiltExpr, boxed, one};
use lay_code::{Boxed, Expr, Op};
use std::alloc::Global;
use std::mem;

/// A binary operator: `a + b`. The operator is no assignment and no range.
pub fn expr_binary(
    alloc: Global,
    op: Op,
    left: BuiltExpr,
    right: BuiltExpr,
) -> Result<BuiltExpr, BuildError>
    requires { IsTrue (is_chain_level (op_level op)) }
    ensures { Makes form_of_expr (node.expr_binary op left right) result }
{
    let (mut left, need) = left.into_parts();
    let (right, more) = right.into_parts();
    let need = add_operand(alloc, &mut left, need, op, right, more);
    kept_with(left, need)
}

/// Adds an operator and its right operand to the left one.
fn add_operand(
    alloc: Global,
    left: &mut Expr,
    need: u32,
    op: Op,
    right: Expr,
    more: u32,
) -> Result<u32, BuildError>
    requires need { need ≡ least_depth (form_of_expr left.old) }
    requires within { need ≤ top }
    requires more { more ≡ least_depth (form_of_expr right) }
    requires little { more ≤ top }
    ensures { Gives result (λ deep. WithNeed (node.expr_binary op left.old right) (left.new, deep)) }
{
    let mut right = right;
    let more = operand(alloc, &mut right, more);
    let right = boxed(alloc, right)?;
    let more = more?;
    let need = operand(alloc, left, need)?;
    chain(alloc, left, op, right)?;
    let need = need.max(more) + 1;
    Ok(need)
}

/// Makes a chain of the left operand, an operator and the right operand. The operands have the
/// parentheses that they need.
fn chain(alloc: Global, left: &mut Expr, op: Op, right: Boxed<Expr>) -> Result<(), BuildError>
    ensures { Gives result (λ done. left.new ≡ variant.Chain left.old ((op, right) ∷ [])) }
{
    let rest = one(alloc, (op, right))?;
    let bare = mem::replace(left, Expr::Underscore);
    let first = boxed(alloc, bare)?;
    *left = Expr::Chain { first, rest };
    Ok(())
}
