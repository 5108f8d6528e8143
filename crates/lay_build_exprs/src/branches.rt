//! Builders of `if` expressions. The condition is lent, and becomes the whole expression.
ghost use Rattle.std.specs.Prelude.{◌≡◌, ◌∷◌, [], ◌≤◌, max};
ghost use Rattle.lay_form.specs.Depth.{least_depth};
ghost use Rattle.lay_code.specs.Reading.{top};
ghost use Rattle.lay_code.specs.declared.conditions.Link.TheVariants as link;
ghost use Rattle.lay_build_types.specs.Answers.{Gives, Makes, need_if};
ghost use Rattle.lay_build_types.specs.Kinds.{form_of_block, form_of_expr};
ghost use Rattle.lay_build_exprs.specs.Nodes as node;
ghost use Rattle.lay_build_exprs.specs.Parts.{WithNeed};

use crate::keeping::kept_with;
use crate::operands;
use lay_build_types::{BuildError, BuiltBlock, BuiltExpr, boxed, one, part_or_none};
use lay_code::{Block, Branch, Condition, Expr, Link};
use lay_text::List;
use std::alloc::Global;
use std::mem;

/// An `if` expression: `if a { b }`, or with `otherwise`, `if a { b } else { c }`.
pub fn expr_if(
    alloc: Global,
    test: BuiltExpr,
    then: BuiltBlock,
    other: Option<BuiltBlock>,
) -> Result<BuiltExpr, BuildError>
    ensures { Makes form_of_expr (node.expr_if test then other) result }
{
    let (mut test, need) = test.into_parts();
    let (body, more) = then.into_parts();
    let (otherwise, most) = part_or_none(other);
    let need = add_blocks(alloc, &mut test, need, body, otherwise, more.max(most));
    kept_with(test, need)
}

/// Adds the blocks, of which the deeper one needs this depth, to the condition.
fn add_blocks(
    alloc: Global,
    test: &mut Expr,
    need: u32,
    body: Block,
    otherwise: Option<Block>,
    blocks: u32,
) -> Result<u32, BuildError>
    requires need { need ≡ least_depth (form_of_expr test.old) }
    requires within { need ≤ top }
    requires blocks { blocks ≡ max (least_depth (form_of_block body)) (need_if form_of_block otherwise) }
    ensures { Gives result (λ deep. WithNeed (node.expr_if test.old body otherwise) (test.new, deep)) }
{
    let need = operands::test(alloc, test, need)?;
    one_branch(alloc, test, body, otherwise)?;
    let need = (need + 1).max(blocks);
    Ok(need)
}

/// A branch of the condition, which may stand so.
fn one_branch(
    alloc: Global,
    test: &mut Expr,
    body: Block,
    otherwise: Option<Block>,
) -> Result<(), BuildError>
    ensures { Gives result (λ done. test.new ≡ node.one_branch test.old body otherwise) }
{
    let links = links(alloc, test)?;
    let branch = Branch {
        condition: Condition { links },
        body,
    };
    let branches = one(alloc, branch)?;
    *test = Expr::If {
        branches,
        otherwise,
    };
    Ok(())
}

/// The links of a condition that is one expression, which is taken.
fn links(alloc: Global, test: &mut Expr) -> Result<List<Link>, BuildError>
    ensures { Gives result (λ links. links ≡ link.Expr test.old ∷ []) }
{
    let bare = mem::replace(test, Expr::Underscore);
    let expr = boxed(alloc, bare)?;
    one(alloc, Link::Expr { expr })
}
