//! Builders of field accesses, method calls and calls. The base is lent with the depth that it
//! needs, and becomes the whole expression.
ghost use Rattle.std.specs.Prelude.{◌≡◌, ◌∷◌, [], ◌+◌, ◌≤◌, OnOk};
ghost use Rattle.std.specs.List.{AllByRecursion};
ghost use Rattle.lay_form.specs.Depth.{least_depth};
ghost use Rattle.lay_code.specs.Reading.{top};
ghost use Rattle.lay_code.specs.nodes.Code.{about_step};
ghost use Rattle.lay_code.specs.declared.exprs.Expr.TheVariants as variant;
ghost use Rattle.lay_build_types.specs.Answers.{Gives, IsKept, Makes};
ghost use Rattle.lay_build_types.specs.Kinds.{IsExpr, form_of_expr};
ghost use Rattle.lay_build_exprs.specs.Nodes as node;
ghost use Rattle.lay_build_exprs.specs.Parts.{WithNeed};

use crate::keeping::kept_with;
use crate::operands::{callee, operand};
use lay_build_types::{BuildError, BuiltExpr, BuiltName, boxed, keep, nodes, one};
use lay_code::{Expr, Name, Step};
use lay_text::List;
use std::alloc::Global;
use std::mem;

/// A field access: `a.b`.
pub fn expr_field(alloc: Global, base: BuiltExpr, field: BuiltName) -> Result<BuiltExpr, BuildError>
    ensures { Makes form_of_expr (node.expr_field base field) result }
{
    let (name, _) = field.into_parts();
    let (mut base, need) = base.into_parts();
    let need = add_field(alloc, &mut base, need, name);
    kept_with(base, need)
}

/// Adds a field access to a base.
fn add_field(alloc: Global, base: &mut Expr, need: u32, name: Name) -> Result<u32, BuildError>
    requires need { need ≡ least_depth (form_of_expr base.old) }
    requires within { need ≤ top }
    ensures { Gives result (λ deep. WithNeed (node.expr_field base.old name) (base.new, deep)) }
{
    let need = operand(alloc, base, need)?;
    stepped(alloc, base, need, Step::Field { name }, 0)
}

/// A method call: `a.b(c, d)`.
pub fn expr_method(
    alloc: Global,
    base: BuiltExpr,
    method: BuiltName,
    args: List<BuiltExpr>,
) -> Result<BuiltExpr, BuildError>
    ensures { Makes form_of_expr (node.expr_method base method args) result }
{
    let (name, _) = method.into_parts();
    let (mut base, need) = base.into_parts();
    let need = add_method(alloc, &mut base, need, name, args);
    kept_with(base, need)
}

/// Adds a method call to a base.
fn add_method(
    alloc: Global,
    base: &mut Expr,
    need: u32,
    name: Name,
    args: List<BuiltExpr>,
) -> Result<u32, BuildError>
    requires need { need ≡ least_depth (form_of_expr base.old) }
    requires within { need ≤ top }
    ensures step { Gives result (λ deep. WithNeed (node.expr_method base.old name args) (base.new, deep)) }
    ensures kept { OnOk result (AllByRecursion (IsKept form_of_expr IsExpr) args) }
{
    let need = operand(alloc, base, need)?;
    let (args, more) = nodes(alloc, args)?;
    let step = Step::Method {
        name,
        generics: None,
        args,
    };
    stepped(alloc, base, need, step, more)
}

/// A call: `a(b, c)`. A base that ends in the name of a field is put in parentheses: `(a.b)(c)`.
pub fn expr_call(
    alloc: Global,
    base: BuiltExpr,
    args: List<BuiltExpr>,
) -> Result<BuiltExpr, BuildError>
    ensures { Makes form_of_expr (node.expr_call base args) result }
{
    let (mut base, need) = base.into_parts();
    let need = add_call(alloc, &mut base, need, args);
    kept_with(base, need)
}

/// Adds a call to a base.
fn add_call(
    alloc: Global,
    base: &mut Expr,
    need: u32,
    args: List<BuiltExpr>,
) -> Result<u32, BuildError>
    requires need { need ≡ least_depth (form_of_expr base.old) }
    requires within { need ≤ top }
    ensures step { Gives result (λ deep. WithNeed (node.expr_call base.old args) (base.new, deep)) }
    ensures kept { OnOk result (AllByRecursion (IsKept form_of_expr IsExpr) args) }
{
    let need = callee(alloc, base, need)?;
    let (args, more) = nodes(alloc, args)?;
    stepped(alloc, base, need, Step::Apply { args }, more)
}

/// Adds a step to a base, after the steps that it has, and gives the depth that the whole needs.
fn stepped(
    alloc: Global,
    base: &mut Expr,
    need: u32,
    step: Step,
    more: u32,
) -> Result<u32, BuildError>
    requires need { need ≡ least_depth (form_of_expr base.old) }
    requires low { need ≤ top + 1 }
    requires more { more ≡ least_depth (about_step step).form }
    requires little { more ≤ top }
    ensures { Gives result (λ deep. WithNeed (node.stepped base.old step) (base.new, deep)) }
{
    let need = if has_steps(base) {
        need.max(more + 1)
    } else {
        need.max(more) + 1
    };
    add_step(alloc, base, step)?;
    Ok(need)
}

/// Whether a base has steps.
fn has_steps(base: &Expr) -> bool
    ensures { result ≡ node.is_postfix base.now }
{
    matches!(base, Expr::Postfix { .. })
}

/// Adds a step to a base, after the steps that it has.
fn add_step(alloc: Global, base: &mut Expr, step: Step) -> Result<(), BuildError>
    ensures { Gives result (λ done. base.new ≡ node.stepped base.old step) }
{
    match base {
        Expr::Postfix { steps, .. } => keep(steps, step),
        _ => add_first_step(alloc, base, step),
    }
}

/// Adds a step to a base that has none.
fn add_first_step(alloc: Global, base: &mut Expr, step: Step) -> Result<(), BuildError>
    ensures { Gives result (λ done. base.new ≡ variant.Postfix base.old (step ∷ [])) }
{
    let steps = one(alloc, step)?;
    let bare = mem::replace(base, Expr::Underscore);
    let inner = boxed(alloc, bare)?;
    *base = Expr::Postfix { base: inner, steps };
    Ok(())
}
