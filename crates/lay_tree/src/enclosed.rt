//! Whether a file is one constant, whose value is an expression with each part in parentheses.
ghost use Rattle.std.specs.Prelude.{◌≡◌, ◌↔◌, IsTrue, [], ◌∷◌, Some, true};
ghost use Rattle.lay_node.specs.declared.heads.ValueHead.TheVariants as head;
ghost use Rattle.lay_node.specs.declared.token.GivenName.TheVariants as given;
ghost use Rattle.lay_node.specs.declared.types.Ty.TheVariants as ty;
ghost use Rattle.lay_code.specs.declared.item.ItemKind.TheVariants as kind;
ghost use Rattle.lay_paren_defs.specs.Constant.{constant, constant_item};
ghost use Rattle.lay_paren_defs.specs.Enclosed.{part};

use crate::exprs::same_part;
use lay_code::{Expr, File, GivenName, Item, ItemKind, Ty, ValueHead, Vis};
use lay_node::Boxed;
use lay_paren_defs::Enclosed;

/// Whether the file is only the constant `const _: () = e;`, where `e` is the expression with
/// itself and each part in parentheses. No pair is put round what is the whole of a statement, nor
/// round an unlabelled block as the body of an arm or of a closure.
///
/// It is for programs that make trees. Anything may stand in parentheses: so the text of this
/// constant parses back to it exactly if the expression lacks nothing but parentheses.
pub fn same_enclosed(expr: &Expr, file: &File) -> bool
    ensures { IsTrue result ↔ file.now ≡ constant (part true expr.now) }
{
    file.shebang.is_none()
        && file.attrs.as_slice().is_empty()
        && is_alone(expr, file.items.as_slice())
}

/// Whether the constant is the only item.
fn is_alone(expr: &Expr, items: &[Item]) -> bool
    ensures { IsTrue result ↔ items.now ≡ (constant_item (part true expr.now) ∷ []) }
{
    match items {
        [item] => is_constant(expr, item),
        _ => false,
    }
}

/// Whether the item is the constant.
fn is_constant(expr: &Expr, item: &Item) -> bool
    ensures { IsTrue result ↔ item.now ≡ constant_item (part true expr.now) }
{
    item.attrs.as_slice().is_empty()
        && matches!(item.vis, Vis::Inherited)
        && is_value(expr, item.kind.get())
}

/// Whether the item is the constant; its attributes and visibility aren't compared here.
fn is_value(expr: &Expr, item: &ItemKind) -> bool
    ensures { IsTrue result
        ↔ item.now ≡ kind.Value (head.Const given.Underscore (ty.Tuple [])) (Some (part true expr.now)) }
{
    match item {
        ItemKind::Value { head, value } => is_head(head) && is_enclosed(expr, value),
        _ => false,
    }
}

/// Whether the value is the expression with itself and each part in parentheses.
fn is_enclosed(expr: &Expr, value: &Option<Boxed<Expr>>) -> bool
    ensures { IsTrue result ↔ value.now ≡ Some (part true expr.now) }
{
    match value {
        Some(given) => same_part::<Enclosed>(expr, given.get()),
        None => false,
    }
}

/// Whether it is `const _: ()`.
fn is_head(value_head: &ValueHead) -> bool
    ensures { IsTrue result ↔ value_head.now ≡ head.Const given.Underscore (ty.Tuple []) }
{
    match value_head {
        ValueHead::Const { name, ty } => matches!(name, GivenName::Underscore) && is_unit(ty),
        ValueHead::Static { .. } => false,
    }
}

/// Whether the type is `()`.
fn is_unit(declared: &Ty) -> bool
    ensures { IsTrue result ↔ declared.now ≡ ty.Tuple [] }
{
    match declared {
        Ty::Tuple { elements } => elements.as_slice().is_empty(),
        _ => false,
    }
}
