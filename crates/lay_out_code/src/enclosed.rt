//! The layout of an expression with each part in parentheses, as the value of a constant.
ghost use Rattle.std.specs.Prelude.{true};
ghost use Rattle.lay_layout.specs.Document.{stream};
ghost use Rattle.lay_stream.specs.Fed.{Did};
ghost use Rattle.lay_code.specs.Out.{layout_of_file};
ghost use Rattle.lay_paren_defs.specs.Constant.{constant};
ghost use Rattle.lay_paren_defs.specs.Enclosed.{part};

use crate::exprs::add_expr;
use lay_code::Expr;
use lay_out_heads::calls::add_break;
use lay_out_pats::add_group;
use lay_out_tokens::HARD_BREAK;
use lay_out_tokens::notation::NEVER_BREAK;
use lay_out_types::calls::add_text;
use lay_out_types::lists::add_end;
use lay_paren_defs::Enclosed;
use lay_stream::Emit;

/// Emits the layout of the file of one constant, `const _: () = (..);`, whose value is an
/// expression with each part in parentheses. It allocates nothing: the tree with the parentheses is
/// never built.
pub fn put_enclosed_constant<E: Emit>(out: &mut E, expr: &Expr) -> Result<(), E::Fault>
    ensures { Did E.meanings out.old (stream (layout_of_file (constant (part true expr.now))))
        result out.new }
{
    let group = add_group(out, Ok(()));
    let word = add_text(out, group, b"const ");
    let name = add_text(out, word, b"_");
    let colon = add_text(out, name, b": ");
    let unit = add_text(out, colon, b"()");
    let equals = add_text(out, unit, b" = ");
    let lead = add_break(out, equals, NEVER_BREAK);
    let value = add_expr::<E, Enclosed>(out, lead, false, expr);
    let head = add_end(out, value);
    let item = add_text(out, head, b";");
    add_break(out, item, HARD_BREAK)
}
