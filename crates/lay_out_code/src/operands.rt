//! The layout of operands, targets and steps, and of the fields of struct literals.
ghost use Rattle.std.specs.Prelude.{[], ◌∷◌, ◌++◌, false, cond, map, codes, option_map};
ghost use Rattle.lay_layout.specs.declared.layout.Tok.TheVariants as tok;
ghost use Rattle.lay_form.specs.Form.{Done};
ghost use Rattle.lay_form.specs.Stream.{fed, stream_of};
ghost use Rattle.lay_code.specs.nodes.Code.{about_field_expr, about_step};
ghost use Rattle.lay_code.specs.nodes.Exprs.{operands_form, steps_form, targets_form};
ghost use Rattle.lay_paren_defs.specs.Enclosed.{enclose_field, enclose_step, operand_part, part, target_part};
ghost use Rattle.lay_out_exprs.specs.Parts.{base_told, before_op, behind_op, field_told};
ghost use Rattle.lay_out_types.specs.Calls.{Adds};
ghost use Rattle.lay_out_pats.specs.PatternRows.{braces_opened};
ghost use Rattle.lay_out_types.specs.Rows.{comma_between, row};

use crate::exprs::{add_expr, add_exprs, add_optional};
use lay_code::{Boxed, Expr, FieldExpr, Op, Step};
use lay_out_exprs::add_generics;
use lay_out_exprs::flags::either;
use lay_out_exprs::operators::{add_assignment, add_operator};
use lay_out_exprs::steps::{add_step_break, is_method};
use lay_out_pats::{add_attrs, add_brace};
use lay_out_types::calls::{add_either, add_text, add_word};
use lay_out_types::lists::{add_close, add_lead};
use lay_paren_defs::Enclose;
use lay_stream::Emit;

/// Emits the `{` of a struct literal and its fields; nothing if it has no fields.
#[cycle(code)]
pub fn add_fields<E: Emit, X: Enclose>(
    out: &mut E,
    before: Result<(), E::Fault>,
    fields: &[FieldExpr],
) -> Result<(), E::Fault>
    ensures { Adds E.meanings before out.old (row braces_opened comma_between
        (map field_told (map (enclose_field X.on) fields.now))) result out.new }
{
    let mut done = before;
    for (index, field) in fields.iter().enumerate() {
        done = add_brace(out, done, index == 0);
        done = add_field::<E, X>(out, done, field);
    }
    done
}

/// Emits the `..` of a struct literal and its base, if it has one. Before them stands the `{` if
/// `first`, which says that there are no fields, else a comma.
#[cycle(code)]
pub fn add_base<E: Emit, X: Enclose>(
    out: &mut E,
    before: Result<(), E::Fault>,
    first: bool,
    base: &Option<Boxed<Expr>>,
) -> Result<(), E::Fault>
    ensures { let told = base_told (option_map (part X.on) base.now) in
        Adds E.meanings before out.old
        (cond first braces_opened comma_between ++ (tok.Text (codes "..") ∷ told)) result out.new }
{
    let lead = add_brace(out, before, first);
    let dots = add_text(out, lead, b"..");
    add_optional::<E, X>(out, dots, true, base)
}

/// Emits a field of a struct literal, with its attributes.
#[cycle(code)]
fn add_field<E: Emit, X: Enclose>(
    out: &mut E,
    before: Result<(), E::Fault>,
    field: &FieldExpr,
) -> Result<(), E::Fault>
    ensures { let told = about_field_expr (enclose_field X.on field.now) in
        Adds E.meanings before out.old (stream_of told.form) result out.new }
{
    match field {
        FieldExpr::Named { attrs, name, value } => {
            let attrs = add_attrs(out, before, attrs.as_slice());
            let name = add_word(out, attrs, name.raw, &name.text);
            let colon = add_text(out, name, b": ");
            add_expr::<E, X>(out, colon, false, value.get())
        },
        FieldExpr::Numbered {
            attrs,
            index,
            value,
        } => {
            let attrs = add_attrs(out, before, attrs.as_slice());
            let index = add_text(out, attrs, index.as_bytes());
            let colon = add_text(out, index, b": ");
            add_expr::<E, X>(out, colon, false, value.get())
        },
        FieldExpr::Short { attrs, name } => {
            let attrs = add_attrs(out, before, attrs.as_slice());
            add_word(out, attrs, name.raw, &name.text)
        },
    }
}

/// Emits the operands of a chain after the first one, each with its operator before it.
#[cycle(code)]
pub fn add_operands<E: Emit, X: Enclose>(
    out: &mut E,
    before: Result<(), E::Fault>,
    operands: &[(Op, Boxed<Expr>)],
) -> Result<(), E::Fault>
    ensures { Adds E.meanings before out.old (stream_of
        (operands_form (map behind_op (map (operand_part X.on) operands.now)))) result out.new }
{
    let mut done = before;
    for (op, operand) in operands {
        done = add_operator(out, done, *op);
        done = add_expr::<E, X>(out, done, false, operand.get());
    }
    done
}

/// Emits the targets of an assignment, each with its operator after it.
#[cycle(code)]
pub fn add_targets<E: Emit, X: Enclose>(
    out: &mut E,
    before: Result<(), E::Fault>,
    point: bool,
    targets: &[(Boxed<Expr>, Op)],
) -> Result<(), E::Fault>
    ensures { let told = map before_op (map (target_part X.on) targets.now) in
        Adds E.meanings before out.old (fed point (targets_form told Done) []) result out.new }
{
    let mut done = before;
    let mut point = point;
    for (target, op) in targets {
        done = add_expr::<E, X>(out, done, point, target.get());
        done = add_assignment(out, done, *op);
        point = false;
    }
    done
}

/// Emits postfix steps. The flags say that the text before them ends in a `.`, and that several of
/// them are method calls: then a break stands before each method call but the first.
#[cycle(code)]
pub fn add_steps<E: Emit, X: Enclose>(
    out: &mut E,
    before: Result<(), E::Fault>,
    point: bool,
    several: bool,
    steps: &[Step],
) -> Result<(), E::Fault>
    ensures { let steps = map (enclose_step X.on) steps.now in
        let form = steps_form several false (map about_step steps) in
        Adds E.meanings before out.old (fed point form []) result out.new }
{
    let mut done = before;
    let mut point = point;
    let mut behind = false;
    for step in steps {
        let method = is_method(step);
        done = add_step_break(out, done, several, behind, method);
        done = add_step::<E, X>(out, done, point, step);
        point = false;
        behind = either(behind, method);
    }
    done
}

/// Emits a step.
#[cycle(code)]
fn add_step<E: Emit, X: Enclose>(
    out: &mut E,
    before: Result<(), E::Fault>,
    point: bool,
    step: &Step,
) -> Result<(), E::Fault>
    ensures { let told = about_step (enclose_step X.on step.now) in
        Adds E.meanings before out.old (fed point told.form []) result out.new }
{
    match step {
        Step::Field { name } => {
            let dot = add_either(out, before, point, b" .", b".");
            add_word(out, dot, name.raw, &name.text)
        },
        Step::TupleIndex { index } => {
            let dot = add_either(out, before, point, b" .", b".");
            add_text(out, dot, index.as_bytes())
        },
        Step::Method {
            name,
            generics,
            args,
        } => {
            let dot = add_either(out, before, point, b" .", b".");
            let name = add_word(out, dot, name.raw, &name.text);
            let generics = add_generics(out, name, generics);
            add_exprs::<E, X>(out, generics, args.as_slice(), b"(", b"()", b")")
        },
        Step::Apply { args } => add_exprs::<E, X>(out, before, args.as_slice(), b"(", b"()", b")"),
        Step::Index { index } => {
            let opener = add_lead(out, before, true, b"[");
            let index = add_expr::<E, X>(out, opener, false, index.get());
            add_close(out, index, false, false, b"[]", b"]")
        },
        Step::Try => add_text(out, before, b"?"),
        Step::Await => add_either(out, before, point, b" .await", b".await"),
    }
}
