//! What is laid out around the bodies of arms and closures.
ghost use Rattle.std.specs.Prelude.{◌≡◌, OnOk};
ghost use Rattle.lay_layout.specs.Machine.{IsNested};
ghost use Rattle.lay_code.specs.nodes.Bodies.{braces_of};
ghost use Rattle.lay_code.specs.nodes.Code.{about_expr};
ghost use Rattle.lay_code.specs.nodes.Exprs.{body_braces};
ghost use Rattle.lay_paren_defs.specs.Enclosed.{body_part};
ghost use Rattle.lay_out_types.specs.Calls.{Adds};
ghost use Rattle.lay_out_exprs.specs.Bodies.{arm_closed, arm_opened, closure_closed, closure_opened, seen_as};

use lay_code::Expr;
use lay_layout::{Break, Mark};
use lay_ops::may_wear_braces;
use lay_out_heads::calls::{add_break, add_inside};
use lay_out_tokens::notation::{CLOSING_SOFT_BREAK, NEVER_BREAK, SOFT_BREAK};
use lay_out_types::calls::add_text;
use lay_out_types::lists::add_end;
use lay_paren_defs::{Enclose, is_body_enclosed};
use lay_stream::Emit;

/// The layout of the body of an arm or of a closure.
#[derive(Clone, Copy)]
pub enum BodyBraces {
    /// As it is; in an arm with a comma after it.
    Bare,
    /// As it is.
    Unseen,
    /// In braces if it is broken; otherwise as it is, in an arm with a comma after it.
    Marked,
}

/// The break before a body, with a `{` before its newline.
const OPENING_BRACE_BREAK: Break = Break {
    before: Mark::OpenBrace,
    ..SOFT_BREAK
};

/// The break after a body, with a `}` after its newline.
const CLOSING_BRACE_BREAK: Break = Break {
    after: Mark::CloseBrace,
    ..CLOSING_SOFT_BREAK
};

/// The break after the body of an arm, with a `}` after its newline, or a `,` if it is no newline.
const CLOSING_ARM_BREAK: Break = Break {
    instead: Mark::Comma,
    ..CLOSING_BRACE_BREAK
};

/// The layout of the body of an arm, if parts get parentheses: in braces if it gets them.
pub fn arm_body_braces<X: Enclose>(body: &Expr) -> BodyBraces
    ensures { seen_as result ≡ braces_of (about_expr (body_part X.on body.now)).kind }
{
    if is_body_enclosed::<X>(body) {
        return BodyBraces::Marked;
    }
    arm_braces(body)
}

/// The layout of the body of a closure, if parts get parentheses: in braces if it gets them.
pub fn closure_body_braces<X: Enclose>(body: &Expr) -> BodyBraces
    ensures { seen_as result ≡ body_braces (about_expr (body_part X.on body.now)) }
{
    if is_body_enclosed::<X>(body) {
        return BodyBraces::Marked;
    }
    closure_braces(body)
}

/// The layout of the body of an arm: a macro call and an unlabelled block as they are, all else in
/// braces if it is broken.
fn arm_braces(body: &Expr) -> BodyBraces
    ensures { seen_as result ≡ braces_of (about_expr body.now).kind }
{
    match body {
        Expr::Call { .. } => BodyBraces::Bare,
        Expr::Block { label, .. } => match label {
            None => BodyBraces::Unseen,
            Some(_) => BodyBraces::Marked,
        },
        _ => BodyBraces::Marked,
    }
}

/// The layout of the body of a closure: as of an arm, but as it is if it can't have braces.
fn closure_braces(body: &Expr) -> BodyBraces
    ensures { seen_as result ≡ body_braces (about_expr body.now) }
{
    if may_wear_braces(body) {
        arm_braces(body)
    } else {
        BodyBraces::Bare
    }
}

/// Emits what stands before the body of an arm.
pub fn open_arm<E: Emit>(
    out: &mut E,
    before: Result<(), E::Fault>,
    braces: BodyBraces,
) -> Result<(), E::Fault>
    ensures { Adds E.meanings before out.old (arm_opened (seen_as braces)) result out.new }
{
    match braces {
        BodyBraces::Marked => {
            let group = add_inside(out, before);
            add_break(out, group, OPENING_BRACE_BREAK)
        },
        _ => before,
    }
}

/// Emits what stands after the body of an arm.
pub fn close_arm<E: Emit>(
    out: &mut E,
    before: Result<(), E::Fault>,
    braces: BodyBraces,
) -> Result<(), E::Fault>
    requires { OnOk before (IsNested (E.meanings.groups out.old) (arm_closed (seen_as braces))) }
    ensures { Adds E.meanings before out.old (arm_closed (seen_as braces)) result out.new }
{
    match braces {
        BodyBraces::Bare => add_text(out, before, b","),
        BodyBraces::Unseen => before,
        BodyBraces::Marked => {
            let line = add_break(out, before, CLOSING_ARM_BREAK);
            add_end(out, line)
        },
    }
}

/// Emits what stands before the body of a closure.
pub fn open_closure<E: Emit>(
    out: &mut E,
    before: Result<(), E::Fault>,
    braces: BodyBraces,
) -> Result<(), E::Fault>
    ensures { Adds E.meanings before out.old (closure_opened (seen_as braces)) result out.new }
{
    match braces {
        BodyBraces::Marked => {
            let never = add_break(out, before, NEVER_BREAK);
            let group = add_inside(out, never);
            add_break(out, group, OPENING_BRACE_BREAK)
        },
        _ => before,
    }
}

/// Emits what stands after the body of a closure.
pub fn close_closure<E: Emit>(
    out: &mut E,
    before: Result<(), E::Fault>,
    braces: BodyBraces,
) -> Result<(), E::Fault>
    requires { OnOk before (IsNested (E.meanings.groups out.old)
        (closure_closed (seen_as braces))) }
    ensures { Adds E.meanings before out.old (closure_closed (seen_as braces)) result out.new }
{
    match braces {
        BodyBraces::Marked => {
            let line = add_break(out, before, CLOSING_BRACE_BREAK);
            add_end(out, line)
        },
        _ => before,
    }
}
