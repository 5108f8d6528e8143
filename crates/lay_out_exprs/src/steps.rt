//! What is laid out around postfix steps: with several method calls, each but the first can be on a
//! line of its own.
ghost use Rattle.std.specs.Prelude.{◌≡◌, ◌&&◌, [], ◌∷◌, cond, map, nat_le, pos, true, false, OnOk};
ghost use Rattle.lay_layout.specs.Machine.{IsNested};
ghost use Rattle.lay_layout.specs.declared.layout.Tok.TheVariants as tok;
ghost use Rattle.lay_form.specs.Form.{Soft};
ghost use Rattle.lay_form.specs.Layout.{break_of};
ghost use Rattle.lay_code.specs.nodes.Code.{about_step};
ghost use Rattle.lay_code.specs.nodes.Exprs.{is_method, methods};
ghost use Rattle.lay_out_exprs.specs.Parts.{steps_closed};
ghost use Rattle.lay_out_types.specs.Calls.{Adds};

use crate::flags::{both, either};
use lay_code::Step;
use lay_out_tokens::notation::SOFT_BREAK;
use lay_out_types::lists::add_end;
use lay_stream::Emit;

/// Whether several of the steps are method calls.
pub fn are_several_methods(steps: &[Step]) -> bool
    ensures { result ≡ nat_le 2 (methods (map about_step steps.now)) }
{
    let mut found = false;
    for step in steps {
        let method = is_method(step);
        if both(found, method) {
            return true;
        }
        found = either(found, method);
    }
    false
}

/// Whether a step is a method call.
pub fn is_method(step: &Step) -> bool
    ensures { result ≡ is_method (about_step step.now).kind }
{
    matches!(step, Step::Method { .. })
}

/// Emits what opens a postfix expression: a group, if it has several method calls.
pub fn add_steps_start<E: Emit>(
    out: &mut E,
    before: Result<(), E::Fault>,
    several: bool,
) -> Result<(), E::Fault>
    ensures { Adds E.meanings before out.old (cond several (tok.Begin true (pos 4) ∷ []) []) result
        out.new }
{
    before?;
    if several {
        return out.begin(true, 4);
    }
    Ok(())
}

/// Emits what stands before a step: a break, if there are several method calls, this is one, and it
/// isn't the first.
pub fn add_step_break<E: Emit>(
    out: &mut E,
    before: Result<(), E::Fault>,
    several: bool,
    behind: bool,
    method: bool,
) -> Result<(), E::Fault>
    ensures { let wanted = several && (behind && method) in
        Adds E.meanings before out.old (cond wanted (tok.Break (break_of (Soft false 0)) ∷ []) [])
        result out.new }
{
    before?;
    if several && behind && method {
        return out.brk(SOFT_BREAK);
    }
    Ok(())
}

/// Emits what closes a postfix expression.
pub fn add_steps_end<E: Emit>(
    out: &mut E,
    before: Result<(), E::Fault>,
    several: bool,
) -> Result<(), E::Fault>
    requires { OnOk before (IsNested (E.meanings.groups out.old) (steps_closed several)) }
    ensures { Adds E.meanings before out.old (steps_closed several) result out.new }
{
    if several {
        return add_end(out, before);
    }
    before
}
