//! The layout of branches and arms.
ghost use Rattle.std.specs.Prelude.{Bool, [], ◌∷◌, ◌++◌, map, option_map, codes};
ghost use Rattle.lay_stream.specs.Fed.{Did};
ghost use Rattle.lay_form.specs.Form.{Blank};
ghost use Rattle.lay_form.specs.Notation.{H, body, each};
ghost use Rattle.lay_form.specs.Stream.{stream_of};
ghost use Rattle.lay_node.specs.nodes.Attr.{attr_form};
ghost use Rattle.lay_code.specs.nodes.Blocks.{guard_form};
ghost use Rattle.lay_code.specs.nodes.Code.{about_arm, about_block, about_expr};
ghost use Rattle.lay_code.specs.nodes.Exprs.{else_branch_form};
ghost use Rattle.lay_paren_defs.specs.Enclosed.{enclose_arm, enclose_block, enclose_branch, part};
ghost use Rattle.lay_out_exprs.specs.Blocks.{else_between, lead_row};
ghost use Rattle.lay_out_types.specs.Calls.{Adds};
ghost use Rattle.lay_out_types.specs.Rows.{row};
ghost use Rattle.lay_out_code.specs.Parts.{arm_told, branch_told, head_end};

use crate::blocks::add_soft;
use crate::conditions::add_condition;
use crate::exprs::{add_body_part, add_expr};
use crate::items::add_inner_attrs;
use lay_code::{Arm, Attr, Block, Boxed, Branch, Expr};
use lay_out_exprs::blocks::{add_condition_lead, add_else_word};
use lay_out_exprs::bodies::{arm_body_braces, close_arm, open_arm};
use lay_out_exprs::flags::both;
use lay_out_heads::calls::add_break;
use lay_out_heads::loops::{close_body, open_body};
use lay_out_pats::{add_attrs, add_group, add_pat};
use lay_out_tokens::HARD_BREAK;
use lay_out_tokens::notation::NEVER_BREAK;
use lay_out_types::calls::add_text;
use lay_out_types::lists::add_end;
use lay_paren_defs::{AsIs, Enclose};
use lay_stream::Emit;

/// Emits `match` and the expression that is matched, in a group of their own.
#[cycle(code)]
pub fn add_scrutinee<E: Emit, X: Enclose>(
    out: &mut E,
    before: Result<(), E::Fault>,
    scrutinee: &Expr,
) -> Result<(), E::Fault>
    ensures { let told = stream_of (about_expr (part X.on scrutinee.now)).form in
        Adds E.meanings before out.old (lead_row (codes "match ") ++ (told ++ head_end)) result
        out.new }
{
    let lead = add_condition_lead(out, before, b"match ");
    let scrutinee = add_expr::<E, X>(out, lead, false, scrutinee);
    add_end(out, scrutinee)
}

/// Emits branches, with `else` between them.
#[cycle(code)]
pub fn add_branches<E: Emit, X: Enclose>(
    out: &mut E,
    before: Result<(), E::Fault>,
    branches: &[Branch],
) -> Result<(), E::Fault>
    ensures { let parts = map branch_told (map (enclose_branch X.on) branches.now) in
        Adds E.meanings before out.old (row [] else_between parts) result out.new }
{
    let mut done = before;
    for (index, branch) in branches.iter().enumerate() {
        done = add_else_word(out, done, index == 0);
        done = add_condition::<E, X>(out, done, b"if ", &branch.condition);
        done = add_soft::<E, X>(out, done, &branch.body);
    }
    done
}

/// Emits the last `else` and its block, if there is one.
#[cycle(code)]
pub fn add_else<E: Emit, X: Enclose>(
    out: &mut E,
    before: Result<(), E::Fault>,
    otherwise: &Option<Block>,
) -> Result<(), E::Fault>
    ensures { let told = option_map about_block (option_map (enclose_block X.on) otherwise.now) in
        Adds E.meanings before out.old (stream_of (else_branch_form told)) result out.new }
{
    match otherwise {
        None => before,
        Some(block) => {
            let word = add_text(out, before, b" else");
            add_soft::<E, X>(out, word, block)
        },
    }
}

/// Emits inner attributes and arms in braces, each on a line of its own.
#[cycle(code)]
pub fn add_arms<E: Emit, X: Enclose>(
    out: &mut E,
    before: Result<(), E::Fault>,
    attrs: &[Attr],
    arms: &[Arm],
) -> Result<(), E::Fault>
    ensures { let arms = map (enclose_arm X.on) arms.now in
        let parts = map attr_form attrs.now ++ map arm_told arms in
        Adds E.meanings before out.old (stream_of (body (Blank ∷ []) [] parts)) result out.new }
{
    if both(attrs.is_empty(), arms.is_empty()) {
        return add_text(out, before, b" {}");
    }
    let opened = open_body(out, before, true);
    let attrs = add_inner_attrs(out, opened, attrs);
    let arms = add_arm_lines::<E, X>(out, attrs, arms);
    close_body(out, arms)
}

/// Emits arms, each after a newline.
#[cycle(code)]
fn add_arm_lines<E: Emit, X: Enclose>(
    out: &mut E,
    before: Result<(), E::Fault>,
    arms: &[Arm],
) -> Result<(), E::Fault>
    ensures { let arms = map (enclose_arm X.on) arms.now in
        Adds E.meanings before out.old (stream_of (each H (map arm_told arms))) result out.new }
{
    let mut done = before;
    for arm in arms {
        done = add_break(out, done, HARD_BREAK);
        done = add_arm::<E, X>(out, done, arm);
    }
    done
}

/// Emits the layout of an arm, which is the same whether or not it is the last.
pub fn put_arm<E: Emit>(out: &mut E, arm: &Arm) -> Result<(), E::Fault>
    ensures { (last : Bool) → Did E.meanings out.old (stream_of ((about_arm arm.now).form last))
        result out.new }
{
    add_arm::<E, AsIs>(out, Ok(()), arm)
}

/// Emits an arm.
#[cycle(code)]
fn add_arm<E: Emit, X: Enclose>(
    out: &mut E,
    before: Result<(), E::Fault>,
    arm: &Arm,
) -> Result<(), E::Fault>
    ensures { Adds E.meanings before out.old (stream_of (arm_told (enclose_arm X.on arm.now)))
        result out.new }
{
    let attrs = add_attrs(out, before, arm.attrs.as_slice());
    let group = add_group(out, attrs);
    let pat = add_pat(out, group, &arm.pat);
    let guard = add_guard::<E, X>(out, pat, &arm.guard);
    let head = add_end(out, guard);
    let arrow = add_text(out, head, b" => ");
    let never = add_break(out, arrow, NEVER_BREAK);
    let braces = arm_body_braces::<X>(arm.body.get());
    let opened = open_arm(out, never, braces);
    let inner = add_body_part::<E, X>(out, opened, arm.body.get());
    close_arm(out, inner, braces)
}

/// Emits an `if` and the guard of an arm, if it has one.
#[cycle(code)]
fn add_guard<E: Emit, X: Enclose>(
    out: &mut E,
    before: Result<(), E::Fault>,
    guard: &Option<Boxed<Expr>>,
) -> Result<(), E::Fault>
    ensures { Adds E.meanings before out.old (stream_of
        (guard_form (option_map about_expr (option_map (part X.on) guard.now)))) result out.new }
{
    match guard {
        None => before,
        Some(guard) => {
            let word = add_text(out, before, b" if ");
            add_expr::<E, X>(out, word, false, guard.get())
        },
    }
}
