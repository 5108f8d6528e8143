//! The layout of token lists and groups.
ghost use Rattle.std.specs.Prelude.{◌≡◌, ◌≤◌, ◌+◌, [], ◌∷◌, ◌++◌, IsTrue, IfOk};
ghost use Rattle.lay_piece.specs.Forms.{closing, opening};
ghost use Rattle.lay_token.specs.Delimiters.{is_closer};
ghost use Rattle.lay_layout.specs.Machine.{IsNested};
ghost use Rattle.lay_stream.specs.Fed.{Did};
ghost use Rattle.lay_form.specs.Form.{Done};
ghost use Rattle.lay_form.specs.Layout.{break_of};
ghost use Rattle.lay_form.specs.Stream.{stream_of};
ghost use Rattle.lay_node.specs.tokens.Lists.{ended_by, ends_in_line, form_of_grouping, group_form, token_list};
ghost use Rattle.lay_node.specs.tokens.Listing.{in_groups, is_balanced, listed_form};
ghost use Rattle.lay_node.specs.tokens.Pairs.{at_start};
ghost use Rattle.lay_node.specs.tokens.Pairs as pairs;
ghost use Rattle.lay_out_tokens.specs.Fed.{closed, closes_at_once, closing_space, empty_group, fed_closer, fed_gap};
ghost use Rattle.lay_out_tokens.specs.Fed.{fed_opener, fed_token, opened, opening_space};
ghost use Rattle.lay_out_tokens.specs.Separations.{seen_of, separation_of, told_of};
ghost use Rattle.lay_out_tokens.specs.Parts.{enclosed};

use crate::neighbours::kind_of;
use crate::notation::{
    CLOSING_HARD_BREAK, CLOSING_SOFT_BREAK, CLOSING_SPACE_BREAK, HARD_BREAK, SOFT_BREAK,
    SPACE_BREAK,
};
use crate::separation::{Seen, Separation, between};
use crate::told::Told;
use crate::words::{put_doc, put_token};
use lay_node::{Group, Listed, Tokens};
use lay_stream::Emit;
use lay_token::{Break, Delim, Kind};

/// Emits the layout of a token list.
pub fn put_tokens<E: Emit>(out: &mut E, tokens: &Tokens) -> Result<(), E::Fault>
    ensures { Did E.meanings out.old (stream_of (token_list tokens.now)) result out.new }
{
    out.begin(false, 4)?;
    let line = put_list(out, tokens.as_slice())?;
    out.end()?;
    put_list_end(out, line)
}

/// Emits a newline after a list, if it ends in a line comment.
fn put_list_end<E: Emit>(out: &mut E, line: bool) -> Result<(), E::Fault>
    ensures { Did E.meanings out.old (stream_of (ended_by line)) result out.new }
{
    if line {
        return out.brk(HARD_BREAK);
    }
    Ok(())
}

/// Emits the layout of a group.
pub fn put_group<E: Emit>(out: &mut E, group: &Group) -> Result<(), E::Fault>
    ensures { Did E.meanings out.old (stream_of (group_form group.now Done)) result out.new }
{
    put_enclosed(out, group.delim, &group.tokens)
}

/// Emits the layout of a token list in delimiters, which is that of a group.
pub fn put_enclosed<E: Emit>(out: &mut E, delim: Delim, tokens: &Tokens) -> Result<(), E::Fault>
    ensures { Did E.meanings out.old (stream_of (enclosed delim tokens.now)) result out.new }
{
    let tokens = tokens.as_slice();
    if tokens.is_empty() {
        return put_empty_group(out, delim);
    }
    put_full_group(out, delim, tokens)
}

/// Emits a group of these tokens.
fn put_full_group<E: Emit>(out: &mut E, delim: Delim, tokens: &[Listed]) -> Result<(), E::Fault>
    requires { IsTrue (is_balanced tokens.now) }
    ensures { let within = stream_of (form_of_grouping (at_start 0) (in_groups tokens.now)) in
        Did E.meanings out.old (opened delim ++ (within ++ closed (ends_in_line tokens.now) delim))
        result out.new }
{
    open_group(out, delim)?;
    let line = put_list(out, tokens)?;
    close_group(out, delim, line)
}

/// Emits tokens whose delimiters are balanced, and says whether the last one is a line comment.
fn put_list<E: Emit>(out: &mut E, tokens: &[Listed]) -> Result<bool, E::Fault>
    requires { IsTrue (is_balanced tokens.now) }
    ensures did { let form = form_of_grouping (at_start 0) (in_groups tokens.now) in
        Did E.meanings out.old (stream_of form) result out.new }
    ensures line { IfOk result (λ line. line ≡ ends_in_line tokens.now) }
{
    let mut seen = Seen::at_start(0);
    let mut rest = tokens;
    while let Some((token, more)) = rest.split_first() {
        let next = Told::single(token);
        put_next(out, &seen, token, &next, more)?;
        seen = seen.behind(token, next);
        rest = more;
    }
    Ok(seen.last.is_line_doc())
}

/// Emits one token, which others follow.
#[tactic(auto, unfolding(crate::specs::Fed::fed_token))]
#[inline(always)]
fn put_next<E: Emit>(
    out: &mut E,
    seen: &Seen<'_>,
    token: &Listed,
    next: &Told<'_>,
    more: &[Listed],
) -> Result<(), E::Fault>
    requires told { told_of next.now ≡ pairs.Single token.now }
    requires nested { IsNested (E.meanings.groups out.old)
        (fed_token (seen_of seen.now) token.now more.now) }
    ensures { Did E.meanings out.old (fed_token (seen_of seen.now) token.now more.now) result
        out.new }
{
    match kind_of(token) {
        Kind::Opener(delim) => put_opener(out, seen, delim, closes_at_once(more)),
        Kind::Closer(delim) => put_closer(out, seen, delim),
        _ => put_single(out, seen, token, next),
    }
}

/// Whether the next token is a closer.
fn closes_at_once(more: &[Listed]) -> bool
    ensures { result ≡ closes_at_once more.now }
{
    match more {
        [] => false,
        [first, ..] => is_closer(kind_of(first)),
    }
}

fn is_closer(kind: Kind) -> bool
    ensures { result ≡ is_closer kind }
{
    matches!(kind, Kind::Closer(_))
}

/// Emits the opener of a group, or the whole of an empty group.
#[inline(always)]
fn put_opener<E: Emit>(
    out: &mut E,
    seen: &Seen<'_>,
    delim: Delim,
    empty: bool,
) -> Result<(), E::Fault>
    ensures { let gap = fed_gap (pairs.between (seen_of seen.now) (pairs.Enclosed delim)) in
        Did E.meanings out.old (gap ++ fed_opener empty delim) result out.new }
{
    put_gap(out, between(seen, &Told::enclosed(delim)))?;
    if empty {
        return put_empty_group(out, delim);
    }
    open_group(out, delim)
}

/// Emits the closer of a group, unless the group is empty.
#[inline(always)]
fn put_closer<E: Emit>(out: &mut E, seen: &Seen<'_>, delim: Delim) -> Result<(), E::Fault>
    requires { IsNested (E.meanings.groups out.old) (fed_closer (seen_of seen.now) delim) }
    ensures { Did E.meanings out.old (fed_closer (seen_of seen.now) delim) result out.new }
{
    if seen.last.is_nothing() {
        return Ok(());
    }
    close_group(out, delim, seen.last.is_line_doc())
}

/// Emits a token that is no delimiter.
#[inline(always)]
fn put_single<E: Emit>(
    out: &mut E,
    seen: &Seen<'_>,
    token: &Listed,
    next: &Told<'_>,
) -> Result<(), E::Fault>
    requires { told_of next.now ≡ pairs.Single token.now }
    ensures { let gap = fed_gap (pairs.between (seen_of seen.now) (pairs.Single token.now)) in
        Did E.meanings out.old (gap ++ stream_of (listed_form token.now Done)) result out.new }
{
    put_gap(out, between(seen, next))?;
    put_listed(out, token)
}

fn put_listed<E: Emit>(out: &mut E, token: &Listed) -> Result<(), E::Fault>
    ensures { Did E.meanings out.old (stream_of (listed_form token.now Done)) result out.new }
{
    match token {
        Listed::Token { kind, text, .. } => put_token(out, *kind, text.as_bytes()),
        Listed::Doc { inner, text } => put_doc(out, *inner, text.as_bytes()),
    }
}

/// Emits what stands between two neighbours.
fn put_gap<E: Emit>(out: &mut E, separation: Separation) -> Result<(), E::Fault>
    ensures { Did E.meanings out.old (fed_gap (separation_of separation)) result out.new }
{
    match separation {
        Separation::NoBreak => Ok(()),
        Separation::SoftBreak => out.brk(SPACE_BREAK),
        Separation::HardBreak => out.brk(HARD_BREAK),
    }
}

/// Emits an empty group, which is one text.
fn put_empty_group<E: Emit>(out: &mut E, delim: Delim) -> Result<(), E::Fault>
    ensures { Did E.meanings out.old (empty_group delim) result out.new }
{
    match delim {
        Delim::Paren => out.text(b"()"),
        Delim::Bracket => out.text(b"[]"),
        Delim::Brace => out.text(b"{}"),
    }
}

/// Opens a group that isn't empty.
fn open_group<E: Emit>(out: &mut E, delim: Delim) -> Result<(), E::Fault>
    ensures { Did E.meanings out.old (opened delim) result out.new }
{
    out.begin(true, 4)?;
    out.text(opening(delim))?;
    out.brk(opening_break(delim))?;
    out.begin(false, 0)
}

/// Closes a group that isn't empty; `line` says that its last token is a line comment.
fn close_group<E: Emit>(out: &mut E, delim: Delim, line: bool) -> Result<(), E::Fault>
    requires { IsNested (E.meanings.groups out.old) (closed line delim) }
    ensures { Did E.meanings out.old (closed line delim) result out.new }
{
    out.end()?;
    out.brk(closing_break(delim, line))?;
    out.text(closing(delim))?;
    out.end()
}

fn opening(delim: Delim) -> &'static [u8]
    ensures { result.now ≡ opening delim ∷ [] }
{
    match delim {
        Delim::Paren => b"(",
        Delim::Bracket => b"[",
        Delim::Brace => b"{",
    }
}

fn closing(delim: Delim) -> &'static [u8]
    ensures { result.now ≡ closing delim ∷ [] }
{
    match delim {
        Delim::Paren => b")",
        Delim::Bracket => b"]",
        Delim::Brace => b"}",
    }
}

/// The break after an opener; inside braces it is a blank if it is no newline.
fn opening_break(delim: Delim) -> Break
    ensures { result ≡ break_of (opening_space delim) }
{
    match delim {
        Delim::Brace => SPACE_BREAK,
        _ => SOFT_BREAK,
    }
}

/// The break before a closer.
fn closing_break(delim: Delim, line: bool) -> Break
    ensures { result ≡ break_of (closing_space line delim) }
{
    if line {
        return CLOSING_HARD_BREAK;
    }
    match delim {
        Delim::Brace => CLOSING_SPACE_BREAK,
        _ => CLOSING_SOFT_BREAK,
    }
}
