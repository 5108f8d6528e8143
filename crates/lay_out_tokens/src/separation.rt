//! What is laid out between two neighbours in a token list.
ghost use Rattle.std.specs.Prelude.{◌≡◌, ◌&&◌, ◌||◌, ◌<◌, ◌≤◌, ◌+◌, not, drop, codes, true};
ghost use Rattle.lay_node.specs.tokens.Pairs as pairs;
ghost use Rattle.lay_node.specs.tokens.Pairs.{ends_turbofish, is_any_word, is_brace, is_bracket, is_free_word};
ghost use Rattle.lay_node.specs.tokens.Pairs.{is_joint_mark, is_joint_neighbour, is_keyword, is_mark, is_nothing};
ghost use Rattle.lay_node.specs.tokens.Pairs.{is_number, is_paren, is_positive, is_punct_neighbour, opens_turbofish};
ghost use Rattle.lay_out_tokens.specs.Fed.{seen_behind};
ghost use Rattle.lay_out_tokens.specs.Separations.{seen_next, seen_of, separation_of, told_of};

use crate::neighbours::kind_of;
use crate::told::Told;
use lay_node::Listed;
use lay_token::{Delim, Kind};

/// What precedes a place in a token list, as far as it decides the layout.
#[derive(Clone, Copy)]
pub struct Seen<'a> {
    /// The last two neighbours before the place.
    pub before: Told<'a>,
    pub last: Told<'a>,
    /// Whether the last one stands where a number may be a tuple index.
    pub place: bool,
    /// Whether the last one is a `<` of a turbofish.
    pub opens: bool,
    /// Whether the last one is the `>` that closes a turbofish.
    pub closes: bool,
    /// How many `<` of a turbofish are open.
    pub count: usize,
}

/// What is laid out between two neighbours. A soft break is a blank or a newline.
#[derive(Clone, Copy)]
pub enum Separation {
    NoBreak,
    SoftBreak,
    HardBreak,
}

impl<'a> Seen<'a> {
    /// The state at the beginning of a list or of a group.
    #[inline(always)]
    pub fn at_start(count: usize) -> Seen<'a>
        ensures { seen_of result ≡ pairs.at_start count }
    {
        Seen {
            before: Told::nothing(),
            last: Told::nothing(),
            place: false,
            opens: false,
            closes: false,
            count,
        }
    }

    /// The state after a group.
    #[inline(always)]
    fn behind_group(delim: Delim, count: usize) -> Seen<'a>
        ensures { seen_of result ≡ pairs.behind_group delim count }
    {
        Seen {
            before: Told::nothing(),
            last: Told::enclosed(delim),
            place: false,
            opens: false,
            closes: false,
            count,
        }
    }

    /// The state after one more token.
    #[tactic(auto, unfolding(crate::specs::Fed::seen_behind))]
    #[inline(always)]
    pub fn behind(&self, token: &'a Listed, next: Told<'a>) -> Seen<'a>
        requires told { told_of next ≡ pairs.Single token.now }
        requires few { self.now.count < usize.MAX }
        ensures seen { seen_of result ≡ seen_behind (seen_of self.now) token.now }
        ensures count { result.count ≤ self.now.count + 1 }
    {
        match kind_of(token) {
            Kind::Opener(_) => Seen::at_start(self.count),
            Kind::Closer(delim) => Seen::behind_group(delim, self.count),
            _ => self.behind_single(next),
        }
    }

    /// The state after a token that is no delimiter.
    #[inline(always)]
    fn behind_single(&self, next: Told<'a>) -> Seen<'a>
        requires { self.now.count < usize.MAX }
        ensures seen { seen_of result ≡ seen_next (seen_of self.now) (told_of next.entry) }
        ensures count { result.count ≤ self.now.count + 1 }
    {
        if is_angle(&next) {
            return self.behind_angle(next);
        }
        Seen {
            before: self.last,
            last: next,
            place: self.is_index_place(),
            opens: false,
            closes: false,
            count: self.count,
        }
    }

    /// The state after a `<` or a `>`.
    #[inline(always)]
    fn behind_angle(&self, next: Told<'a>) -> Seen<'a>
        requires { self.now.count < usize.MAX }
        ensures seen { seen_of result ≡ seen_next (seen_of self.now) (told_of next.entry) }
        ensures count { result.count ≤ self.now.count + 1 }
    {
        Seen {
            before: self.last,
            last: next,
            place: self.is_index_place(),
            opens: self.opens_turbofish(&next),
            closes: self.closes_turbofish(&next),
            count: self.count_behind(&next),
        }
    }

    /// Whether a number here may be a tuple index: after a `.`, but not after `..`.
    #[inline(always)]
    fn is_index_place(&self) -> bool
        ensures { result ≡ pairs.is_index_place (seen_of self.now).before (seen_of self.now).last }
    {
        self.last.is_mark(b'.') && !self.before.is_joint_mark(b'.')
    }

    /// The count of open `<` of a turbofish after this neighbour.
    #[inline(always)]
    fn count_behind(&self, next: &Told<'_>) -> usize
        requires { self.now.count < usize.MAX }
        ensures { result ≡ pairs.count_behind (seen_of self.now) (told_of next.now) }
    {
        if next.is_mark(b'<') {
            return self.raised();
        }
        if next.is_mark(b'>') {
            return self.lowered();
        }
        self.count
    }

    /// The count of open `<` of a turbofish after a `<`.
    #[inline(always)]
    fn raised(&self) -> usize
        requires { self.now.count < usize.MAX }
        ensures { result ≡ pairs.raised (seen_of self.now) }
    {
        if self.may_open_turbofish() {
            return self.count + 1;
        }
        self.count
    }

    /// Whether a `<` here is one of a turbofish.
    #[inline(always)]
    fn may_open_turbofish(&self) -> bool
        ensures { let l = told_of self.now.last in
            result ≡ (is_positive self.now.count || is_joint_mark (codes ":") l) }
    {
        self.count > 0 || self.last.is_joint_mark(b':')
    }

    /// The count of open `<` of a turbofish after a `>`. The `>` of an arrow closes none.
    #[inline(always)]
    fn lowered(&self) -> usize
        ensures { result ≡ pairs.lowered (seen_of self.now) }
    {
        if self.is_arrow() {
            return self.count;
        }
        self.count.saturating_sub(1)
    }

    /// Whether a `>` here ends an arrow.
    #[inline(always)]
    fn is_arrow(&self) -> bool
        ensures { let l = told_of self.now.last in
            result ≡ (is_joint_mark (codes "-") l || is_joint_mark (codes "=") l) }
    {
        self.last.is_joint_mark(b'-') || self.last.is_joint_mark(b'=')
    }

    /// Whether this neighbour is a `<` of a turbofish.
    #[inline(always)]
    fn opens_turbofish(&self, next: &Told<'_>) -> bool
        ensures { result ≡ pairs.opens_turbofish (seen_of self.now) (told_of next.now) }
    {
        next.is_mark(b'<') && self.may_open_turbofish()
    }

    /// Whether this neighbour is a `>` inside a turbofish.
    #[inline(always)]
    fn ends_turbofish(&self, next: &Told<'_>) -> bool
        ensures { result ≡ pairs.ends_turbofish (seen_of self.now) (told_of next.now) }
    {
        next.is_mark(b'>') && self.count > 0
    }

    /// Whether this neighbour is the `>` that closes a turbofish.
    #[inline(always)]
    fn closes_turbofish(&self, next: &Told<'_>) -> bool
        ensures { result ≡ pairs.closes_turbofish (seen_of self.now) (told_of next.now) }
    {
        self.ends_turbofish(next) && self.lowered() == 0
    }
}

/// What is laid out before this neighbour: by the first row of the table that fits.
#[inline(always)]
pub fn between(seen: &Seen<'_>, next: &Told<'_>) -> Separation
    ensures { separation_of result ≡ pairs.between (seen_of seen.now) (told_of next.now) }
{
    if seen.last.is_nothing() {
        return Separation::NoBreak;
    }
    if seen.last.is_line_doc() {
        return Separation::HardBreak;
    }
    if is_beside_doc(seen, next) {
        return Separation::SoftBreak;
    }
    if seen.last.is_joint() {
        return Separation::NoBreak;
    }
    between_tokens(seen, next)
}

/// The rows for neighbours that aren't documentation, if the first isn't joint.
#[inline(always)]
fn between_tokens(seen: &Seen<'_>, next: &Told<'_>) -> Separation
    ensures { separation_of result ≡ pairs.first_row
        (drop 4 (pairs.rows (seen_of seen.now) (told_of next.now))) }
{
    if next.is_punct() {
        return before_mark(seen, next);
    }
    if seen.last.is_punct() {
        return behind_mark(seen, next);
    }
    around_group(seen, next)
}

/// The rows for punctuation that follows.
#[inline(always)]
fn before_mark(seen: &Seen<'_>, next: &Told<'_>) -> Separation
    requires { pairs.is_punct_neighbour (told_of next.now) ≡ true }
    ensures { separation_of result ≡ pairs.first_row
        (drop 4 (pairs.rows (seen_of seen.now) (told_of next.now))) }
{
    if is_end_mark(next) {
        return Separation::NoBreak;
    }
    if seen.last.is_punct() {
        return Separation::SoftBreak;
    }
    if is_point_behind_number(seen, next) {
        return Separation::SoftBreak;
    }
    if is_mark_without_gap(next) {
        return Separation::NoBreak;
    }
    if is_bang_of_call(seen, next) {
        return Separation::NoBreak;
    }
    around_group(seen, next)
}

/// The rows for punctuation that precedes.
#[inline(always)]
fn behind_mark(seen: &Seen<'_>, next: &Told<'_>) -> Separation
    ensures { separation_of result ≡ pairs.first_row
        (drop 9 (pairs.rows (seen_of seen.now) (told_of next.now))) }
{
    if is_behind_point_or_path(seen, next) {
        return Separation::NoBreak;
    }
    if is_behind_bang_or_dollar(seen, next) {
        return Separation::NoBreak;
    }
    if is_attribute(seen, next) {
        return Separation::NoBreak;
    }
    if is_prefix(seen) {
        return Separation::NoBreak;
    }
    around_group(seen, next)
}

/// The rows for a turbofish, and for a group that follows.
#[inline(always)]
fn around_group(seen: &Seen<'_>, next: &Told<'_>) -> Separation
    ensures { separation_of result ≡ pairs.first_row
        (drop 13 (pairs.rows (seen_of seen.now) (told_of next.now))) }
{
    if is_within_turbofish(seen, next) {
        return Separation::NoBreak;
    }
    if is_call_or_index(seen, next) {
        return Separation::NoBreak;
    }
    Separation::SoftBreak
}

#[inline(always)]
fn is_beside_doc(seen: &Seen<'_>, next: &Told<'_>) -> bool
    ensures { result ≡ (pairs.is_doc (seen_of seen.now).last || pairs.is_doc (told_of next.now)) }
{
    seen.last.is_doc() || next.is_doc()
}

/// Whether the neighbour is `<` or `>`.
#[inline(always)]
fn is_angle(next: &Told<'_>) -> bool
    ensures { let r = told_of next.now in
        result ≡ (is_mark (codes "<") r || is_mark (codes ">") r) }
{
    next.is_mark(b'<') || next.is_mark(b'>')
}

/// Whether the neighbour is `,` or `;`.
#[inline(always)]
fn is_end_mark(next: &Told<'_>) -> bool
    ensures { let r = told_of next.now in
        result ≡ (is_mark (codes ",") r || is_mark (codes ";") r) }
{
    next.is_mark(b',') || next.is_mark(b';')
}

#[inline(always)]
fn is_point_behind_number(seen: &Seen<'_>, next: &Told<'_>) -> bool
    ensures { let l = told_of seen.now.last in let r = told_of next.now in
        result ≡ (is_mark (codes ".") r && is_number seen.now.place l) }
{
    next.is_mark(b'.') && seen.last.is_number(seen.place)
}

/// Whether the neighbour is `.`, `?` or `:`.
#[inline(always)]
fn is_mark_without_gap(next: &Told<'_>) -> bool
    ensures { let r = told_of next.now in
        result ≡ (is_mark (codes ".") r || is_mark (codes "?") r || is_mark (codes ":") r) }
{
    next.is_mark(b'.') || next.is_mark(b'?') || next.is_mark(b':')
}

/// Whether the neighbour is the `!` of `name!(..)`.
#[inline(always)]
fn is_bang_of_call(seen: &Seen<'_>, next: &Told<'_>) -> bool
    ensures { let l = told_of seen.now.last in let r = told_of next.now in
        result ≡ (is_mark (codes "!") r && not (is_joint_neighbour r) && is_free_word l) }
{
    next.is_mark(b'!') && !next.is_joint() && seen.last.is_free_word()
}

/// Whether the place follows a `.`, or precedes a word after `::`.
#[inline(always)]
fn is_behind_point_or_path(seen: &Seen<'_>, next: &Told<'_>) -> bool
    ensures { let b = told_of seen.now.before in let l = told_of seen.now.last in
        let r = told_of next.now in
        result ≡ (is_mark (codes ".") l || (is_mark (codes ":") l && is_joint_mark (codes ":") b
        && is_any_word r)) }
{
    seen.last.is_mark(b'.') || is_behind_path(seen, next)
}

#[inline(always)]
fn is_behind_path(seen: &Seen<'_>, next: &Told<'_>) -> bool
    ensures { let b = told_of seen.now.before in let l = told_of seen.now.last in
        let r = told_of next.now in
        result ≡ (is_mark (codes ":") l && is_joint_mark (codes ":") b && is_any_word r) }
{
    seen.last.is_mark(b':') && seen.before.is_joint_mark(b':') && next.is_any_word()
}

#[inline(always)]
fn is_behind_bang_or_dollar(seen: &Seen<'_>, next: &Told<'_>) -> bool
    ensures { let l = told_of seen.now.last in let r = told_of next.now in
        result ≡ ((is_mark (codes "!") l || is_mark (codes "$") l) && not (is_brace r)) }
{
    (seen.last.is_mark(b'!') || seen.last.is_mark(b'$')) && !next.is_brace()
}

/// Whether the neighbour is the brackets of `#[..]`.
#[inline(always)]
fn is_attribute(seen: &Seen<'_>, next: &Told<'_>) -> bool
    ensures { result ≡ (pairs.is_mark (codes "#") (seen_of seen.now).last
        && pairs.is_bracket (told_of next.now)) }
{
    seen.last.is_mark(b'#') && next.is_bracket()
}

/// Whether the place follows a `&`, `*` or `-` that has no left operand.
#[inline(always)]
fn is_prefix(seen: &Seen<'_>) -> bool
    ensures { let b = told_of seen.now.before in let l = told_of seen.now.last in
        result ≡ ((is_mark (codes "&") l || is_mark (codes "*") l || is_mark (codes "-") l)
        && not (is_punct_neighbour b && is_joint_neighbour b)
        && (is_nothing b || (is_punct_neighbour b && not (is_mark (codes "?") b))
        || is_keyword b)) }
{
    is_prefix_mark(&seen.last) && !is_joint_punct(&seen.before) && has_no_operand(&seen.before)
}

/// Whether the neighbour is `&`, `*` or `-`.
#[inline(always)]
fn is_prefix_mark(last: &Told<'_>) -> bool
    ensures { let l = told_of last.now in
        result ≡ (is_mark (codes "&") l || is_mark (codes "*") l || is_mark (codes "-") l) }
{
    last.is_mark(b'&') || last.is_mark(b'*') || last.is_mark(b'-')
}

#[inline(always)]
fn is_joint_punct(before: &Told<'_>) -> bool
    ensures { let b = told_of before.now in
        result ≡ (is_punct_neighbour b && is_joint_neighbour b) }
{
    before.is_punct() && before.is_joint()
}

/// Whether the neighbour is no left operand of an operator after it.
#[inline(always)]
fn has_no_operand(before: &Told<'_>) -> bool
    ensures { let b = told_of before.now in
        result ≡ (is_nothing b || (is_punct_neighbour b && not (is_mark (codes "?") b))
        || is_keyword b) }
{
    before.is_nothing() || (before.is_punct() && !before.is_mark(b'?')) || before.is_keyword()
}

#[inline(always)]
fn is_within_turbofish(seen: &Seen<'_>, next: &Told<'_>) -> bool
    ensures { let s = seen_of seen.now in let r = told_of next.now in
        result ≡ (s.opens || opens_turbofish s r || ends_turbofish s r
        || (s.closes && is_paren r)) }
{
    seen.opens
        || seen.opens_turbofish(next)
        || seen.ends_turbofish(next)
        || (seen.closes && next.is_paren())
}

/// Whether the neighbour is the group of `name(..)` or `name[..]`, or a group after another.
#[inline(always)]
fn is_call_or_index(seen: &Seen<'_>, next: &Told<'_>) -> bool
    ensures { let l = told_of seen.now.last in let r = told_of next.now in
        result ≡ ((is_paren r || is_bracket r) && (is_free_word l || is_paren l || is_bracket l)) }
{
    (next.is_paren() || next.is_bracket()) && is_before_group(&seen.last)
}

#[inline(always)]
fn is_before_group(last: &Told<'_>) -> bool
    ensures { let l = told_of last.now in
        result ≡ (is_free_word l || is_paren l || is_bracket l) }
{
    last.is_free_word() || last.is_paren() || last.is_bracket()
}
