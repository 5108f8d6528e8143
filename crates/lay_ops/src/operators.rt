//! Lookahead: which operator comes next.
ghost use Rattle.std.specs.Prelude.{◌≡◌, ◌∷◌, [], drop, option_and_then};
ghost use Rattle.lay_token.specs.Operators.{op_at};
ghost use Rattle.lay_node.specs.Ahead as ahead;
ghost use Rattle.lay_node.specs.Ahead.{first};
ghost use Rattle.lay_code.specs.Operators as operators;
ghost use Rattle.lay_ops.specs.Leads.{led_by};

use lay_code::{Op, Prefix};
use lay_nest::Cursor;
use lay_read_tokens::front::is_keyword;
use lay_token::Kind;

/// The precedence level of a binary operator: 0 for assignments, up to 10 for `*`.
pub(crate) fn op_level(op: Op) -> u8
    ensures { result ≡ operators.op_level op }
{
    match op {
        Op::Upto | Op::UptoEq => 1,
        Op::OrOr => 2,
        Op::AndAnd => 3,
        Op::EqEq | Op::Differ | Op::Less | Op::Greater | Op::LessEq | Op::GreaterEq => 4,
        Op::BitOr => 5,
        Op::BitXor => 6,
        Op::BitAnd => 7,
        Op::Shl | Op::Shr => 8,
        Op::Add | Op::Sub => 9,
        Op::Mul | Op::Div | Op::Rem => 10,
        _ => 0,
    }
}

/// The binary operator that comes next, if one does. The first character limits which ones it can
/// be.
pub fn binary(at: &Cursor<'_>) -> Option<Op>
    ensures { result ≡ operators.binary at.now }
{
    match at.peek(0) {
        Some(token) => match token.text.as_bytes() {
            [character, ..] => first_of(at, led_by(*character)),
            [] => None,
        },
        None => None,
    }
}

/// The operators that begin with the character.
fn led_by(character: u8) -> &'static [Op]
    ensures { result.now ≡ led_by character }
{
    match character {
        b'=' => &[Op::Set, Op::EqEq],
        b'+' => &[Op::AddSet, Op::Add],
        b'-' => &[Op::SubSet, Op::Sub],
        b'*' => &[Op::MulSet, Op::Mul],
        b'/' => &[Op::DivSet, Op::Div],
        b'%' => &[Op::RemSet, Op::Rem],
        b'^' => &[Op::XorSet, Op::BitXor],
        b'&' => &[Op::AndSet, Op::AndAnd, Op::BitAnd],
        b'|' => &[Op::OrSet, Op::OrOr, Op::BitOr],
        b'<' => &[Op::ShlSet, Op::Less, Op::LessEq, Op::Shl],
        b'>' => &[Op::ShrSet, Op::Greater, Op::GreaterEq, Op::Shr],
        b'.' => &[Op::Upto, Op::UptoEq],
        b'!' => &[Op::Differ],
        _ => &[],
    }
}

/// The operator of the list that comes next, if one does.
fn first_of(at: &Cursor<'_>, ops: &[Op]) -> Option<Op>
    ensures { result ≡ option_and_then (operators.named ops.now) (op_at at.now) }
{
    let mut rest = ops;
    while let [op, others @ ..] = rest {
        if at.op_is(op.text()) {
            return Some(*op);
        }
        rest = others;
    }
    None
}

/// Whether the keyword comes next after `others` tokens.
pub(crate) fn is_word(at: &Cursor<'_>, others: usize, word: &[u8]) -> bool
    ensures { result ≡ first (ahead.is_keyword word.now) (drop others at.now) }
{
    match at.peek(others) {
        Some(token) => is_keyword(token, word),
        None => false,
    }
}

/// The prefix operator that comes next, if one does.
#[tactic(auto, unfolding(lay_code::specs::Operators::prefix))]
pub fn prefix(at: &Cursor<'_>) -> Option<Prefix>
    ensures { result ≡ operators.prefix at.now }
{
    match at.peek(0) {
        Some(token) if matches!(token.kind, Kind::Punct) => match token.text.as_bytes() {
            b"-" => Some(Prefix::Neg),
            b"*" => Some(Prefix::Deref),
            b"!" => Some(Prefix::Bang),
            b"&" => Some(reference(at)),
            _ => None,
        },
        _ => None,
    }
}

/// The prefix operator that begins with `&`, which comes next.
fn reference(at: &Cursor<'_>) -> Prefix
    ensures { result ≡ operators.amp_by (drop 1 at.now) }
{
    if is_word(at, 1, b"mut") {
        Prefix::AmpMut
    } else if !is_word(at, 1, b"raw") {
        Prefix::Amp
    } else if is_word(at, 2, b"const") {
        Prefix::RawConst
    } else if is_word(at, 2, b"mut") {
        Prefix::RawMut
    } else {
        Prefix::Amp
    }
}

/// The number of tokens of a prefix operator.
pub fn prefix_length(prefix: Prefix) -> usize
    ensures { result ≡ operators.prefix_length prefix }
{
    match prefix {
        Prefix::AmpMut => 2,
        Prefix::RawConst | Prefix::RawMut => 3,
        _ => 1,
    }
}
