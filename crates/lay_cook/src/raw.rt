//! The values of raw string literals.
ghost use Rattle.std.specs.Prelude.{◌≡◌, encode_utf8_all};
ghost use Rattle.std.specs.Str.{chars};
ghost use Rattle.lay_piece.specs.Value.{raw_value};
ghost use Rattle.lay_cook.specs.Steps.{ClosesRaw};

use lay_token::piece::chars::CharSet;

/// What stands between the quotes of a raw string; `quoted` is the literal after its `r`.
pub fn raw_value(quoted: &str) -> &[u8]
    requires { ClosesRaw (chars quoted.now) }
    ensures { result.now ≡ encode_utf8_all (raw_value (chars quoted.now)) }
{
    let opened = CharSet::Only('#').after(quoted);
    let around = quoted.len() - opened.len() + 1;
    &quoted.as_bytes()[around..quoted.len() - around]
}
