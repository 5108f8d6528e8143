//! A text without its first or last characters.
ghost use Rattle.std.specs.Prelude.{◌≡◌, ◌<◌, ◌-◌, ◌==◌, ◌∷◌, [], length, take, drop, encode_utf8_all, MatchOption, IfSome};
ghost use Rattle.std.specs.List.{list_any};
ghost use Rattle.std.specs.Str.{chars};
ghost use Rattle.lay_piece.specs.Chars.{without_end};

use lay_token::piece::chars::first;

/// The text without its first character.
pub fn behind_first(s: &str) -> &str
    ensures { chars result.now ≡ drop 1 (chars s.now) }
{
    match first(s) {
        Some((_, tail)) => tail,
        None => s,
    }
}

/// The text without its last character.
pub fn before_last(s: &str) -> &str
    ensures { chars result.now ≡ take (length (chars s.now) - 1) (chars s.now) }
{
    let mut rest = s.chars();
    match rest.next_back() {
        Some(_) => rest.as_str(),
        None => s,
    }
}

/// The bytes of the text without this ASCII character at its end, however often it stands there.
pub fn without_end(byte: u8, s: &str) -> &[u8]
    requires { byte < 128 }
    ensures { result.now ≡ encode_utf8_all (without_end byte (chars s.now)) }
{
    let mut bytes = s.as_bytes();
    while let Some((last, front)) = bytes.split_last() {
        if *last != byte {
            break;
        }
        bytes = front;
    }
    bytes
}

/// Whether the text holds an LF.
pub fn has_line_feed(s: &str) -> bool
    ensures { result ≡ list_any (λ c. c == 10) (chars s.now) }
{
    s.as_bytes().contains(&b'\n')
}
