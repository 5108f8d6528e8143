//! Words as UTF-8.
ghost use Rattle.std.specs.Prelude.{◌≡◌, IfOk, MatchOption, false, true, map};
ghost use Rattle.std.specs.List.{list_all};
ghost use Rattle.std.specs.Str.{is_utf8};

use lay_text::{NoMemory, Text};
use std::alloc::Global;
use std::str;

/// All words as `str`, or `None` if one isn't UTF-8.
pub fn texts(alloc: Global, words: &[Text]) -> Result<Option<Vec<&str>>, NoMemory>
    ensures { IfOk result (λ answer. MatchOption answer (list_all is_utf8 words.now ≡ false)
        (λ texts. (list_all is_utf8 words.now ≡ true)
        × (map (λ text. text.now) texts.items ≡ words.now))) }
{
    let mut texts = Vec::new(alloc);
    for word in words {
        match text(word) {
            Some(text) => texts.push(text)?,
            None => return Ok(None),
        }
    }
    Ok(Some(texts))
}

/// A word as `str`, if it is UTF-8.
fn text(word: &Text) -> Option<&str>
    ensures { MatchOption result (is_utf8 word.now ≡ false)
        (λ text. (is_utf8 word.now ≡ true) × (text.now ≡ word.now)) }
{
    match str::from_utf8(word.as_bytes()) {
        Ok(text) => Some(text),
        Err(_) => None,
    }
}
