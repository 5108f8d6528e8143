//! Facts about patterns and paths that the rules need.
ghost use Rattle.std.specs.Prelude.{◌≡◌, option_copied};
ghost use Rattle.lay_node.specs.Words as words;
ghost use Rattle.lay_node.specs.nodes.Patterns as nodes;
ghost use Rattle.lay_node.specs.nodes.Patterns.{about_pat};
ghost use Rattle.lay_node.specs.nodes.Types as types;

use lay_node::{Args, Pat, Path, PathStart, Word};
use lay_token::word::{Class, word_class};

/// Whether the pattern is a name alone, which it binds.
#[tactic(auto, using(crate::proofs::Steps::short_is))]
pub(crate) fn is_short(pat: &Pat) -> bool
    ensures { result ≡ (about_pat pat.now).short }
{
    match pat {
        Pat::Bind { of, .. } => of.is_none(),
        _ => false,
    }
}

/// Whether the pattern is a range.
#[tactic(auto, using(crate::proofs::Steps::span_is))]
pub(crate) fn is_span(pat: &Pat) -> bool
    ensures { result ≡ (about_pat pat.now).span }
{
    matches!(pat, Pat::Span { .. })
}

/// Whether the pattern is `..` alone.
#[tactic(auto, using(crate::proofs::Steps::rest_is))]
pub fn is_rest(pat: &Pat) -> bool
    ensures { result ≡ (about_pat pat.now).rest }
{
    matches!(pat, Pat::Rest)
}

/// The word of a path that is one word without generic arguments.
pub(crate) fn lone_word(path: &Path) -> Option<&Word>
    ensures { option_copied result ≡ types.lone_word path.now }
{
    if !matches!(path.start, PathStart::Local) {
        return None;
    }
    match path.segments.as_slice() {
        [segment] if matches!(segment.1, Args::None) => Some(&segment.0),
        _ => None,
    }
}

/// Whether the word is a name.
pub fn is_name(word: &Word) -> bool
    ensures { result ≡ words.is_name word.now.raw word.now.text }
{
    word.raw || matches!(word_class(word.text.as_bytes()), Class::Plain)
}

/// Whether the word is `self`.
pub fn is_self(word: &Word) -> bool
    ensures { result ≡ nodes.is_self word.now }
{
    !word.raw && word.text.as_bytes() == b"self".as_slice()
}
