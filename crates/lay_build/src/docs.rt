//! Builders of documentation.
ghost use Rattle.std.specs.Prelude.{◌≡◌, MatchBool};
ghost use Rattle.std.specs.Str.{is_utf8};
ghost use Rattle.lay_build_types.specs.Answers.{Gives, Makes, Refuses};
ghost use Rattle.lay_build_types.specs.Kinds.{form_of_item};
ghost use Rattle.lay_build.specs.Nodes as node;

use lay_build_types::{BuildError, BuiltItem, both, keep, kept, one, string_literal};
use lay_code::{Attr, Item, Listed, MetaInput, MetaPath, SimplePath, Tokens, Word};
use lay_piece::{DocForm, Kind, doc_form};
use lay_text::{NoMemory, Text};
use std::alloc::Global;
use std::str;

/// The item with documentation after its attributes: a comment, or `#[doc = "text"]` if no comment
/// can hold the text. The error is `BadText` if the text is not UTF-8.
pub fn with_doc(alloc: Global, item: BuiltItem, text: &[u8]) -> Result<BuiltItem, BuildError>
    ensures { MatchBool (is_utf8 text.now) (Makes form_of_item (node.with_doc item text.now) result)
        (Refuses BuildError.BadText result) }
{
    let (attr, item) = both(checked_doc(alloc, text), Ok(item.into_parts()))?;
    let (item, need) = item;
    kept(both(with_attr(item, attr), Ok(need)))
}

/// Outer documentation of this text, if it is UTF-8.
fn checked_doc(alloc: Global, text: &[u8]) -> Result<Attr, BuildError>
    ensures { MatchBool (is_utf8 text.now) (Gives result (λ attr. attr ≡ node.doc text.now))
        (Refuses BuildError.BadText result) }
{
    match str::from_utf8(text) {
        Ok(_) => doc(alloc, text),
        Err(_) => Err(BuildError::BadText),
    }
}

/// Outer documentation of this text, as a comment or as an attribute.
fn doc(alloc: Global, text: &[u8]) -> Result<Attr, BuildError>
    ensures { Gives result (λ attr. attr ≡ node.doc text.now) }
{
    match doc_form(text, false) {
        DocForm::Line | DocForm::Block => Ok(Attr::Doc {
            inner: false,
            text: copied(alloc, text)?,
        }),
        DocForm::Neither => doc_attr(alloc, text),
    }
}

/// Documentation as an attribute: `#[doc = "text"]`.
fn doc_attr(alloc: Global, text: &[u8]) -> Result<Attr, BuildError>
    ensures { Gives result (λ attr. attr ≡ node.doc_attr text.now) }
{
    let word = Word {
        raw: false,
        text: copied(alloc, b"doc")?,
    };
    let path = SimplePath {
        global: false,
        words: one(alloc, word)?,
    };
    let token = Listed::Token {
        kind: Kind::Str,
        text: string_literal(alloc, text)?,
        joint: false,
    };
    Ok(Attr::Meta {
        inner: false,
        path: MetaPath::Path(path),
        input: MetaInput::Value(Tokens::new(one(alloc, token)?)),
    })
}

/// A copy of a text.
fn copied(alloc: Global, text: &[u8]) -> Result<Text, BuildError>
    ensures { Gives result (λ copy. copy ≡ text.now) }
{
    match Text::from_bytes(alloc, text) {
        Ok(copy) => Ok(copy),
        Err(NoMemory) => Err(BuildError::NoMemory),
    }
}

/// The item with one more attribute, after those that it has.
fn with_attr(item: Item, attr: Attr) -> Result<Item, BuildError>
    ensures { Gives result (λ made. made ≡ node.with_attr item attr) }
{
    let mut item = item;
    let added = keep(&mut item.attrs, attr);
    let (_, item) = both(added, Ok(item))?;
    Ok(item)
}
