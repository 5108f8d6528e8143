//! Builders of literals and paths.
ghost use Rattle.std.specs.Prelude.{◌≡◌, MatchBool};
ghost use Rattle.std.specs.Str.{is_utf8};
ghost use Rattle.lay_build_types.specs.Answers.{Makes, Refuses};
ghost use Rattle.lay_build_types.specs.Kinds.{form_of_expr};
ghost use Rattle.lay_build_exprs.specs.Nodes as node;

use crate::keeping::kept_with;
use itoa::Buffer;
use lay_build_types::{BuildError, BuiltExpr, BuiltName, nodes, path, string_literal};
use lay_code::{Args, Expr, Literal};
use lay_piece::Kind;
use lay_text::{List, NoMemory, Text};
use std::alloc::Global;
use std::str;

/// The depth of an expression that contains no other.
const LEAF: u32 = 1;

/// An integer literal, in decimal digits and without suffix.
pub fn expr_int(alloc: Global, value: u128) -> Result<BuiltExpr, BuildError>
    ensures { Makes form_of_expr (node.expr_int value) result }
{
    match Text::from_bytes(alloc, Buffer::new().format(value).as_bytes()) {
        Ok(text) => kept_with(
            Expr::Lit {
                literal: Literal {
                    kind: Kind::Int,
                    text,
                },
            },
            Ok(LEAF),
        ),
        Err(NoMemory) => Err(BuildError::NoMemory),
    }
}

/// The string literal whose value is this text. The error is `BadText` if the text is not UTF-8.
pub fn expr_str(alloc: Global, text: &[u8]) -> Result<BuiltExpr, BuildError>
    ensures { MatchBool (is_utf8 text.now) (Makes form_of_expr (node.expr_str text.now) result)
        (Refuses BuildError.BadText result) }
{
    if !is_text(text) {
        return Err(BuildError::BadText);
    }
    let text = string_literal(alloc, text)?;
    kept_with(
        Expr::Lit {
            literal: Literal {
                kind: Kind::Str,
                text,
            },
        },
        Ok(LEAF),
    )
}

/// Whether bytes are UTF-8.
fn is_text(bytes: &[u8]) -> bool
    ensures { result ≡ is_utf8 bytes.now }
{
    str::from_utf8(bytes).is_ok()
}

/// A path as an expression: `a::b::C`.
pub fn expr_path(
    alloc: Global,
    first: BuiltName,
    rest: List<BuiltName>,
) -> Result<BuiltExpr, BuildError>
    ensures { Makes form_of_expr (node.expr_path first rest) result }
{
    let (first, _) = first.into_parts();
    let (rest, _) = nodes(alloc, rest)?;
    let path = path(alloc, first, rest, Args::None)?;
    kept_with(Expr::Path { path }, Ok(LEAF))
}
