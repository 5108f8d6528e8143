//! Token lists, delimited groups and macro calls.
ghost use Rattle.std.specs.Prelude.{◌≡◌, IsTrue, IfOk, Some, None, if◌then◌else◌, reverse};
ghost use Rattle.lay_node.specs.tokens.Listing.{is_balanced, kind_of, turned};

use crate::simple_path::SimplePath;
use crate::token::Listed;
use lay_token::{Delim, Kind, List, NoMemory};
use std::alloc::Global;
use std::marker::Model;

/// A token list (Rust Reference, "Macros": token trees): tokens with balanced delimiters, kept
/// flat.
#[derive(Debug, Drop)]
pub struct Tokens {
    list: List<Listed>,
}

impl Model for Tokens {
    ghost use Rattle.std.specs.Prelude.{List as Items, IsTrue};
    ghost use Rattle.lay_node.specs.tokens.Listing.{is_balanced};
    ghost use Rattle.lay_node.specs.declared.token.Listed.{Listed as ListedToken};

    ghost Value = { Items ListedToken };

    ghost view = { λ tokens. tokens.list };

    ghost invariant = { λ tokens. IsTrue (is_balanced tokens.list) };
}

impl Tokens {
    /// The list of these tokens, which are balanced.
    pub fn new(list: List<Listed>) -> Tokens
        requires { IsTrue (is_balanced list) }
        ensures { result ≡ list }
    {
        Tokens { list }
    }

    /// The list of these tokens, or `None` if their delimiters aren't balanced.
    pub fn from_list(alloc: Global, list: List<Listed>) -> Result<Option<Tokens>, NoMemory>
        ensures { IfOk result (λ tokens. tokens ≡ (if is_balanced list then Some list else None)) }
    {
        if are_balanced(alloc, list.as_slice())? {
            Ok(Some(Tokens { list }))
        } else {
            Ok(None)
        }
    }

    /// All the tokens.
    pub fn as_slice(&self) -> &[Listed]
        ensures tokens { result.now ≡ self.now }
        ensures balanced { IsTrue (is_balanced self.now) }
    {
        self.list.as_slice()
    }
}

/// Whether the delimiters of the tokens are balanced.
fn are_balanced(alloc: Global, tokens: &[Listed]) -> Result<bool, NoMemory>
    ensures { IfOk result (λ balanced. balanced ≡ is_balanced tokens.now) }
{
    let mut open = Vec::new(alloc);
    for token in tokens {
        if !turn(&mut open, token)? {
            return Ok(false);
        }
    }
    Ok(open.is_empty())
}

/// Updates the stack of open delimiters by one token. Gives `false` if the token is a closer that
/// doesn't match the innermost open delimiter.
fn turn(opened: &mut Vec<Delim>, token: &Listed) -> Result<bool, NoMemory>
    ensures { IfOk result (λ passes. turned (kind_of token.now) (reverse opened.old.items)
        ≡ (if passes then Some (reverse opened.new.items) else None)) }
{
    match token {
        Listed::Token {
            kind: Kind::Opener(delim),
            ..
        } => {
            opened.push(*delim)?;
            Ok(true)
        }
        Listed::Token {
            kind: Kind::Closer(delim),
            ..
        } => Ok(opened.pop() == Some(*delim)),
        _ => Ok(true),
    }
}

/// A delimited group of tokens.
#[derive(Debug, Drop)]
pub struct Group {
    pub delim: Delim,
    /// The tokens between the delimiters.
    pub tokens: Tokens,
}

/// A macro call (Rust Reference, "Macro invocation"): `a::m!(b, c)`.
#[derive(Debug, Drop)]
pub struct MacroCall {
    pub path: SimplePath,
    pub tokens: Group,
}
