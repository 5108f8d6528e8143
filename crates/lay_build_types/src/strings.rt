//! Builders of string literals.
ghost use Rattle.std.specs.Prelude.{◌≡◌, ◌++◌, IfOk, OnOk};
ghost use Rattle.lay_build_types.specs.Answers.{Gives};
ghost use Rattle.lay_build_types.specs.Strings.{escaped, string_text};

use crate::built::BuildError;
use lay_text::{NoMemory, Text};
use std::alloc::Global;

/// The string literal whose value is this text.
pub fn string_literal(alloc: Global, text: &[u8]) -> Result<Text, BuildError>
    ensures { Gives result (λ literal. literal ≡ string_text text.now) }
{
    match quoted(alloc, text) {
        Ok(literal) => Ok(literal),
        Err(NoMemory) => Err(BuildError::NoMemory),
    }
}

/// The text in quotes, with the bytes escaped that need it.
fn quoted(alloc: Global, text: &[u8]) -> Result<Text, NoMemory>
    ensures { IfOk result (λ literal. literal ≡ string_text text.now) }
{
    let mut literal = Text::new(alloc);
    literal.push(b'"')?;
    for byte in text {
        push_escaped(&mut literal, *byte)?;
    }
    literal.push(b'"')?;
    Ok(literal)
}

/// Appends a byte, escaped if it needs it.
fn push_escaped(literal: &mut Text, byte: u8) -> Result<(), NoMemory>
    ensures { OnOk result (literal.new ≡ literal.old ++ escaped byte) }
{
    match byte {
        b'"' => literal.push_bytes(b"\\\""),
        b'\\' => literal.push_bytes(b"\\\\"),
        b'\n' => literal.push_bytes(b"\\n"),
        b'\r' => literal.push_bytes(b"\\r"),
        _ => literal.push(byte),
    }
}
