//! The lines of a sample.
ghost use Rattle.std.specs.Prelude.{◌≡◌, ◌≤◌, ◌++◌, IfOk, OnOk};
ghost use Rattle.std.specs.Fmt.{decimal};
ghost use Rattle.lay_sample.specs.Sample.{line_of, sample_text};

use crate::draws::Draws;
use crate::items::Item;
use itoa::Buffer;
use lay_text::{NoMemory, Text};
use std::alloc::Global;

/// The sample of a seed: a text of this many items, each on a line of its own that ends with LF.
/// With more items it only gets more lines. Only the text is allocated; `NoMemory` if that fails.
#[tactic(auto, using(crate::proofs::More::sample_more, crate::proofs::More::state_more))]
pub fn sample(alloc: Global, seed: u64, items: u32) -> Result<Text, NoMemory>
    requires { items ≤ 200000 }
    ensures { IfOk result (λ text. text ≡ sample_text seed items) }
{
    let mut draws = Draws { state: seed };
    let mut text = Text::new(alloc);
    for i in 0..u64::from(items) {
        push_line(&mut text, i, draws.item())?;
    }
    Ok(text)
}

/// Appends the line of item `i`.
fn push_line(text: &mut Text, i: u64, item: Item) -> Result<(), NoMemory>
    ensures { OnOk result (text.new ≡ text.old ++ line_of i item) }
{
    match item {
        Item::Struct => {
            push_number(text, b"struct S", i)?;
            text.push_bytes(b"{a:u8,b:Vec<u8>}\n")
        }
        Item::Use(module) => {
            push_number(text, b"use m", module)?;
            text.push_bytes(b"::{a,b,c};\n")
        }
        Item::Function(added) => {
            push_number(text, b"fn f", i)?;
            push_number(text, b"(x:u8)->u8{match x{0=>{g(x)}_=>x+", added)?;
            text.push_bytes(b",}}\n")
        }
        Item::Constant(last) => {
            push_number(text, b"const C", i)?;
            push_number(text, b":[u8;3]=[1,2,", last)?;
            text.push_bytes(b"];\n")
        }
    }
}

/// Appends bytes, and a number in decimal digits.
fn push_number(text: &mut Text, before: &[u8], number: u64) -> Result<(), NoMemory>
    ensures { OnOk result (text.new ≡ text.old ++ before.now ++ decimal number) }
{
    text.push_bytes(before)?;
    text.push_bytes(Buffer::new().format(number).as_bytes())
}
