//! A layout as a list of tokens.
ghost use Rattle.std.specs.Prelude.{◌≡◌, ℕ, ◌<◌, [], ◌∷◌, ◌++◌, OnOk, OnErr};
ghost use Rattle.lay_layout.specs.declared.layout.Tok.TheVariants as tok;
ghost use Rattle.lay_layout.specs.Machine.{opened, IsNested};
ghost use Rattle.lay_stream.specs.Listed.{list_meanings};
ghost use Rattle.lay_stream.specs.Fed.{Did};

use crate::emit::Emit;
use lay_layout::{Break, Tok};
use lay_text::{NoMemory, Text};
use std::alloc::Global;
use std::marker::Model;

/// A list of layout tokens, in which each `End` closes a group. After `NoMemory` it is as it was.
#[derive(Debug, Drop)]
pub struct Stream {
    alloc: Global,
    toks: Vec<Tok>,
}

impl Model for Stream {
    ghost use Rattle.std.specs.Prelude.{List};
    ghost use Rattle.lay_layout.specs.declared.layout.Tok.{Tok};
    ghost use Rattle.lay_layout.specs.Machine.{IsNested};

    ghost Value = { List Tok };

    ghost view = { λ stream. stream.toks.items };

    ghost invariant = { λ stream. IsNested 0 stream.toks.items };
}

impl Stream {
    /// The empty list. It doesn't allocate.
    pub fn new(alloc: Global) -> Stream
        ensures { result ≡ [] }
    {
        Stream {
            alloc,
            toks: Vec::new(alloc),
        }
    }

    /// All the tokens.
    pub fn toks(&self) -> &[Tok]
        ensures { result.now ≡ self.now }
    {
        self.toks.as_slice()
    }

    /// Adds a token at the end.
    fn push(&mut self, token: Tok) -> Result<(), NoMemory>
        requires { IsNested (opened self.old 0) (token ∷ []) }
        ensures ok { OnOk result (self.new ≡ self.old ++ token ∷ []) }
        ensures err { OnErr result (self.new ≡ self.old) }
    {
        push_token(&mut self.toks, token)
    }
}

/// Adds a token at the end.
fn push_token(toks: &mut Vec<Tok>, token: Tok) -> Result<(), NoMemory>
    ensures ok { OnOk result (toks.new.items ≡ toks.old.items ++ token ∷ []) }
    ensures err { OnErr result (toks.new.items ≡ toks.old.items) }
{
    match toks.push(token) {
        Ok(()) => Ok(()),
        Err(_) => Err(NoMemory),
    }
}

impl Emit for Stream {
    ghost use Rattle.lay_text.specs.declared.refusal.NoMemory.{NoMemory};

    type Fault = NoMemory;

    ghost meanings = { list_meanings NoMemory };

    fn text(&mut self, text: &[u8]) -> Result<(), NoMemory>
        ensures did { Did (list_meanings NoMemory) self.old (tok.Text text.now ∷ []) result
            self.new }
        ensures unchanged { OnErr result (self.new ≡ self.old) }
    {
        match Text::from_bytes(self.alloc, text) {
            Ok(text) => self.push(Tok::Text(text)),
            Err(fault) => Err(fault),
        }
    }

    fn brk(&mut self, token: Break) -> Result<(), NoMemory>
        ensures did { Did (list_meanings NoMemory) self.old (tok.Break token ∷ []) result self.new }
        ensures unchanged { OnErr result (self.new ≡ self.old) }
    {
        self.push(Tok::Break(token))
    }

    fn begin(&mut self, consistent: bool, offset: i8) -> Result<(), NoMemory>
        ensures did { Did (list_meanings NoMemory) self.old (tok.Begin consistent offset ∷ [])
            result self.new }
        ensures unchanged { OnErr result (self.new ≡ self.old) }
    {
        self.push(Tok::Begin { consistent, offset })
    }

    fn end(&mut self) -> Result<(), NoMemory>
        requires { 0 < opened self.old 0 }
        ensures did { Did (list_meanings NoMemory) self.old (tok.End ∷ []) result self.new }
        ensures unchanged { OnErr result (self.new ≡ self.old) }
    {
        self.push(Tok::End)
    }
}
