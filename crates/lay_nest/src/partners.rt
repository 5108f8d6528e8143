//! The distance of each opener to its partner.
ghost use Rattle.std.specs.Prelude.{◌≡◌, ◌+◌, ◌-◌, ◌<◌, ◌++◌, ◌∷◌, [], length, slice_set, slice_get, Some, IfOk, OnOk};
ghost use Rattle.lay_token.specs.Delimiters.{is_opener, is_closer, is_pair};
ghost use Rattle.lay_nest.specs.Partial.{SoFar, AddedAs};
ghost use Rattle.lay_nest.specs.Nested.{SpannedAs};

use lay_token::{FormatError, Kind, List, NoMemory, Refusal, Token};
use std::alloc::Global;

/// For each token: the number of tokens between it and its partner if it is an opener, else 0.
pub fn spans_of(alloc: Global, tokens: &[Token]) -> Result<List<usize>, FormatError>
    ensures { SpannedAs tokens.now result }
{
    let mut reading = match Reading::new(alloc, tokens.len()) {
        Ok(reading) => reading,
        Err(NoMemory) => return Err(FormatError::NoMemory),
    };
    for token in tokens {
        match reading.add(token, tokens) {
            Ok(()) => {}
            Err(error) => return Err(error),
        }
    }
    let Reading { spans, mut places } = reading;
    match places.pop() {
        Some(last) => Err(unbalanced(token_at(tokens, last))),
        None => Ok(List::from_vec(spans)),
    }
}

/// The token with this index.
fn token_at(tokens: &[Token], place: usize) -> &Token
    requires { place < length tokens.now }
    ensures { slice_get tokens.now place ≡ Some result.now }
{
    &tokens[place]
}

/// The error for a delimiter that has no partner.
fn unbalanced(token: &Token) -> FormatError
    ensures { result ≡ FormatError.Refused (Refusal.Unbalanced token.now.at) }
{
    FormatError::Refused(Refusal::Unbalanced { at: token.at })
}

/// Whether the kinds are an opener and the closer that matches it.
fn is_pair(first: Kind, second: Kind) -> bool
    ensures { result ≡ is_pair first second }
{
    match (first, second) {
        (Kind::Opener(opened), Kind::Closer(closed)) => opened == closed,
        _ => false,
    }
}

/// The partners among the tokens that were read so far.
#[derive(Drop)]
struct Reading {
    /// The spans of the tokens; 0 for an opener that is still open.
    spans: Vec<usize>,
    /// The indices of the openers that are still open, the innermost last.
    places: Vec<usize>,
}

impl Reading {
    /// The state before the first of `len` tokens.
    fn new(alloc: Global, len: usize) -> Result<Reading, NoMemory>
        ensures spans { IfOk result (λ reading. reading.spans.items ≡ []) }
        ensures places { IfOk result (λ reading. reading.places.items ≡ []) }
    {
        let spans = Vec::with_capacity(alloc, len)?;
        Ok(Reading {
            spans,
            places: Vec::new(alloc),
        })
    }

    /// Adds the next of the tokens.
    fn add(&mut self, token: &Token, tokens: &[Token]) -> Result<(), FormatError>
        requires read { SoFar tokens.now self.old.spans.items self.old.places.items }
        requires next { slice_get tokens.now (length self.old.spans.items) ≡ Some token.now }
        ensures { AddedAs tokens.now (length self.old.spans.items) self.new result }
    {
        let kind = token.kind;
        let added = match kind {
            Kind::Opener(_) => self.open(),
            Kind::Closer(_) => match self.places.pop() {
                Some(place) if is_pair(token_at(tokens, place).kind, kind) => self.close(place),
                _ => return Err(unbalanced(token)),
            },
            _ => self.pass(),
        };
        match added {
            Ok(()) => Ok(()),
            Err(NoMemory) => Err(FormatError::NoMemory),
        }
    }

    /// Adds an opener.
    fn open(&mut self) -> Result<(), NoMemory>
        ensures spans { OnOk result (self.new.spans.items ≡ self.old.spans.items ++ 0 ∷ []) }
        ensures places { OnOk result (self.new.places.items
            ≡ self.old.places.items ++ length self.old.spans.items ∷ []) }
    {
        self.places.push(self.spans.len())?;
        self.pass()
    }

    /// Adds the closer of the opener with this index, which was taken from the open ones.
    fn close(&mut self, place: usize) -> Result<(), NoMemory>
        requires { place < length self.old.spans.items }
        ensures spans { OnOk result (self.new.spans.items
            ≡ slice_set self.old.spans.items place (length self.old.spans.items - place - 1) ++ 0
            ∷ []) }
        ensures places { self.new.places ≡ self.old.places }
    {
        self.spans[place] = self.spans.len() - place - 1;
        self.pass()
    }

    /// Adds a token whose span is 0.
    fn pass(&mut self) -> Result<(), NoMemory>
        ensures spans { OnOk result (self.new.spans.items ≡ self.old.spans.items ++ 0 ∷ []) }
        ensures places { self.new.places ≡ self.old.places }
    {
        self.spans.push(0)?;
        Ok(())
    }
}
