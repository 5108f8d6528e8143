//! Helpers that combine results of readers.
ghost use Rattle.std.specs.Prelude.{◌≡◌, ◌∷◌, IfErr, IfOk, MatchResult, None, Ok, Err};

use lay_read_tokens::ReadNone;
use lay_token::List;

/// The pair of a value and of a second result, if that is `Ok`.
pub fn both<A: Drop, B>(first: A, second: Result<B, ReadNone>) -> Result<(A, B), ReadNone>
    ensures { MatchResult second (λ b. result ≡ Ok (first, b)) (λ none. result ≡ Err none) }
{
    match second {
        Ok(second) => Ok((first, second)),
        Err(none) => Err(none),
    }
}

/// The error `NoReading`; the argument is dropped.
pub fn refused<A: Drop, B>(_before: A) -> Result<B, ReadNone>
    ensures { result ≡ Err ReadNone.NoReading }
{
    Err(ReadNone::NoReading)
}

/// `None`; the argument is dropped.
pub fn none_of<A: Drop, B>(_other: A) -> Option<B>
    ensures { result ≡ None }
{
    None
}

/// A list that begins with `first` and goes on with `others`.
pub fn prepended<T: Drop>(first: T, others: List<T>) -> Result<List<T>, ReadNone>
    ensures ok { IfOk result (λ list. list ≡ first ∷ others) }
    ensures err { IfErr result (λ none. none ≡ ReadNone.NoMemory) }
{
    let mut items = others.into_vec();
    match items.insert(0, first) {
        Ok(()) => Ok(List::from_vec(items)),
        Err(_) => Err(ReadNone::NoMemory),
    }
}
