//! Helpers of the builder. If memory is out, the arguments are dropped.
ghost use Rattle.std.specs.Prelude.{◌≡◌, ◌++◌, ◌∷◌, [], Err, IfErr, MatchResult, None, Ok, OnOk, Some};
ghost use Rattle.lay_build_types.specs.Answers.{Gives};

use crate::built::BuildError;
use lay_code::Boxed;
use lay_text::{List, NoMemory};
use std::alloc::Global;

/// The pair of two parts, or the error of the first that failed.
pub fn both<A: Drop, B: Drop>(
    first: Result<A, BuildError>,
    second: Result<B, BuildError>,
) -> Result<(A, B), BuildError>
    ensures { MatchResult first (λ a. MatchResult second (λ b. result ≡ Ok (a, b)) (λ why. result ≡ Err why)) (λ why. result ≡ Err why) }
{
    match first {
        Ok(first) => match second {
            Ok(second) => Ok((first, second)),
            Err(why) => Err(why),
        },
        Err(why) => Err(why),
    }
}

/// Boxes a node.
pub fn boxed<T: Drop>(alloc: Global, node: T) -> Result<Boxed<T>, BuildError>
    ensures { Gives result (λ boxed. boxed ≡ node) }
{
    match Boxed::new(alloc, node) {
        Ok(boxed) => Ok(boxed),
        Err(NoMemory) => Err(BuildError::NoMemory),
    }
}

/// Appends an item to a list.
pub fn keep<T: Drop>(list: &mut List<T>, item: T) -> Result<(), BuildError>
    ensures ok { OnOk result (list.new ≡ list.old ++ item ∷ []) }
    ensures err { IfErr result (λ why. why ≡ BuildError.NoMemory) }
{
    match list.push(item) {
        Ok(()) => Ok(()),
        Err(_) => Err(BuildError::NoMemory),
    }
}

/// A list of one item.
pub fn one<T: Drop>(alloc: Global, item: T) -> Result<List<T>, BuildError>
    ensures { Gives result (λ list. list ≡ item ∷ []) }
{
    let mut list = List::new(alloc);
    keep(&mut list, item)?;
    Ok(list)
}
