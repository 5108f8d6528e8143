//! One call of each public function over code, trees and files that only tests call, with ample
//! memory, and what it answers. They stand here for the reason that lay_test_parts gives.
//!
//! `code` holds readers, layouts and comparisons of nodes of code, `whole` texts and edits of
//! files, `parens` parentheses that are put in, and `built` one file that each of the calls that
//! build has a part in. `fixtures` holds what they share.
#![tactic(auto)]

#[cfg(test)]
mod built;
#[cfg(test)]
mod code;
#[cfg(test)]
mod fixtures;
#[cfg(test)]
mod parens;
#[cfg(test)]
mod whole;
