//! One call of each public function below code that only tests call, with ample memory, and what it
//! answers.
//!
//! A contract can't say that memory is left, so a call that may answer `NoMemory` is proved even
//! where it always does. Here each of these is made once and compared with what was worked out by
//! hand; what isn't made ends the test. All other tests are rows of data or run without a proof
//! (tests/unproved). The calls over code, trees and files stand in lay_test_files.
//!
//! `pieces` holds what is lexed, `sinks` inputs and sinks, `printers` rings, streams and printers,
//! `types` types, patterns and what they are made of, and `heads` the heads of items. `fixtures`
//! holds what they share.
#![tactic(auto)]

#[cfg(test)]
mod fixtures;
#[cfg(test)]
mod heads;
#[cfg(test)]
mod pieces;
#[cfg(test)]
mod printers;
#[cfg(test)]
mod sinks;
#[cfg(test)]
mod types;
