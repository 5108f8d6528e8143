//! Helpers of the tests: results that must be `Ok`, tokens of texts, and printers over sinks in
//! memory.
ghost use Rattle.std.specs.Prelude.{IfOk};
ghost use Rattle.lay_read_tokens.specs.Answers.{AreLexed};

use lay_io::QuietSink;
use lay_lex::{lex, normalise};
use lay_nest::{Nested, nest};
use lay_printer::Printer;
use lay_text::List;
use lay_token::FormatError;
use std::alloc::Global;
use std::process::Abort;

/// The value of a result that must be `Ok`.
pub(crate) fn made<T, E>(rt: &impl Abort, answer: Result<T, E>) -> T {
    match answer {
        Ok(value) => value,
        Err(_) => panic!(rt; "nothing is made"),
    }
}

/// A list of these bytes.
pub(crate) fn list(rt: &impl Abort, alloc: Global, bytes: &[u8]) -> List<u8> {
    List::from_vec(made(rt, bytes.to_vec(alloc)))
}

/// The tokens of a text, with balanced delimiters, or the error.
fn nested(alloc: Global, text: &[u8]) -> Result<Nested, FormatError>
    ensures { IfOk result (λ found. AreLexed found) }
{
    let source = normalise(alloc, text)?;
    let tokens = lex(alloc, &source)?;
    nest(alloc, tokens)
}

/// The tokens of a text, with balanced delimiters.
pub(crate) fn lexed(rt: &impl Abort, alloc: Global, text: &str) -> Nested
    ensures { AreLexed result }
{
    match nested(alloc, text.as_bytes()) {
        Ok(nested) => nested,
        Err(_) => panic!(rt; "no tokens"),
    }
}

/// A printer over a sink that keeps what is written.
pub(crate) fn printer(rt: &impl Abort, alloc: Global) -> Printer<QuietSink> {
    let sink = made(rt, QuietSink::with_room(alloc, 1000));
    made(rt, Printer::new(alloc, sink))
}

/// Checks what was printed.
pub(crate) fn is_printed(rt: &impl Abort, printer: Printer<QuietSink>, wanted: &str) {
    assert!(rt; printer.open_groups() == 0);
    let sink = made(rt, printer.finish());
    is(rt, sink.bytes(), wanted.as_bytes());
}

/// Checks that the bytes are equal.
pub(crate) fn is(rt: &impl Abort, found: &[u8], wanted: &[u8]) {
    assert_eq!(rt; found, wanted);
}
