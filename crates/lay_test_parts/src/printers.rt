//! Rings, marks, streams, and printers: one that owns its sink, and one that is lent a core and a
//! sink.

use crate::fixtures::{is, is_printed, made, printer};
use lay_io::QuietSink;
use lay_layout::Tok;
use lay_printer::{Core, Press, Printer};
use lay_ring::{Entry, Marks, Ring, Size};
use lay_stream::{Emit, Stream};
use lay_text::Text;
use std::alloc::Global;
use std::process::Abort;

/// A text.
fn text(rt: &impl Abort, alloc: Global, bytes: &[u8]) -> Text {
    made(rt, Text::from_bytes(alloc, bytes))
}

/// An entry after another, and taken from the front.
fn ring(rt: &impl Abort, alloc: Global) {
    let mut ring = made(rt, Ring::new(alloc, 1));
    let tok = Tok::Text(text(rt, alloc, b"a"));
    let size = Size::Known(1);
    assert!(rt; matches!(ring.push(Entry { tok, size }), Ok(0)));
    match ring.pop_front() {
        Some(
            Entry {
                tok: Tok::Text(found),
                size: Size::Known(1),
            },
        ) => is(rt, found.as_bytes(), b"a"),
        _ => panic!(rt; "another entry"),
    }
}

/// Two marks, of which one is changed and the other dropped.
fn marks(rt: &impl Abort, alloc: Global) {
    let mut marks = made(rt, Marks::new(alloc, 2));
    made(rt, marks.push(5u64));
    made(rt, marks.push(7));
    assert!(rt; marks.len() == 2);
    marks.set(1, 9);
    assert!(rt; marks.len() == 2);
    marks.drop_oldest(1);
    assert!(rt; marks.get(0) == Some(9) && marks.len() == 1);
}

/// A text in a stream.
fn stream(rt: &impl Abort, alloc: Global) {
    let mut stream = Stream::new(alloc);
    made(rt, stream.text(b"ab"));
    match stream.toks() {
        [Tok::Text(found)] => is(rt, found.as_bytes(), b"ab"),
        _ => panic!(rt; "other tokens"),
    }
}

#[test]
fn lists_of_tokens(rt: HostRuntime) {
    ring(&rt, rt.alloc());
    marks(&rt, rt.alloc());
    stream(&rt, rt.alloc());
}

/// A printer that owns its sink. A line has 89 columns.
fn owner(rt: &impl Abort, alloc: Global) {
    let mut printer: Printer<QuietSink> = printer(rt, alloc);
    assert!(rt; printer.space() == 89);
    made(rt, printer.begin(true, 4));
    assert!(rt; printer.open_groups() == 1);
    made(rt, printer.text_owned(text(rt, alloc, b"ab")));
    if printer.open_groups() > 0 {
        made(rt, printer.end());
    }
    is_printed(rt, printer, "ab");
}

/// What a core and a press over it print into a sink.
fn lent(rt: &impl Abort, core: &mut Core, sink: &mut QuietSink, first: Text, second: Text) {
    made(rt, core.text_owned(sink, first));
    assert!(rt; core.open_groups() == 0 && core.space() == 87);
    let mut press = Press::new(core, sink);
    made(rt, press.text_owned(second));
    assert!(rt; press.space() == 86);
    assert!(rt; press.open_groups() == 0);
    made(rt, press.finish());
}

/// A printer that is lent a core and a sink.
fn borrower(rt: &impl Abort, alloc: Global) {
    let mut sink = made(rt, QuietSink::with_room(alloc, 10));
    let mut core = made(rt, Core::new(alloc));
    let (first, second) = (text(rt, alloc, b"ab"), text(rt, alloc, b"c"));
    lent(rt, &mut core, &mut sink, first, second);
    is(rt, sink.bytes(), b"abc");
}

#[test]
fn printers(rt: HostRuntime) {
    owner(&rt, rt.alloc());
    borrower(&rt, rt.alloc());
}
