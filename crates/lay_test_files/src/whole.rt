//! Texts of files, their windows, their maps, their edits, and where they are refused.
ghost use Rattle.std.specs.Prelude.{IsUtf8};
ghost use Rattle.std.specs.Str.{IsCharBoundary};

use crate::fixtures::{is, lexed, made};
use lay_files::windows::heads::read_head;
use lay_files::windows::window::read_window;
use lay_files::{read_bytes, refused_at};
use lay_front::{format_into, unparse};
use lay_io::QuietSink;
use lay_items::Items;
use lay_laws::is_written;
use lay_lex::{Source, normalise};
use lay_map::{Pair, Unit, pairs};
use lay_text::{Refusal, Text};
use std::alloc::Global;
use std::process::Abort;

/// The text of the tree that a text reads to.
fn unparsed(alloc: Global, bytes: &[u8]) -> Option<Text> {
    let file = read_bytes(alloc, bytes).ok()?;
    match is_written(alloc, &file) {
        Ok(true) => unparse(alloc, &file).ok(),
        _ => None,
    }
}

#[test]
fn texts(rt: HostRuntime) {
    let alloc = rt.alloc();
    match unparsed(alloc, b"use a;") {
        Some(text) => is(&rt, text.as_bytes(), b"use a;\n"),
        None => panic!(&rt; "no text"),
    }
    let mut out = made(&rt, QuietSink::with_room(alloc, 100));
    made(&rt, format_into(alloc, b"struct A;", &mut out));
    is(&rt, out.bytes(), b"struct A;\n");
}

/// The item of this number becomes another, or is removed.
fn edit(rt: &impl Abort, items: &mut Items, index: usize, text: Option<&[u8]>) {
    assert!(rt; index < items.len());
    match text {
        Some(text) => made(rt, items.replace(index, text)),
        None => items.remove(index),
    }
}

#[test]
fn edits(rt: HostRuntime) {
    let alloc = rt.alloc();
    let mut items = made(&rt, Items::from_bytes(alloc, b"struct A;struct B;"));
    edit(&rt, &mut items, 0, Some(b"use a;"));
    edit(&rt, &mut items, 1, None);
    let text = made(&rt, items.whole());
    is(&rt, text.as_bytes(), b"use a;\n");
}

// Where a text is refused, and a pair of units.
#[test]
fn places(rt: HostRuntime) {
    let alloc = rt.alloc();
    let refusal = Refusal::Unbalanced { at: 11 };
    let place = made(&rt, refused_at(alloc, b"struct A;\n }", refusal));
    assert!(&rt; place.line == 2 && place.column == 2);
    let (source, output) = (Unit { at: 0, len: 1 }, Unit { at: 2, len: 3 });
    let found = made(&rt, pairs(alloc, &[source], &[output]));
    let fits = match found.as_slice() {
        [pair] => {
            pair.source.at == 0
                && pair.source.len == 1
                && pair.output.at == 2
                && pair.output.len == 3
        }
        _ => false,
    };
    assert!(&rt; fits);
}

/// How many tokens the first window of a text has.
fn window(alloc: Global, source: &Source) -> Option<usize>
    requires utf8 { IsUtf8 source.now.text }
    requires border { IsCharBoundary source.now.text source.now.start }
{
    match read_window(alloc, source.as_str(), source.start) {
        Ok(window) => Some(window.nested.cursor().as_slice().len()),
        Err(_) => None,
    }
}

/// How many tokens the first window has of the text that the bytes are.
fn window_of(alloc: Global, bytes: &[u8]) -> Option<usize> {
    match normalise(alloc, bytes) {
        Ok(source) => window(alloc, &source),
        Err(_) => None,
    }
}

// A window ends after the brace of a module, which is left out, and before that stands its head.
#[test]
fn windows(rt: HostRuntime) {
    let alloc = rt.alloc();
    assert!(&rt; window_of(alloc, b"mod a{}") == Some(2));
    let nested = lexed(&rt, alloc, "#[b]mod a");
    let head = made(&rt, read_head(alloc, &mut nested.cursor()));
    is(&rt, head.name.text.as_bytes(), b"a");
}
