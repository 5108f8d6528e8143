//! Inputs, and sinks.
ghost use Rattle.std.specs.Prelude.{IsSome};

use crate::fixtures::{is, list, made};
use lay_io::{
    Failed, Inputs, Lent, MemoryInputs, MemorySink, NamedFile, QuietInputs, QuietSink, Sink, Which,
};
use lay_text::{List, Text};
use std::alloc::Global;
use std::process::Abort;

/// What a read moves of a chosen input.
fn reads<I: Inputs>(rt: &impl Abort, inputs: &mut I, wanted: &[u8])
    requires { IsSome (I.chosen inputs.old) }
{
    let mut buf = [0u8; 2];
    let read = inputs.read(&mut buf);
    assert!(rt; read == Ok(wanted.len()) && buf.starts_with(wanted));
}

/// Standard input.
fn standard_input(rt: &impl Abort, alloc: Global) {
    let mut inputs = QuietInputs::new(list(rt, alloc, b"ab"), List::new(alloc));
    inputs.choose(Which::Stdin);
    reads(rt, &mut inputs, b"ab");
}

/// A file with a name.
fn named_file(rt: &impl Abort, alloc: Global) {
    let name = made(rt, Text::from_bytes(alloc, b"q"));
    let bytes = list(rt, alloc, b"cd");
    let files = List::from_vec(made(rt, vec![in alloc; NamedFile { name, bytes }]));
    let mut inputs = MemoryInputs::new(List::new(alloc), files, List::new(alloc));
    inputs.choose(Which::File(made(rt, Text::from_bytes(alloc, b"q"))));
    reads(rt, &mut inputs, b"cd");
}

#[test]
fn inputs(rt: HostRuntime) {
    standard_input(&rt, rt.alloc());
    named_file(&rt, rt.alloc());
}

/// Sinks without a fault, of which one is lent.
fn quiet_sinks(rt: &impl Abort, alloc: Global) {
    let none = QuietSink::new(alloc);
    is(rt, none.bytes(), b"");
    let mut sink = made(rt, QuietSink::with_room(alloc, 3));
    made(rt, Lent::new(&mut sink).write(b"ab"));
    made(rt, sink.write(b"c"));
    is(rt, sink.bytes(), b"abc");
}

/// A sink whose second write fails, after two bytes.
fn failing_sink(rt: &impl Abort, alloc: Global) {
    let fail = List::from_vec(made(rt, vec![in alloc; 1u64]));
    let mut sink = made(rt, MemorySink::new(alloc, 6, fail, 2));
    made(rt, sink.write(b"ab"));
    assert!(rt; sink.write(b"cde") == Err(Failed));
    is(rt, sink.bytes(), b"abcd");
}

#[test]
fn sinks(rt: HostRuntime) {
    quiet_sinks(&rt, rt.alloc());
    failing_sink(&rt, rt.alloc());
}
