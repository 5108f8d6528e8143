//! Types, patterns and what they are made of: what is read of a text is printed, a line each.

use crate::fixtures::{is_printed, lexed, made, printer};
use lay_io::QuietSink;
use lay_node::{Listed, PathStyle, Tokens, TypePlace};
use lay_out_pats::put_pat;
use lay_out_tokens::{HARD_BREAK, put_attr, put_call, put_either, put_global};
use lay_out_types::{put_args, put_bounds, put_generics, put_path, put_type, put_wheres};
use lay_printer::Printer;
use lay_read_generics::{read_generics, read_wheres};
use lay_read_pats::{read_pat, read_pat_no_alt};
use lay_read_tokens::{read_attrs, read_call};
use lay_read_types::{read_args, read_bounds, read_path, read_type};
use lay_stream::Emit;
use lay_text::{List, Text};
use lay_token::{Delim, Kind};
use std::alloc::Global;
use std::process::Abort;

/// Ends a line.
fn end(rt: &impl Abort, out: &mut Printer<QuietSink>) {
    made(rt, out.brk(HARD_BREAK));
}

fn ty(rt: &impl Abort, alloc: Global, out: &mut Printer<QuietSink>) {
    let nested = lexed(rt, alloc, "&'a mut[T;3]");
    let node = made(
        rt,
        read_type(alloc, &mut nested.cursor(), TypePlace::Bounds, 9),
    );
    made(rt, put_type(out, &node));
    end(rt, out);
}

fn path(rt: &impl Abort, alloc: Global, out: &mut Printer<QuietSink>) {
    let nested = lexed(rt, alloc, "a::<B,>::c");
    let node = made(
        rt,
        read_path(alloc, &mut nested.cursor(), PathStyle::Code, 9),
    );
    made(rt, put_path(out, &node, PathStyle::Code));
    end(rt, out);
}

fn args(rt: &impl Abort, alloc: Global, out: &mut Printer<QuietSink>) {
    let nested = lexed(rt, alloc, "(A,B)->C");
    let node = made(
        rt,
        read_args(alloc, &mut nested.cursor(), PathStyle::Kind, 9),
    );
    made(rt, put_args(out, &node, PathStyle::Kind));
    end(rt, out);
}

fn bounds(rt: &impl Abort, alloc: Global, out: &mut Printer<QuietSink>) {
    let nested = lexed(rt, alloc, "A+'b");
    let node = made(rt, read_bounds(alloc, &mut nested.cursor(), 9));
    made(rt, put_bounds(out, node.as_slice()));
    end(rt, out);
}

fn generics(rt: &impl Abort, alloc: Global, out: &mut Printer<QuietSink>) {
    let nested = lexed(rt, alloc, "<'a,T:B=C>");
    let node = made(rt, read_generics(alloc, &mut nested.cursor(), 9));
    made(rt, put_generics(out, &node));
    end(rt, out);
}

fn wheres(rt: &impl Abort, alloc: Global, out: &mut Printer<QuietSink>) {
    let nested = lexed(rt, alloc, "where A:B,");
    let node = made(rt, read_wheres(alloc, &mut nested.cursor(), 9));
    made(rt, put_wheres(out, &node, false));
    end(rt, out);
}

#[test]
fn types(rt: HostRuntime) {
    let alloc = rt.alloc();
    let mut out = printer(&rt, alloc);
    ty(&rt, alloc, &mut out);
    path(&rt, alloc, &mut out);
    args(&rt, alloc, &mut out);
    bounds(&rt, alloc, &mut out);
    generics(&rt, alloc, &mut out);
    wheres(&rt, alloc, &mut out);
    let wanted = "&'a mut [T; 3]\na::<B>::c\n(A, B) -> C\nA + 'b\n<'a, T: B = C>\n where A: B\n";
    is_printed(&rt, out, wanted);
}

fn pats(rt: &impl Abort, alloc: Global, out: &mut Printer<QuietSink>) {
    let nested = lexed(rt, alloc, "a|b");
    let all = made(rt, read_pat(alloc, &mut nested.cursor(), 9));
    made(rt, put_pat(out, &all));
    end(rt, out);
    let first = made(rt, read_pat_no_alt(alloc, &mut nested.cursor(), 9));
    made(rt, put_pat(out, &first));
    end(rt, out);
}

fn attrs(rt: &impl Abort, alloc: Global, out: &mut Printer<QuietSink>) {
    let nested = lexed(rt, alloc, "#[a]#[b(c)]d");
    let attrs = made(rt, read_attrs(alloc, &mut nested.cursor(), false));
    match attrs.as_slice() {
        [first, second] => {
            made(rt, put_attr(out, first, true));
            made(rt, put_attr(out, second, true));
        }
        _ => panic!(rt; "other attributes"),
    }
}

fn call(rt: &impl Abort, alloc: Global, out: &mut Printer<QuietSink>) {
    let nested = lexed(rt, alloc, "m!(a,b)");
    let node = made(rt, read_call(alloc, &mut nested.cursor()));
    made(rt, put_call(out, &node));
    end(rt, out);
}

/// The texts of which a flag chooses, each way.
fn chosen(rt: &impl Abort, out: &mut Printer<QuietSink>) {
    made(rt, put_global(out, true));
    made(rt, put_global(out, false));
    made(rt, put_either(out, true, b"a", b"b"));
    made(rt, put_either(out, false, b"c", b"d"));
    end(rt, out);
}

#[test]
fn patterns_and_tokens(rt: HostRuntime) {
    let alloc = rt.alloc();
    let mut out = printer(&rt, alloc);
    pats(&rt, alloc, &mut out);
    attrs(&rt, alloc, &mut out);
    call(&rt, alloc, &mut out);
    chosen(&rt, &mut out);
    is_printed(&rt, out, "a | b\na\n#[a]\n#[b(c)]\nm!(a, b)\n::ad\n");
}

/// A list of a token.
fn one(rt: &impl Abort, alloc: Global, kind: Kind, bytes: &[u8]) -> List<Listed> {
    let text = made(rt, Text::from_bytes(alloc, bytes));
    let joint = false;
    List::from_vec(made(rt, vec![in alloc; Listed::Token { kind, text, joint }]))
}

// A name is a token list, and an opening delimiter alone is none.
#[test]
fn token_lists(rt: HostRuntime) {
    let alloc = rt.alloc();
    let name = one(&rt, alloc, Kind::Ident, b"a");
    assert!(&rt; matches!(Tokens::from_list(alloc, name), Ok(Some(_))));
    let opener = one(&rt, alloc, Kind::Opener(Delim::Paren), b"(");
    assert!(&rt; matches!(Tokens::from_list(alloc, opener), Ok(None)));
}
