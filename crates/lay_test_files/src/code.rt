//! Nodes of code: what is read of a text is printed, a line each, and is equal to itself.

use crate::fixtures::{is_printed, lexed, made, printer};
use lay_code::Site;
use lay_io::QuietSink;
use lay_ops::places::FREE;
use lay_out_code::{put_arm, put_block, put_expr, put_item, put_stmt};
use lay_out_tokens::HARD_BREAK;
use lay_printer::Printer;
use lay_read_code::{read_arm, read_block, read_expr, read_item, read_stmt};
use lay_stream::Emit;
use lay_tree::{same_arm, same_block, same_expr, same_item, same_stmt};
use std::alloc::Global;
use std::process::Abort;

/// Ends a line.
fn end(rt: &impl Abort, out: &mut Printer<QuietSink>) {
    made(rt, out.brk(HARD_BREAK));
}

fn expr(rt: &impl Abort, alloc: Global, out: &mut Printer<QuietSink>) {
    let nested = lexed(rt, alloc, "f(1,)");
    let node = made(rt, read_expr(alloc, &mut nested.cursor(), FREE, 9));
    assert!(rt; same_expr(&node, &node));
    made(rt, put_expr(out, &node));
    end(rt, out);
}

fn block(rt: &impl Abort, alloc: Global, out: &mut Printer<QuietSink>) {
    let nested = lexed(rt, alloc, "{;a;b}");
    let node = made(rt, read_block(alloc, &mut nested.cursor(), 9));
    assert!(rt; same_block(&node, &node));
    made(rt, put_block(out, &node, false));
    end(rt, out);
}

fn stmt(rt: &impl Abort, alloc: Global, out: &mut Printer<QuietSink>) {
    let nested = lexed(rt, alloc, "let a=b;");
    let node = made(rt, read_stmt(alloc, &mut nested.cursor(), 9));
    assert!(rt; same_stmt(&node, &node));
    made(rt, put_stmt(out, &node));
    end(rt, out);
}

fn arm(rt: &impl Abort, alloc: Global, out: &mut Printer<QuietSink>) {
    let nested = lexed(rt, alloc, "A=>{b}");
    let node = made(rt, read_arm(alloc, &mut nested.cursor(), 9));
    assert!(rt; same_arm(&node, &node));
    made(rt, put_arm(out, &node));
    end(rt, out);
}

fn item(rt: &impl Abort, alloc: Global, out: &mut Printer<QuietSink>) {
    let nested = lexed(rt, alloc, "pub mod a{}");
    let node = made(rt, read_item(alloc, &mut nested.cursor(), Site::Module, 9));
    assert!(rt; same_item(&node, &node));
    made(rt, put_item(out, &node));
    end(rt, out);
}

#[test]
fn nodes(rt: HostRuntime) {
    let alloc = rt.alloc();
    let mut out = printer(&rt, alloc);
    expr(&rt, alloc, &mut out);
    block(&rt, alloc, &mut out);
    stmt(&rt, alloc, &mut out);
    arm(&rt, alloc, &mut out);
    item(&rt, alloc, &mut out);
    let wanted = "f(1)\n{\n    a;\n    b\n}\nlet a = b;\nA => b,\npub mod a {}\n";
    is_printed(&rt, out, wanted);
}
