//! One file that is built by each call, one after another.

use crate::fixtures::{is, made};
use lay_build::{
    BuiltExpr, BuiltItem, BuiltName, BuiltStmt, BuiltType, Op, block, expr_binary, expr_call,
    expr_field, expr_if, expr_int, expr_method, expr_path, expr_str, expr_struct, field, file,
    item_const, item_fn, item_mod, item_struct, name, param, stmt_expr, stmt_let, type_path,
    type_ref, type_tuple, with_doc,
};
use lay_front::unparse;
use lay_text::{List, NoMemory, Text};
use std::alloc::Global;
use std::process::Abort;

/// A list with one more item.
fn with<T: Drop>(rt: &impl Abort, list: List<T>, item: T) -> List<T> {
    let mut list = list;
    match list.push(item) {
        Ok(()) => list,
        Err(_) => panic!(rt; "no memory"),
    }
}

/// A list of one item.
fn only<T: Drop>(rt: &impl Abort, alloc: Global, item: T) -> List<T> {
    with(rt, List::new(alloc), item)
}

/// A name.
fn named(rt: &impl Abort, alloc: Global, text: &str) -> BuiltName {
    made(rt, name(alloc, text.as_bytes()))
}

/// `&mut (A,)`
fn reference(rt: &impl Abort, alloc: Global) -> BuiltType {
    let first = named(rt, alloc, "A");
    let one = made(
        rt,
        type_path(alloc, first, List::new(alloc), List::new(alloc)),
    );
    let tuple = made(rt, type_tuple(alloc, only(rt, alloc, one)));
    made(rt, type_ref(alloc, true, tuple))
}

/// `S { a: f(1).b + c.m("d") }`
fn value(rt: &impl Abort, alloc: Global) -> BuiltExpr {
    let one = made(rt, expr_int(alloc, 1));
    let callee = made(
        rt,
        expr_path(alloc, named(rt, alloc, "f"), List::new(alloc)),
    );
    let call = made(rt, expr_call(alloc, callee, only(rt, alloc, one)));
    let left = made(rt, expr_field(alloc, call, named(rt, alloc, "b")));
    let text = made(rt, expr_str(alloc, b"d"));
    let base = made(
        rt,
        expr_path(alloc, named(rt, alloc, "c"), List::new(alloc)),
    );
    let args = only(rt, alloc, text);
    let right = made(rt, expr_method(alloc, base, named(rt, alloc, "m"), args));
    let sum = made(rt, expr_binary(alloc, Op::Add, left, right));
    let given = made(rt, field(named(rt, alloc, "a"), sum));
    let fields = only(rt, alloc, given);
    made(
        rt,
        expr_struct(alloc, named(rt, alloc, "S"), List::new(alloc), fields),
    )
}

/// `let x = ..;` and `if y {};`
fn stmts(rt: &impl Abort, alloc: Global, value: BuiltExpr) -> List<BuiltStmt> {
    let first = made(rt, stmt_let(alloc, named(rt, alloc, "x"), None, value));
    let test = made(
        rt,
        expr_path(alloc, named(rt, alloc, "y"), List::new(alloc)),
    );
    let then = made(rt, block(alloc, List::new(alloc), None));
    let branch = made(rt, expr_if(alloc, test, then, None));
    let second = made(rt, stmt_expr(alloc, branch));
    with(rt, only(rt, alloc, first), second)
}

/// A function of these statements.
fn function(rt: &impl Abort, alloc: Global, stmts: List<BuiltStmt>) -> BuiltItem {
    let one = made(rt, param(named(rt, alloc, "p"), reference(rt, alloc)));
    let body = made(rt, block(alloc, stmts, None));
    let name = named(rt, alloc, "g");
    made(
        rt,
        item_fn(alloc, true, name, only(rt, alloc, one), None, body),
    )
}

/// A constant in a module.
fn module(rt: &impl Abort, alloc: Global) -> BuiltItem {
    let one = made(rt, expr_int(alloc, 2));
    let ty = reference(rt, alloc);
    let item = made(rt, item_const(alloc, false, named(rt, alloc, "C"), ty, one));
    made(
        rt,
        item_mod(alloc, false, named(rt, alloc, "m"), only(rt, alloc, item)),
    )
}

/// A struct with documentation.
fn structure(rt: &impl Abort, alloc: Global) -> BuiltItem {
    let one = made(rt, param(named(rt, alloc, "a"), reference(rt, alloc)));
    let item = made(
        rt,
        item_struct(alloc, false, named(rt, alloc, "T"), only(rt, alloc, one)),
    );
    made(rt, with_doc(alloc, item, b" t"))
}

const WANTED: &[u8] =
    b"/// t\nstruct T {\n    a: &mut (A,),\n}\nmod m {\n    const C: &mut (A,) = 2;\n}\n\
    pub fn g(p: &mut (A,)) {\n    let x = S { a: f(1).b + c.m(\"d\") };\n    if y {};\n}\n";

/// The text of a file of these items.
fn printed(alloc: Global, items: List<BuiltItem>) -> Option<Text> {
    match file(alloc, items) {
        Ok(file) => unparse(alloc, &file).ok(),
        Err(NoMemory) => None,
    }
}

#[test]
fn each_call(rt: HostRuntime) {
    let alloc = rt.alloc();
    let items = only(&rt, alloc, structure(&rt, alloc));
    let items = with(&rt, items, module(&rt, alloc));
    let body = stmts(&rt, alloc, value(&rt, alloc));
    let items = with(&rt, items, function(&rt, alloc, body));
    match printed(alloc, items) {
        Some(text) => is(&rt, text.as_bytes(), WANTED),
        None => panic!(&rt; "no text"),
    }
}
