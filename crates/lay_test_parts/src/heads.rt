//! Heads of items: what is read of a text is printed, a line each.
ghost use Rattle.lay_read_tokens.specs.Answers.{AreLexed};

use crate::fixtures::{is_printed, lexed, made, printer};
use lay_code::{ItemKind, Site, Vis};
use lay_io::QuietSink;
use lay_nest::Cursor;
use lay_out_heads::{
    put_alias, put_enum, put_extern_crate, put_fields, put_fn_head, put_impl_head, put_struct,
    put_trait_head, put_use, put_value_head, put_variant, put_vis,
};
use lay_out_tokens::HARD_BREAK;
use lay_printer::{PrintError, Printer};
use lay_read_heads::{
    ReadNone, read_alias, read_enum, read_extern_crate, read_fn_head, read_impl_head, read_struct,
    read_trait_head, read_use, read_value_head,
};
use lay_stream::Emit;
use std::alloc::Global;
use std::process::Abort;

/// Ends a line.
fn end(rt: &impl Abort, out: &mut Printer<QuietSink>) {
    made(rt, out.brk(HARD_BREAK));
}

/// The item of this number that is a head alone.
fn kind(alloc: Global, at: &mut Cursor<'_>, number: u8) -> Result<ItemKind, ReadNone>
    requires { AreLexed at.old }
{
    match number {
        0 => read_struct(alloc, at, 9),
        1 => read_enum(alloc, at, 9),
        2 => read_alias(alloc, at, Site::Module, 9),
        _ => read_extern_crate(alloc, at),
    }
}

/// Lays it out, and after it its fields or variants by themselves.
fn put_kind(out: &mut Printer<QuietSink>, kind: &ItemKind) -> Result<(), PrintError> {
    match kind {
        ItemKind::ExternCrate { item } => put_extern_crate(out, &Vis::Inherited, item),
        ItemKind::Alias { item } => put_alias(out, &Vis::Inherited, item),
        ItemKind::Struct { item } => {
            put_struct(out, &Vis::Inherited, item)?;
            put_fields(out, &item.fields, true)
        }
        ItemKind::Enum { item } => {
            put_enum(out, &Vis::Inherited, item)?;
            match item.variants.as_slice() {
                [variant] => put_variant(out, variant),
                _ => Ok(()),
            }
        }
        _ => Ok(()),
    }
}

/// The item of a text that is a head alone.
fn item(rt: &impl Abort, alloc: Global, out: &mut Printer<QuietSink>, number: u8, text: &str) {
    let nested = lexed(rt, alloc, text);
    let node = made(rt, kind(alloc, &mut nested.cursor(), number));
    made(rt, put_kind(out, &node));
    end(rt, out);
}

#[test]
fn items(rt: HostRuntime) {
    let alloc = rt.alloc();
    let mut out = printer(&rt, alloc);
    item(&rt, alloc, &mut out, 0, "struct A(B);");
    item(&rt, alloc, &mut out, 1, "enum A{B}");
    item(&rt, alloc, &mut out, 2, "type A=B;");
    item(&rt, alloc, &mut out, 3, "extern crate a as b;");
    let wanted = "struct A(B);(B)\nenum A {\n    B,\n}B\ntype A = B;\nextern crate a as b;\n";
    is_printed(&rt, out, wanted);
}

fn function(rt: &impl Abort, alloc: Global, out: &mut Printer<QuietSink>) {
    let nested = lexed(rt, alloc, "fn f(a:B)->C{}");
    let node = made(
        rt,
        read_fn_head(alloc, &mut nested.cursor(), Site::Module, 9),
    );
    made(rt, put_fn_head(out, &node));
    end(rt, out);
}

fn value(rt: &impl Abort, alloc: Global, out: &mut Printer<QuietSink>) {
    let nested = lexed(rt, alloc, "static mut A:B=c;");
    let node = made(rt, read_value_head(alloc, &mut nested.cursor(), 9));
    made(rt, put_value_head(out, &node));
    end(rt, out);
}

fn interface(rt: &impl Abort, alloc: Global, out: &mut Printer<QuietSink>) {
    let nested = lexed(rt, alloc, "unsafe trait A<T>:B{}");
    let node = made(rt, read_trait_head(alloc, &mut nested.cursor(), 9));
    made(rt, put_trait_head(out, &node));
    end(rt, out);
}

fn implementation(rt: &impl Abort, alloc: Global, out: &mut Printer<QuietSink>) {
    let nested = lexed(rt, alloc, "impl<T>A for B<T>{}");
    let node = made(rt, read_impl_head(alloc, &mut nested.cursor(), 9));
    made(rt, put_impl_head(out, &node));
    end(rt, out);
}

fn import(rt: &impl Abort, alloc: Global, out: &mut Printer<QuietSink>) {
    let nested = lexed(rt, alloc, "a::{b,*}");
    let node = made(rt, read_use(alloc, &mut nested.cursor(), 9));
    made(rt, put_use(out, &node));
    end(rt, out);
}

#[test]
fn heads(rt: HostRuntime) {
    let alloc = rt.alloc();
    let mut out = printer(&rt, alloc);
    made(&rt, put_vis(&mut out, &Vis::Public));
    function(&rt, alloc, &mut out);
    value(&rt, alloc, &mut out);
    interface(&rt, alloc, &mut out);
    implementation(&rt, alloc, &mut out);
    import(&rt, alloc, &mut out);
    let wanted =
        "pub fn f(a: B) -> C\nstatic mut A: B\nunsafe trait A<T>: B\nimpl<T> A for B<T>\na::{b, *}\n";
    is_printed(&rt, out, wanted);
}
