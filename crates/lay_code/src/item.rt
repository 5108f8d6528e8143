//! Items.
use crate::blocks::Block;
use crate::drops::{discard_items, discard_kind, discard_operand, discard_otherwise};
use crate::exprs::Expr;
use lay_node::{
    Alias, Attr, Boxed, Enum, ExternCrate, FnHead, Group, ImplHead, Literal, MacroCall, Name,
    Struct, TraitHead, Union, UseTree, ValueHead, Vis, Wheres,
};
use lay_token::List;

/// An item with its outer attributes (Rust Reference, "Items"). An item within another counts one
/// level of depth more.
#[cycle(code)]
pub struct Item {
    pub attrs: List<Attr>,
    /// `Inherited` for macro calls and macro definitions.
    pub vis: Vis,
    pub kind: Boxed<ItemKind>,
}

impl Drop for Item {
    #[cycle(drops)]
    fn drop(self) {
        let Item { attrs, vis, kind } = self;
        drop(attrs);
        drop(vis);
        discard_kind(kind);
    }
}

/// The kinds of items.
#[cycle(code)]
pub enum ItemKind {
    /// `extern crate a;`
    ExternCrate {
        item: ExternCrate,
    },
    /// `use a::{b, c};` The tree is boxed to keep `ItemKind` small.
    Import {
        tree: Boxed<UseTree>,
    },
    /// `mod a;`, a module in another file
    FileModule {
        name: Name,
    },
    /// `mod a { struct B; }`, with its inner attributes and its items
    Module {
        name: Name,
        attrs: List<Attr>,
        items: List<Item>,
    },
    /// `fn a() { b }` or `fn a();`
    Function {
        head: FnHead,
        wheres: Wheres,
        body: Option<Block>,
    },
    /// `type A = B;`
    Alias {
        item: Alias,
    },
    /// `struct A;`
    Struct {
        item: Struct,
    },
    /// `union A { b: C }`
    Union {
        item: Union,
    },
    /// `enum A { B }`
    Enum {
        item: Enum,
    },
    /// `const A: B = c;` or `static A: B;`
    Value {
        head: ValueHead,
        value: Option<Boxed<Expr>>,
    },
    /// `trait A { fn b(); }`, with its inner attributes and its members
    Trait {
        head: TraitHead,
        wheres: Wheres,
        attrs: List<Attr>,
        items: List<Item>,
    },
    /// `impl A { type B = C; }`, with its inner attributes and its members
    Impl {
        head: ImplHead,
        wheres: Wheres,
        attrs: List<Attr>,
        items: List<Item>,
    },
    /// `unsafe extern "C" { fn a(); }`, with its inner attributes and its items
    Foreign {
        is_unsafe: bool,
        abi: Option<Literal>,
        attrs: List<Attr>,
        items: List<Item>,
    },
    /// `macro_rules! m { () => {}; }`
    MacroRules {
        name: Name,
        rules: Group,
    },
    /// `m! {}` or `m!();`
    Call {
        call: MacroCall,
    },
}

impl Drop for ItemKind {
    #[cycle(drops)]
    fn drop(self) {
        match self {
            ItemKind::ExternCrate { item } => {
                drop(item);
            }
            ItemKind::Import { tree } => {
                drop(tree);
            }
            ItemKind::FileModule { name } => {
                drop(name);
            }
            ItemKind::Module { name, attrs, items } => {
                drop(name);
                drop(attrs);
                discard_items(items);
            }
            ItemKind::Function { head, wheres, body } => {
                drop(head);
                drop(wheres);
                discard_otherwise(body);
            }
            ItemKind::Alias { item } => {
                drop(item);
            }
            ItemKind::Struct { item } => {
                drop(item);
            }
            ItemKind::Union { item } => {
                drop(item);
            }
            ItemKind::Enum { item } => {
                drop(item);
            }
            ItemKind::Value { head, value } => {
                drop(head);
                discard_operand(value);
            }
            ItemKind::Trait {
                head,
                wheres,
                attrs,
                items,
            } => {
                drop(head);
                drop(wheres);
                drop(attrs);
                discard_items(items);
            }
            ItemKind::Impl {
                head,
                wheres,
                attrs,
                items,
            } => {
                drop(head);
                drop(wheres);
                drop(attrs);
                discard_items(items);
            }
            ItemKind::Foreign {
                is_unsafe: _,
                abi,
                attrs,
                items,
            } => {
                drop(abi);
                drop(attrs);
                discard_items(items);
            }
            ItemKind::MacroRules { name, rules } => {
                drop(name);
                drop(rules);
            }
            ItemKind::Call { call } => {
                drop(call);
            }
        }
    }
}
