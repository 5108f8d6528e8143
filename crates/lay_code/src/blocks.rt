//! Blocks, statements, and the arms of a match.
ghost use Rattle.std.specs.Prelude.{◌≡◌};
ghost use Rattle.lay_code.specs.nodes.Parts.{expr_of};

use crate::conditions::Condition;
use crate::drops::{
    discard_boxed, discard_boxed_item, discard_operand, discard_otherwise, discard_stmts,
};
use crate::exprs::Expr;
use crate::item::Item;
use lay_node::{Attr, Boxed, Pat, Ty};
use lay_token::List;

/// A block, with its inner attributes (Rust Reference, "Block expressions").
#[cycle(code)]
pub struct Block {
    pub attrs: List<Attr>,
    pub stmts: List<Stmt>,
}

impl Drop for Block {
    #[cycle(drops)]
    fn drop(self) {
        let Block { attrs, stmts } = self;
        drop(attrs);
        discard_stmts(stmts);
    }
}

impl Block {
    /// Takes the statements out of the block.
    pub fn into_stmts(self) -> List<Stmt>
        ensures { result ≡ self.stmts }
    {
        let Block { attrs: _, stmts } = self;
        stmts
    }
}

/// A statement (Rust Reference, "Statements").
#[cycle(code)]
pub enum Stmt {
    /// `let a: B = c else { d };`, with an `else` only after a value
    Let {
        attrs: List<Attr>,
        pat: Pat,
        ty: Option<Ty>,
        value: Option<Boxed<Expr>>,
        otherwise: Option<Block>,
    },
    /// `fn a() {}`
    Item {
        item: Boxed<Item>,
    },
    /// `a;` or, without its `;`, `a`
    Expr {
        attrs: List<Attr>,
        expr: Boxed<Expr>,
        ended: bool,
    },
}

impl Drop for Stmt {
    #[cycle(drops)]
    fn drop(self) {
        match self {
            Stmt::Let {
                attrs,
                pat,
                ty,
                value,
                otherwise,
            } => {
                drop(attrs);
                drop(pat);
                drop(ty);
                discard_operand(value);
                discard_otherwise(otherwise);
            }
            Stmt::Item { item } => {
                discard_boxed_item(item);
            }
            Stmt::Expr {
                attrs,
                expr,
                ended: _,
            } => {
                drop(attrs);
                discard_boxed(expr);
            }
        }
    }
}

impl Stmt {
    /// Takes the expression out of the statement, if it is one.
    pub fn into_expr(self) -> Option<Boxed<Expr>>
        ensures { result ≡ expr_of self }
    {
        match self {
            Stmt::Expr {
                attrs: _,
                expr,
                ended: _,
            } => Some(expr),
            _ => None,
        }
    }
}

/// One `if` of a chain of them: a condition and its block (Rust Reference, "`if` and `if let`
/// expressions").
#[cycle(code)]
pub struct Branch {
    pub condition: Condition,
    pub body: Block,
}

impl Drop for Branch {
    #[cycle(drops)]
    fn drop(self) {
        let Branch { condition, body } = self;
        drop(condition);
        drop(body);
    }
}

impl Branch {
    /// Takes the condition and the block out of the branch.
    pub fn into_parts(self) -> (Condition, Block)
        ensures { result ≡ (self.condition, self.body) }
    {
        let Branch { condition, body } = self;
        (condition, body)
    }
}

/// An arm of a match (Rust Reference, "Match expressions").
#[cycle(code)]
pub struct Arm {
    pub attrs: List<Attr>,
    pub pat: Pat,
    pub guard: Option<Boxed<Expr>>,
    pub body: Boxed<Expr>,
}

impl Drop for Arm {
    #[cycle(drops)]
    fn drop(self) {
        let Arm {
            attrs,
            pat,
            guard,
            body,
        } = self;
        drop(attrs);
        drop(pat);
        discard_operand(guard);
        discard_boxed(body);
    }
}
