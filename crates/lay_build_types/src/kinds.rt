//! The kinds of nodes that can be built.
ghost use Rattle.lay_build_types.specs.Kinds as kinds;

use crate::built::{Built, Node};
use lay_code::{Block, Expr, Item, Name, Stmt, Ty};

/// A built name.
pub type BuiltName = Built<Name>;

/// A built type.
pub type BuiltType = Built<Ty>;

/// A built expression.
pub type BuiltExpr = Built<Expr>;

/// A built statement.
pub type BuiltStmt = Built<Stmt>;

/// A built block.
pub type BuiltBlock = Built<Block>;

/// A built item.
pub type BuiltItem = Built<Item>;

impl Node for Name {
    ghost form = { kinds.form_of_name };

    ghost Holds = { kinds.IsName };
}

impl Node for Ty {
    ghost form = { kinds.form_of_type };

    ghost Holds = { kinds.IsType };
}

impl Node for Expr {
    ghost form = { kinds.form_of_expr };

    ghost Holds = { kinds.IsExpr };
}

impl Node for Stmt {
    ghost form = { kinds.form_of_stmt };

    ghost Holds = { kinds.IsStmt };
}

impl Node for Block {
    ghost form = { kinds.form_of_block };

    ghost Holds = { kinds.IsBlock };
}

impl Node for Item {
    ghost form = { kinds.form_of_item };

    ghost Holds = { kinds.IsItem };
}
