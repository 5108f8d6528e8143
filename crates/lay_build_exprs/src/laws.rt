//! The theorem about built expressions. (No code runs.)
ghost use Rattle.std.specs.Prelude.{IsTrue};
ghost use Rattle.lay_code.specs.nodes.Code.{about_expr};
ghost use Rattle.lay_code.specs.nodes.Exprs.{placed};
ghost use Rattle.lay_code.specs.nodes.Places.{FREE, statement};
ghost use Rattle.lay_code.specs.declared.exprs.Expr.{Expr};
ghost use Rattle.lay_build_types.specs.Kinds.{IsExpr};

/// A built expression may stand anywhere where nothing is required of its place, and as the whole
/// of a statement.
pub fn stands_law()
    ensures free { (x : Expr) → IsExpr x → IsTrue (placed (about_expr x) FREE) }
    ensures whole { (x : Expr) → IsExpr x → IsTrue (placed (about_expr x) statement) }
{}
