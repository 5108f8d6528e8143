//! The theorem about places and slots. (No code runs.)
ghost use Rattle.std.specs.Prelude.{◌≤◌, IsTrue};
ghost use Rattle.lay_code.specs.nodes.Exprs.{ExprFacts, expr_facts};
ghost use Rattle.lay_code.specs.nodes.Places.{statement};
ghost use Rattle.lay_code.specs.declared.blocks.Stmt.TheOpen.{Expr-F};
ghost use Rattle.lay_code.specs.declared.exprs.Place.{Place};
ghost use Rattle.lay_paren_defs.specs.loose.Slots.{Any, Slot, fits};

/// An expression in parentheses fits each place and slot. What is the whole of a statement or of
/// the body of an arm fits as it is.
pub fn slots_law()
    ensures in_parentheses { (x : ExprFacts) (place : Place) (slot : Slot) → place.level ≤ 14 → IsTrue (fits (expr_facts (Expr-F.Paren x)) place slot) }
    ensures whole { (x : ExprFacts) → IsTrue (fits x statement Any) }
{}
