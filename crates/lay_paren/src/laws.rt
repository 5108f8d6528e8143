//! The theorem about `parenthesize`. (No code runs.)
ghost use Rattle.std.specs.Prelude.{◌≡◌, ◌≤◌, not, [], IsTrue};
ghost use Rattle.std.specs.List.{list_all};
ghost use Rattle.lay_form.specs.Pieces.{are_pieces};
ghost use Rattle.lay_code.specs.nodes.Code.{about_expr};
ghost use Rattle.lay_code.specs.nodes.Exprs.{placed};
ghost use Rattle.lay_code.specs.declared.exprs.Expr.{Expr};
ghost use Rattle.lay_code.specs.declared.exprs.Place.{Place};
ghost use Rattle.lay_paren_defs.specs.loose.Loose.{meets_rules};
ghost use Rattle.lay_paren.specs.Erased.{erase};
ghost use Rattle.lay_paren.specs.Least.{cuts, least};
ghost use Rattle.lay_paren.specs.LeftOut.{left_out};

/// For a loose tree the result may stand at the place, and its tokens are pieces if the tree's are.
/// With all parentheses removed, the result and the tree are equal. With any one of the added pairs
/// removed, the result may not stand at the place; if the tree had no parentheses, the added pairs
/// are all that the result has. A tree that may stand at the place gets none.
pub fn parenthesize_law()
    ensures stands { (x : Expr) (place : Place) → place.level ≤ 14 → IsTrue (meets_rules x) → IsTrue (placed (about_expr (least x place)) place) }
    ensures pieces { (x : Expr) (place : Place) → are_pieces (about_expr (least x place)).form ≡ are_pieces (about_expr x).form }
    ensures erased { (x : Expr) (place : Place) → erase (least x place) ≡ erase x }
    ensures needed { (x : Expr) (place : Place) → IsTrue (list_all (λ (y : Expr). not (placed (about_expr y) place)) (cuts x place)) }
    ensures all_cut { (x : Expr) (place : Place) → left_out x ≡ [] → cuts x place ≡ left_out (least x place) }
    ensures kept { (x : Expr) (place : Place) → IsTrue (placed (about_expr x) place) → (least x place ≡ x) × (cuts x place ≡ []) }
{}
