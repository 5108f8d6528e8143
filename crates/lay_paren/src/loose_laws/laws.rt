//! The theorem about trees with each part in parentheses. (No code runs.)
ghost use Rattle.std.specs.Prelude.{◌≡◌, ◌↔◌, ◌+◌, ◌*◌, ◌≤◌, true};
ghost use Rattle.lay_form.specs.Depth.{least_depth};
ghost use Rattle.lay_form.specs.Pieces.{are_pieces};
ghost use Rattle.lay_code.specs.Written.{Written};
ghost use Rattle.lay_code.specs.nodes.Code.{about_expr};
ghost use Rattle.lay_code.specs.nodes.Exprs.{placed};
ghost use Rattle.lay_code.specs.nodes.File.{form_of_file};
ghost use Rattle.lay_code.specs.nodes.Places.{FREE};
ghost use Rattle.lay_code.specs.declared.exprs.Expr.{Expr};
ghost use Rattle.lay_paren_defs.specs.Constant.{constant};
ghost use Rattle.lay_paren_defs.specs.Enclosed.{part};
ghost use Rattle.lay_paren_defs.specs.loose.Loose.{Loose, meets_rules};

/// A tree meets each rule except those of places and slots exactly if the tree with each part in
/// parentheses may stand anywhere, and its tokens are pieces exactly if that tree's are. So a tree
/// is loose exactly if a constant with that tree as its value can be written, if it is no deeper
/// than files may be. The constant is at most twice as deep as the tree, and two levels more.
pub fn enclosed_law()
    ensures rules { (x : Expr) → meets_rules x ≡ placed (about_expr (part true x)) FREE }
    ensures pieces { (x : Expr)
        → are_pieces (about_expr (part true x)).form ≡ are_pieces (about_expr x).form }
    ensures written { (x : Expr) → Loose x
        ↔ (Written (constant (part true x)) × (least_depth (about_expr x).form ≤ 256)) }
    ensures depth { (x : Expr) → least_depth (form_of_file (constant (part true x)))
        ≤ 2 * least_depth (about_expr x).form + 2 }
{}
