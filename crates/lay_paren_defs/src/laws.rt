//! The theorem about trees with each part in parentheses. (No code runs.)
ghost use Rattle.std.specs.Prelude.{◌≡◌, Bool};
ghost use Rattle.lay_code.specs.declared.blocks.Arm.{Arm};
ghost use Rattle.lay_code.specs.declared.blocks.Block.{Block};
ghost use Rattle.lay_code.specs.declared.blocks.Branch.{Branch};
ghost use Rattle.lay_code.specs.declared.blocks.Stmt.{Stmt};
ghost use Rattle.lay_code.specs.declared.conditions.Condition.{Condition};
ghost use Rattle.lay_code.specs.declared.conditions.Link.{Link};
ghost use Rattle.lay_code.specs.declared.exprs.Expr.{Expr};
ghost use Rattle.lay_code.specs.declared.exprs.FieldExpr.{FieldExpr};
ghost use Rattle.lay_code.specs.declared.exprs.Step.{Step};
ghost use Rattle.lay_code.specs.declared.item.Item.{Item};
ghost use Rattle.lay_code.specs.declared.item.ItemKind.{ItemKind};
ghost use Rattle.lay_paren_defs.specs.Enclosed.{enclose, enclose_arm, enclose_block, enclose_branch, enclose_condition, enclose_field, enclose_item, enclose_kind, enclose_link, enclose_step, enclose_stmt, shell, shell_arm, shell_block, shell_branch, shell_condition, shell_field, shell_item, shell_kind, shell_link, shell_step, shell_stmt};

/// Enclosing a node is the same as rebuilding it from its enclosed parts.
pub fn shell_law()
    ensures expr { (on : Bool) (x : Expr) → shell on x ≡ enclose on x }
    ensures field { (on : Bool) (x : FieldExpr) → shell_field on x ≡ enclose_field on x }
    ensures step { (on : Bool) (x : Step) → shell_step on x ≡ enclose_step on x }
    ensures link { (on : Bool) (x : Link) → shell_link on x ≡ enclose_link on x }
    ensures condition { (on : Bool) (x : Condition) → shell_condition on x ≡ enclose_condition on x }
    ensures stmt { (on : Bool) (x : Stmt) → shell_stmt on x ≡ enclose_stmt on x }
    ensures block { (on : Bool) (x : Block) → shell_block on x ≡ enclose_block on x }
    ensures branch { (on : Bool) (x : Branch) → shell_branch on x ≡ enclose_branch on x }
    ensures arm { (on : Bool) (x : Arm) → shell_arm on x ≡ enclose_arm on x }
    ensures kind { (on : Bool) (x : ItemKind) → shell_kind on x ≡ enclose_kind on x }
    ensures item { (on : Bool) (x : Item) → shell_item on x ≡ enclose_item on x }
{}
