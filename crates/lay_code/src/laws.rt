//! The theorems about expressions, items and files. (No code runs.)
ghost use Rattle.std.specs.Prelude.{◌≡◌, ◌&&◌, ◌||◌, not, ◌∷◌, ℕ, Bool, List, Option, Some, Ok, IsTrue};
ghost use Rattle.lay_token.specs.Source.{Source, source};
ghost use Rattle.lay_token.specs.declared.token.Token.{Token};
ghost use Rattle.lay_node.specs.nodes.Facts.{Front};
ghost use Rattle.lay_node.specs.reader.Exact.{Exact};
ghost use Rattle.lay_node.specs.declared.heads.Site.{Site};
ghost use Rattle.lay_code.specs.Reading.{SpellsFile};
ghost use Rattle.lay_code.specs.Written.{is_good_shebang};
ghost use Rattle.lay_code.specs.nodes.Code.{about_expr, about_item};
ghost use Rattle.lay_code.specs.nodes.Exprs.{ExprFacts, ExprFront, expr_facts, is_open, is_typed, placed};
ghost use Rattle.lay_code.specs.nodes.Places.{plain, statement};
ghost use Rattle.lay_code.specs.nodes.PlacesTable.{AssignRow, ByRoot, ChainRow, Iff, RangeRow, UnaryRow};
ghost use Rattle.lay_code.specs.reader.Code.{expr_at, item_at};
ghost use Rattle.lay_code.specs.declared.blocks.Stmt.TheOpen.{Expr-F};
ghost use Rattle.lay_code.specs.declared.exprs.Expr.{Expr};
ghost use Rattle.lay_code.specs.declared.exprs.Place.{Place};
ghost use Rattle.lay_code.specs.declared.file.File.{File};
ghost use Rattle.lay_code.specs.declared.item.Item.{Item};
ghost use Rattle.lay_code.specs.declared.operators.Op.{Op};
ghost use Rattle.lay_code.specs.declared.operators.Prefix.{Prefix};

/// The readers of expressions and items read exactly the node that the next tokens spell, and none
/// if they spell none. The shebang line of every source is one that a file may have.
pub fn reading_law()
    ensures exprs { (place : Place) → Exact (expr_at place)
        (λ (x : Expr). ExprFront place (about_expr x)) }
    ensures items { (site : Site) → Exact (item_at site) (λ (x : Item). Front (about_item site x)) }
    ensures good_shebang { (bytes : List ℕ) (from : Source) → source bytes ≡ Ok from
        → IsTrue (is_good_shebang from.shebang) }
{}

/// The table of the places of the parts of expressions. If an operator follows a place, it also
/// follows each expression that ends where the node ends. The definitions require this of what the
/// node ends in; the table passes it down to the last child.
pub fn places_law()
    ensures unary { (place : Place) (ops : List Prefix) (operand : ExprFacts)
        → Iff (IsTrue (placed (expr_facts (Expr-F.Unary ops operand)) place))
        (UnaryRow place ops operand) }
    ensures range { (place : Place) (start : Option ExprFacts) (inclusive : Bool) (end : ExprFacts)
        → Iff (IsTrue (placed (expr_facts (Expr-F.Range start inclusive (Some end))) place))
        (RangeRow place start inclusive end) }
    ensures assign { (place : Place) (targets : List (ExprFacts × Op)) (value : ExprFacts)
        → Iff (IsTrue (placed (expr_facts (Expr-F.Assign targets value)) place))
        (AssignRow place targets value) }
    ensures chain { (place : Place) (first : ExprFacts) (next : Op × ExprFacts)
        (more : List (Op × ExprFacts))
        → Iff (IsTrue (placed (expr_facts (Expr-F.Chain first (next ∷ more))) place))
        (ChainRow place first next more) }
    ensures others { (place : Place) (node : ExprFacts)
        → is_open node.tail ≡ (node.jumps || node.endless)
        → is_typed node.tail ≡ node.typed → ByRoot place node }
{}

/// The bodies of closures. Around a body that may be a statement the layout may put braces that
/// aren't in the tree; the reader takes such braces off if their content may stand as the body. The
/// form and the reader decide this by three facts of the body. For a body `starts` and `tight` say
/// whether it may be a statement. For a statement `structless` says whether it may stand where no
/// struct literal is allowed.
pub fn body_law()
    ensures as_statement { (node : Expr) (no_struct : Bool)
        → IsTrue (placed (about_expr node) (plain 0 no_struct))
        → ((about_expr node).starts && (about_expr node).tight)
        ≡ placed (about_expr node) statement }
    ensures as_body { (node : Expr) (no_struct : Bool) → IsTrue (placed (about_expr node) statement)
        → (not no_struct || (about_expr node).structless)
        ≡ placed (about_expr node) (plain 0 no_struct) }
{}

/// At a place at most one expression or item, of one length in tokens, is spelled, and at most one
/// file by a list of tokens.
pub fn node_law()
    ensures one_expr { (node other : Expr) (place : Place) (ts : List Token) (n m depth : ℕ)
        → ExprFront place (about_expr node) ts n depth
        → ExprFront place (about_expr other) ts m depth → (node ≡ other) × (n ≡ m) }
    ensures one_item { (node other : Item) (site : Site) (ts : List Token) (n m depth : ℕ)
        → Front (about_item site node) ts n depth → Front (about_item site other) ts m depth
        → (node ≡ other) × (n ≡ m) }
    ensures one_file { (depth : ℕ) (file other : File) (ts : List Token)
        → file.shebang ≡ other.shebang
        → SpellsFile depth file ts → SpellsFile depth other ts → file ≡ other }
{}
