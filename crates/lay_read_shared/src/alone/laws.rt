//! The theorems about blocks, statements and arms that stand alone. (No code runs.)
ghost use Rattle.std.specs.Prelude.{◌≡◌, ℕ, List};
ghost use Rattle.lay_token.specs.declared.token.Token.{Token};
ghost use Rattle.lay_node.specs.reader.Exact.{Exact};
ghost use Rattle.lay_code.specs.reader.Blocks.{block_by};
ghost use Rattle.lay_code.specs.declared.blocks.Arm.{Arm};
ghost use Rattle.lay_code.specs.declared.blocks.Block.{Block};
ghost use Rattle.lay_code.specs.declared.blocks.Stmt.{Stmt};
ghost use Rattle.lay_read_shared.specs.alone.ArmFronts.{ArmFront, alone_arm};
ghost use Rattle.lay_read_shared.specs.alone.Fronts.{BlockFront, StmtFront, alone, stmt_alone};

/// The readers of blocks, statements and arms read exactly the node that the next tokens spell, and
/// none if they spell none.
pub fn alone_law()
    ensures blocks { Exact (alone block_by) BlockFront }
    ensures stmts { Exact (alone stmt_alone) StmtFront }
    ensures arms { Exact alone_arm ArmFront }
{}

/// At most one block, statement or arm, of one length in tokens, is spelled at a place.
pub fn front_law()
    ensures one_block { (node other : Block) (ts : List Token) (n m depth : ℕ)
        → BlockFront node ts n depth → BlockFront other ts m depth → (node ≡ other) × (n ≡ m) }
    ensures one_stmt { (node other : Stmt) (ts : List Token) (n m depth : ℕ)
        → StmtFront node ts n depth → StmtFront other ts m depth → (node ≡ other) × (n ≡ m) }
    ensures one_arm { (node other : Arm) (ts : List Token) (n m depth : ℕ)
        → ArmFront node ts n depth → ArmFront other ts m depth → (node ≡ other) × (n ≡ m) }
{}
