//! Expressions that contain blocks, and closures: the trait by which the rules of expressions call
//! their reader.
ghost use Rattle.std.specs.Prelude.{ℕ, ◌+◌, ◌≤◌, IfOk};
ghost use Rattle.lay_read_tokens.specs.Answers.{IsFound};
ghost use Rattle.lay_read_shared.specs.Code.{code_within};
ghost use Rattle.lay_read_blocks.specs.Answers.{block_head, fits};

use lay_code::{Boxed, Expr};
use lay_ops::operands::ExprLead;
use lay_read_tokens::{Ahead, Found, ReadNone};

/// A reader of closures, and of expressions that begin with a label, with a block, or with a word
/// before one.
pub trait BlockHeads {
    /// The depth limit of what the expressions contain.
    ghost depth: { Self → ℕ };

    /// What has to hold of the reader before it is called.
    ghost are_ready: { Self → Type 0 };

    /// Parses such an expression by its first token, unless it is nested too deep.
    fn block_head(
        &self,
        at: &mut Ahead<'_>,
        no_struct: bool,
        lead: ExprLead,
    ) -> Result<Found<Boxed<Expr>>, ReadNone>
        requires { are_ready self.now }
        ensures read { IsFound (fits (depth self.now + 1)
            (block_head (code_within (depth self.now)) no_struct lead at.old)) result at.new }
        ensures within { IfOk result (λ found. found.need ≤ depth self.now + 1) };
}
