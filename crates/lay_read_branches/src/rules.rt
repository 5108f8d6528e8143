//! The rules of conditions, branches and expressions with blocks, at one level.
use lay_read_blocks::BlockRules;

/// The rules of conditions, branches and expressions with blocks, over the rules of blocks of the
/// same level.
#[derive(Drop)]
pub struct BranchRules<P, B, I> {
    pub rules: BlockRules<P, B, I>,
}
