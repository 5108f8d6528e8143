//! Parsing of prefix operators.
ghost use Rattle.std.specs.Prelude.{◌≡◌, ◌+◌, ◌≤◌, is_some, IfOk};
ghost use Rattle.lay_node.specs.reader.Loops.{repeat};
ghost use Rattle.lay_code.specs.Operators as operators;
ghost use Rattle.lay_code.specs.reader.Exprs as reader;
ghost use Rattle.lay_read_tokens.specs.Answers.{IsFound, IsGot};
ghost use Rattle.lay_read_shared.specs.Code.{code_within};
ghost use Rattle.lay_read_operators.specs.Answers.{AreExprs};

use crate::climber::Climber;
use lay_code::{Boxed, Expr, Place, Prefix};
use lay_ops::ahead::prefix;
use lay_ops::operators::prefix_length;
use lay_ops::places::plain;
use lay_read_operators::operands::pass_tokens;
use lay_read_parts::joins::both;
use lay_read_shared::boxes::boxed_found;
use lay_read_tokens::stop::keep;
use lay_read_tokens::{Ahead, Found, ReadNone};
use lay_token::List;
use std::alloc::Global;

/// Parses prefix operators, as long as one comes next.
fn read_prefixes(alloc: Global, at: &mut Ahead<'_>) -> Result<List<Prefix>, ReadNone>
    ensures { IsGot (repeat (λ us. is_some (operators.prefix us)) reader.one_prefix at.old) result
        at.new }
{
    let mut prefixes = List::new(alloc);
    while let Some(one) = prefix(at) {
        pass_tokens(at, prefix_length(one));
        keep(&mut prefixes, one)?;
    }
    Ok(prefixes)
}

impl<P: Fn(Global, &mut Ahead<'_>, Place, u32) -> Result<Found<Boxed<Expr>>, ReadNone>, H> Climber<
    P,
    H,
> {
    /// Parses prefix operators and their operand.
    #[tactic(auto, unfolding(lay_code::specs::reader::Exprs::unary_expr))]
    #[inline(never)]
    pub fn unary_expr(
        &self,
        at: &mut Ahead<'_>,
        no_struct: bool,
    ) -> Result<Found<Boxed<Expr>>, ReadNone>
        requires { AreExprs self.now.rules.depth (P.pre self.now.rules.exprs)
            (P.post self.now.rules.exprs) }
        ensures read { IsFound (reader.unary_expr (code_within self.now.rules.depth) no_struct
            at.old) result at.new }
        ensures within { IfOk result (λ found. found.need ≤ self.now.rules.depth + 1) }
    {
        let prefixes = read_prefixes(self.rules.alloc, at)?;
        let (prefixes, found) = both(prefixes, self.rules.inner(at, plain(12, no_struct)))?;
        boxed_found(
            self.rules.alloc,
            Expr::Unary {
                prefixes,
                operand: found.node,
            },
            found.need + 1,
        )
    }
}
