//! The last step of building a node.
ghost use Rattle.std.specs.Prelude.{◌≡◌, Err, IfOk, MatchResult};
ghost use Rattle.lay_build_types.specs.Answers.{IsPart, Makes};

use lay_build_types::{BuildError, Built, Node, kept};

/// The node as a built one, unless it is too deep or making it failed. The node is lent to `make`
/// and owned here only, so functions in between needn't drop it.
pub(crate) fn kept_with<N: Node + Drop>(
    node: N,
    need: Result<u32, BuildError>,
) -> Result<Built<N>, BuildError>
    requires { IfOk need (λ deep. IsPart N.form N.Holds (node, deep)) }
    ensures { MatchResult need (λ deep. Makes N.form node result) (λ why. result ≡ Err why) }
{
    match need {
        Ok(need) => kept(Ok((node, need))),
        Err(why) => Err(why),
    }
}
