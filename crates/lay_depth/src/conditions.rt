//! The depth of conditions and their links.
ghost use Rattle.std.specs.Prelude.{◌≡◌, map};
ghost use Rattle.lay_form.specs.Depth.{least_depth};
ghost use Rattle.lay_code.specs.nodes.Code.{about_condition, about_link};
ghost use Rattle.lay_depth.specs.nodes.Depths.{counted, greatest};
ghost use Rattle.lay_depth.specs.Parts.{link_form};

use crate::exprs::expr_depth;
use crate::nodes::pat_depth;
use lay_code::{Condition, Link};

/// The depth of a condition: that of its deepest link.
#[cycle(code)]
pub(crate) fn condition_depth(condition: &Condition) -> u32
    ensures { result ≡ counted (least_depth (about_condition condition.now).form) }
{
    links_depth(condition.links.as_slice())
}

/// The greatest depth of the links.
#[cycle(code)]
fn links_depth(links: &[Link]) -> u32
    ensures { result ≡ counted (greatest (map link_form links.now)) }
{
    let mut most = 0u32;
    for link in links {
        most = most.max(link_depth(link));
    }
    most
}

/// The depth of a link.
#[cycle(code)]
fn link_depth(link: &Link) -> u32
    ensures { result ≡ counted (least_depth (about_link link.now).form) }
{
    match link {
        Link::Expr { expr } => expr_depth(expr.get()),
        Link::Let { pat, value } => pat_depth(pat).max(expr_depth(value.get())),
    }
}
