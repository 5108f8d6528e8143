//! Parentheses in conditions.
ghost use Rattle.std.specs.Prelude.{◌≡◌, OnOk, if◌then◌else◌, true};
ghost use Rattle.lay_code.specs.nodes.Places as places;
ghost use Rattle.lay_paren.specs.InPlace.{condition_least, link_least, links_least};

use crate::exprs::place_expr;
use crate::slots::Slot;
use lay_code::{Condition, Link, Place};
use lay_ops::places::{link_place, plain};
use lay_token::{List, NoMemory};
use std::alloc::Global;

/// Puts the parentheses that the expressions in a condition lack.
#[cycle(code)]
#[tactic(auto, using(crate::proofs::Becoming::condition_becomes))]
pub(crate) fn place_condition(alloc: Global, condition: &mut Condition) -> Result<(), NoMemory>
    ensures { OnOk result (condition.new ≡ condition_least condition.old) }
{
    place_links(alloc, &mut condition.links)
}

/// Puts the missing parentheses in links.
#[cycle(code)]
#[tactic(auto, using(crate::proofs::Turning::refill))]
fn place_links(alloc: Global, links: &mut List<Link>) -> Result<(), NoMemory>
    ensures { OnOk result (links.new ≡ links_least links.old) }
{
    place_each_link(alloc, links.as_mut_slice())
}

/// Puts the missing parentheses in each of the links.
#[cycle(code)]
fn place_each_link(alloc: Global, links: &mut [Link]) -> Result<(), NoMemory>
    ensures { OnOk result (links.new ≡ links_least links.old) }
{
    let count = links.len();
    let alone = count == 1;
    for (index, link) in links.iter_mut().enumerate() {
        place_link(alloc, link, alone, index + 1 < count)?;
    }
    Ok(())
}

/// Puts the missing parentheses in a link; `alone` says that it is the whole condition, `more` that
/// another link follows.
#[cycle(code)]
#[tactic(auto, using(crate::proofs::Becoming::link_becomes))]
fn place_link(alloc: Global, link: &mut Link, alone: bool, more: bool) -> Result<(), NoMemory>
    ensures { OnOk result (link.new ≡ link_least alone more link.old) }
{
    match link {
        Link::Expr { expr } => {
            place_expr(alloc, expr.get_mut(), whole_place(alone, more), Slot::Any)
        },
        Link::Let { value, .. } => {
            place_expr(alloc, value.get_mut(), link_place(more), Slot::Any)
        },
    }
}

/// The place of a link that is an expression; `alone` says that it is the whole condition, `more`
/// that another link follows.
fn whole_place(alone: bool, more: bool) -> Place
    ensures { result ≡ (if alone then places.plain 0 true else places.link_place more) }
{
    if alone {
        plain(0, true)
    } else {
        link_place(more)
    }
}
