//! The public readers of visibilities, use trees, and the heads of items.
ghost use Rattle.lay_node.specs.nodes.Facts.{Front, ToldFront, by_itself};
ghost use Rattle.lay_node.specs.nodes.Functions.{about_fn_head};
ghost use Rattle.lay_node.specs.nodes.Heads.{TraitHeadFront, about_impl_head, about_value_head};
ghost use Rattle.lay_node.specs.nodes.Use.{about_use};
ghost use Rattle.lay_node.specs.nodes.Vis.{about_vis};
ghost use Rattle.lay_node.specs.declared.functions.FnHead.{FnHead as FnHeadValue};
ghost use Rattle.lay_node.specs.declared.heads.ImplHead.{ImplHead as ImplHeadValue};
ghost use Rattle.lay_node.specs.declared.heads.ValueHead.{ValueHead as ValueHeadValue};
ghost use Rattle.lay_node.specs.declared.use_tree.UseTree.{UseTree as UseTreeValue};
ghost use Rattle.lay_node.specs.declared.vis.Vis.{Vis as VisValue};
ghost use Rattle.lay_read_tokens.specs.Answers.{AreLexed, IsRead};
ghost use Rattle.lay_read_parts.specs.Answers.{IsReadAt};

use lay_code::{FnHead, ImplHead, Site, TraitHead, UseTree, ValueHead, Vis};
use lay_nest::Cursor;
use lay_read_head_rules::functions::fn_head_ahead;
use lay_read_head_rules::heads::{impl_head_ahead, trait_head_ahead, value_head_ahead};
use lay_read_head_rules::uses::use_ahead;
use lay_read_head_rules::vis::vis_ahead;
use lay_read_tokens::{Ahead, ReadNone};
use std::alloc::Global;

/// Parses the next visibility, which may be nothing. On an error the cursor doesn't move.
pub fn read_vis(alloc: Global, at: &mut Cursor<'_>) -> Result<Vis, ReadNone>
    requires { AreLexed at.old }
    ensures { IsRead (λ (x : VisValue). ToldFront (about_vis x)) at.old result at.new }
{
    let mut ahead = Ahead::new(at.fork());
    let vis = vis_ahead(alloc, &mut ahead)?;
    *at = ahead.into_cursor();
    Ok(vis)
}

/// Parses the next head of a function, as it may be at this site, within `depth` levels, of which
/// it takes one. On an error the cursor doesn't move.
pub fn read_fn_head(
    alloc: Global,
    at: &mut Cursor<'_>,
    site: Site,
    depth: u32,
) -> Result<FnHead, ReadNone>
    requires { AreLexed at.old }
    ensures { IsReadAt depth (λ (x : FnHeadValue). ToldFront (by_itself (about_fn_head site x)))
        at.old result at.new }
{
    if depth == 0 {
        return Err(ReadNone::NoReading);
    }
    let mut ahead = Ahead::new(at.fork());
    let found = fn_head_ahead(alloc, &mut ahead, site, depth - 1)?;
    *at = ahead.into_cursor();
    Ok(found.node)
}

/// Parses the head of a constant or of a static, within `depth` levels, of which it takes one. On
/// an error the cursor doesn't move.
pub fn read_value_head(
    alloc: Global,
    at: &mut Cursor<'_>,
    depth: u32,
) -> Result<ValueHead, ReadNone>
    requires { AreLexed at.old }
    ensures { IsReadAt depth (λ (x : ValueHeadValue). ToldFront (by_itself (about_value_head x)))
        at.old result at.new }
{
    if depth == 0 {
        return Err(ReadNone::NoReading);
    }
    let mut ahead = Ahead::new(at.fork());
    let found = value_head_ahead(alloc, &mut ahead, depth - 1)?;
    *at = ahead.into_cursor();
    Ok(found.node)
}

/// Parses the head of a trait, within `depth` levels, of which it takes one. On an error the cursor
/// doesn't move.
pub fn read_trait_head(
    alloc: Global,
    at: &mut Cursor<'_>,
    depth: u32,
) -> Result<TraitHead, ReadNone>
    requires { AreLexed at.old }
    ensures { IsReadAt depth TraitHeadFront at.old result at.new }
{
    if depth == 0 {
        return Err(ReadNone::NoReading);
    }
    let mut ahead = Ahead::new(at.fork());
    let found = trait_head_ahead(alloc, &mut ahead, depth - 1)?;
    *at = ahead.into_cursor();
    Ok(found.node.0)
}

/// Parses the head of an implementation, within `depth` levels, of which it takes one. On an error
/// the cursor doesn't move.
pub fn read_impl_head(alloc: Global, at: &mut Cursor<'_>, depth: u32) -> Result<ImplHead, ReadNone>
    requires { AreLexed at.old }
    ensures { IsReadAt depth (λ (x : ImplHeadValue). ToldFront (by_itself (about_impl_head x)))
        at.old result at.new }
{
    if depth == 0 {
        return Err(ReadNone::NoReading);
    }
    let mut ahead = Ahead::new(at.fork());
    let found = impl_head_ahead(alloc, &mut ahead, depth - 1)?;
    *at = ahead.into_cursor();
    Ok(found.node)
}

/// Parses the next use tree, within `depth` levels. On an error the cursor doesn't move.
pub fn read_use(alloc: Global, at: &mut Cursor<'_>, depth: u32) -> Result<UseTree, ReadNone>
    requires { AreLexed at.old }
    ensures { IsReadAt depth (λ (x : UseTreeValue). Front (about_use x)) at.old result at.new }
{
    let mut ahead = Ahead::new(at.fork());
    let found = use_ahead(alloc, &mut ahead, depth)?;
    *at = ahead.into_cursor();
    Ok(found.node)
}
