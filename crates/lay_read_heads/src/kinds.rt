//! The public readers of items that consist of a head alone.
ghost use Rattle.lay_node.specs.nodes.Facts.{by_itself};
ghost use Rattle.lay_node.specs.nodes.Heads.{about_alias, about_enum, about_extern_crate, about_struct, about_union, headed};
ghost use Rattle.lay_code.specs.declared.item.ItemKind.TheVariants as item;
ghost use Rattle.lay_read_tokens.specs.Answers.{AreLexed, IsRead};
ghost use Rattle.lay_read_parts.specs.Answers.{IsReadAt};
ghost use Rattle.lay_read_heads.specs.Answers.{OfKind, StructFront};

use lay_code::{ItemKind, Site};
use lay_nest::Cursor;
use lay_read_head_rules::heads::{
    alias_ahead, enum_ahead, extern_crate_ahead, struct_ahead, union_ahead,
};
use lay_read_tokens::front::is_at_keyword;
use lay_read_tokens::{Ahead, ReadNone};
use std::alloc::Global;

/// Parses the next struct or union, within `depth` levels, of which it takes one. On an error the
/// cursor doesn't move.
pub fn read_struct(alloc: Global, at: &mut Cursor<'_>, depth: u32) -> Result<ItemKind, ReadNone>
    requires { AreLexed at.old }
    ensures { IsReadAt depth StructFront at.old result at.new }
{
    let ahead = Ahead::new(at.fork());
    if is_at_keyword(&ahead, b"union") {
        read_union_alone(alloc, at, depth)
    } else {
        read_struct_alone(alloc, at, depth)
    }
}

/// Parses the next struct.
fn read_struct_alone(alloc: Global, at: &mut Cursor<'_>, depth: u32) -> Result<ItemKind, ReadNone>
    requires { AreLexed at.old }
    ensures { IsReadAt depth (OfKind item.Struct (λ x. by_itself (headed (about_struct x)))) at.old
        result at.new }
{
    if depth == 0 {
        return Err(ReadNone::NoReading);
    }
    let mut ahead = Ahead::new(at.fork());
    let found = struct_ahead(alloc, &mut ahead, depth - 1)?;
    *at = ahead.into_cursor();
    Ok(ItemKind::Struct { item: found.node })
}

/// Parses the next union.
fn read_union_alone(alloc: Global, at: &mut Cursor<'_>, depth: u32) -> Result<ItemKind, ReadNone>
    requires { AreLexed at.old }
    ensures { IsReadAt depth (OfKind item.Union (λ x. by_itself (headed (about_union x)))) at.old
        result at.new }
{
    if depth == 0 {
        return Err(ReadNone::NoReading);
    }
    let mut ahead = Ahead::new(at.fork());
    let found = union_ahead(alloc, &mut ahead, depth - 1)?;
    *at = ahead.into_cursor();
    Ok(ItemKind::Union { item: found.node })
}

/// Parses the next enumeration, within `depth` levels, of which it takes one. On an error the
/// cursor doesn't move.
pub fn read_enum(alloc: Global, at: &mut Cursor<'_>, depth: u32) -> Result<ItemKind, ReadNone>
    requires { AreLexed at.old }
    ensures { IsReadAt depth (OfKind item.Enum (λ x. by_itself (headed (about_enum x)))) at.old
        result at.new }
{
    if depth == 0 {
        return Err(ReadNone::NoReading);
    }
    let mut ahead = Ahead::new(at.fork());
    let found = enum_ahead(alloc, &mut ahead, depth - 1)?;
    *at = ahead.into_cursor();
    Ok(ItemKind::Enum { item: found.node })
}

/// Parses the next type alias, as it may be at this site, within `depth` levels, of which it takes
/// one. On an error the cursor doesn't move.
pub fn read_alias(
    alloc: Global,
    at: &mut Cursor<'_>,
    site: Site,
    depth: u32,
) -> Result<ItemKind, ReadNone>
    requires { AreLexed at.old }
    ensures { IsReadAt depth (OfKind item.Alias (λ x. by_itself (headed (about_alias site x))))
        at.old result at.new }
{
    if depth == 0 {
        return Err(ReadNone::NoReading);
    }
    let mut ahead = Ahead::new(at.fork());
    let found = alias_ahead(alloc, &mut ahead, site, depth - 1)?;
    *at = ahead.into_cursor();
    Ok(ItemKind::Alias { item: found.node })
}

/// Parses the next extern crate declaration. On an error the cursor doesn't move.
pub fn read_extern_crate(alloc: Global, at: &mut Cursor<'_>) -> Result<ItemKind, ReadNone>
    requires { AreLexed at.old }
    ensures { IsRead (OfKind item.ExternCrate (λ x. headed (about_extern_crate x))) at.old result
        at.new }
{
    let mut ahead = Ahead::new(at.fork());
    let item = extern_crate_ahead(alloc, &mut ahead)?;
    *at = ahead.into_cursor();
    Ok(ItemKind::ExternCrate { item })
}
