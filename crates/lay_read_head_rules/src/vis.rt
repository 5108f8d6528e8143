//! Parsing of visibilities.
ghost use Rattle.std.specs.Prelude.{◌≡◌, if◌then◌else◌, drop};
ghost use Rattle.lay_node.specs.nodes.Vis as nodes;
ghost use Rattle.lay_node.specs.reader.Vis as reader;
ghost use Rattle.lay_read_tokens.specs.Answers.{IsGot};
ghost use Rattle.lay_read_head_rules.specs.Answers.{vis_in};

use lay_node::Vis;
use lay_read_tokens::front::{
    is_at_closer, pass, pass_two, takes_closer, takes_keyword, takes_opener,
};
use lay_read_tokens::simple_paths::read_simple_path;
use lay_read_tokens::{Ahead, ReadNone};
use lay_token::Delim;
use std::alloc::Global;

/// Parses a visibility, which may be nothing.
#[tactic(auto, unfolding(lay_node::specs::reader::Vis::visibility))]
pub fn vis_ahead(alloc: Global, at: &mut Ahead<'_>) -> Result<Vis, ReadNone>
    ensures { IsGot (reader.visibility at.old) result at.new }
{
    if takes_keyword(at, b"pub") {
        vis_behind(alloc, at)
    } else {
        Ok(Vis::Inherited)
    }
}

/// Parses a visibility after its `pub`.
fn vis_behind(alloc: Global, at: &mut Ahead<'_>) -> Result<Vis, ReadNone>
    ensures { IsGot (reader.vis_behind at.old) result at.new }
{
    if takes_restriction(at, b"crate") {
        Ok(Vis::Crate)
    } else if takes_restriction(at, b"self") {
        Ok(Vis::Own)
    } else if takes_restriction(at, b"super") {
        Ok(Vis::Super)
    } else {
        read_vis_in(alloc, at)
    }
}

/// Whether this word in parentheses comes next.
fn is_restricted(at: &Ahead<'_>, word: &[u8]) -> bool
    ensures { result ≡ nodes.restricts_to word.now at.now }
{
    let mut behind = at.fork();
    takes_opener(&mut behind, Delim::Paren)
        && takes_keyword(&mut behind, word)
        && is_at_closer(&behind, Delim::Paren)
}

/// Moves past this word in parentheses if it comes next, and says whether it did.
fn takes_restriction(at: &mut Ahead<'_>, word: &[u8]) -> bool
    ensures found { result ≡ nodes.restricts_to word.now at.old }
    ensures passed { at.new ≡ (if result then drop 3 at.old else at.old) }
{
    let found = is_restricted(at, word);
    if found {
        pass_two(at);
        pass(at);
    }
    found
}

/// Parses `in` and a path in parentheses, if they come next.
fn read_vis_in(alloc: Global, at: &mut Ahead<'_>) -> Result<Vis, ReadNone>
    ensures { IsGot (vis_in at.old) result at.new }
{
    let mut behind = at.fork();
    if !takes_opener(&mut behind, Delim::Paren) || !takes_keyword(&mut behind, b"in") {
        return Ok(Vis::Public);
    }
    match read_simple_path(alloc, &mut behind) {
        Ok(path) if takes_closer(&mut behind, Delim::Paren) => {
            *at = behind;
            Ok(Vis::In(path))
        }
        Err(ReadNone::NoMemory) => Err(ReadNone::NoMemory),
        _ => Ok(Vis::Public),
    }
}
