//! Parsing of paths.
ghost use Rattle.std.specs.Prelude.{◌≡◌, ◌≤◌, codes, IfOk};
ghost use Rattle.lay_node.specs.Ahead.{first, is_keyword, tail};
ghost use Rattle.lay_node.specs.nodes.Types.{about_args};
ghost use Rattle.lay_node.specs.reader.Types as reader;
ghost use Rattle.lay_node.specs.reader.Types.{within};
ghost use Rattle.lay_read_tokens.specs.Answers.{IsFound};
ghost use Rattle.lay_read_parts.specs.Answers.{gathered};
ghost use Rattle.lay_read_types.specs.Answers.{AreDeeper};

use crate::rules::Rules;
use lay_node::{Args, Boxed, Constraint, Path, PathStart, PathStyle, Ty, TypePlace, Word};
use lay_read_parts::joins::{both, none_of, refused};
use lay_read_parts::loops::{Joint, Part, read_chain};
use lay_read_tokens::found::greater;
use lay_read_tokens::front::{is_at_mark, takes_colons, takes_keyword, takes_mark};
use lay_read_tokens::names::read_word;
use lay_read_tokens::stop::boxed;
use lay_read_tokens::{Ahead, Found, ReadNone};
use lay_token::List;
use std::alloc::Global;

/// Segments as the parts of a path.
pub struct Segments;

impl Part<(Word, Args), PathStyle> for Segments {
    ghost reads = { λ depth style ts. reader.segment (within depth) style ts };
}

impl<
    F: Fn(Global, &mut Ahead<'_>, TypePlace, u32) -> Result<Found<Ty>, ReadNone>,
    G: Fn(Global, &mut Ahead<'_>, u32) -> Result<Found<Constraint>, ReadNone>,
> Rules<F, G> {
    /// Parses a segment.
    #[tactic(auto, unfolding(lay_node::specs::reader::Types::segment))]
    fn segment(&self, at: &mut Ahead<'_>, style: PathStyle) -> Result<Found<(Word, Args)>, ReadNone>
        requires { AreDeeper self.now.depth (F.pre self.now.types) (F.post self.now.types)
            (G.pre self.now.constraints) (G.post self.now.constraints) }
        ensures read { IsFound (reader.segment (within self.now.depth) style at.old) result at.new }
        ensures within { IfOk result (λ found. found.need ≤ self.now.depth) }
    {
        let word = read_word(self.alloc, at)?;
        let args = self.args(at, style)?;
        Ok(Found {
            need: args.need,
            node: (word, args.node),
        })
    }

    /// Parses one or more segments.
    #[tactic(auto, using(crate::proofs::Left::segment_leaves))]
    fn segments(
        &self,
        at: &mut Ahead<'_>,
        style: PathStyle,
    ) -> Result<Found<List<(Word, Args)>>, ReadNone>
        requires { AreDeeper self.now.depth (F.pre self.now.types) (F.post self.now.types)
            (G.pre self.now.constraints) (G.post self.now.constraints) }
        ensures read { IsFound (gathered (reader.chain (codes "::")
            (reader.segment (within self.now.depth) style) at.old)) result at.new }
        ensures within { IfOk result (λ found. found.need ≤ self.now.depth) }
    {
        read_chain::<Segments, Rules<F, G>, (Word, Args), PathStyle, _>(
            self.alloc,
            at,
            self.depth,
            Joint::Colons,
            self,
            Rules::segment,
            style,
        )
    }

    /// Parses a trait, which counts one level of depth more, as a type does.
    fn trait_path(&self, at: &mut Ahead<'_>) -> Result<Found<Path>, ReadNone>
        requires { AreDeeper self.now.depth (F.pre self.now.types) (F.post self.now.types)
            (G.pre self.now.constraints) (G.post self.now.constraints) }
        ensures read { IsFound (reader.trait_path (within self.now.depth) at.old) result at.new }
        ensures within { IfOk result (λ found. found.need ≤ self.now.depth) }
    {
        let Found { node, need } = self.inner(at, TypePlace::NoBounds)?;
        match into_path(node) {
            Some(node) => Ok(Found { node, need }),
            None => Err(ReadNone::NoReading),
        }
    }

    /// Parses the `as` and the trait of `<A as B>::`, if they come next.
    fn trait_if(&self, at: &mut Ahead<'_>) -> Result<Found<Option<Boxed<Path>>>, ReadNone>
        requires { AreDeeper self.now.depth (F.pre self.now.types) (F.post self.now.types)
            (G.pre self.now.constraints) (G.post self.now.constraints) }
        ensures read { IsFound (reader.if_read (first (is_keyword (codes "as")) at.old)
            (λ ts. reader.trait_path (within self.now.depth) (tail ts)) at.old) result at.new }
        ensures within { IfOk result (λ found. found.need ≤ self.now.depth) }
    {
        if !takes_keyword(at, b"as") {
            return Ok(Found {
                node: None,
                need: 0,
            });
        }
        let found = self.trait_path(at)?;
        let path = boxed(self.alloc, found.node)?;
        Ok(Found {
            node: Some(path),
            need: found.need,
        })
    }

    /// Parses `<A as B>::` or `<A>::`.
    #[tactic(auto, unfolding(lay_node::specs::reader::Types::qualified))]
    fn qualified(&self, at: &mut Ahead<'_>) -> Result<Found<PathStart>, ReadNone>
        requires { AreDeeper self.now.depth (F.pre self.now.types) (F.post self.now.types)
            (G.pre self.now.constraints) (G.post self.now.constraints) }
        ensures read { IsFound (reader.qualified (within self.now.depth) at.old) result at.new }
        ensures within { IfOk result (λ found. found.need ≤ self.now.depth) }
    {
        if !takes_mark(at, b"<") {
            return Err(ReadNone::NoReading);
        }
        let ty = self.inner(at, TypePlace::Bounds)?;
        let (ty, of) = both(ty, self.trait_if(at))?;
        if !takes_mark(at, b">") || !takes_colons(at) {
            return refused((ty, of));
        }
        let need = greater(ty.need, of.need);
        let (of, ty) = both(of.node, boxed(self.alloc, ty.node))?;
        Ok(Found {
            node: PathStart::Qualified { ty, of },
            need,
        })
    }

    /// Parses the beginning of a path.
    fn path_start(&self, at: &mut Ahead<'_>) -> Result<Found<PathStart>, ReadNone>
        requires { AreDeeper self.now.depth (F.pre self.now.types) (F.post self.now.types)
            (G.pre self.now.constraints) (G.post self.now.constraints) }
        ensures read { IsFound (reader.path_start (within self.now.depth) at.old) result at.new }
        ensures within { IfOk result (λ found. found.need ≤ self.now.depth) }
    {
        if is_at_mark(at, b"<") {
            self.qualified(at)
        } else if takes_colons(at) {
            Ok(Found {
                node: PathStart::Global,
                need: 0,
            })
        } else {
            Ok(Found {
                node: PathStart::Local,
                need: 0,
            })
        }
    }

    /// Parses a path.
    #[tactic(auto, unfolding(lay_node::specs::reader::Types::path))]
    pub fn path(&self, at: &mut Ahead<'_>, style: PathStyle) -> Result<Found<Path>, ReadNone>
        requires { AreDeeper self.now.depth (F.pre self.now.types) (F.post self.now.types)
            (G.pre self.now.constraints) (G.post self.now.constraints) }
        ensures read { IsFound (reader.path (within self.now.depth) style at.old) result at.new }
        ensures within { IfOk result (λ found. found.need ≤ self.now.depth) }
    {
        let start = self.path_start(at)?;
        let (start, segments) = both(start, self.segments(at, style))?;
        if !returns_last(segments.node.as_slice()) {
            return refused((start, segments));
        }
        Ok(Found {
            need: greater(start.need, segments.need),
            node: Path {
                start: start.node,
                segments: segments.node,
            },
        })
    }
}

/// The path of a type that is a path.
pub fn into_path(ty: Ty) -> Option<Path>
    ensures { result ≡ reader.as_path ty }
{
    match ty {
        Ty::Path { path } => Some(path),
        other => none_of(other),
    }
}

/// Whether generic arguments have a return type.
#[tactic(auto, using(crate::proofs::Steps::returns_none, crate::proofs::Steps::returns_angle, crate::proofs::Steps::returns_round))]
fn has_output(args: &Args) -> bool
    ensures { result ≡ (about_args args.now).returns }
{
    match args {
        Args::None => false,
        Args::Angle { .. } => false,
        Args::Round { output, .. } => output.is_some(),
    }
}

/// Whether only the last segment has a return type.
fn returns_last(segments: &[(Word, Args)]) -> bool
    ensures { result ≡ reader.returns_last segments.now }
{
    let mut rest = segments;
    while let [segment, behind @ ..] = rest {
        if !behind.is_empty() && has_output(&segment.1) {
            return false;
        }
        rest = behind;
    }
    true
}
