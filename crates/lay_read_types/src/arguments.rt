//! Parsing of generic arguments.
ghost use Rattle.std.specs.Prelude.{◌≡◌, ◌≤◌, codes, IfOk};
ghost use Rattle.lay_token.specs.Operators.{is_op};
ghost use Rattle.lay_node.specs.Ahead.{is_mark};
ghost use Rattle.lay_node.specs.nodes.Types.{about_args};
ghost use Rattle.lay_node.specs.reader.Loops.{elements};
ghost use Rattle.lay_node.specs.reader.Types as reader;
ghost use Rattle.lay_node.specs.reader.Types.{within};
ghost use Rattle.lay_node.specs.declared.types.TypePlace.TheVariants.{NoBounds};
ghost use Rattle.lay_read_tokens.specs.Answers.{IsFound};
ghost use Rattle.lay_read_parts.specs.Answers.{gathered};
ghost use Rattle.lay_read_types.specs.Answers.{AreDeeper, named_segment};

use crate::paths::into_path;
use crate::rules::Rules;
use lay_node::{
    Arg, Args, Boxed, Constraint, Name, Path, PathStart, PathStyle, Ty, TypePlace, Word,
};
use lay_read_parts::joins::both;
use lay_read_parts::leads::{begins_const, is_at_lifetime, opens_args, opens_args_late};
use lay_read_parts::loops::{Closer, Part, read_elements};
use lay_read_parts::parts::{read_const, read_lifetime};
use lay_read_tokens::found::greater;
use lay_read_tokens::front::{is_at_opened, pass_two, takes_mark, takes_opener};
use lay_read_tokens::names::is_plain;
use lay_read_tokens::stop::boxed;
use lay_read_tokens::{Ahead, Found, ReadNone};
use lay_token::{Delim, List};
use std::alloc::Global;

/// Generic arguments as the elements of a list.
pub struct Arguments;

impl Part<Arg, ()> for Arguments {
    ghost reads = { λ depth place ts. reader.one_arg (within depth) ts };
}

impl<
    F: Fn(Global, &mut Ahead<'_>, TypePlace, u32) -> Result<Found<Ty>, ReadNone>,
    G: Fn(Global, &mut Ahead<'_>, u32) -> Result<Found<Constraint>, ReadNone>,
> Rules<F, G> {
    /// Parses a generic argument.
    #[tactic(auto, unfolding(lay_node::specs::reader::Types::one_arg))]
    fn arg(&self, at: &mut Ahead<'_>, _place: ()) -> Result<Found<Arg>, ReadNone>
        requires { AreDeeper self.now.depth (F.pre self.now.types) (F.post self.now.types)
            (G.pre self.now.constraints) (G.post self.now.constraints) }
        ensures read { IsFound (reader.one_arg (within self.now.depth) at.old) result at.new }
        ensures within { IfOk result (λ found. found.need ≤ self.now.depth) }
    {
        if is_at_lifetime(at) {
            let lifetime = read_lifetime(self.alloc, at)?;
            return Ok(Found {
                node: Arg::Region { lifetime },
                need: 0,
            });
        }
        if begins_const(at) {
            let value = read_const(self.alloc, at)?;
            return Ok(Found {
                node: Arg::Const { value },
                need: 0,
            });
        }
        let ty = self.inner(at, TypePlace::Bounds)?;
        self.arg_rest(at, ty)
    }

    /// Parses a generic argument that begins with a type: the type alone, or a name with a
    /// constraint.
    #[inline(never)]
    fn arg_rest(&self, at: &mut Ahead<'_>, ty: Found<Ty>) -> Result<Found<Arg>, ReadNone>
        requires deeper { AreDeeper self.now.depth (F.pre self.now.types) (F.post self.now.types)
            (G.pre self.now.constraints) (G.post self.now.constraints) }
        requires within { ty.need ≤ self.now.depth }
        ensures read { IsFound (reader.arg_by (within self.now.depth) (ty.node, ty.need) at.old)
            result at.new }
        ensures within { IfOk result (λ found. found.need ≤ self.now.depth) }
    {
        let Found { node, need } = ty;
        if !at.op_is(b"=") && !at.op_is(b":") {
            return Ok(Found {
                node: Arg::Plain { ty: node },
                need,
            });
        }
        let named = match into_named(node) {
            Some(named) => named,
            None => return Err(ReadNone::NoReading),
        };
        let ((name, args), constraint) = both(named, self.asked(at))?;
        Ok(Found {
            need: greater(need, constraint.need),
            node: Arg::Named {
                name,
                args,
                constraint: constraint.node,
            },
        })
    }

    /// Parses generic arguments after the `<`, and the `>`.
    #[tactic(auto, using(crate::proofs::Left::arg_leaves))]
    fn angle_args(&self, at: &mut Ahead<'_>) -> Result<Found<List<Arg>>, ReadNone>
        requires { AreDeeper self.now.depth (F.pre self.now.types) (F.post self.now.types)
            (G.pre self.now.constraints) (G.post self.now.constraints) }
        ensures read { IsFound (gathered (elements (is_mark (codes ">"))
            (reader.one_arg (within self.now.depth)) at.old)) result at.new }
        ensures within { IfOk result (λ found. found.need ≤ self.now.depth) }
    {
        read_elements::<Arguments, Rules<F, G>, Arg, (), _>(
            self.alloc,
            at,
            self.depth,
            Closer::Angle,
            self,
            Rules::arg,
            (),
        )
    }

    /// Parses generic arguments in `<` and `>`.
    #[tactic(auto, unfolding(lay_node::specs::reader::Types::angle))]
    fn angle(&self, at: &mut Ahead<'_>) -> Result<Found<Args>, ReadNone>
        requires { AreDeeper self.now.depth (F.pre self.now.types) (F.post self.now.types)
            (G.pre self.now.constraints) (G.post self.now.constraints) }
        ensures read { IsFound (reader.angle (within self.now.depth) at.old) result at.new }
        ensures within { IfOk result (λ found. found.need ≤ self.now.depth) }
    {
        if !takes_mark(at, b"<") {
            return Err(ReadNone::NoReading);
        }
        let args = self.angle_args(at)?;
        Ok(Found {
            need: args.need,
            node: Args::Angle { args: args.node },
        })
    }

    /// Parses a return type, if one comes next.
    pub fn output(&self, at: &mut Ahead<'_>) -> Result<Found<Option<Boxed<Ty>>>, ReadNone>
        requires { AreDeeper self.now.depth (F.pre self.now.types) (F.post self.now.types)
            (G.pre self.now.constraints) (G.post self.now.constraints) }
        ensures read { IsFound (reader.output (within self.now.depth) at.old) result at.new }
        ensures within { IfOk result (λ found. found.need ≤ self.now.depth) }
    {
        if !at.op_is(b"->") {
            return Ok(Found {
                node: None,
                need: 0,
            });
        }
        pass_two(at);
        let found = self.inner(at, TypePlace::NoBounds)?;
        let output = boxed(self.alloc, found.node)?;
        Ok(Found {
            node: Some(output),
            need: found.need,
        })
    }

    /// Parses types in parentheses and a return type, as in `Fn(A) -> B`.
    #[tactic(auto, unfolding(lay_node::specs::reader::Types::round))]
    fn round(&self, at: &mut Ahead<'_>) -> Result<Found<Args>, ReadNone>
        requires { AreDeeper self.now.depth (F.pre self.now.types) (F.post self.now.types)
            (G.pre self.now.constraints) (G.post self.now.constraints) }
        ensures read { IsFound (reader.round (within self.now.depth) at.old) result at.new }
        ensures within { IfOk result (λ found. found.need ≤ self.now.depth) }
    {
        if !takes_opener(at, Delim::Paren) {
            return Err(ReadNone::NoReading);
        }
        let inputs = self.paren_types(at)?;
        let (inputs, output) = both(inputs, self.output(at))?;
        Ok(Found {
            need: greater(inputs.need, output.need),
            node: Args::Round {
                inputs: inputs.node,
                output: output.node,
            },
        })
    }

    /// Parses the generic arguments of a segment, if it has any.
    #[tactic(auto, unfolding(lay_node::specs::reader::Types::args_by))]
    pub fn args(&self, at: &mut Ahead<'_>, style: PathStyle) -> Result<Found<Args>, ReadNone>
        requires { AreDeeper self.now.depth (F.pre self.now.types) (F.post self.now.types)
            (G.pre self.now.constraints) (G.post self.now.constraints) }
        ensures read { IsFound (reader.args_by (within self.now.depth) style at.old) result at.new }
        ensures within { IfOk result (λ found. found.need ≤ self.now.depth) }
    {
        if matches!(style, PathStyle::Kind) && opens_args(at) {
            return self.angle(at);
        }
        if opens_args_late(at) {
            pass_two(at);
            return self.angle(at);
        }
        if matches!(style, PathStyle::Kind) && is_at_opened(at, Delim::Paren) {
            return self.round(at);
        }
        Ok(Found {
            node: Args::None,
            need: 0,
        })
    }
}

/// Whether the generic arguments are in parentheses.
#[tactic(auto, using(crate::proofs::Steps::round_none, crate::proofs::Steps::round_angle, crate::proofs::Steps::round_round))]
fn is_round(args: &Args) -> bool
    ensures { result ≡ (about_args args.now).round }
{
    match args {
        Args::None => false,
        Args::Angle { .. } => false,
        Args::Round { .. } => true,
    }
}

/// The name and the generic arguments of a type that is nothing more.
fn into_named(ty: Ty) -> Option<(Name, Args)>
    ensures { result ≡ reader.named_type ty }
{
    match into_path(ty) {
        Some(path) => into_named_path(path),
        None => None,
    }
}

/// The name and the generic arguments of a path that is nothing more.
fn into_named_path(path: Path) -> Option<(Name, Args)>
    ensures { result ≡ reader.named_path path }
{
    let Path { start, segments } = path;
    match start {
        PathStart::Local => into_segment(segments),
        _ => None,
    }
}

/// The name and the generic arguments of a single segment.
fn into_segment(segments: List<(Word, Args)>) -> Option<(Name, Args)>
    ensures { result ≡ reader.named_segments segments }
{
    let mut segments = segments.into_vec();
    if segments.len() != 1 {
        return None;
    }
    match segments.pop() {
        Some((word, args)) => into_name(word, args),
        None => None,
    }
}

/// A name and its generic arguments, if the word is a name and the arguments aren't in parentheses.
fn into_name(word: Word, args: Args) -> Option<(Name, Args)>
    ensures { result ≡ named_segment word args }
{
    let Word { raw, text } = word;
    if !is_round(&args) && (raw || is_plain(text.as_bytes())) {
        Some((Name { raw, text }, args))
    } else {
        None
    }
}
