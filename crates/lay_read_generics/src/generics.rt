//! Parsing of generic parameters.
ghost use Rattle.std.specs.Prelude.{◌≡◌, ◌≤◌, codes, drop, IfOk};
ghost use Rattle.lay_token.specs.Operators.{is_op};
ghost use Rattle.lay_node.specs.Ahead.{is_mark};
ghost use Rattle.lay_node.specs.reader.Generics as reader;
ghost use Rattle.lay_node.specs.reader.Loops.{elements};
ghost use Rattle.lay_node.specs.reader.Types.{if_read, if_there, within};
ghost use Rattle.lay_node.specs.declared.types.TypePlace.TheVariants.{Bounds};
ghost use Rattle.lay_read_tokens.specs.Answers.{IsFound, IsGot};
ghost use Rattle.lay_read_parts.specs.Answers.{gathered};

use crate::level::Level;
use lay_node::{Attr, Bound, ConstDefault, GenericParam, Generics, Ty, TypePlace};
use lay_read_parts::joins::{both, refused};
use lay_read_parts::leads::{begins_bound, begins_const, is_at_lifetime};
use lay_read_parts::loops::{Closer, Part, read_elements};
use lay_read_parts::parts::{read_const, read_lifetime_behind};
use lay_read_tokens::attributes::attrs_ahead;
use lay_read_tokens::found::greater;
use lay_read_tokens::front::{takes_keyword, takes_mark, takes_op};
use lay_read_tokens::names::read_name;
use lay_read_tokens::{Ahead, Found, ReadNone};
use lay_read_types::{bounds_ahead, type_ahead};
use lay_token::List;
use std::alloc::Global;

/// Generic parameters as the elements of a list.
pub struct Params;

impl Part<GenericParam, ()> for Params {
    ghost reads = { λ depth place ts. reader.one_param (within depth) ts };
}

impl Level {
    /// Parses the bounds after a `:`, which may be none.
    pub fn met(&self, at: &mut Ahead<'_>) -> Result<Found<List<Bound>>, ReadNone>
        ensures read { IsFound (reader.met (within self.now.depth) at.old) result at.new }
        ensures within { IfOk result (λ found. found.need ≤ self.now.depth) }
    {
        if begins_bound(at) {
            bounds_ahead(self.alloc, at, self.depth)
        } else {
            Ok(Found {
                node: List::new(self.alloc),
                need: 0,
            })
        }
    }

    /// Parses a `:` and the bounds of a parameter, if there are any.
    fn met_if(&self, at: &mut Ahead<'_>) -> Result<Found<List<Bound>>, ReadNone>
        ensures read { IsFound (reader.met_if (within self.now.depth) at.old) result at.new }
        ensures within { IfOk result (λ found. found.need ≤ self.now.depth) }
    {
        if takes_op(at, b":") {
            self.met(at)
        } else {
            Ok(Found {
                node: List::new(self.alloc),
                need: 0,
            })
        }
    }

    /// Parses the default of a type parameter (`= T`), if it has one.
    fn default_type(&self, at: &mut Ahead<'_>) -> Result<Found<Option<Ty>>, ReadNone>
        ensures read { IsFound (if_read (is_op (codes "=") at.old)
            (λ ts. (within self.now.depth).types Bounds (drop 1 ts)) at.old) result at.new }
        ensures within { IfOk result (λ found. found.need ≤ self.now.depth) }
    {
        if !takes_op(at, b"=") {
            return Ok(Found {
                node: None,
                need: 0,
            });
        }
        let ty = type_ahead(self.alloc, at, TypePlace::Bounds, self.depth)?;
        Ok(Found {
            node: Some(ty.node),
            need: ty.need,
        })
    }

    /// Parses a type parameter; its attributes were read.
    #[tactic(auto, unfolding(lay_node::specs::reader::Generics::type_param))]
    fn type_param(
        &self,
        at: &mut Ahead<'_>,
        attrs: List<Attr>,
    ) -> Result<Found<GenericParam>, ReadNone>
        ensures read { IsFound (reader.type_param (within self.now.depth) attrs at.old) result
            at.new }
        ensures within { IfOk result (λ found. found.need ≤ self.now.depth) }
    {
        let (attrs, name) = both(attrs, read_name(self.alloc, at))?;
        let (head, bounds) = both((attrs, name), self.met_if(at))?;
        let ((head, bounds), default) = both((head, bounds), self.default_type(at))?;
        let (attrs, name) = head;
        Ok(Found {
            need: greater(bounds.need, default.need),
            node: GenericParam::Named {
                attrs,
                name,
                bounds: bounds.node,
                default: default.node,
            },
        })
    }

    /// Parses a const parameter after its keyword.
    #[tactic(auto, unfolding(lay_node::specs::reader::Generics::const_param))]
    fn const_param(
        &self,
        at: &mut Ahead<'_>,
        attrs: List<Attr>,
    ) -> Result<Found<GenericParam>, ReadNone>
        ensures read { IsFound (reader.const_param (within self.now.depth) attrs at.old) result
            at.new }
        ensures within { IfOk result (λ found. found.need ≤ self.now.depth) }
    {
        let (attrs, name) = both(attrs, read_name(self.alloc, at))?;
        if !takes_op(at, b":") {
            return refused((attrs, name));
        }
        let place = TypePlace::Bounds;
        let (head, ty) = both((attrs, name), type_ahead(self.alloc, at, place, self.depth))?;
        let ((head, ty), default) = both((head, ty), read_const_default_if(self.alloc, at))?;
        let (attrs, name) = head;
        Ok(Found {
            need: ty.need,
            node: GenericParam::Const {
                attrs,
                name,
                ty: ty.node,
                default,
            },
        })
    }

    /// Parses a generic parameter.
    #[tactic(auto, unfolding(lay_node::specs::reader::Generics::one_param))]
    fn param(&self, at: &mut Ahead<'_>, _place: ()) -> Result<Found<GenericParam>, ReadNone>
        ensures read { IsFound (reader.one_param (within self.now.depth) at.old) result at.new }
        ensures within { IfOk result (λ found. found.need ≤ self.now.depth) }
    {
        let attrs = attrs_ahead(self.alloc, at, false)?;
        if is_at_lifetime(at) {
            let param = read_lifetime_behind(self.alloc, at, attrs)?;
            return Ok(Found {
                node: GenericParam::Region { param },
                need: 0,
            });
        }
        if takes_keyword(at, b"const") {
            self.const_param(at, attrs)
        } else {
            self.type_param(at, attrs)
        }
    }

    /// Parses generic parameters after the `<`, and the `>`.
    #[tactic(auto, using(crate::proofs::Left::one_param_leaves))]
    fn params(&self, at: &mut Ahead<'_>) -> Result<Found<List<GenericParam>>, ReadNone>
        ensures read { IsFound (gathered (elements (is_mark (codes ">"))
            (reader.one_param (within self.now.depth)) at.old)) result at.new }
        ensures within { IfOk result (λ found. found.need ≤ self.now.depth) }
    {
        read_elements::<Params, Level, GenericParam, (), _>(
            self.alloc,
            at,
            self.depth,
            Closer::Angle,
            self,
            Level::param,
            (),
        )
    }

    /// Parses generic parameters. The flag says that there were `<` and `>`.
    #[tactic(auto, unfolding(lay_node::specs::reader::Generics::generics))]
    pub fn generics(&self, at: &mut Ahead<'_>) -> Result<Found<(Generics, bool)>, ReadNone>
        ensures read { IsFound (reader.generics (within self.now.depth) at.old) result at.new }
        ensures within { IfOk result (λ found. found.need ≤ self.now.depth) }
    {
        if !takes_mark(at, b"<") {
            let params = List::new(self.alloc);
            return Ok(Found {
                node: (Generics { params }, false),
                need: 0,
            });
        }
        let params = self.params(at)?;
        Ok(Found {
            node: (
                Generics {
                    params: params.node,
                },
                true,
            ),
            need: params.need,
        })
    }
}

/// Parses the default of a const parameter, if it has one.
fn read_const_default_if(
    alloc: Global,
    at: &mut Ahead<'_>,
) -> Result<Option<ConstDefault>, ReadNone>
    ensures { IsGot (if_there (is_op (codes "=") at.old) (λ ts. reader.const_default_at (drop 1 ts))
        at.old) result at.new }
{
    if !takes_op(at, b"=") {
        return Ok(None);
    }
    if begins_const(at) {
        let value = read_const(alloc, at)?;
        return Ok(Some(ConstDefault::Arg(value)));
    }
    let name = read_name(alloc, at)?;
    Ok(Some(ConstDefault::Name(name)))
}
