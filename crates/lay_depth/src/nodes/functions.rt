//! The depth of the heads of functions.
ghost use Rattle.std.specs.Prelude.{◌≡◌};
ghost use Rattle.lay_form.specs.Depth.{least_depth};
ghost use Rattle.lay_node.specs.nodes.Functions.{fn_head_form, fn_param_form};
ghost use Rattle.lay_depth.specs.nodes.Depths.{counted};

use crate::nodes::generics::{generics_depth, type_or_none_depth};
use crate::nodes::levels::{Deep, deepest};
use crate::nodes::patterns::pat_depth;
use crate::nodes::types::type_depth;
use lay_node::{FnHead, Param, ParamKind};

impl Deep for Param {
    ghost form = { fn_param_form };

    fn depth(&self) -> u32 {
        match &self.kind {
            ParamKind::RefSelf { .. } | ParamKind::Variadic => 0,
            ParamKind::OwnSelf { ty, .. } => type_or_none_depth(ty),
            ParamKind::Typed { pat, ty } => pat_depth(pat).max(type_depth(ty)),
            ParamKind::NamedVariadic { pat } => pat_depth(pat),
        }
    }
}

/// The depth of the head of a function.
pub fn fn_head_depth(head: &FnHead) -> u32
    ensures { result ≡ counted (least_depth (fn_head_form head.now)) }
{
    generics_depth(&head.generics)
        .max(deepest(head.params.as_slice()))
        .max(type_or_none_depth(&head.output))
}
