//! The layout of the generic arguments of a method call.
ghost use Rattle.lay_form.specs.Form.{Done};
ghost use Rattle.lay_form.specs.Stream.{stream_of};
ghost use Rattle.lay_code.specs.nodes.Exprs.{generics_form};
ghost use Rattle.lay_out_types.specs.Calls.{Adds};

use lay_code::Arg;
use lay_out_types::add_angles;
use lay_out_types::calls::add_text;
use lay_stream::Emit;
use lay_text::List;

/// Emits `::` and the generic arguments of a method, if it has some.
pub fn add_generics<E: Emit>(
    out: &mut E,
    before: Result<(), E::Fault>,
    generics: &Option<List<Arg>>,
) -> Result<(), E::Fault>
    ensures { Adds E.meanings before out.old (stream_of (generics_form generics.now Done)) result
        out.new }
{
    match generics {
        None => before,
        Some(args) => {
            let colons = add_text(out, before, b"::");
            add_angles(out, colons, args.as_slice())
        },
    }
}
