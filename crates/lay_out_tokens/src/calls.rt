//! The layout of macro calls.
ghost use Rattle.std.specs.Prelude.{[], ◌∷◌};
ghost use Rattle.lay_layout.specs.declared.layout.Tok.TheVariants as tok;
ghost use Rattle.lay_stream.specs.Fed.{Did};
ghost use Rattle.lay_form.specs.Layout.{text_of_bits};
ghost use Rattle.lay_form.specs.Stream.{stream_of};
ghost use Rattle.lay_node.specs.nodes.Call.{bang, call_form};

use crate::simple_paths::put_simple_path;
use crate::tokens::put_group;
use lay_node::MacroCall;
use lay_stream::Emit;
use lay_token::Delim;

/// Emits the layout of a macro call.
pub fn put_call<E: Emit>(out: &mut E, call: &MacroCall) -> Result<(), E::Fault>
    ensures { Did E.meanings out.old (stream_of (call_form call.now)) result out.new }
{
    put_simple_path(out, &call.path)?;
    put_bang(out, call.tokens.delim)?;
    put_group(out, &call.tokens)
}

/// Emits the `!` before a group in the delimiter.
fn put_bang<E: Emit>(out: &mut E, delim: Delim) -> Result<(), E::Fault>
    ensures { Did E.meanings out.old (tok.Text (text_of_bits (bang delim)) ∷ []) result out.new }
{
    match delim {
        Delim::Brace => out.text(b"! "),
        _ => out.text(b"!"),
    }
}
