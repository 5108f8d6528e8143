//! The `add` functions of texts, words and token lists.
ghost use Rattle.std.specs.Prelude.{[], ◌∷◌, cond, false};
ghost use Rattle.lay_layout.specs.declared.layout.Tok.TheVariants as tok;
ghost use Rattle.lay_piece.specs.declared.kind.Delim.TheVariants.{Brace};
ghost use Rattle.lay_form.specs.Form.{Done};
ghost use Rattle.lay_form.specs.Stream.{stream_of};
ghost use Rattle.lay_node.specs.Words.{leaf_of};
ghost use Rattle.lay_node.specs.nodes.Attr.{attr_part};
ghost use Rattle.lay_node.specs.nodes.Call.{call_form};
ghost use Rattle.lay_node.specs.nodes.Types.{literal_form};
ghost use Rattle.lay_node.specs.tokens.Lists.{token_list};
ghost use Rattle.lay_out_tokens.specs.Parts.{enclosed};
ghost use Rattle.lay_out_types.specs.Calls.{Adds};

use lay_node::{Attr, Literal, MacroCall, Tokens};
use lay_out_tokens::{put_attr, put_call, put_enclosed, put_token, put_tokens, put_word};
use lay_piece::Delim;
use lay_stream::Emit;
use lay_text::Text;

/// Emits a text.
pub fn add_text<E: Emit>(
    out: &mut E,
    before: Result<(), E::Fault>,
    text: &[u8],
) -> Result<(), E::Fault>
    ensures { Adds E.meanings before out.old (tok.Text text.now ∷ []) result out.new }
{
    before?;
    out.text(text)
}

/// Emits a text, if `wanted`.
pub fn add_if<E: Emit>(
    out: &mut E,
    before: Result<(), E::Fault>,
    wanted: bool,
    text: &[u8],
) -> Result<(), E::Fault>
    ensures { Adds E.meanings before out.old (cond wanted (tok.Text text.now ∷ []) []) result
        out.new }
{
    if wanted {
        return add_text(out, before, text);
    }
    before
}

/// Emits `if_first` if `first`, else `if_second`.
pub fn add_either<E: Emit>(
    out: &mut E,
    before: Result<(), E::Fault>,
    first: bool,
    if_first: &[u8],
    if_second: &[u8],
) -> Result<(), E::Fault>
    ensures { Adds E.meanings before out.old (tok.Text (cond first if_first.now if_second.now) ∷ [])
        result out.new }
{
    if first {
        return add_text(out, before, if_first);
    }
    add_text(out, before, if_second)
}

/// Emits a word or a name.
pub fn add_word<E: Emit>(
    out: &mut E,
    before: Result<(), E::Fault>,
    raw: bool,
    text: &Text,
) -> Result<(), E::Fault>
    ensures { Adds E.meanings before out.old (stream_of (leaf_of raw text.now Done)) result
        out.new }
{
    before?;
    put_word(out, raw, text)
}

/// Emits a literal.
pub fn add_literal<E: Emit>(
    out: &mut E,
    before: Result<(), E::Fault>,
    literal: &Literal,
) -> Result<(), E::Fault>
    ensures { Adds E.meanings before out.old (stream_of (literal_form literal.now Done)) result
        out.new }
{
    before?;
    put_token(out, literal.kind, literal.text.as_bytes())
}

/// Emits a token list.
pub fn add_tokens<E: Emit>(
    out: &mut E,
    before: Result<(), E::Fault>,
    tokens: &Tokens,
) -> Result<(), E::Fault>
    ensures { Adds E.meanings before out.old (stream_of (token_list tokens.now)) result out.new }
{
    before?;
    put_tokens(out, tokens)
}

/// Emits a token list in braces.
pub fn add_braces<E: Emit>(
    out: &mut E,
    before: Result<(), E::Fault>,
    tokens: &Tokens,
) -> Result<(), E::Fault>
    ensures { Adds E.meanings before out.old (stream_of (enclosed Brace tokens.now)) result
        out.new }
{
    before?;
    put_enclosed(out, Delim::Brace, tokens)
}

/// Emits an attribute within other parts. After an outer one stands a blank, or a newline if it is
/// a line comment.
pub(crate) fn add_attr<E: Emit>(
    out: &mut E,
    before: Result<(), E::Fault>,
    attr: &Attr,
) -> Result<(), E::Fault>
    ensures { Adds E.meanings before out.old (stream_of (attr_part false attr.now Done)) result
        out.new }
{
    before?;
    put_attr(out, attr, false)
}

/// Emits a macro call.
pub fn add_call<E: Emit>(
    out: &mut E,
    before: Result<(), E::Fault>,
    call: &MacroCall,
) -> Result<(), E::Fault>
    ensures { Adds E.meanings before out.old (stream_of (call_form call.now)) result out.new }
{
    before?;
    put_call(out, call)
}
