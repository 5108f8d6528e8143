//! The layout of patterns.
ghost use Rattle.std.specs.Prelude.{◌≡◌, ◌==◌, [], ◌∷◌, ◌++◌, true, false, cond, map, length, pos, OnOk};
ghost use Rattle.lay_layout.specs.Machine.{IsNested};
ghost use Rattle.lay_layout.specs.declared.layout.Tok.TheVariants as tok;
ghost use Rattle.lay_stream.specs.Fed.{Did};
ghost use Rattle.lay_piece.specs.Number.{ends_in_point};
ghost use Rattle.lay_form.specs.Form.{Done};
ghost use Rattle.lay_form.specs.Layout.{ends_behind_point, led, text_of_bits, token_ends_in_point};
ghost use Rattle.lay_form.specs.Notation.{behind_attrs, piece};
ghost use Rattle.lay_form.specs.Stream.{stream_of};
ghost use Rattle.lay_node.specs.nodes.Attr.{attr_form};
ghost use Rattle.lay_node.specs.nodes.Patterns.{about_field_pat, about_pat, dots, end_form, first_end, last_end, one_form, value_form};
ghost use Rattle.lay_out_types.specs.Calls.{Adds};
ghost use Rattle.lay_out_pats.specs.PatternRows.{alternatives_form, bar_between, braces_closed, braces_opened, closing_break};
ghost use Rattle.lay_out_pats.specs.PatternRows.{attr_line, fields_form, pat_told};
ghost use Rattle.lay_out_types.specs.Rows.{comma_between, list_closed, list_opened, row};

use lay_layout::Break;
use lay_node::{Attr, FieldPat, Literal, Pat, PatValue, PathStyle, SpanEnd};
use lay_out_tokens::notation::{CLOSING_SPACE_BREAK, SPACE_BREAK};
use lay_out_tokens::{HARD_BREAK, put_bare_attr};
use lay_out_types::add_path;
use lay_out_types::calls::{add_call, add_either, add_if, add_literal, add_text, add_word};
use lay_out_types::lists::{COMMA_CLOSING_SPACE_BREAK, add_close, add_end, add_lead};
use lay_piece::Kind;
use lay_stream::Emit;

/// Emits the layout of a pattern.
pub fn put_pat<E: Emit>(out: &mut E, pat: &Pat) -> Result<(), E::Fault>
    ensures { Did E.meanings out.old (stream_of (about_pat pat.now).told.form) result out.new }
{
    add_pat(out, Ok(()), pat)
}

/// Emits a pattern.
#[cycle(add_pat)]
pub fn add_pat<E: Emit>(
    out: &mut E,
    before: Result<(), E::Fault>,
    pat: &Pat,
) -> Result<(), E::Fault>
    ensures { Adds E.meanings before out.old (stream_of (about_pat pat.now).told.form) result
        out.new }
{
    match pat {
        Pat::Or { alternatives } => add_alternatives(out, before, alternatives.as_slice()),
        Pat::Value { value } => add_value(out, before, value),
        Pat::Wild => add_text(out, before, b"_"),
        Pat::Rest => add_text(out, before, b".."),
        Pat::Call { call } => add_call(out, before, call),
        Pat::Path { path } => add_path(out, before, path, PathStyle::Code),
        Pat::Bind {
            by_ref,
            mutable,
            name,
            of,
        } => {
            let reference = add_if(out, before, *by_ref, b"ref ");
            let word = add_if(out, reference, *mutable, b"mut ");
            let name = add_word(out, word, name.raw, &name.text);
            match of {
                None => name,
                Some(pat) => {
                    let sign = add_text(out, name, b" @ ");
                    add_pat(out, sign, pat.get())
                },
            }
        },
        Pat::Span {
            start,
            inclusive,
            end,
        } => {
            let dots = add_dots(out, before, start.get(), *inclusive);
            add_last_end(out, dots, end.get())
        },
        Pat::Ref { mutable, inner } => {
            let reference = add_text(out, before, b"&");
            let word = add_if(out, reference, *mutable, b"mut ");
            add_pat(out, word, inner.get())
        },
        Pat::Struct { path, fields, rest } => {
            let path = add_path(out, before, path, PathStyle::Code);
            add_fields(out, path, fields.as_slice(), *rest)
        },
        Pat::TupleStruct { path, elements } => {
            let path = add_path(out, before, path, PathStyle::Code);
            add_pats(out, path, elements.as_slice(), b"(", b"()", b")")
        },
        Pat::Tuple { elements } => {
            let elements = elements.as_slice();
            match elements {
                [] => add_text(out, before, b"()"),
                [element] => add_single(out, before, element),
                [_, _, ..] => add_pats(out, before, elements, b"(", b"()", b")"),
            }
        },
        Pat::Paren { inner } => {
            let opener = add_text(out, before, b"(");
            let inner = add_pat(out, opener, inner.get());
            add_text(out, inner, b")")
        },
        Pat::Slice { elements } => add_pats(out, before, elements.as_slice(), b"[", b"[]", b"]"),
    }
}

/// Emits alternatives, with a `|` between them.
#[cycle(add_pat)]
fn add_alternatives<E: Emit>(
    out: &mut E,
    before: Result<(), E::Fault>,
    alternatives: &[Pat],
) -> Result<(), E::Fault>
    ensures { Adds E.meanings before out.old (stream_of (alternatives_form alternatives.now)) result
        out.new }
{
    let mut done = add_group(out, before);
    for (index, alternative) in alternatives.iter().enumerate() {
        done = add_bar(out, done, index == 0);
        done = add_pat(out, done, alternative);
    }
    add_end(out, done)
}

/// Emits patterns in brackets, with a `,` between them. Without a pattern the brackets are one
/// text.
#[cycle(add_pat)]
fn add_pats<E: Emit>(
    out: &mut E,
    before: Result<(), E::Fault>,
    pats: &[Pat],
    opener: &[u8],
    both: &[u8],
    closer: &[u8],
) -> Result<(), E::Fault>
    ensures { let opened = row (list_opened opener.now) comma_between (map pat_told pats.now) in
        Adds E.meanings before out.old (opened
        ++ list_closed true (length pats.now == 0) both.now closer.now) result out.new }
{
    let mut done = before;
    for (index, pat) in pats.iter().enumerate() {
        done = add_lead(out, done, index == 0, opener);
        done = add_pat(out, done, pat);
    }
    add_close(out, done, true, pats.is_empty(), both, closer)
}

/// Emits the one element of a tuple, with its comma; a `..` alone has none.
#[cycle(add_pat)]
fn add_single<E: Emit>(
    out: &mut E,
    before: Result<(), E::Fault>,
    element: &Pat,
) -> Result<(), E::Fault>
    ensures { let told = about_pat element.now in
        Adds E.meanings before out.old (stream_of (one_form told.rest told)) result out.new }
{
    let rest = is_rest(element);
    let opener = add_text(out, before, b"(");
    let element = add_pat(out, opener, element);
    add_either(out, element, rest, b")", b",)")
}

/// Emits the fields of a struct in braces, and the `..` after them.
#[cycle(add_pat)]
fn add_fields<E: Emit>(
    out: &mut E,
    before: Result<(), E::Fault>,
    fields: &[FieldPat],
    rest: bool,
) -> Result<(), E::Fault>
    ensures { Adds E.meanings before out.old (stream_of (fields_form fields.now rest)) result
        out.new }
{
    let mut done = before;
    for (index, field) in fields.iter().enumerate() {
        done = add_brace(out, done, index == 0);
        done = add_field(out, done, field);
    }
    if rest {
        let lead = add_brace(out, done, fields.is_empty());
        let dots = add_text(out, lead, b"..");
        return add_closing_brace(out, dots, false, false);
    }
    add_closing_brace(out, done, true, fields.is_empty())
}

/// Emits a field of a struct pattern, with its attributes.
#[cycle(add_pat)]
fn add_field<E: Emit>(
    out: &mut E,
    before: Result<(), E::Fault>,
    field: &FieldPat,
) -> Result<(), E::Fault>
    ensures { Adds E.meanings before out.old (stream_of (about_field_pat field.now).form) result
        out.new }
{
    match field {
        FieldPat::Named { attrs, name, pat } => {
            let attrs = add_attrs(out, before, attrs.as_slice());
            let name = add_word(out, attrs, name.raw, &name.text);
            let colon = add_text(out, name, b": ");
            add_pat(out, colon, pat)
        },
        FieldPat::Index { attrs, index, pat } => {
            let attrs = add_attrs(out, before, attrs.as_slice());
            let index = add_text(out, attrs, index.as_bytes());
            let colon = add_text(out, index, b": ");
            add_pat(out, colon, pat)
        },
        FieldPat::Short { attrs, pat } => {
            let attrs = add_attrs(out, before, attrs.as_slice());
            add_pat(out, attrs, pat)
        },
    }
}

/// Emits attributes, each with a newline after it.
pub fn add_attrs<E: Emit>(
    out: &mut E,
    before: Result<(), E::Fault>,
    attrs: &[Attr],
) -> Result<(), E::Fault>
    ensures { Adds E.meanings before out.old (stream_of
        (behind_attrs (map attr_form attrs.now) Done)) result out.new }
{
    let mut done = before;
    for attr in attrs {
        done = add_attr_line(out, done, attr);
    }
    done
}

/// Emits an attribute, with a newline after it.
fn add_attr_line<E: Emit>(
    out: &mut E,
    before: Result<(), E::Fault>,
    attr: &Attr,
) -> Result<(), E::Fault>
    ensures { Adds E.meanings before out.old (stream_of (attr_line attr.now)) result out.new }
{
    before?;
    put_bare_attr(out, attr)?;
    out.brk(HARD_BREAK)
}

/// Emits a literal, or a negative number with its `-`.
fn add_value<E: Emit>(
    out: &mut E,
    before: Result<(), E::Fault>,
    value: &PatValue,
) -> Result<(), E::Fault>
    ensures { Adds E.meanings before out.old (stream_of (value_form value.now)) result out.new }
{
    let minus = add_if(out, before, value.negative, b"-");
    add_literal(out, minus, &value.literal)
}

/// Emits an end of a range pattern.
fn add_span_end<E: Emit>(
    out: &mut E,
    before: Result<(), E::Fault>,
    end: &SpanEnd,
) -> Result<(), E::Fault>
    ensures { Adds E.meanings before out.old (stream_of (end_form end.now)) result out.new }
{
    match end {
        SpanEnd::Value(value) => add_value(out, before, value),
        SpanEnd::Path(path) => add_path(out, before, path, PathStyle::Code),
    }
}

/// Emits the start of a range pattern, if it has one, and the `..` or `..=` after it.
fn add_dots<E: Emit>(
    out: &mut E,
    before: Result<(), E::Fault>,
    start: &Option<SpanEnd>,
    inclusive: bool,
) -> Result<(), E::Fault>
    ensures { Adds E.meanings before out.old (stream_of
        (first_end start.now (piece (dots inclusive)))) result out.new }
{
    match start {
        None => add_either(out, before, inclusive, b"..=", b".."),
        Some(start) => {
            let first = add_span_end(out, before, start);
            add_dots_behind(out, first, inclusive, ends_in_point(start))
        },
    }
}

/// Emits a `..` or `..=`, with a blank before it if it would directly follow the point of a number.
pub fn add_dots_behind<E: Emit>(
    out: &mut E,
    before: Result<(), E::Fault>,
    inclusive: bool,
    point: bool,
) -> Result<(), E::Fault>
    ensures { let text = text_of_bits (led point (dots inclusive)) in
        Adds E.meanings before out.old (tok.Text text ∷ []) result out.new }
{
    if point {
        return add_either(out, before, inclusive, b" ..=", b" ..");
    }
    add_either(out, before, inclusive, b"..=", b"..")
}

/// Emits the end of a range pattern, if it has one.
fn add_last_end<E: Emit>(
    out: &mut E,
    before: Result<(), E::Fault>,
    end: &Option<SpanEnd>,
) -> Result<(), E::Fault>
    ensures { Adds E.meanings before out.old (stream_of (last_end end.now)) result out.new }
{
    match end {
        None => before,
        Some(end) => add_span_end(out, before, end),
    }
}

/// Whether an end of a range pattern ends in the `.` of a number.
fn ends_in_point(end: &SpanEnd) -> bool
    ensures { result ≡ ends_behind_point false (end_form end.now) }
{
    match end {
        SpanEnd::Value(value) => is_pointed(&value.literal),
        SpanEnd::Path(_path) => false,
    }
}

/// Whether a literal is a number that ends in a `.`.
pub fn is_pointed(literal: &Literal) -> bool
    ensures { result ≡ token_ends_in_point literal.now.kind literal.now.text }
{
    match literal.kind {
        Kind::Float => is_digits_and_point(literal.text.as_bytes()),
        _ => false,
    }
}

/// Whether a text is digits and `_`, and then a `.`.
fn is_digits_and_point(text: &[u8]) -> bool
    ensures { result ≡ ends_in_point text.now }
{
    let mut rest = text;
    while let [byte, tail @ ..] = rest {
        if !(byte.is_ascii_digit() || *byte == b'_') {
            return *byte == b'.' && tail.is_empty();
        }
        rest = tail;
    }
    false
}

/// Whether a pattern is `..` alone.
fn is_rest(pat: &Pat) -> bool
    ensures { result ≡ (about_pat pat.now).rest }
{
    matches!(pat, Pat::Rest)
}

/// Emits what opens alternatives.
pub fn add_group<E: Emit>(out: &mut E, before: Result<(), E::Fault>) -> Result<(), E::Fault>
    ensures { Adds E.meanings before out.old (tok.Begin false (pos 0) ∷ []) result out.new }
{
    before?;
    out.begin(false, 0)
}

/// Emits what stands before an alternative: a `|`, unless it is the first one.
fn add_bar<E: Emit>(out: &mut E, before: Result<(), E::Fault>, first: bool) -> Result<(), E::Fault>
    ensures { Adds E.meanings before out.old (cond first [] bar_between) result out.new }
{
    before?;
    if first {
        return Ok(());
    }
    out.brk(SPACE_BREAK)?;
    out.text(b"| ")
}

/// Emits what stands before a field: the `{` before the first one, else a comma.
pub fn add_brace<E: Emit>(
    out: &mut E,
    before: Result<(), E::Fault>,
    first: bool,
) -> Result<(), E::Fault>
    ensures { Adds E.meanings before out.old (cond first braces_opened comma_between) result
        out.new }
{
    before?;
    if first {
        out.text(b" {")?;
        out.begin(true, 4)?;
        return out.brk(SPACE_BREAK);
    }
    out.text(b",")?;
    out.brk(SPACE_BREAK)
}

/// Emits the `}`. If each field is on its own line, a `,` follows the last one, if one is allowed.
/// Without fields both braces are emitted as one text.
pub fn add_closing_brace<E: Emit>(
    out: &mut E,
    before: Result<(), E::Fault>,
    may: bool,
    bare: bool,
) -> Result<(), E::Fault>
    requires { OnOk before (IsNested (E.meanings.groups out.old) (braces_closed may bare)) }
    ensures { Adds E.meanings before out.old (braces_closed may bare) result out.new }
{
    before?;
    if bare {
        return out.text(b" {}");
    }
    out.brk(closing_break(may))?;
    out.end()?;
    out.text(b"}")
}

/// The break after the last field; `may` says that a comma may stand before it.
fn closing_break(may: bool) -> Break
    ensures { result ≡ closing_break may }
{
    if may {
        return COMMA_CLOSING_SPACE_BREAK;
    }
    CLOSING_SPACE_BREAK
}
