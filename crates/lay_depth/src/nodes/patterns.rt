//! The depth of patterns.
ghost use Rattle.std.specs.Prelude.{◌≡◌, map};
ghost use Rattle.lay_form.specs.Depth.{least_depth};
ghost use Rattle.lay_node.specs.nodes.Facts.{forms};
ghost use Rattle.lay_node.specs.nodes.Patterns.{about_field_pat, about_pat, last_end, pat_forms};
ghost use Rattle.lay_node.specs.declared.patterns.PatPlace.TheVariants.{Single};
ghost use Rattle.lay_depth.specs.nodes.Depths.{counted, greatest};

use crate::nodes::levels::deeper;
use crate::nodes::types::path_depth;
use lay_node::{FieldPat, Pat, SpanEnd};

/// The depth of a pattern.
#[cycle(patterns)]
pub fn pat_depth(pat: &Pat) -> u32
    ensures { result ≡ counted (least_depth (about_pat pat.now).told.form) }
{
    match pat {
        Pat::Value { .. } | Pat::Wild | Pat::Rest | Pat::Call { .. } => 1,
        Pat::Bind { of, .. } => match of {
            Some(pat) => deeper(pat_depth(pat.get())),
            None => 1,
        },
        Pat::Or { alternatives } => deeper(pats_depth(alternatives.as_slice())),
        Pat::Path { path } => deeper(path_depth(path)),
        Pat::Span { start, end, .. } => deeper(end_depth(start.get()).max(end_depth(end.get()))),
        Pat::Ref { inner, .. } | Pat::Paren { inner } => deeper(pat_depth(inner.get())),
        Pat::Struct { path, fields, .. } => {
            deeper(path_depth(path).max(fields_depth(fields.as_slice())))
        },
        Pat::TupleStruct { path, elements } => {
            deeper(path_depth(path).max(pats_depth(elements.as_slice())))
        },
        Pat::Tuple { elements } | Pat::Slice { elements } => {
            deeper(pats_depth(elements.as_slice()))
        },
    }
}

/// The greatest depth of the patterns.
#[cycle(patterns)]
fn pats_depth(pats: &[Pat]) -> u32
    ensures { result ≡ counted (greatest (pat_forms Single (map about_pat pats.now))) }
{
    let mut most = 0u32;
    for pat in pats {
        most = most.max(pat_depth(pat));
    }
    most
}

/// The greatest depth of the fields of a struct pattern.
#[cycle(patterns)]
fn fields_depth(fields: &[FieldPat]) -> u32
    ensures { result ≡ counted (greatest (forms (map about_field_pat fields.now))) }
{
    let mut most = 0u32;
    for field in fields {
        most = most.max(field_depth(field));
    }
    most
}

/// The depth of a field of a struct pattern.
#[cycle(patterns)]
fn field_depth(field: &FieldPat) -> u32
    ensures { result ≡ counted (least_depth (about_field_pat field.now).form) }
{
    match field {
        FieldPat::Named { pat, .. } | FieldPat::Index { pat, .. } | FieldPat::Short { pat, .. } => {
            pat_depth(pat)
        },
    }
}

/// The depth of an end of a range pattern; 0 if there is none.
fn end_depth(end: &Option<SpanEnd>) -> u32
    ensures { result ≡ counted (least_depth (last_end end.now)) }
{
    match end {
        Some(end) => match end {
            SpanEnd::Path(path) => path_depth(path),
            SpanEnd::Value(_) => 0,
        },
        None => 0,
    }
}
