//! The heads of functions.
use crate::attr::Attr;
use crate::generics::Generics;
use crate::patterns::Pat;
use crate::token::{Lifetime, Name};
use crate::types::{Abi, Ty};
use lay_token::List;

/// The word before `fn` that says whether a function is safe to call.
#[derive(Clone, Copy)]
pub enum Safety {
    /// `unsafe`
    Unsafe,
    /// `safe`, which only a function in a foreign block may have
    Safe,
}

/// The head of a function (Rust Reference, "Functions"): everything before its where clause.
#[derive(Drop)]
pub struct FnHead {
    pub is_const: bool,
    pub is_async: bool,
    pub safety: Option<Safety>,
    pub abi: Option<Abi>,
    pub name: Name,
    pub generics: Generics,
    /// A receiver may only stand first, and `...` only last.
    pub params: List<Param>,
    pub output: Option<Ty>,
}

/// A parameter of a function.
#[derive(Drop)]
pub struct Param {
    pub attrs: List<Attr>,
    pub kind: ParamKind,
}

/// The pattern and type of a parameter, or a receiver.
#[derive(Drop)]
pub enum ParamKind {
    /// `&'a mut self`
    RefSelf {
        lifetime: Option<Lifetime>,
        mutable: bool,
    },
    /// `mut self: A`
    OwnSelf {
        mutable: bool,
        ty: Option<Ty>,
    },
    /// `a: A`
    Typed {
        pat: Pat,
        ty: Ty,
    },
    /// `...`
    Variadic,
    /// `a: ...`
    NamedVariadic {
        pat: Pat,
    },
}
