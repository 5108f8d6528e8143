//! Whether an `else` may follow a value: the value ends neither in a `}` nor in a closure, which is
//! found along its right edge.
ghost use Rattle.std.specs.Prelude.{◌≡◌, ◌<◌};
ghost use Rattle.lay_node.specs.nodes.Types.{about_args, about_bound, about_path, about_type};
ghost use Rattle.lay_node.specs.declared.types.Args.{size-Args};
ghost use Rattle.lay_node.specs.declared.types.Bound.{size-Bound};
ghost use Rattle.lay_node.specs.declared.types.Path.{size-Path};
ghost use Rattle.lay_node.specs.declared.types.PathStyle.TheVariants.{Code, Kind as OfKind};
ghost use Rattle.lay_node.specs.declared.types.Ty.{size-Ty};
ghost use Rattle.lay_code.specs.nodes.Blocks as nodes;
ghost use Rattle.lay_code.specs.nodes.Code.{about_expr};
ghost use Rattle.lay_code.specs.nodes.Ends.{ends_in_brace, is_brace_kind};
ghost use Rattle.lay_code.specs.nodes.Exprs.{is_brace};
ghost use Rattle.lay_code.specs.declared.exprs.Expr.{size-Expr};
ghost use Rattle.lay_ops_ends.specs.BraceEnds.{IfOperand, IfPart, IfType, braces, closes, ends_type, has_block};

use lay_code::{Args, Block, Bound, Branch, Expr, Path, Ty};
use lay_ops::level;
use lay_token::{Delim, Kind};

/// What a type ends in.
#[derive(Clone, Copy)]
enum TypeEdge<'a> {
    /// A token of its own; the flag says that it is a `}`.
    Token(bool),
    /// A type.
    In(&'a Ty),
}

/// What an expression ends in.
#[derive(Clone, Copy)]
enum Edge<'a> {
    /// A token of its own; the flag says that it is a `}`.
    Token(bool),
    /// A type.
    Ty(&'a Ty),
    /// An expression.
    In(&'a Expr),
}

/// What an expression ends in, as far as it may be a closure.
#[derive(Clone, Copy)]
enum ClosureEdge<'a> {
    /// What is no closure.
    Shut,
    /// A closure.
    Closure,
    /// An operand.
    In(&'a Expr),
}

/// Whether an `else` may follow the value.
pub fn may_precede_else(expr: &Expr) -> bool
    ensures { result ≡ nodes.may_precede_else (about_expr expr.now) }
{
    let level = level(expr);
    level != 2 && level != 3 && !ends_in_closure(expr) && !ends_in_brace(expr)
}

/// Whether an expression ends in a closure.
fn ends_in_closure(expr: &Expr) -> bool
    ensures { result ≡ (about_expr expr.now).tail.closure }
{
    let mut last = expr;
    loop {
        match closure_edge(last) {
            ClosureEdge::Shut => return false,
            ClosureEdge::Closure => return true,
            ClosureEdge::In(operand) => last = operand,
        }
    }
}

/// Whether an expression ends in a closure by its root, or in which operand it ends.
#[tactic(auto, using(crate::proofs::ExprBraces::closure_is))]
fn closure_edge(expr: &Expr) -> ClosureEdge<'_>
    ensures told { closes result ≡ (about_expr expr.now).tail.closure }
    ensures smaller { IfOperand result (λ operand. size-Expr operand < size-Expr expr.now) }
{
    match expr {
        Expr::Chain { rest, .. } => match rest.as_slice().last() {
            Some((_, operand)) => ClosureEdge::In(operand.get()),
            None => ClosureEdge::Shut,
        },
        Expr::Unary { operand, .. } => ClosureEdge::In(operand.get()),
        Expr::Assign { value, .. } => ClosureEdge::In(value.get()),
        Expr::Range { end: Some(end), .. } => ClosureEdge::In(end.get()),
        Expr::Return {
            operand: Some(operand),
        } => ClosureEdge::In(operand.get()),
        Expr::Break {
            operand: Some(operand),
            ..
        } => ClosureEdge::In(operand.get()),
        Expr::Closure { .. } | Expr::TypedClosure { .. } => ClosureEdge::Closure,
        _ => ClosureEdge::Shut,
    }
}

/// Whether an expression ends in a `}`.
fn ends_in_brace(expr: &Expr) -> bool
    ensures { result ≡ ends_in_brace (about_expr expr.now).form }
{
    let mut last = expr;
    loop {
        match last_part(last) {
            Edge::Token(brace) => return brace,
            Edge::Ty(ty) => return type_ends_in_brace(ty),
            Edge::In(operand) => last = operand,
        }
    }
}

/// What an expression ends in.
#[tactic(auto, using(crate::proofs::ExprBraces::brace_is))]
fn last_part(expr: &Expr) -> Edge<'_>
    ensures told { braces result ≡ ends_in_brace (about_expr expr.now).form }
    ensures smaller { IfPart result (λ operand. size-Expr operand < size-Expr expr.now) }
{
    match expr {
        Expr::Lit { literal } => Edge::Token(is_brace_kind(literal.kind)),
        Expr::Path { path } => type_edge_of(code_edge(path)),
        Expr::Call { call } => Edge::Token(is_brace(call.tokens.delim)),
        Expr::Chain { rest, first } => match rest.as_slice().last() {
            Some((_, operand)) => Edge::In(operand.get()),
            None => Edge::In(first.get()),
        },
        Expr::Cast { types, operand } => match types.as_slice().last() {
            Some(ty) => Edge::Ty(ty),
            None => Edge::In(operand.get()),
        },
        Expr::Unary { operand, .. } => Edge::In(operand.get()),
        Expr::Range { end: Some(end), .. } => Edge::In(end.get()),
        Expr::Assign { value, .. } => Edge::In(value.get()),
        Expr::Return {
            operand: Some(operand),
        } => Edge::In(operand.get()),
        Expr::Break {
            operand: Some(operand),
            ..
        } => Edge::In(operand.get()),
        Expr::Closure { body, .. } => Edge::In(body.get()),
        Expr::Postfix { base, steps } => {
            if steps.as_slice().is_empty() {
                Edge::In(base.get())
            } else {
                Edge::Token(false)
            }
        },
        Expr::If {
            branches,
            otherwise,
        } => Edge::Token(has_block(branches.as_slice(), otherwise)),
        Expr::Struct { .. }
        | Expr::Block { .. }
        | Expr::Unsafe { .. }
        | Expr::ConstBlock { .. }
        | Expr::Async { .. }
        | Expr::Match { .. }
        | Expr::Loop { .. }
        | Expr::While { .. }
        | Expr::For { .. }
        | Expr::TypedClosure { .. } => Edge::Token(true),
        _ => Edge::Token(false),
    }
}

/// Whether the list of branches isn't empty or there is an `else`.
fn has_block(branches: &[Branch], otherwise: &Option<Block>) -> bool
    ensures { result ≡ has_block branches.now otherwise.now }
{
    match branches {
        [] => otherwise.is_some(),
        _ => true,
    }
}

/// What an expression ends in that ends as this type does.
fn type_edge_of(edge: TypeEdge<'_>) -> Edge<'_>
    ensures told { braces result ≡ ends_type edge.entry }
    ensures smaller { IfPart result (λ operand. ⊥) }
{
    match edge {
        TypeEdge::Token(brace) => Edge::Token(brace),
        TypeEdge::In(ty) => Edge::Ty(ty),
    }
}

/// Whether the delimiter is a brace.
fn is_brace(delim: Delim) -> bool
    ensures { result ≡ is_brace delim }
{
    matches!(delim, Delim::Brace)
}

/// Whether a token of this kind is a `}`.
fn is_brace_kind(kind: Kind) -> bool
    ensures { result ≡ is_brace_kind kind }
{
    matches!(kind, Kind::Closer(Delim::Brace))
}

/// Whether a type ends in a `}`.
fn type_ends_in_brace(ty: &Ty) -> bool
    ensures { result ≡ ends_in_brace (about_type ty.now).told.form }
{
    let mut last = ty;
    loop {
        match type_edge(last) {
            TypeEdge::Token(brace) => return brace,
            TypeEdge::In(inner) => last = inner,
        }
    }
}

/// What a type ends in.
#[tactic(auto, using(crate::proofs::TypeBraces::type_is))]
fn type_edge(ty: &Ty) -> TypeEdge<'_>
    ensures told { ends_type result ≡ ends_in_brace (about_type ty.now).told.form }
    ensures smaller { IfType result (λ other. size-Ty other < size-Ty ty.now) }
{
    match ty {
        Ty::Path { path } => path_edge(path),
        Ty::Call { call } => TypeEdge::Token(is_brace(call.tokens.delim)),
        Ty::Ptr { inner, .. } | Ty::Ref { inner, .. } => TypeEdge::In(inner.get()),
        Ty::Func {
            output: Some(output),
            ..
        } => TypeEdge::In(output.get()),
        Ty::Bounds { bounds, .. } => match bounds.as_slice().last() {
            Some(bound) => bound_edge(bound),
            None => TypeEdge::Token(false),
        },
        _ => TypeEdge::Token(false),
    }
}

/// What a bound ends in.
#[tactic(auto, using(crate::proofs::TypeBraces::bound_is))]
fn bound_edge(bound: &Bound) -> TypeEdge<'_>
    ensures told { ends_type result ≡ ends_in_brace (about_bound bound.now).form }
    ensures smaller { IfType result (λ ty. size-Ty ty < size-Bound bound.now) }
{
    match bound {
        Bound::Outlives { .. } | Bound::Captures { .. } => TypeEdge::Token(false),
        Bound::Meets { parens, path, .. } => {
            if *parens {
                TypeEdge::Token(false)
            } else {
                path_edge(path)
            }
        },
    }
}

/// What a path of a type ends in.
fn path_edge(path: &Path) -> TypeEdge<'_>
    ensures told { ends_type result ≡ ends_in_brace (about_path path.now OfKind).form }
    ensures smaller { IfType result (λ ty. size-Ty ty < size-Path path.now) }
{
    match path.segments.as_slice().last() {
        Some((_, args)) => args_edge(args),
        None => TypeEdge::Token(false),
    }
}

/// What a path in an expression ends in.
fn code_edge(path: &Path) -> TypeEdge<'_>
    ensures told { ends_type result ≡ ends_in_brace (about_path path.now Code).form }
    ensures smaller { IfType result (λ ty. size-Ty ty < size-Path path.now) }
{
    match path.segments.as_slice().last() {
        Some((_, args)) => args_edge(args),
        None => TypeEdge::Token(false),
    }
}

/// What generic arguments end in.
#[tactic(auto, using(crate::proofs::TypeBraces::kind_args, crate::proofs::TypeBraces::code_args))]
fn args_edge(args: &Args) -> TypeEdge<'_>
    ensures kind { ends_type result ≡ ends_in_brace (about_args args.now).kind.form }
    ensures code { ends_type result ≡ ends_in_brace (about_args args.now).code.form }
    ensures smaller { IfType result (λ ty. size-Ty ty < size-Args args.now) }
{
    match args {
        Args::Round {
            output: Some(output),
            ..
        } => TypeEdge::In(output.get()),
        _ => TypeEdge::Token(false),
    }
}
