//! Conditions, which may hold `let` links joined by `&&`.
ghost use Rattle.std.specs.Prelude.{◌≡◌};

use crate::drops::{discard_boxed, discard_links};
use crate::exprs::Expr;
use lay_node::{Boxed, Pat};
use lay_token::List;

/// The condition of an `if` or a `while` (Rust Reference, "`if` and `if let` expressions"): one
/// link, or at least two links joined by `&&`, at least one of which is a `let`. Without a `let`,
/// expressions joined by `&&` are one link: a `Chain`.
#[cycle(code)]
pub struct Condition {
    pub links: List<Link>,
}

impl Drop for Condition {
    #[cycle(drops)]
    fn drop(self) {
        let Condition { links } = self;
        discard_links(links);
    }
}

impl Condition {
    /// Takes the links out of the condition.
    pub fn into_links(self) -> List<Link>
        ensures { result ≡ self.links }
    {
        let Condition { links } = self;
        links
    }
}

/// A link of a condition.
#[cycle(code)]
pub enum Link {
    /// `a`
    Expr { expr: Boxed<Expr> },
    /// `let a = b`
    Let { pat: Pat, value: Boxed<Expr> },
}

impl Drop for Link {
    #[cycle(drops)]
    fn drop(self) {
        match self {
            Link::Expr { expr } => discard_boxed(expr),
            Link::Let { pat, value } => {
                drop(pat);
                discard_boxed(value);
            }
        }
    }
}
