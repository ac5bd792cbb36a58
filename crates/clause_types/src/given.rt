//! What is known of an expression without a fault.

ghost use Rattle.std.specs.Prelude.{◌≡◌, IfOk};
ghost use Rattle.scalar_ops.specs.Views.{term_of};
ghost use Rattle.clause_types.specs.Typings as spec;
ghost use Rattle.clause_types.specs.Views.{meant_of};

use crate::copying::copied;
use scalar_ops::{Expr, Kind};
use span_token::{OutOfMemory, OwnedText};
use std::alloc::Global;

/// An expression without a fault: its token, its kind and what it stands for.
#[derive(Debug, Drop)]
pub(crate) struct Given {
    pub(crate) at: u32,
    pub(crate) kind: Kind,
    pub(crate) meant: Meant,
}

/// A value, or the pattern that a regular expression stands for.
#[derive(Debug, Drop)]
pub(crate) enum Meant {
    Value(Expr),
    Pattern(OwnedText),
}

impl Meant {
    /// The integer, where it is one as such; else 0.
    pub(crate) fn integer(&self) -> i64
        ensures { result ≡ spec.integer_meant (meant_of self.now) }
    {
        match self {
            Meant::Value(Expr::Int(n)) => *n,
            _ => 0,
        }
    }

    /// The text, where it is one as such, or that of the pattern; else none.
    pub(crate) fn text(&self) -> &str
        ensures { result.now ≡ spec.text_meant (meant_of self.now) }
    {
        match self {
            Meant::Value(Expr::Str(text)) => text.as_str(),
            Meant::Pattern(text) => text.as_str(),
            _ => "",
        }
    }

    /// The number of the column, where it is one; else 0.
    pub(crate) fn column(&self) -> u32
        ensures { result ≡ spec.column_meant (meant_of self.now) }
    {
        match self {
            Meant::Value(Expr::Column(n)) => *n,
            _ => 0,
        }
    }

    /// The value; of a pattern its text.
    pub(crate) fn into_expr(self) -> Expr
        ensures { term_of result ≡ spec.term_meant (meant_of self) }
    {
        match self {
            Meant::Value(expr) => expr,
            Meant::Pattern(text) => Expr::Str(text),
        }
    }

    /// A copy, for a bare name that stands for it.
    pub(crate) fn copied(&self, alloc: Global) -> Result<Meant, OutOfMemory>
        ensures { IfOk result (λ copy. meant_of copy ≡ meant_of self.now) }
    {
        match self {
            Meant::Value(expr) => {
                let expr = copied(alloc, expr)?;
                Ok(Meant::Value(expr))
            }
            Meant::Pattern(text) => {
                let text = OwnedText::copied(alloc, text.as_str())?;
                Ok(Meant::Pattern(text))
            }
        }
    }
}
