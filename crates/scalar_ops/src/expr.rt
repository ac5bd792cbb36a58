ghost use Rattle.std.specs.Prelude.{◌≡◌, map};
ghost use Rattle.scalar_ops.specs.Views.{term_of};

use crate::Op;
use span_token::OwnedText;
use std::marker::Model;

/// An expression over a row and its document: a column by its number from 0, an integer, a text, or an
/// operator with its arguments.
///
/// Meaning: `value`, `specs/Values.antt`.
#[derive(Debug, Drop)]
pub enum Expr {
    Column(u32),
    Int(i64),
    Str(OwnedText),
    Call { op: Op, args: Vec<Expr> },
}

/// Expressions in a row, which contracts see as a list of terms.
#[derive(Debug, Drop)]
pub struct Exprs {
    items: Vec<Expr>,
}

impl Model for Exprs {
    ghost use Rattle.std.specs.Prelude.{List, map};
    ghost use Rattle.std.specs.Coded.{codes};
    ghost use Rattle.scalar_ops.specs.Expressions.{Term};
    ghost use Rattle.scalar_ops.specs.Codes.{term_code};
    ghost use Rattle.scalar_ops.specs.Views.{term_of};

    ghost Value = { List Term };

    ghost coded = { Prim.hlevel (codes, term_code) };

    ghost view = { λ exprs. map term_of exprs.items.items };
}

impl From<Vec<Expr>> for Exprs {
    ghost use Rattle.std.specs.Prelude.{◌≡◌, map};
    ghost use Rattle.scalar_ops.specs.Views.{term_of};

    ghost from_gives = { λ items exprs. exprs ≡ map term_of items.items };

    fn from(items: Vec<Expr>) -> Exprs {
        Exprs { items }
    }
}

impl Exprs {
    /// The expressions, borrowed.
    pub fn as_slice(&self) -> &[Expr]
        ensures { map term_of result.now ≡ self.now }
    {
        self.items.as_slice()
    }
}
