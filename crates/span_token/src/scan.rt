ghost use Rattle.std.specs.Prelude.{◌≡◌, ◌≤◌, ◌∷◌, [], length, chars, MatchOption};
ghost use Rattle.span_token.specs.Limits.{text_limit};
ghost use Rattle.span_token.specs.Extents.{extent_of};
ghost use Rattle.span_token.specs.Tokens.{tokens_of, tokens_from};
ghost use Rattle.span_token.specs.Points.{IsPoint, IsSeam, IsNextToken};

use crate::Span;
use crate::classes::Class;
use crate::points::{Point, past_word, step};
use std::marker::Model;

/// Finds the tokens of a text one after another; contracts see the tokens that are left.
#[derive(Drop)]
pub(crate) struct TokenScan<'a> {
    text: &'a str,
    at: Point,
}

impl<'a> Model for TokenScan<'a> {
    ghost use Rattle.std.specs.Prelude.{List};
    ghost use Rattle.span_token.specs.Extents.{Extent};

    ghost Value = { List Extent };

    ghost use Rattle.span_token.specs.Scans.{tokens_left, IsScan};

    ghost view = { tokens_left };

    ghost invariant = { IsScan };
}

impl<'a> TokenScan<'a> {
    /// The tokens of `text`, from the first one on.
    pub(crate) fn new(text: &'a str) -> TokenScan<'a>
        requires { length text.now ≤ text_limit }
        ensures { result ≡ tokens_of (chars text.now) }
    {
        let at = Point { byte: 0, place: 0 };
        TokenScan { text, at }
    }

    /// The next token.
    #[inline(always)]
    pub(crate) fn next(&mut self) -> Option<Span>
        ensures { MatchOption result (self.old ≡ []) (λ span. self.old ≡ extent_of span ∷ self.new) }
    {
        let (begin, end) = next_token(self.text, self.at)?;
        self.at = end;
        Some(Span {
            begin: begin.place,
            end: end.place,
        })
    }
}

/// The first token from a point on: where it begins, and the point after it.
#[inline(always)]
fn next_token(text: &str, from: Point) -> Option<(Point, Point)>
    requires point { IsPoint text.now from }
    requires seam { IsSeam (chars text.now) from.place }
    requires short { length text.now ≤ text_limit }
    ensures { MatchOption result (tokens_from (chars text.now) from.place ≡ []) (λ r. IsNextToken text.now from r.0 r.1) }
{
    let mut at = from;
    while let Some((class, next)) = step(text, at) {
        match class {
            Class::Space => at = next,
            Class::Mark => return Some((at, next)),
            Class::Word => return Some((at, past_word(text, next))),
        }
    }
    None
}
