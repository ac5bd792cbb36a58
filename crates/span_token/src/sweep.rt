ghost use Rattle.std.specs.Prelude.{◌≡◌};
ghost use Rattle.span_token.specs.Sweeps.{is_of_token, do_join, ends_between, begins_between, sweep_past};
ghost use Rattle.span_token.specs.declared.classes.Class.TheVariants.{Space};

use crate::classes::Class;

/// What is known of the characters before a place.
#[derive(Clone, Copy)]
pub(crate) struct Sweep {
    /// Where the token of the last character begins, where it has one.
    pub(crate) begin: u32,
    /// The class of the last character; before the first as if it were white space.
    pub(crate) last: Class,
}

impl Sweep {
    /// Before the first character.
    pub(crate) fn new() -> Sweep
        ensures { result ≡ record { begin = 0; last = Space } }
    {
        Sweep {
            begin: 0,
            last: Class::Space,
        }
    }

    /// Whether the last character belongs to a token.
    pub(crate) fn is_in_token(self) -> bool
        ensures { result ≡ is_of_token self.last }
    {
        is_of_token(self.last)
    }

    /// Whether a token ends before a character of that class.
    #[inline(always)]
    pub(crate) fn ends_before(self, next: Class) -> bool
        ensures { result ≡ ends_between self.last next }
    {
        is_of_token(self.last) & !does_join(self.last, next)
    }

    /// The same behind the next character, which is number `at` and of that class.
    #[inline(always)]
    pub(crate) fn past(self, at: u32, next: Class) -> Sweep
        ensures { result ≡ sweep_past self at next }
    {
        Sweep {
            begin: if self.begins_at(next) { at } else { self.begin },
            last: next,
        }
    }

    /// Whether a character of that class begins a token.
    #[inline(always)]
    pub(crate) fn begins_at(self, next: Class) -> bool
        ensures { result ≡ begins_between self.last next }
    {
        is_of_token(next) & !does_join(self.last, next)
    }
}

/// Whether a character of that class belongs to a token.
#[inline(always)]
fn is_of_token(class: Class) -> bool
    ensures { result ≡ is_of_token class }
{
    !matches!(class, Class::Space)
}

/// Whether characters of these classes, the one behind the other, belong to one token.
#[inline(always)]
fn does_join(last: Class, next: Class) -> bool
    ensures { result ≡ do_join last next }
{
    matches!(last, Class::Word) & matches!(next, Class::Word)
}
