//! What the seats of a table of claims know, the rule of its words, and what each step tells.
use atomic_table::{Join, Play, Split, TableRule};
use std::collections::LinkedList;

/// How many items a table of claims has, and how many seats.
#[derive(Clone, Copy)]
pub struct Sizes {
    pub items: u32,
    pub seats: u32,
}

/// An item that is won, and the number of the seat that won it.
pub struct Win {
    pub item: u32,
    pub seat: u32,
}

/// What a seat knows. No value of it is made: contracts alone see it.
///
/// `seats` is the number of the table's seats, `number` the seat's own, from 0. It may still give out the
/// numbers from 1 to `spare`, stands for `parts` seats, its own and those that were joined into it, and has
/// the items `won` by them. `item` and `word` are its last read, with `word` 0 where there is none.
pub struct View {
    pub seats: u32,
    pub number: u32,
    pub spare: u32,
    pub parts: u32,
    pub won: LinkedList<Win>,
    pub item: u32,
    pub word: u64,
}

/// The rule of a table of claims: one word for each item, and no slots.
pub(crate) struct ClaimRule;

impl TableRule<(), View, Sizes> for ClaimRule {
    ghost use Rattle.run_tables.specs.ClaimRule.{IsClaimState};
    ghost use Rattle.run_tables.specs.Seats.{opener};

    ghost holds = { IsClaimState };

    ghost first = { opener };
}

/// One compare and exchange of a word, from 0.
pub(crate) struct Tries;

impl Play<(), View> for Tries {
    ghost use Rattle.run_tables.specs.ClaimRule.{tried};

    ghost then = { tried };
}

/// One load of a word.
pub(crate) struct Reads;

impl Play<(), View> for Reads {
    ghost use Rattle.run_tables.specs.ClaimRule.{loaded};

    ghost then = { loaded };
}

/// One load that looks at the seat's list alone.
pub(crate) struct Counts;

impl Play<(), View> for Counts {
    ghost use Rattle.run_tables.specs.ClaimRule.{looked_over};

    ghost then = { looked_over };
}

/// The first seat gives out its greatest number.
pub(crate) struct Gives;

impl Split<View> for Gives {
    ghost use Rattle.run_tables.specs.Seats.{giver, newcomer};

    ghost left = { giver };

    ghost right = { λ view. newcomer view.seats view.spare };
}

/// A seat takes in another's list.
pub(crate) struct Merges;

impl Join<View> for Merges {
    ghost use Rattle.run_tables.specs.Seats.{with_joined, gone};

    ghost both = { with_joined };

    ghost spent = { gone };
}
