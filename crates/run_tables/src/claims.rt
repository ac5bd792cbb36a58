ghost use Rattle.std.specs.Prelude.{◌≡◌, ◌≢◌, ◌<◌, ◌≤◌, ◌+◌, ◌-◌, [], length, All, MatchBool, IfOk};
ghost use Rattle.std.specs.Mem.Slots.{slots_items, slots_len, IsFull};
ghost use Rattle.run_tables.specs.ClaimWords.{AreWords, AreWonOnce};
ghost use Rattle.run_tables.specs.Seats.{dealer, newcomer, with_win, with_read, with_joined, IsSameSeat, SitsAt, AreNewSeats};

use crate::rule::{ClaimRule, Counts, Gives, Merges, Reads, Sizes, Tries, View};
use atomic_table::{Closed, Seat, Table};
use span_token::OutOfMemory;
use std::alloc::Global;
use std::marker::Model;

/// A word for each item, which tells whether the item is won, and by which seat.
///
/// Threads share a table by `&`, each with a seat of its own. A word leaves 0 once, for one more than the
/// number of the seat that won the item, and never changes again. Contracts see which table it is, and how
/// many items and seats it has.
///
/// Meaning: `IsClaimState`, `specs/ClaimRule.antt`.
#[derive(Drop)]
pub struct Claims {
    table: Table<(), View, Sizes, ClaimRule, Global>,
    sizes: Sizes,
}

impl Model for Claims {
    ghost use Rattle.std.specs.Prelude.{◌≡◌, ◌<◌};
    ghost use Rattle.run_tables.specs.Seats.{ClaimTable};

    ghost Value = { ClaimTable };

    ghost view = { λ claims. record { table = claims.table.shared.table_id; sizes = claims.sizes } };

    ghost invariant = { λ claims. (claims.table.shared.key ≡ claims.sizes) × (claims.table.shared.table_id.words ≡ claims.sizes.items) × (claims.table.shared.table_id.slots ≡ 0) × (0 < claims.sizes.items) };
}

/// What a thread claims with. Contracts see which table it fits, and its view: the seat's number, the items
/// that it won, and its last read.
///
/// A seat that is dropped keeps its wins: the table stays as it is, and can't be closed.
#[derive(Drop)]
pub struct ClaimSeat {
    seat: Seat<(), View>,
    number: u32,
}

impl Model for ClaimSeat {
    ghost use Rattle.std.specs.Prelude.{◌≡◌, ◌<◌, []};
    ghost use Rattle.run_tables.specs.Seats.{Seated};

    ghost Value = { Seated };

    ghost view = { λ seat. record { table = seat.seat.table_id; view = seat.seat.me.0 } };

    ghost invariant = { λ seat. (seat.number ≡ seat.seat.me.0.number) × (seat.seat.me.0.spare ≡ 0) × (0 < seat.seat.me.0.parts) × (seat.seat.me.1 ≡ []) };
}

impl ClaimSeat {
    /// The number of the seat, from 0. It takes no memory.
    pub fn number(&self) -> u32
        ensures { result ≡ self.now.view.number }
    {
        self.number
    }
}

impl Claims {
    /// A table of `items` items, of which none is won, and its seats, in the order of their numbers from 0.
    pub fn new(
        alloc: Global,
        items: u32,
        seats: u32,
    ) -> Result<(Claims, Vec<ClaimSeat>), OutOfMemory>
        requires some_items { 1 ≤ items }
        requires some_seats { 1 ≤ seats }
        ensures sizes { IfOk result (λ made. made.0.sizes ≡ record { items = items; seats = seats }) }
        ensures seats { IfOk result (λ made. AreNewSeats made.0.table seats made.1.items) }
        ensures sit { IfOk result (λ made. All (SitsAt made.0.table) made.1.items) }
    {
        let words = Vec::from_elem(alloc, 0, items as usize)?;
        let sizes = Sizes { items, seats };
        let (table, mut first) = Table::of_words(alloc, words.as_slice(), &sizes)?;
        let claims = Claims { table, sizes };
        let mut all = Vec::new(alloc);
        for i in 1..seats {
            all.push(claims.give(&mut first, seats - i))?;
        }
        all.push(ClaimSeat {
            seat: first,
            number: 0,
        })?;
        all.reverse();
        Ok((claims, all))
    }

    /// The seat of that number, the greatest that the first seat may give out.
    fn give(&self, first: &mut Seat<(), View>, number: u32) -> ClaimSeat
        requires table { first.old.table_id ≡ self.now.table }
        requires some { 0 < number }
        requires dealer { first.old.me ≡ (dealer self.now.sizes.seats number, []) }
        ensures same { first.new.table_id ≡ first.old.table_id }
        ensures left { first.new.me ≡ (dealer self.now.sizes.seats (number - 1), []) }
        ensures given { result ≡ record { table = self.now.table; view = newcomer self.now.sizes.seats number } }
    {
        ClaimSeat {
            seat: self.table.shared.split_seat::<Gives>(first),
            number,
        }
    }

    /// Whether this call wins the item for the seat: one compare and exchange. It takes no memory and waits
    /// for nobody.
    ///
    /// True puts the item, with the seat's number, into the seat's list. False leaves the list, and comes
    /// only where the word that was read in its place wasn't 0, so the item was won before.
    pub fn claim(&self, seat: &mut ClaimSeat, item: u32) -> bool
        requires table { seat.old.table ≡ self.now.table }
        requires in_range { item < self.now.sizes.items }
        ensures same { IsSameSeat seat.old seat.new }
        ensures claim { MatchBool result (seat.new.view ≡ with_win seat.old.view item) ((word : _) × (word ≢ 0) × (seat.new.view ≡ with_read seat.old.view item word)) }
    {
        let words = &self.table.shared;
        let mine = u64::from(seat.number) + 1;
        let found = words.compare_exchange::<Tries>(&mut seat.seat, item as usize, 0, mine);
        found == 0
    }

    /// Whether the item is won, by the word that is read: one load. It takes no memory and waits for nobody.
    pub fn taken(&self, seat: &mut ClaimSeat, item: u32) -> bool
        requires table { seat.old.table ≡ self.now.table }
        requires in_range { item < self.now.sizes.items }
        ensures same { IsSameSeat seat.old seat.new }
        ensures taken { MatchBool result ((word : _) × (word ≢ 0) × (seat.new.view ≡ with_read seat.old.view item word)) (seat.new.view ≡ with_read seat.old.view item 0) }
    {
        let words = &self.table.shared;
        let word = words.load::<Reads>(&mut seat.seat, item as usize);
        word != 0
    }

    /// Hands the list of `seat` on to another one, which then stands for it too. It takes no memory and waits
    /// for nobody.
    ///
    /// The two lists share no item.
    pub fn join(&self, into: &mut ClaimSeat, seat: ClaimSeat)
        requires table { into.old.table ≡ self.now.table }
        requires seat_table { seat.table ≡ self.now.table }
        ensures same { into.new.table ≡ into.old.table }
        ensures joined { into.new.view ≡ with_joined into.old.view seat.view }
        ensures distinct { AreWonOnce into.new.view.won }
    {
        let ClaimSeat { seat, number: _ } = seat;
        let words = &self.table.shared;
        words.join_seat::<Merges>(&mut into.seat, seat);
        words.load::<Counts>(&mut into.seat, 0);
    }

    /// The words of all items, where `seat` stands for all seats: 0 for an item that nobody won, else one
    /// more than the number of the seat that won it.
    ///
    /// After want of memory the table and the seat are given up.
    pub fn close(self, alloc: Global, seat: ClaimSeat) -> Result<Vec<u64>, OutOfMemory>
        requires table { seat.table ≡ self.table }
        requires all_seats { seat.view.parts ≡ self.sizes.seats }
        ensures len { IfOk result (λ words. length words.items ≡ self.sizes.items) }
        ensures words { IfOk result (λ words. AreWords words.items seat.view.won) }
    {
        let Claims { table, sizes } = self;
        let ClaimSeat { seat, number: _ } = seat;
        let free = Vec::from_elem(alloc, 0, sizes.items as usize)?;
        let closed = table.close_with(seat);
        let words = read_words(&closed, free);
        closed.free();
        Ok(words)
    }
}

/// All words of a table that no thread shares any more, in the place of others.
fn read_words(closed: &Closed<(), Global>, mut words: Vec<u64>) -> Vec<u64>
    requires full { IsFull closed.now.words }
    requires len { length words.items ≡ slots_len closed.now.words }
    ensures { result.items ≡ slots_items closed.now.words }
{
    for i in 0..words.len() {
        words[i] = closed.word(i);
    }
    words
}
