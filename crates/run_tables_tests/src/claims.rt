ghost use Rattle.std.specs.Prelude.{◌≡◌, ◌<◌, ◌≤◌, All, length, IfSome};
ghost use Rattle.run_tables.specs.Seats.{SitsAt};

use run_tables::{ClaimSeat, Claims};
use std::alloc::Global;
use std::process::Abort;
use std::test::Fail;
use std::thread::{self, Threads};

/// Whether one of the seats wins the item.
fn claim_by(claims: &Claims, seats: &mut [ClaimSeat], seat: usize, item: u32) -> bool
    requires sit { All (SitsAt claims.now.table) seats.old }
    requires there { seat < length seats.old }
    requires in_range { item < claims.now.sizes.items }
    ensures len { length seats.new ≡ length seats.old }
    ensures sit { All (SitsAt claims.now.table) seats.new }
{
    claims.claim(&mut seats[seat], item)
}

/// The seat into which all others are joined.
fn all_joined(claims: &Claims, mut seats: Vec<ClaimSeat>) -> Option<ClaimSeat>
    requires sit { All (SitsAt claims.now.table) seats.items }
    ensures { IfSome result (λ seat. (seat.table ≡ claims.now.table) × (seat.view.parts ≡ length seats.items)) }
{
    let mut all = seats.pop()?;
    while let Some(seat) = seats.pop() {
        claims.join(&mut all, seat);
    }
    Some(all)
}

/// The words of the table, closed by the seat into which all are joined.
fn closed(alloc: Global, claims: Claims, seats: Vec<ClaimSeat>) -> Result<Vec<u64>, Fail>
    requires sit { All (SitsAt claims.table) seats.items }
    requires all { length seats.items ≡ claims.sizes.seats }
{
    let Some(all) = all_joined(&claims, seats) else {
        return Err(Fail::from("a seat"));
    };
    Ok(claims.close(alloc, all)?)
}

/// Checks a fact.
pub(crate) fn expect<R: Abort>(rt: &R, fact: bool, what: &str) {
    assert!(rt; fact, "{what}");
}

#[test]
fn an_item_is_won_by_one_of_two_seats(rt: HostRuntime) -> Result<(), Fail> {
    let alloc = rt.alloc();
    let (claims, mut seats) = Claims::new(alloc, 2, 2)?;
    expect(&rt, claim_by(&claims, &mut seats, 0, 0), "item 0 is free");
    expect(
        &rt,
        !claim_by(&claims, &mut seats, 1, 0),
        "seat 0 won item 0",
    );
    expect(&rt, claim_by(&claims, &mut seats, 1, 1), "item 1 is free");
    expect(&rt, seats[0].number() == 0, "the first seat has number 0");
    expect(&rt, seats[1].number() == 1, "the second seat has number 1");
    let words = closed(alloc, claims, seats)?;
    expect(
        &rt,
        words.as_slice() == [1u64, 2].as_slice(),
        "a word is 1 more than the seat's number",
    );
    Ok(())
}

#[test]
fn an_item_is_taken_once_it_is_won(rt: HostRuntime) -> Result<(), Fail> {
    let alloc = rt.alloc();
    let (claims, mut seats) = Claims::new(alloc, 2, 1)?;
    let Some(mut seat) = seats.pop() else {
        return Err(Fail::from("a seat"));
    };
    expect(&rt, !claims.taken(&mut seat, 0), "nobody won item 0 yet");
    expect(&rt, claims.claim(&mut seat, 0), "item 0 is free");
    expect(&rt, claims.taken(&mut seat, 0), "the seat won item 0");
    expect(&rt, !claims.taken(&mut seat, 1), "nobody won item 1");
    Ok(())
}

/// Claims each item once.
fn claim_each(claims: &Claims, items: u32, seat: &mut ClaimSeat)
    requires sits { SitsAt claims.now.table seat.old }
    requires in_range { items ≤ claims.now.sizes.items }
    ensures { SitsAt claims.now.table seat.new }
{
    for item in 0..items {
        claims.claim(seat, item);
    }
}

/// Claims each item once by each seat, in a thread for each.
fn claim_in_threads<R: Threads + Sync>(rt: &R, claims: &Claims, items: u32, seats: &mut [ClaimSeat])
    requires some { 0 < length seats.old }
    requires sit { All (SitsAt claims.now.table) seats.old }
    requires in_range { items ≤ claims.now.sizes.items }
    ensures len { length seats.new ≡ length seats.old }
    ensures sit { All (SitsAt claims.now.table) seats.new }
{
    let threads = seats.len();
    let job = |_: usize, seat: &mut ClaimSeat|
        requires { SitsAt claims.now.table seat.old × (items ≤ claims.now.sizes.items) }
        ensures { SitsAt claims.entry.now.table seat.new }
    { claim_each(claims, items, seat) };
    thread::for_each_mut(rt, seats, threads, &job);
}

#[test]
fn each_of_many_items_is_won_by_one_of_four_threads(rt: HostRuntime) -> Result<(), Fail> {
    let alloc = rt.alloc();
    let (claims, mut seats) = Claims::new(alloc, 100_000, 4)?;
    claim_in_threads(&rt, &claims, 100_000, seats.as_mut_slice());
    let words = closed(alloc, claims, seats)?;
    expect(&rt, words.len() == 100_000, "each item has a word");
    expect(
        &rt,
        words.iter().all(|word| 1 <= *word && *word <= 4),
        "each item has one of four winners",
    );
    Ok(())
}
