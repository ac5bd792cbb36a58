ghost use Rattle.std.specs.Prelude.{◌≡◌, ◌<◌};

use super::*;
use std::marker::Brand;
use std::sync::ledger::{Blank, Ledger};

/// Lists, and whether they are equal as bags.
static BAGS: [(&[u32], &[u32], bool); 8] = [
    (&[], &[], true),
    (&[3, 1, 2], &[1, 2, 3], true),
    (&[2, 1, 2], &[2, 2, 1], true),
    (&[1, 1, 2], &[1, 2, 2], false),
    (&[1, 2], &[1, 2, 2], false),
    (&[1, 2], &[1, 2, 3], false),
    (&[], &[0], false),
    (&[7], &[], false),
];

#[test]
fn bags_are_equal_where_each_value_occurs_equally_often(rt: HostRuntime) {
    for (a, b, want) in BAGS {
        assert!(rt; same_bag(a, b) == want, "{a:?} and {b:?}");
    }
}

#[test]
fn bags_of_texts_are_equal_by_their_bytes(rt: HostRuntime) {
    assert!(rt; same_bag(&["b", "a", "b"], &["b", "b", "a"]));
    assert!(rt; !same_bag(&["b", "a"], &["b", "B"]));
}

/// Takes `n` steps of a ledger of its own.
fn taken<L: Ledger>(n: u32, blank: Blank) -> u32
    requires name { blank.name ≡ L.name }
    requires parts { blank.parts ≡ L.parts }
    requires some { 0 < blank.parts }
{
    let mut steps = Steps::<L>::new(blank);
    for _ in 0..n {
        steps.tick();
    }
    n
}

#[test]
fn a_caller_without_a_ledger_passes_a_blank(rt: HostRuntime) {
    assert!(rt; taken::<Brand>(3, Blank::new(1)) == 3);
}
