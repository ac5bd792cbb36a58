ghost use Rattle.std.specs.Prelude.{◌≡◌, ◌↔◌, IsTrue, All};
ghost use Rattle.std.specs.declared.cmp.Ordering.TheVariants.{Equal};
ghost use Rattle.aql_base.specs.Bags.{OccursEquallyOften, SameBag, count_of};

/// Whether each value occurs in both lists equally often, where values are one that the order of `T`
/// doesn't tell apart.
///
/// Takes no memory, and time that grows as the square of the lengths: for tests and for short lists.
///
/// Where the order tells all values apart, one list is then the other in another order: `exact`.
///
/// Meaning: `OccursEquallyOften` and `SameBag`, `specs/Bags.antt`.
pub fn same_bag<T: Ord>(a: &[T], b: &[T]) -> bool
    ensures counts { IsTrue result ↔ OccursEquallyOften T.cmp a.now b.now }
    ensures exact { ((x y : T) → T.cmp x y ≡ Equal → x ≡ y) → IsTrue result ↔ SameBag a.now b.now }
{
    counted_alike(a, a, b) && counted_alike(b, a, b)
}

/// Whether each of `items` occurs in both lists equally often.
fn counted_alike<T: Ord>(items: &[T], a: &[T], b: &[T]) -> bool
    ensures { IsTrue result ↔ All (λ x. count_of T.cmp x a.now ≡ count_of T.cmp x b.now) items.now }
{
    for x in items {
        if count(x, a) != count(x, b) {
            return false;
        }
    }
    true
}

/// How often `x` occurs.
fn count<T: Ord>(x: &T, items: &[T]) -> usize
    ensures { result ≡ count_of T.cmp x.now items.now }
{
    items.iter().filter(|y| x.cmp(y).is_eq()).count()
}
