//! Stretches: a list is cut into pieces of neighbours, of one size but for the last.

ghost use Rattle.std.specs.Prelude.{◌≡◌, ◌*◌, ◌<◌, ◌≤◌, length};
ghost use Rattle.std.specs.Fork.{slice_chunk};

/// The size of stretches by which a list of `length` elements makes `most` stretches at most.
pub(crate) fn stretch_size(length: usize, most: usize) -> usize
    requires some { 0 < most }
    ensures some { 0 < result }
    ensures enough { length ≤ most * result }
{
    length.div_ceil(most).max(1)
}

/// How many stretches of this size a list of `length` elements has.
pub(crate) fn stretch_count(length: usize, size: usize) -> usize
    requires some { 0 < size }
    ensures all { length ≤ result * size }
    ensures begun { (n : _) → n < result → n * size < length }
{
    length.div_ceil(size)
}

/// The stretch of number `n`, from 0.
pub(crate) fn stretch<T>(list: &[T], size: usize, n: usize) -> &[T]
    requires some { 0 < size }
    requires begun { n * size < length list.now }
    ensures { result.now ≡ slice_chunk list.now size n }
{
    let from = n * size;
    let to = from + size.min(list.len() - from);
    &list[from..to]
}
