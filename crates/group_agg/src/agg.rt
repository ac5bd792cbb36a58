/// What is told of each group, one value.
///
/// `Key` gives the group's value of a key, by the key's number; the other numbers are columns.
#[derive(Clone, Copy, Debug, PartialEq, Eq)]
pub enum Agg {
    /// The value of the key of this number, from 0.
    Key(u32),
    /// The number of rows.
    Count,
    /// The number of rows whose value in this column isn't Null.
    CountOf(u32),
    /// The total of the integers in this column, or the nearer end of `i64` where it is out of range;
    /// Null where there are none.
    Sum(u32),
    /// The least value of this column but Null, in the order of values; Null where there is none.
    Min(u32),
    /// The greatest value of this column in the order of values; Null where there is none but Null.
    Max(u32),
}
