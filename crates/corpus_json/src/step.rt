/// What comes next in a source of lines.
#[derive(Clone, Copy, Debug, PartialEq, Eq)]
pub enum Step {
    /// A line, without its LF.
    Line,
    /// The source answered its end, and every line was given.
    End,
    /// The next line has more bytes than a line may have.
    Long,
    /// A read failed before the next line was whole.
    Failed,
    /// A corpus's most bytes were taken, and no whole line is left.
    Limit,
}
