ghost use Rattle.std.specs.Prelude.{◌≡◌, ◌≤◌, [], None, Ok, IfOk, IfSome, IsOkAnd, OnErr, is_some};
ghost use Rattle.corpus_json.specs.Given.{GoesOn, HasGiven};
ghost use Rattle.corpus_json.specs.Reading.{NextLine, Took};

use crate::{LineBuffer, Step};
use aql_io::Source;
use span_token::OutOfMemory;
use std::alloc::Global;
use std::marker::Model;

/// What comes next in a source of lines, with the line itself.
#[derive(Debug, Drop)]
pub enum Next {
    /// A line, without its LF.
    Line(Vec<u8>),
    /// The source answered its end, and every line was given.
    End,
    /// The next line has more bytes than a line may have.
    Long,
    /// A read failed before the next line was whole.
    Failed,
    /// A corpus's most bytes were taken, and no whole line is left.
    Limit,
}

/// A source, read line by line.
#[derive(Drop)]
pub struct LineReader<S> {
    buffer: LineBuffer,
    source: S,
    alloc: Global,
}

impl<S> Model for LineReader<S> {
    ghost use Rattle.corpus_json.specs.Readers.{Reader};

    ghost Value = { Reader S };

    ghost view = { λ r. record { reading = r.buffer; source = r.source } };
}

impl<S: Source> LineReader<S> {
    ghost use Rattle.corpus_json.specs.Readers.{step_of, line_in};

    /// A reader of the lines of `source`, which took and gave nothing yet. It takes its buffer's memory.
    pub fn new(alloc: Global, source: S) -> Result<LineReader<S>, OutOfMemory>
    where
        S: Drop,
        ensures new { IfOk result (λ reader.
            reader ≡ record { reading = record { ready = []; taken = 0; last = None }; source = source }) }
        ensures given { IfOk result (λ reader. HasGiven (S.left source) (S.left source)
            (S.faults source) (S.faults source) reader.reading []) }
    {
        let buffer = LineBuffer::new(alloc)?;
        Ok(LineReader {
            buffer,
            source,
            alloc,
        })
    }

    /// The next line of the source, or why there is none.
    ///
    /// Lines and answers are those of `LineBuffer::next_line`. The line is a new `Vec`. Once the reader
    /// has ended or failed, a further call gives the same answer, never wants memory, and leaves the
    /// source as it is.
    pub fn next(&mut self) -> Result<Next, OutOfMemory>
        ensures answer { IfOk result (λ next. NextLine (S.left self.old.source) (S.left self.new.source)
            (S.faults self.old.source) (S.faults self.new.source) self.old.reading self.new.reading
            (line_in next) (step_of next)) }
        ensures given { IfOk result (λ next. GoesOn (S.left self.old.source) (S.left self.new.source)
            (S.faults self.old.source) (S.faults self.new.source) self.old.reading self.new.reading
            (line_in next) (step_of next)) }
        ensures err { OnErr result (Took (S.left self.old.source) (S.left self.new.source)) }
        ensures told { is_some (S.left self.new.source) ≡ is_some (S.left self.old.source) }
        ensures later { S.faults self.old.source ≤ S.faults self.new.source }
        ensures lasting { IfSome self.old.reading.last
            (λ last. IsOkAnd result (λ next. step_of next ≡ last) × (self.new.source ≡ self.old.source)) }
    {
        let mut line = Vec::new(self.alloc);
        let step = self.next_into(&mut line)?;
        Ok(match step {
            Step::Line => Next::Line(line),
            Step::End => Next::End,
            Step::Long => Next::Long,
            Step::Failed => Next::Failed,
            Step::Limit => Next::Limit,
        })
    }

    /// Puts the next line of the source into `line`, or says why there is none, as
    /// `LineBuffer::next_line` does.
    pub fn next_into(&mut self, line: &mut Vec<u8>) -> Result<Step, OutOfMemory>
        ensures answer { IfOk result (NextLine (S.left self.old.source) (S.left self.new.source)
            (S.faults self.old.source) (S.faults self.new.source) self.old.reading self.new.reading line.new.items) }
        ensures given { IfOk result (GoesOn (S.left self.old.source) (S.left self.new.source)
            (S.faults self.old.source) (S.faults self.new.source) self.old.reading self.new.reading line.new.items) }
        ensures err { OnErr result (Took (S.left self.old.source) (S.left self.new.source)) }
        ensures told { is_some (S.left self.new.source) ≡ is_some (S.left self.old.source) }
        ensures later { S.faults self.old.source ≤ S.faults self.new.source }
        ensures lasting { IfSome self.old.reading.last
            (λ last. (result ≡ Ok last) × (self.new.source ≡ self.old.source)) }
    {
        self.buffer.next_line(&mut self.source, line)
    }

    /// The source, handed over, with what is ready lost.
    pub fn into_source(self) -> S
        ensures { result ≡ self.source }
    {
        let LineReader { source, .. } = self;
        source
    }
}
