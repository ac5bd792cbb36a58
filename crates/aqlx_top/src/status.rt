ghost use Rattle.std.specs.Prelude.{◌≡◌};
ghost use Rattle.aqlx_top.specs.Statuses.{code_of};

use aql_lexer::LexFault;
use aql_parser::SyntaxFault;
use aql_types::TypeRule;
use view_graph::NameFault;

/// How a run ended, want of memory apart.
#[derive(Debug, Drop)]
pub enum Status {
    /// All that was asked for is written; `run` has read the corpus to its end.
    Done,
    /// The program has a fault; nothing was written to the output.
    Program(ProgramFault),
    /// The command words are none of the forms that they may have.
    Usage,
    /// The corpus has a bad line, or is too large; the lines before it were written.
    Corpus(CorpusFault),
    /// The program file or the corpus couldn't be read.
    ReadFault,
    /// The output, or the line on standard error, couldn't be written.
    WriteFault,
}

/// Why a program is refused.
///
/// The faults are looked for in this order: bytes, text, tokens, statements, nesting, syntax, names, cycle
/// and types. A program has the first one alone; of several cycles any may be told.
///
/// Meaning: `HasFault`, `specs/ProgramFaults.antt`.
#[derive(Debug, Drop)]
pub enum ProgramFault {
    /// The file's first `place` bytes are UTF-8, and no more of them.
    Text {
        place: u32,
    },
    /// There is more of something than a program may have, and how many there are: one byte more than
    /// `PROGRAM_LIMIT`, where there are more bytes, or the number of statements, or the deepest nesting.
    Large {
        what: What,
        number: u64,
    },
    /// At this byte neither white space nor a comment nor a token stands.
    Lex(LexFault),
    /// This statement is the first whose tokens are those of no tree.
    Syntax(SyntaxFault),
    /// A name is defined twice or not at all, two outputs have one name, or views use one another in a circle.
    Name(NameFault),
    /// A rule of types is broken in this statement, from 1, by the part whose first token begins at this
    /// byte of the program, from 0.
    Mistyped {
        statement: u32,
        place: u32,
        rule: TypeRule,
    },
}

/// What a program has too much of.
#[derive(Clone, Copy, Debug, PartialEq, Eq)]
pub enum What {
    Bytes,
    Statements,
    Nesting,
}

/// Why a corpus is refused. Lines count from 1.
#[derive(Clone, Copy, Debug, PartialEq, Eq)]
pub enum CorpusFault {
    /// This line is neither blank nor a document.
    BadLine(u64),
    /// This line has more than `LINE_LIMIT` bytes, its line feed left out.
    LineLong(u64),
    /// `CORPUS_LIMIT` bytes were taken, and no line before is bad.
    CorpusLarge,
}

impl Status {
    /// The exit status of the program: 0 for `Done`, then 1 to 5 in the order of the variants.
    pub fn code(&self) -> u8
        ensures { result ≡ code_of self.now }
    {
        match self {
            Status::Done => 0,
            Status::Program(_) => 1,
            Status::Usage => 2,
            Status::Corpus(_) => 3,
            Status::ReadFault => 4,
            Status::WriteFault => 5,
        }
    }
}
