//! A plan over a corpus, line by line.
ghost use Rattle.std.specs.Prelude.{◌≡◌};
ghost use Rattle.window_lines.specs.Lines.{names_in};

use crate::outputs::outputs_of;
use algebra::Plan;
use anyhow::{Result, bail};
use aql_io::Source;
use corpus_json::{DocumentReader, LINE_LIMIT, Layout, LineBuffer, Step};
use plan_operators::{EvaluationRoom, Schedule};
use run_pool::Workers;
use scalar_ops::Tools;
use std::alloc::Global;
use std::io::Write;
use window_lines::append_answer;

/// How many bytes of output are held before they are written.
const PIECE: usize = 65_536;

/// What is read of a corpus, and what is written for it.
#[derive(Drop)]
struct Lines {
    corpus: LineBuffer,
    line: Vec<u8>,
    documents: DocumentReader,
    room: EvaluationRoom,
    pending: Vec<u8>,
}

/// Writes the line of each document of a corpus by a plan, until a line is bad or the corpus ends or can't
/// be read. Documents always keep their tokens, so that plans which ask for them differ from others by
/// their nodes alone.
pub(crate) fn run<S: Source, W: Write>(
    alloc: Global,
    plan: &Plan,
    corpus: &mut S,
    out: &mut W,
) -> Result<()> {
    let outputs = outputs_of(alloc, plan)?;
    let schedule = Schedule::new(alloc, plan)?;
    let layout = Layout::new(alloc, &outputs)?;
    let mut tools = Tools::new(alloc, plan.tables())?;
    let mut lines = Lines::new(alloc)?;
    let ended = write_lines(
        alloc, &schedule, &layout, &mut tools, &mut lines, corpus, out,
    );
    out.write_all(&lines.pending)?;
    out.flush()?;
    ended
}

impl Lines {
    fn new(alloc: Global) -> Result<Lines> {
        Ok(Lines {
            corpus: LineBuffer::new(alloc)?,
            line: Vec::new(alloc),
            documents: DocumentReader::new(alloc),
            room: EvaluationRoom::new(alloc),
            pending: Vec::new(alloc),
        })
    }
}

/// Writes the lines but for those of the last piece, which stays pending.
fn write_lines<S: Source, W: Write>(
    alloc: Global,
    schedule: &Schedule<'_>,
    layout: &Layout<'_>,
    tools: &mut Tools<'_>,
    lines: &mut Lines,
    corpus: &mut S,
    out: &mut W,
) -> Result<()>
    requires layout { layout.now ≡ names_in schedule.now }
    requires tables { tools.old ≡ schedule.now.lists }
{
    for _ in 0..u64::MAX {
        match lines.corpus.next_line(corpus, &mut lines.line)? {
            Step::Line => append_line(alloc, schedule, layout, tools, lines)?,
            Step::End => break,
            Step::Long | Step::Failed | Step::Limit => bail!("the corpus can't be read"),
        }
        if lines.pending.len() >= PIECE {
            out.write_all(&lines.pending)?;
            lines.pending.clear();
        }
    }
    Ok(())
}

/// Puts what is written for the line that was read behind what is pending: nothing for a blank one.
fn append_line(
    alloc: Global,
    schedule: &Schedule<'_>,
    layout: &Layout<'_>,
    tools: &mut Tools<'_>,
    lines: &mut Lines,
) -> Result<()>
    requires layout { layout.now ≡ names_in schedule.now }
    requires tables { tools.old ≡ schedule.now.lists }
    ensures same { tools.new ≡ tools.old }
{
    if lines.line.len() > LINE_LIMIT {
        bail!("a line of the corpus is too long");
    }
    match lines.documents.read(&lines.line) {
        Ok(Some(input)) => append_answer(
            alloc,
            schedule,
            true,
            layout,
            tools,
            &mut Workers,
            input,
            &mut lines.room,
            &mut lines.pending,
        )?,
        Ok(None) => {}
        Err(_) => bail!("a line of the corpus is no document"),
    }
    Ok(())
}
