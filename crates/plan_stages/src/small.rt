//! A small program on two documents, through all stages.

use crate::programs::typed_program;
use crate::running::run;
use crate::stage::{STAGES, Stage};
use anyhow::{Result, bail};
use aql_io::SureSource;
use std::alloc::Global;
use std::io::Write;

/// Two dictionaries of one column, a view that stands twice, and a join by tokens with conditions on both
/// sides.
const PROGRAM: &str = "create dictionary Given as ('Ann', 'Bo', 'Zoë');
create dictionary Verbs as ('calls', 'met');
create view Given as extract dictionary 'Given' on D.text as name from Document D;
create view Verb as extract dictionary 'Verbs' on D.text as verb from Document D;
create view Capital as extract regex /[A-Z]\\w+/ on between 1 and 2 tokens in D.text as word from Document D;
create view Word as extract regex /[A-Z]\\w+/ on between 1 and 2 tokens in D.text as word from Document D;
create view Meeting as select CombineSpans(G.name, V.verb) as met, V.verb as verb
  from Given G, Verb V
  where FollowsTok(G.name, V.verb, 0, 1) and GreaterThan(GetLength(V.verb), 2);
create view Beside as select V.verb as verb, C.word as word
  from Verb V, Capital C
  where FollowsTok(V.verb, C.word, 0, 1);
create view Both as (select C.word as word from Capital C) union all (select W.word as word from Word W);
output view Meeting;
output view Beside;
output view Both;
";

/// The corpus.
const CORPUS: &str = "{\"label\":\"first\",\"text\":\"Ann calls Bo Li. Zoë once met Ann\"}
{\"text\":\"nobody\"}
";

/// Writes the lines of the small program by its lowered plan, and then whether its plans at all stages wrote
/// the same.
pub(crate) fn run_small<R: Print + AllocGlobal>(rt: &R) -> Result<()> {
    let alloc = rt.alloc();
    let lowered = written(alloc, Stage::Lowered)?;
    std::io::writer(rt).write_all(&lowered)?;
    for (name, stage) in STAGES {
        if written(alloc, stage)? != lowered {
            bail!("{name}: other bytes than lowered");
        }
        println!(rt; "{name}: the same bytes")?;
    }
    Ok(())
}

/// What the plan of the small program at a stage writes.
fn written(alloc: Global, stage: Stage) -> Result<Vec<u8>> {
    let typed = typed_program(alloc, PROGRAM)?;
    let plan = stage.plan(alloc, typed)?;
    let mut bytes = Vec::new(alloc);
    bytes.extend_from_slice(CORPUS.as_bytes())?;
    let mut corpus = SureSource::new(bytes);
    let mut out = Vec::new(alloc);
    run(alloc, &plan, &mut corpus, &mut out)?;
    Ok(out)
}
