ghost use Rattle.std.specs.Prelude.{◌≡◌, ◌<◌, ◌≤◌, ℕ, List, Some, IsTrue, length, replicate, slice_get, IfOk, IfSome};
ghost use Rattle.aql_regex_extract.specs.Matches.{has_match as does_match};
ghost use Rattle.aql_regex_extract.specs.Patterns.{whole_form};
ghost use Rattle.span_token.specs.Documents.{LiesIn};
ghost use Rattle.span_token.specs.Extents.{extent_of};
ghost use Rattle.span_token.specs.SourceTokens.{tokens_in};
ghost use Rattle.dict_match.specs.declared.dict_use.DictUse.{DictUse};
ghost use Rattle.dict_match.specs.Dictionaries.{texts_of};
ghost use Rattle.dict_match.specs.DictMatches.{does_agree, does_match as has_dict_match};
ghost use Rattle.scalar_ops.specs.Tables.{Lists, holds_of_pattern, holds_of_dict};

use crate::Tables;
use aql_regex_extract::{Pattern, Searcher, WholeSearcher};
use dict_match::{DictMatch, DictScratch};
use span_token::{Document, OutOfMemory, Span};
use std::alloc::Global;
use std::marker::Model;

/// What one worker keeps for the expressions of a program: a searcher for each pattern, made when it
/// is first asked for, and room for dictionaries.
///
/// Contracts see the tables that it was made for.
#[derive(Drop)]
pub struct Tools<'t> {
    pub(crate) tables: &'t Tables,
    pub(crate) plain: Vec<Option<Searcher<'t>>>,
    pub(crate) whole: Vec<Option<WholeSearcher<'t>>>,
    pub(crate) scratch: DictScratch,
    pub(crate) found: Vec<DictMatch>,
    pub(crate) alloc: Global,
}

impl<'t> Model for Tools<'t> {
    ghost use Rattle.scalar_ops.specs.Tables.{Lists};
    ghost use Rattle.scalar_ops.specs.Searchers.{ArePrepared};

    ghost Value = { Lists };

    ghost view = { λ tools. tools.tables.now };

    ghost invariant = { λ tools. ArePrepared tools.tables.now.patterns tools.plain.items × ArePrepared tools.tables.now.patterns tools.whole.items };
}

impl<'t> Tools<'t> {
    /// The tools of a worker over `tables`; no searcher is made yet.
    pub fn new(alloc: Global, tables: &'t Tables) -> Result<Tools<'t>, OutOfMemory>
        ensures { IfOk result (λ tools. tools ≡ tables.now) }
    {
        let plain = unprepared(alloc, tables.patterns.len())?;
        let whole = unprepared(alloc, tables.patterns.len())?;
        Ok(Tools {
            tables,
            plain,
            whole,
            scratch: DictScratch::new(alloc),
            found: Vec::new(alloc),
            alloc,
        })
    }

    /// A number of tokens that no match of the dictionary with that number exceeds. No clause says that it is the
    /// least one, nor what it is where there is no such dictionary (0).
    pub fn most_tokens(&self, dict: u32) -> usize
        ensures { (the : DictUse) (texts : List (List ℕ)) → slice_get self.now.dicts dict ≡ Some the → IsTrue (does_agree the texts)
            → length texts ≤ result }
    {
        let tables = self.tables;
        tables.pass.most_tokens(dict as usize)
    }

    /// Whether the pattern with that number matches somewhere in `text`; false where there is none.
    pub(crate) fn has_match(&mut self, pattern: u32, text: &str) -> Result<bool, OutOfMemory>
        ensures found { IfOk result (λ found. found ≡ holds_of_pattern self.old pattern (λ p. does_match p text.now)) }
        ensures same { self.new ≡ self.old }
    {
        let index = pattern as usize;
        let tables = self.tables;
        match tables.patterns.get(index) {
            Some(pattern) => found(self.alloc, &mut self.plain[index], pattern, text),
            None => Ok(false),
        }
    }

    /// Whether the whole-text form of the pattern with that number matches `text`; false where there is
    /// none.
    pub(crate) fn matches_whole(&mut self, pattern: u32, text: &str) -> Result<bool, OutOfMemory>
        ensures found { IfOk result (λ found. found ≡ holds_of_pattern self.old pattern (λ p. does_match (whole_form p) text.now)) }
        ensures same { self.new ≡ self.old }
    {
        let index = pattern as usize;
        let tables = self.tables;
        match tables.patterns.get(index) {
            Some(pattern) => found_whole(self.alloc, &mut self.whole[index], pattern, text),
            None => Ok(false),
        }
    }

    /// Whether the dictionary with that number has a match in the span; false where there is none.
    pub(crate) fn has_entry(
        &mut self,
        dict: u32,
        doc: &Document<'_>,
        span: Span,
    ) -> Result<bool, OutOfMemory>
        requires in_document { LiesIn (extent_of span) doc.now }
        ensures found { IfOk result (λ found. found ≡ holds_of_dict self.old dict (λ the. has_dict_match the doc.now (extent_of span))) }
        ensures same { self.new ≡ self.old }
    {
        let tables = self.tables;
        tables
            .pass
            .has_match(dict as usize, doc, span, &mut self.scratch)
    }

    /// Whether the tokens of the span, all together, agree with an entry of the dictionary with that
    /// number; false where there is none.
    pub(crate) fn is_entry(
        &mut self,
        dict: u32,
        doc: &Document<'_>,
        span: Span,
    ) -> Result<bool, OutOfMemory>
        requires in_document { LiesIn (extent_of span) doc.now }
        ensures found { IfOk result (λ found. found ≡ holds_of_dict self.old dict (λ the. does_agree the (texts_of doc.now (tokens_in doc.now (extent_of span))))) }
        ensures same { self.new ≡ self.old }
    {
        let tables = self.tables;
        tables
            .pass
            .matches_whole(dict as usize, doc, span, &mut self.scratch)
    }
}

/// So many patterns of which no searcher was made.
fn unprepared<T: Drop>(alloc: Global, number: usize) -> Result<Vec<Option<T>>, OutOfMemory>
    ensures { IfOk result (λ all. all.items ≡ replicate number None) }
{
    let mut all = Vec::new(alloc);
    for _n in 0..number {
        all.push(None)?;
    }
    Ok(all)
}

/// Whether the pattern matches somewhere in `text`, by the searcher that is kept or is made now.
fn found<'t>(
    alloc: Global,
    kept: &mut Option<Searcher<'t>>,
    pattern: &'t Pattern,
    text: &str,
) -> Result<bool, OutOfMemory>
    requires made { IfSome kept.old (λ searcher. searcher ≡ pattern.now) }
    ensures found { IfOk result (λ found. found ≡ does_match pattern.now text.now) }
    ensures made { IfSome kept.new (λ searcher. searcher ≡ pattern.now) }
{
    if kept.is_none() {
        *kept = Some(Searcher::new(alloc, pattern)?);
    }
    match kept {
        Some(searcher) => Ok(searcher.has_match(text)),
        None => unreachable!(),
    }
}

/// Whether the whole-text form of the pattern matches `text`, by the searcher that is kept or is made
/// now.
fn found_whole<'t>(
    alloc: Global,
    kept: &mut Option<WholeSearcher<'t>>,
    pattern: &'t Pattern,
    text: &str,
) -> Result<bool, OutOfMemory>
    requires made { IfSome kept.old (λ searcher. searcher ≡ pattern.now) }
    ensures found { IfOk result (λ found. found ≡ does_match (whole_form pattern.now) text.now) }
    ensures made { IfSome kept.new (λ searcher. searcher ≡ pattern.now) }
{
    if kept.is_none() {
        *kept = Some(WholeSearcher::new(alloc, pattern)?);
    }
    match kept {
        Some(searcher) => Ok(searcher.matches_whole(text)),
        None => unreachable!(),
    }
}
