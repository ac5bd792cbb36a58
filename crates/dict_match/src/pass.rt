ghost use Rattle.std.specs.Prelude.{◌≡◌, ◌<◌, ◌≤◌, ◌↔◌, ◌++◌, List, ℕ, [], length, replicate, slice_index_or, map, slice_get, Some, None, false, IfOk, OnOk, IsTrue, All};
ghost use Rattle.span_token.specs.Documents.{LiesIn};
ghost use Rattle.span_token.specs.Extents.{Extent, extent_of};
ghost use Rattle.span_token.specs.Relations.{ContainsExtent};
ghost use Rattle.span_token.specs.SourceTokens.{tokens_in};
ghost use Rattle.dict_match.specs.declared.dict_use.DictUse.{DictUse};
ghost use Rattle.dict_match.specs.Dictionaries.{texts_of, AgreesWith, IsMatch, AreMatches};
ghost use Rattle.dict_match.specs.DictMatches.{does_agree, does_match, dict_matches};
ghost use Rattle.dict_match.specs.Rows.{dict_and_extent, extents_for, extents_of_rows, AreRowsOfEach, AppendsMatches};

use crate::ahead::Ahead;
use crate::dict_use::{DictUse, copied_dicts};
use crate::probe::{has_run, is_entry};
use crate::trie::Trie;
use crate::walk::{DictMatch, push_matches};
use span_token::{Document, OutOfMemory, OwnedList, SourceTokens, Span};
use std::alloc::Global;
use std::marker::Model;

/// Several dictionaries, made ready to be matched in one walk over a document's tokens.
///
/// Contracts see it as these dictionaries. A pass may be shared among threads.
#[derive(Drop)]
pub struct DictPass {
    dicts: OwnedList<DictUse>,
    trie: Trie,
    /// For each dictionary a number of tokens that none of its entries exceeds.
    most: Vec<usize>,
}

impl Model for DictPass {
    ghost use Rattle.std.specs.Prelude.{List};
    ghost use Rattle.dict_match.specs.declared.dict_use.DictUse.{DictUse};

    ghost Value = { List DictUse };

    ghost use Rattle.dict_match.specs.Passes.{dicts_kept, IsIndexed};

    ghost view = { dicts_kept };

    ghost invariant = { IsIndexed };
}

/// What a walk needs and a caller keeps from one to the next. What it holds tells nothing.
#[derive(Drop)]
pub struct DictScratch {
    folded: String,
    ahead: Ahead,
}

impl DictScratch {
    /// Nothing kept yet; takes no memory.
    pub fn new(alloc: Global) -> DictScratch {
        DictScratch {
            folded: String::new(alloc),
            ahead: Ahead::new(alloc),
        }
    }
}

impl DictPass {
    /// A pass for `dicts`, in their order.
    ///
    /// Copies the dictionaries and makes one tree of all their entries' tokens. An entry of more than
    /// 16,777,216 bytes is want of memory.
    pub fn new(alloc: Global, dicts: &[DictUse]) -> Result<DictPass, OutOfMemory>
        ensures { IfOk result (λ pass. pass ≡ dicts.now) }
    {
        let mut trie = Trie::new(alloc)?;
        let mut buffer = String::new(alloc);
        let mut most = Vec::new(alloc);
        for (dict_number, dict) in dicts.iter().enumerate() {
            let tokens = trie.put_dict(alloc, dict_number, dict, &mut buffer)?;
            most.push(tokens)?;
        }
        let dicts = copied_dicts(alloc, dicts)?;
        Ok(DictPass { dicts, trie, most })
    }

    /// The matches wholly in `source`, as one list of spans for each dictionary of the pass, in their
    /// order: each span once, by begin and then by end, half-open, in characters of `doc` from 0.
    ///
    /// A match is the span from the begin of the first to the end of the last token of a run of tokens,
    /// wholly in `source`, that agrees token by token with some entry of the dictionary. Makes its own
    /// scratch. Want of memory leaves nothing behind.
    ///
    /// Meaning: `AreMatches`, `specs/Dictionaries.antt`; `dict_matches`, `specs/DictMatches.antt`, is the
    /// one list that has it.
    pub fn matches(
        &self,
        alloc: Global,
        doc: &Document<'_>,
        source: Span,
    ) -> Result<Vec<Vec<Span>>, OutOfMemory>
        requires in_document { LiesIn (extent_of source) doc.now }
        ensures matches { IfOk result (λ rows. AreRowsOfEach self.now doc.now (extent_of source) (extents_of_rows rows.items)) }
        ensures listed { IfOk result (λ rows. extents_of_rows rows.items ≡ map (λ dict. dict_matches dict doc.now (extent_of source)) self.now) }
        ensures meaning { OnOk result ((dict : DictUse) → AreMatches dict doc.now (extent_of source) (dict_matches dict doc.now (extent_of source))) }
        ensures unique { OnOk result ((dict : DictUse) (spans : List Extent) → AreMatches dict doc.now (extent_of source) spans
            → spans ≡ dict_matches dict doc.now (extent_of source)) }
        ensures within { IfOk result (λ rows. All (λ row. All (λ s. ContainsExtent (extent_of source) (extent_of s)) row.items) rows.items) }
    {
        let mut scratch = DictScratch::new(alloc);
        let mut found = Vec::new(alloc);
        self.append_matches(doc, source, &mut scratch, &mut found)?;
        let mut rows = empty_rows(alloc, self.dicts.len())?;
        put_rows(found.as_slice(), &mut rows)?;
        Ok(rows)
    }

    /// Puts the matches wholly in `source` of all dictionaries behind what `into` holds.
    ///
    /// A match is the number of a dictionary in the pass, from 0, with a span. For each dictionary each
    /// span comes once and in span order; the matches of several dictionaries stand among one another.
    /// Takes memory only where `scratch` or `into` has no room; after want of memory no clause says what
    /// `into` holds.
    ///
    /// Meaning: `AppendsMatches`, `specs/Rows.antt`.
    pub fn append_matches(
        &self,
        doc: &Document<'_>,
        source: Span,
        scratch: &mut DictScratch,
        into: &mut Vec<DictMatch>,
    ) -> Result<(), OutOfMemory>
        requires in_document { LiesIn (extent_of source) doc.now }
        ensures { OnOk result (AppendsMatches self.now doc.now (extent_of source) (map dict_and_extent into.old.items) (map dict_and_extent into.new.items)) }
    {
        let tokens = SourceTokens::of(doc, source);
        push_matches(
            &self.trie,
            &tokens,
            &mut scratch.folded,
            &mut scratch.ahead,
            into,
        )
    }

    /// A number of tokens that no match of dictionary number `dict` of the pass, from 0, exceeds: that of its longest
    /// entry. No clause says that it is the least one, nor what it is where the pass has no such dictionary (0).
    #[tactic(auto, using(crate::proofs::MostLemmas::agree_most))]
    pub fn most_tokens(&self, dict: usize) -> usize
        ensures { (the : DictUse) (texts : List (List ℕ)) → slice_get self.now dict ≡ Some the → IsTrue (does_agree the texts)
            → length texts ≤ result }
    {
        if dict >= self.most.len() {
            return 0;
        }
        self.most[dict]
    }

    /// Whether dictionary number `dict` of the pass, from 0, has a match wholly in `source`; false where the
    /// pass has no such dictionary.
    ///
    /// Ends at the first match. Takes memory only where `scratch` has no room.
    ///
    /// Meaning: `IsMatch`, `specs/Dictionaries.antt`.
    pub fn has_match(
        &self,
        dict: usize,
        doc: &Document<'_>,
        source: Span,
        scratch: &mut DictScratch,
    ) -> Result<bool, OutOfMemory>
        requires in_document { LiesIn (extent_of source) doc.now }
        ensures missing { slice_get self.now dict ≡ None → IfOk result (λ found. found ≡ false) }
        ensures test { (the : DictUse) → slice_get self.now dict ≡ Some the → IfOk result (λ found. found ≡ does_match the doc.now (extent_of source)) }
        ensures meaning { (the : DictUse) → slice_get self.now dict ≡ Some the
            → IfOk result (λ found. IsTrue found ↔ (e : Extent) × IsMatch the doc.now (tokens_in doc.now (extent_of source)) e) }
    {
        if dict >= self.dicts.len() {
            return Ok(false);
        }
        let tokens = SourceTokens::of(doc, source);
        has_run(
            &self.trie,
            dict,
            &tokens,
            &mut scratch.folded,
            &mut scratch.ahead,
        )
    }

    /// Whether the tokens wholly in `source`, all of them together, agree with an entry of dictionary
    /// number `dict` of the pass, from 0; false where there is no token, or the pass has no such
    /// dictionary.
    ///
    /// Reads no more tokens than there are, and none behind one with which no entry goes on. Takes
    /// memory only where `scratch` has no room.
    ///
    /// Meaning: `AgreesWith`, `specs/Dictionaries.antt`.
    pub fn matches_whole(
        &self,
        dict: usize,
        doc: &Document<'_>,
        source: Span,
        scratch: &mut DictScratch,
    ) -> Result<bool, OutOfMemory>
        requires in_document { LiesIn (extent_of source) doc.now }
        ensures missing { slice_get self.now dict ≡ None → IfOk result (λ found. found ≡ false) }
        ensures test { (the : DictUse) → slice_get self.now dict ≡ Some the
            → IfOk result (λ found. found ≡ does_agree the (texts_of doc.now (tokens_in doc.now (extent_of source)))) }
        ensures meaning { (the : DictUse) → slice_get self.now dict ≡ Some the
            → IfOk result (λ found. IsTrue found ↔ AgreesWith the (texts_of doc.now (tokens_in doc.now (extent_of source)))) }
    {
        if dict >= self.dicts.len() {
            return Ok(false);
        }
        let tokens = SourceTokens::of(doc, source);
        is_entry(&self.trie, dict, &tokens, &mut scratch.folded)
    }
}

/// So many empty rows.
fn empty_rows(alloc: Global, number: usize) -> Result<Vec<Vec<Span>>, OutOfMemory>
    ensures { IfOk result (λ rows. extents_of_rows rows.items ≡ replicate number []) }
{
    let mut rows = Vec::new(alloc);
    for _i in 0..number {
        rows.push(Vec::new(alloc))?;
    }
    Ok(rows)
}

/// Puts each match behind those in the row of its dictionary.
fn put_rows(found: &[DictMatch], rows: &mut Vec<Vec<Span>>) -> Result<(), OutOfMemory>
    requires { All (λ m. m.0 < length rows.old.items) (map dict_and_extent found.now) }
    ensures number { OnOk result (length rows.new.items ≡ length rows.old.items) }
    ensures each { OnOk result ((i : ℕ) → i < length rows.old.items → slice_index_or (extents_of_rows rows.new.items) i []
        ≡ slice_index_or (extents_of_rows rows.old.items) i [] ++ extents_for i (map dict_and_extent found.now)) }
{
    for one in found {
        rows[one.dict].push(one.span)?;
    }
    Ok(())
}
