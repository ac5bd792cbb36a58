ghost use Rattle.std.specs.Prelude.{◌≡◌, ◌↔◌, ◌<◌, ◌++◌, ◌∷◌, [], List, ℕ, length, map, Some, IfOk, OnOk, IsTrue};
ghost use Rattle.std.specs.HashMap.{get_by_text};
ghost use Rattle.std.specs.List.{Contains};
ghost use Rattle.dict_match.specs.Dictionaries.{folded, texts_of, entry_texts};
ghost use Rattle.dict_match.specs.declared.trie.End.{End};
ghost use Rattle.dict_match.specs.Passes.{HaveAtMost};
ghost use Rattle.dict_match.specs.Tries.{Reaches, IsTrie, put_entry, put_dict};

use crate::dict_use::DictUse;
use crate::fold::fold_into;
use crate::marks::{Marks, mark_of};
use span_token::{Document, OutOfMemory, OwnedList, OwnedText, SourceTokens, TEXT_LIMIT};
use std::alloc::Global;
use std::collections::HashMap;

/// An entry of a dictionary that ends at a node: the dictionary's number, and the texts of the entry's
/// tokens where case counts.
#[derive(Debug, Drop)]
pub(crate) struct End {
    pub dict: usize,
    pub spelled: Option<OwnedList<OwnedText>>,
}

/// The tree of all entries' folded tokens.
///
/// Each folded token that stands in some entry has a number. From a node an edge leads on for each
/// number with which some entry goes on there; node 0 is the root. The mark of each folded token is among the marks.
#[derive(Drop)]
pub(crate) struct Trie {
    pub words: HashMap<String, usize>,
    pub edges: HashMap<(usize, usize), usize>,
    pub ends: Vec<OwnedList<End>>,
    pub marks: Marks,
}

impl Trie {
    /// The tree of no entries.
    pub(crate) fn new(alloc: Global) -> Result<Trie, OutOfMemory>
        ensures { IfOk result (λ trie. Reaches trie [] 0 []) }
    {
        let mut ends = Vec::new(alloc);
        ends.push(OwnedList::new(alloc))?;
        Ok(Trie {
            words: HashMap::new(alloc),
            edges: HashMap::new(alloc),
            ends,
            marks: Marks::new(alloc)?,
        })
    }

    /// The number of a folded token, a new one where it has none.
    fn number(&mut self, alloc: Global, text: &str) -> Result<usize, OutOfMemory>
        ensures number { IfOk result (λ word. get_by_text self.new.words text.now ≡ Some word) }
        ensures kept { (put : List (List (List ℕ) × End)) (node : ℕ) (path : List (List ℕ)) → Reaches self.old put node path
            → OnOk result (Reaches self.new put node path) }
    {
        if let Some(number) = self.words.get(text) {
            return Ok(*number);
        }
        let number = self.words.len();
        self.words.insert(String::from_str(alloc, text)?, number)?;
        self.marks.set(mark_of(text));
        Ok(number)
    }

    /// The node to which an edge leads from `node`, a new one where none does.
    fn child(&mut self, alloc: Global, node: usize, word: usize) -> Result<usize, OutOfMemory>
        ensures { (put : List (List (List ℕ) × End)) (path : List (List ℕ)) (text : List ℕ) → Reaches self.old put node path
            → get_by_text self.old.words text ≡ Some word
            → IfOk result (λ next. Reaches self.new put next (path ++ text ∷ [])) }
    {
        if let Some(next) = self.edges.get(&(node, word)) {
            return Ok(*next);
        }
        let next = self.ends.len();
        self.ends.push(OwnedList::new(alloc))?;
        self.edges.insert((node, word), next)?;
        Ok(next)
    }

    /// Puts an end to a node, where it isn't there.
    fn put_end(&mut self, node: usize, end: End) -> Result<(), OutOfMemory>
        requires there { node < length self.old.ends.items }
        ensures { (put : List (List (List ℕ) × End)) (path : List (List ℕ)) → Reaches self.old put node path
            → OnOk result (Reaches self.new (put ++ (path, end) ∷ []) 0 []) }
    {
        if is_listed(&end, self.ends[node].as_slice()) {
            return Ok(());
        }
        self.ends[node].push(end)?;
        Ok(())
    }

    /// The node of some tokens' foldings, with what is missing on the way to it.
    fn node_of(
        &mut self,
        alloc: Global,
        tokens: &SourceTokens<'_, '_>,
        buffer: &mut String,
    ) -> Result<usize, OutOfMemory>
        requires trie { IsTrie self.old }
        ensures { (put : List (List (List ℕ) × End)) → Reaches self.old put 0 []
            → IfOk result (λ node. Reaches self.new put node (map folded (texts_of tokens.now.doc tokens.now.tokens))) }
    {
        let mut node = 0;
        for i in 0..tokens.len() {
            fold_into(tokens.text(i), buffer)?;
            let word = self.number(alloc, buffer.as_str())?;
            node = self.child(alloc, node, word)?;
        }
        Ok(node)
    }

    /// Puts an entry of a dictionary in, and gives the number of its tokens; one too long for a document is want
    /// of memory.
    pub(crate) fn put_entry(
        &mut self,
        alloc: Global,
        dict: usize,
        exact: bool,
        entry: &str,
        buffer: &mut String,
    ) -> Result<usize, OutOfMemory>
        requires trie { IsTrie self.old }
        ensures put { (put : List (List (List ℕ) × End)) → Reaches self.old put 0 []
            → OnOk result (Reaches self.new (put ++ put_entry dict exact entry.now) 0 []) }
        ensures number { IfOk result (λ number. number ≡ length (entry_texts entry.now)) }
    {
        if entry.len() > TEXT_LIMIT {
            return Err(OutOfMemory);
        }
        let doc = Document::new(alloc, entry, None)?;
        let tokens = SourceTokens::all(&doc);
        let number = tokens.len();
        if number == 0 {
            return Ok(0);
        }
        let node = self.node_of(alloc, &tokens, buffer)?;
        let spelled = if exact {
            Some(spelled_out(alloc, &tokens)?)
        } else {
            None
        };
        self.put_end(node, End { dict, spelled })?;
        Ok(number)
    }

    /// Puts all entries of a dictionary in, and gives a number of tokens that none of them exceeds.
    #[tactic(auto, using(crate::proofs::MostLemmas::at_most_more))]
    pub(crate) fn put_dict(
        &mut self,
        alloc: Global,
        dict_number: usize,
        dict: &DictUse,
        buffer: &mut String,
    ) -> Result<usize, OutOfMemory>
        requires trie { IsTrie self.old }
        ensures put { (put : List (List (List ℕ) × End)) → Reaches self.old put 0 []
            → OnOk result (Reaches self.new (put ++ put_dict dict_number dict.now) 0 []) }
        ensures most { IfOk result (λ most. HaveAtMost most dict.now.entries) }
    {
        let mut most = 0;
        for entry in dict.entries.as_slice() {
            let number = self.put_entry(alloc, dict_number, dict.exact, entry.as_str(), buffer)?;
            most = most.max(number);
        }
        Ok(most)
    }
}

/// The texts of some tokens.
fn spelled_out(
    alloc: Global,
    tokens: &SourceTokens<'_, '_>,
) -> Result<OwnedList<OwnedText>, OutOfMemory>
    ensures { IfOk result (λ texts. texts ≡ texts_of tokens.now.doc tokens.now.tokens) }
{
    let mut texts = OwnedList::new(alloc);
    for i in 0..tokens.len() {
        texts.push(OwnedText::copied(alloc, tokens.text(i))?)?;
    }
    Ok(texts)
}

/// Whether some texts are equal.
fn are_same_texts(a: &[OwnedText], b: &[OwnedText]) -> bool
    ensures { IsTrue result ↔ a.now ≡ b.now }
{
    if a.len() != b.len() {
        return false;
    }
    for (i, text) in a.iter().enumerate() {
        if text.as_str() != b[i].as_str() {
            return false;
        }
    }
    true
}

/// Whether two ends are equal.
fn is_same_end(a: &End, b: &End) -> bool
    ensures { IsTrue result ↔ a.now ≡ b.now }
{
    if a.dict != b.dict {
        return false;
    }
    match (&a.spelled, &b.spelled) {
        (None, None) => true,
        (Some(x), Some(y)) => are_same_texts(x.as_slice(), y.as_slice()),
        _ => false,
    }
}

/// Whether an end is among some.
fn is_listed(end: &End, ends: &[End]) -> bool
    ensures { IsTrue result ↔ Contains ends.now end.now }
{
    for other in ends {
        if is_same_end(other, end) {
            return true;
        }
    }
    false
}
