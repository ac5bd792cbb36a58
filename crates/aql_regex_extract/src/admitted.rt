ghost use Rattle.std.specs.Prelude.{ℕ, ◌↔◌, List, true, All, IsTrue};
ghost use Rattle.regex_hir.specs.Meaning.{meaning};
ghost use Rattle.aql_regex_extract.specs.ByteSets.{Has};
ghost use Rattle.aql_regex_extract.specs.Bytes.{Begins, AreBytes, IsAdmitted, AdmitsWhole, AdmitsMatches};

use crate::byte_set::ByteSet;
use crate::marks::{mark_bytes, mark_firsts};
use regex_extract::{is_anchored_end, is_anchored_start};
use regex_hir::Hir;
use regex_syntax::{Config, parse};
use std::alloc::Global;

/// What is told of a text by its bytes, before an engine is asked: a match of the whole-text form
/// begins with one of the first bytes, and has none but these bytes, if they are not all.
#[derive(Drop)]
pub(crate) struct Admitted {
    firsts: ByteSet,
    bytes: Option<ByteSet>,
}

impl Admitted {
    /// What admits each text.
    fn any() -> Admitted
        ensures { (text : List ℕ) → AreBytes text → IsAdmitted result text }
    {
        Admitted {
            firsts: ByteSet::all(),
            bytes: None,
        }
    }

    /// What admits each text that begins with one of the first bytes and has none but those bytes.
    fn new(firsts: ByteSet, bytes: ByteSet) -> Admitted
        ensures { (text : List ℕ) → Begins firsts true text → All (Has bytes) text → IsAdmitted result text }
    {
        Admitted {
            firsts,
            bytes: if bytes.has_all() { None } else { Some(bytes) },
        }
    }

    /// What admits each text in which the pattern of `form` has a match. It admits any text where the
    /// pattern's tree doesn't show that a match spans the text, and where there is no memory for it.
    pub(crate) fn of_form(alloc: Global, form: &str) -> Admitted
        ensures { AdmitsMatches form.now result }
    {
        match parse(alloc, form, &Config::default()) {
            Ok(parsed) => Admitted::of_tree(&parsed.hir),
            Err(_) => Admitted::any(),
        }
    }

    /// The same of the pattern's tree.
    fn of_tree(tree: &Hir) -> Admitted
        ensures { AdmitsWhole (meaning tree.now) result }
    {
        if !is_anchored_start(tree) || !is_anchored_end(tree) {
            return Admitted::any();
        }
        let mut firsts = ByteSet::none();
        mark_firsts(tree, &mut firsts);
        let mut bytes = ByteSet::none();
        mark_bytes(tree, &mut bytes);
        Admitted::new(firsts, bytes)
    }

    /// Whether the text is empty or begins with such a byte, and has no others.
    #[inline]
    pub(crate) fn admits(&self, text: &str) -> bool
        ensures { IsTrue result ↔ IsAdmitted self.now text.now }
    {
        if !self.may_begin(text) {
            return false;
        }
        match &self.bytes {
            Some(set) => set.has_each(text.as_bytes()),
            None => true,
        }
    }

    /// Whether the text is empty or begins with such a byte.
    #[inline]
    pub(crate) fn may_begin(&self, text: &str) -> bool
        ensures { IsTrue result ↔ Begins self.now.firsts true text.now }
    {
        match text.as_bytes().first() {
            Some(first) => self.firsts.has(*first),
            None => true,
        }
    }
}
