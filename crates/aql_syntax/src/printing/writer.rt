//! The tokens written so far.

ghost use Rattle.std.specs.Prelude.{◌≡◌, [], ◌∷◌, ◌++◌, map, OnOk, IfOk};
ghost use Rattle.aql_lexer.specs.Kinds.{kind_of, word, name, int, str, regex, symbol};
ghost use Rattle.aql_syntax.specs.Printed as spec;

use crate::names::{can_be_name, can_be_word};
use crate::tree::Ident;
use aql_lexer::TokKind;
use span_token::{OutOfMemory, OwnedText};
use std::alloc::Global;
use std::marker::Model;

/// A list of tokens that grows, which contracts see as its kinds.
#[derive(Drop)]
pub struct Writer {
    alloc: Global,
    toks: Vec<TokKind>,
}

impl Model for Writer {
    ghost use Rattle.std.specs.Prelude.{List, map};
    ghost use Rattle.aql_lexer.specs.Kinds.{Kind, kind_of};

    ghost Value = { List Kind };

    ghost view = { λ writer. map kind_of writer.toks.items };
}

impl Writer {
    pub fn new(alloc: Global) -> Writer
        ensures { result ≡ [] }
    {
        Writer {
            alloc,
            toks: Vec::new(alloc),
        }
    }

    pub fn into_tokens(self) -> Vec<TokKind>
        ensures { map kind_of result.items ≡ self }
    {
        self.toks
    }

    fn put(&mut self, kind: TokKind) -> Result<(), OutOfMemory>
        ensures { OnOk result (self.new ≡ self.old ++ kind_of kind ∷ []) }
    {
        self.toks.push(kind)?;
        Ok(())
    }

    fn copied(&self, text: &str) -> Result<OwnedText, OutOfMemory>
        ensures { IfOk result (λ copy. copy ≡ text.now) }
    {
        OwnedText::copied(self.alloc, text)
    }

    pub fn symbol(&mut self, byte: u8) -> Result<(), OutOfMemory>
        ensures { OnOk result (self.new ≡ self.old ++ symbol byte ∷ []) }
    {
        self.put(TokKind::Symbol(byte))
    }

    pub fn word(&mut self, text: &str) -> Result<(), OutOfMemory>
        ensures { OnOk result (self.new ≡ self.old ++ word text.now ∷ []) }
    {
        let text = self.copied(text)?;
        self.put(TokKind::Word(text))
    }

    pub fn string(&mut self, text: &str) -> Result<(), OutOfMemory>
        ensures { OnOk result (self.new ≡ self.old ++ str text.now ∷ []) }
    {
        let text = self.copied(text)?;
        self.put(TokKind::Str(text))
    }

    pub fn regex(&mut self, text: &str) -> Result<(), OutOfMemory>
        ensures { OnOk result (self.new ≡ self.old ++ regex text.now ∷ []) }
    {
        let text = self.copied(text)?;
        self.put(TokKind::Regex(text))
    }

    pub fn int(&mut self, value: i64) -> Result<(), OutOfMemory>
        ensures { OnOk result (self.new ≡ self.old ++ int value ∷ []) }
    {
        self.put(TokKind::Int(value))
    }

    fn quoted(&mut self, text: &str) -> Result<(), OutOfMemory>
        ensures { OnOk result (self.new ≡ self.old ++ name text.now ∷ []) }
    {
        let text = self.copied(text)?;
        self.put(TokKind::Name(text))
    }

    /// A name, in quotes only where it must be.
    #[tactic(auto, unfolding(crate::specs::Printed::printed_name))]
    pub fn name(&mut self, name: &Ident) -> Result<(), OutOfMemory>
        ensures { OnOk result (self.new ≡ self.old ++ spec.printed_name name.now.text ∷ []) }
    {
        let text = name.text.as_str();
        if can_be_word(text) {
            return self.word(text);
        }
        self.quoted(text)
    }

    /// A dictionary's name in an extraction: a string where it can be no name.
    #[tactic(auto, unfolding(crate::specs::Printed::printed_dictionary))]
    pub fn dictionary(&mut self, name: &Ident) -> Result<(), OutOfMemory>
        ensures { OnOk result (self.new ≡ self.old ++ spec.printed_dictionary name.now.text ∷ []) }
    {
        let text = name.text.as_str();
        if can_be_word(text) {
            return self.word(text);
        }
        if can_be_name(text) {
            return self.quoted(text);
        }
        self.string(text)
    }

    /// A comma before each part but part 0.
    pub fn comma(&mut self, part: usize) -> Result<(), OutOfMemory>
        ensures { OnOk result (self.new ≡ self.old ++ spec.printed_before part spec.comma) }
    {
        if part == 0 {
            return Ok(());
        }
        self.symbol(b',')
    }

    /// `and` before each part but part 0.
    pub fn and(&mut self, part: usize) -> Result<(), OutOfMemory>
        ensures { OnOk result (self.new ≡ self.old ++ spec.printed_before part spec.and) }
    {
        if part == 0 {
            return Ok(());
        }
        self.word("and")
    }

    /// `union all` before each side but side 0.
    pub fn union_all(&mut self, side: usize) -> Result<(), OutOfMemory>
        ensures { OnOk result (self.new ≡ self.old ++ spec.printed_before side spec.union_all) }
    {
        if side == 0 {
            return Ok(());
        }
        self.word("union")?;
        self.word("all")
    }
}
