ghost use Rattle.std.specs.Prelude.{◌≡◌, ◌++◌, ◌∷◌, [], length, OnOk, OnErr, IfOk, string_bytes};

use crate::OutOfMemory;
use std::alloc::Global;
use std::marker::Model;

/// Text of its own, which contracts see as its bytes, wherever they lie.
#[derive(Debug, Drop)]
pub struct OwnedText {
    text: String,
}

impl Model for OwnedText {
    ghost use Rattle.std.specs.Prelude.{List, ℕ, string_bytes};

    ghost Value = { List ℕ };

    ghost view = { λ owned. string_bytes owned.text };
}

impl OwnedText {
    /// A copy of `text`.
    pub fn copied(alloc: Global, text: &str) -> Result<OwnedText, OutOfMemory>
        ensures { IfOk result (λ owned. owned ≡ text.now) }
    {
        let text = String::from_str(alloc, text)?;
        Ok(OwnedText { text })
    }

    /// The text, borrowed.
    pub fn as_str(&self) -> &str
        ensures { result.now ≡ self.now }
    {
        self.text.as_str()
    }

    /// The text, handed over.
    pub fn into_string(self) -> String
        ensures { string_bytes result ≡ self }
    {
        let OwnedText { text } = self;
        text
    }
}

impl From<String> for OwnedText {
    ghost use Rattle.std.specs.Prelude.{◌≡◌, string_bytes};

    ghost from_gives = { λ text owned. owned ≡ string_bytes text };

    fn from(text: String) -> OwnedText {
        OwnedText { text }
    }
}

/// A list of its own, which contracts see as its elements, whatever room it has.
#[derive(Debug, Drop)]
pub struct OwnedList<T> {
    items: Vec<T>,
}

impl<T> Model for OwnedList<T> {
    ghost use Rattle.std.specs.Prelude.{List};

    ghost Value = { List T };

    ghost view = { λ owned. owned.items.items };
}

impl<T> OwnedList<T> {
    /// No element; takes no memory.
    pub fn new(alloc: Global) -> OwnedList<T>
        ensures { result ≡ [] }
    {
        OwnedList {
            items: Vec::new(alloc),
        }
    }

    /// The elements, borrowed.
    pub fn as_slice(&self) -> &[T]
        ensures { result.now ≡ self.now }
    {
        self.items.as_slice()
    }

    /// The number of elements.
    pub fn len(&self) -> usize
        ensures { result ≡ length self.now }
    {
        self.items.len()
    }

    /// The elements, handed over.
    pub fn into_vec(self) -> Vec<T>
        ensures { result.items ≡ self }
    {
        let OwnedList { items } = self;
        items
    }
}

impl<T: Drop> OwnedList<T> {
    /// Puts `item` after the others. After want of memory the list is as it was.
    pub fn push(&mut self, item: T) -> Result<(), OutOfMemory>
        ensures ok { OnOk result (self.new ≡ self.old ++ item ∷ []) }
        ensures err { OnErr result (self.new ≡ self.old) }
    {
        self.items.push(item)?;
        Ok(())
    }
}

impl<T> From<Vec<T>> for OwnedList<T> {
    ghost use Rattle.std.specs.Prelude.{◌≡◌};

    ghost from_gives = { λ items owned. owned ≡ items.items };

    fn from(items: Vec<T>) -> OwnedList<T> {
        OwnedList { items }
    }
}
