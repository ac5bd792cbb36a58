ghost use Rattle.std.specs.Prelude.{◌≡◌, ◌++◌, ◌∷◌, [], Bool, map, OnOk};
ghost use Rattle.aql_tables.specs.Mentions as spec;
ghost use Rattle.aql_tables.specs.Kept.{mention_of};

use span_token::OutOfMemory;
use std::alloc::Global;
use std::marker::Model;

/// A text that stands as a pattern, or a name that stands for a dictionary and whether case counts
/// there.
#[derive(Clone, Copy, Debug)]
pub(crate) enum Mention<'a> {
    Pattern(&'a str),
    Dictionary(&'a str, bool),
}

/// Mentions in the order of the text.
#[derive(Debug, Drop)]
pub(crate) struct Mentions<'a> {
    all: Vec<Mention<'a>>,
}

impl<'a> Model for Mentions<'a> {
    ghost use Rattle.std.specs.Prelude.{List, map};
    ghost use Rattle.aql_tables.specs.Mentions.{Mention};

    ghost Value = { List Mention };

    ghost use Rattle.aql_tables.specs.Kept.{mention_of};

    ghost view = { λ mentions. map mention_of mentions.all.items };
}

impl<'a> Mentions<'a> {
    pub(crate) fn new(alloc: Global) -> Mentions<'a>
        ensures { result ≡ [] }
    {
        Mentions {
            all: Vec::new(alloc),
        }
    }

    pub(crate) fn as_slice(&self) -> &[Mention<'a>]
        ensures { map mention_of result.now ≡ self.now }
    {
        self.all.as_slice()
    }

    pub(crate) fn pattern(&mut self, text: &'a str) -> Result<(), OutOfMemory>
        ensures { OnOk result (self.new ≡ self.old ++ spec.of_pattern text.now ∷ []) }
    {
        self.all.push(Mention::Pattern(text))?;
        Ok(())
    }

    pub(crate) fn dictionary(&mut self, name: &'a str, exact: bool) -> Result<(), OutOfMemory>
        ensures { OnOk result (self.new ≡ self.old ++ spec.of_dictionary name.now exact ∷ []) }
    {
        self.all.push(Mention::Dictionary(name, exact))?;
        Ok(())
    }

    /// The dictionary, compared either way.
    pub(crate) fn dictionary_either_way(&mut self, name: &'a str) -> Result<(), OutOfMemory>
        ensures { OnOk result (self.new ≡ self.old ++ spec.with_flags name.now spec.both_flags) }
    {
        self.dictionary(name, false)?;
        self.dictionary(name, true)
    }
}
