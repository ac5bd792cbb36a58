ghost use Rattle.std.specs.Prelude.{◌≡◌, ◌++◌, ◌∷◌, [], map, OnOk};
ghost use Rattle.view_graph.specs.Mentions.{named_of};
ghost use Rattle.view_graph.specs.Names.{view_named, dictionary_named};

use span_token::OutOfMemory;
use std::alloc::Global;
use std::marker::Model;

/// A name as it stands in a query, with its space.
#[derive(Clone, Copy, Debug)]
pub(crate) enum Mention<'a> {
    View(&'a str),
    Dictionary(&'a str),
}

/// Names in the order of the text.
#[derive(Debug, Drop)]
pub(crate) struct Mentions<'a> {
    all: Vec<Mention<'a>>,
}

impl<'a> Model for Mentions<'a> {
    ghost use Rattle.std.specs.Prelude.{List, map};
    ghost use Rattle.view_graph.specs.Names.{Named};

    ghost Value = { List Named };

    ghost use Rattle.view_graph.specs.Mentions.{named_of};

    ghost view = { λ mentions. map named_of mentions.all.items };
}

impl<'a> Mentions<'a> {
    pub(crate) fn new(alloc: Global) -> Mentions<'a>
        ensures { result ≡ [] }
    {
        Mentions {
            all: Vec::new(alloc),
        }
    }

    pub(crate) fn as_slice(&self) -> &[Mention<'a>]
        ensures { map named_of result.now ≡ self.now }
    {
        self.all.as_slice()
    }

    pub(crate) fn view(&mut self, name: &'a str) -> Result<(), OutOfMemory>
        ensures { OnOk result (self.new ≡ self.old ++ view_named name.now ∷ []) }
    {
        self.all.push(Mention::View(name))?;
        Ok(())
    }

    pub(crate) fn dictionary(&mut self, name: &'a str) -> Result<(), OutOfMemory>
        ensures { OnOk result (self.new ≡ self.old ++ dictionary_named name.now ∷ []) }
    {
        self.all.push(Mention::Dictionary(name))?;
        Ok(())
    }
}
