ghost use Rattle.std.specs.Prelude.{◌≡◌, IfOk};

use span_token::{OutOfMemory, OwnedList, OwnedText};
use std::alloc::Global;

/// A use of a dictionary: its entries, and whether case counts.
///
/// With `exact` two tokens agree where their texts are equal; without it where their full case
/// foldings are. The tokens of an entry are those of its text by the rule of a document's tokens, and
/// an entry without tokens matches nothing.
#[derive(Debug, Drop)]
pub struct DictUse {
    pub entries: OwnedList<OwnedText>,
    pub exact: bool,
}

impl DictUse {
    /// A copy, for a pass of its own.
    pub fn copied(&self, alloc: Global) -> Result<DictUse, OutOfMemory>
        ensures { IfOk result (λ copy. copy ≡ self.now) }
    {
        let entries = copied_texts(alloc, self.entries.as_slice())?;
        Ok(DictUse {
            entries,
            exact: self.exact,
        })
    }
}

/// Copies of some texts, in their order.
pub(crate) fn copied_texts(
    alloc: Global,
    texts: &[OwnedText],
) -> Result<OwnedList<OwnedText>, OutOfMemory>
    ensures { IfOk result (λ copies. copies ≡ texts.now) }
{
    let mut copies = OwnedList::new(alloc);
    for text in texts {
        copies.push(OwnedText::copied(alloc, text.as_str())?)?;
    }
    Ok(copies)
}

/// Copies of some dictionaries, in their order.
pub(crate) fn copied_dicts(
    alloc: Global,
    dicts: &[DictUse],
) -> Result<OwnedList<DictUse>, OutOfMemory>
    ensures { IfOk result (λ copies. copies ≡ dicts.now) }
{
    let mut copies = OwnedList::new(alloc);
    for dict in dicts {
        copies.push(dict.copied(alloc)?)?;
    }
    Ok(copies)
}
