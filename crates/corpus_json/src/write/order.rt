ghost use Rattle.std.specs.Prelude.{◌≡◌, ◌<◌, All, IfOk, length, map};
ghost use Rattle.corpus_json.specs.NameIndexes.{entry_index, name_index, name_indexes};

use span_token::OutOfMemory;
use std::alloc::Global;
use std::collections::BTreeMap;

/// A name, with its index among the names that were given.
#[derive(Clone, Copy, Drop)]
pub(crate) struct Named<'p> {
    pub(crate) name: &'p str,
    pub(crate) index: usize,
}

/// The names in the order of their bytes.
pub(crate) fn in_order<'p>(alloc: Global, names: &[&'p str]) -> Result<Vec<Named<'p>>, OutOfMemory>
    ensures order { IfOk result (λ list. map name_index list.items ≡ name_indexes (map (λ name. name.now) names.now)) }
    ensures within { IfOk result (λ list. All (λ named. named.index < length names.now) list.items) }
{
    let mut indexes = BTreeMap::new(alloc);
    'names: for (index, name) in names.iter().enumerate() {
        indexes.insert(*name, index)?;
    }
    let list = listed(alloc, indexes)?;
    Ok(list)
}

fn listed<'p>(
    alloc: Global,
    indexes: BTreeMap<&'p str, usize>,
) -> Result<Vec<Named<'p>>, OutOfMemory>
    ensures { IfOk result (λ list. map name_index list.items ≡ map entry_index indexes.entry.entries) }
{
    let mut list = Vec::new(alloc);
    'indexes: for (name, index) in indexes {
        list.push(Named { name, index })?;
    }
    Ok(list)
}
