ghost use Rattle.std.specs.Prelude.{◌≡◌, ◌<◌, ◌*◌, ◌^◌, Some, None, length, IfOk, IfSome, MatchOption, MatchResult};
ghost use Rattle.once_cell.specs.Once.{Agrees};
ghost use Rattle.run_tables.specs.Cells.{Belongs, known, IsFilled};

use crate::{Published, Work};
use algebra::Plan;
use once_cell::race::{Note, OnceBox};
use span_token::{Document, OutOfMemory};
use std::alloc::Global;
use std::marker::Model;

/// A cell for each item, which holds the item's result from the moment it is published.
///
/// Threads share the cells by `&`, each with watches of its own. A cell is set at most once. Contracts see
/// the cells' names.
#[derive(Drop)]
pub struct Results<'d, W: Work> {
    cells: Vec<OnceBox<Published<'d, W>>>,
}

impl<'d, W: Work> Model for Results<'d, W> {
    ghost use Rattle.std.specs.Prelude.{ℕ, List, map};
    ghost use Rattle.once_cell.specs.Once.{cell_name};

    ghost Value = { List ℕ };

    ghost view = { λ results. map cell_name results.cells.items };
}

/// What one caller knows of the cell of one item.
///
/// Contracts see the item's number, the cell's name, and what the cell is known to hold: `known` is the
/// result of the item, where one was seen.
#[derive(Drop)]
pub struct Watch<'d, W: Work> {
    item: u32,
    note: Note<Published<'d, W>>,
}

impl<'d, W: Work> Model for Watch<'d, W> {
    ghost use Rattle.run_tables.specs.Cells.{Sight};

    ghost Value = { Sight };

    ghost view = { λ watch. record { item = watch.item; cell = watch.note.cell; held = watch.note.known } };
}

impl<'d, W: Work> Results<'d, W> {
    /// A cell for each node of the plan on each document, and nothing in any.
    pub fn new(
        alloc: Global,
        plan: &Plan,
        docs: &[Document<'d>],
    ) -> Result<Results<'d, W>, OutOfMemory>
        requires few { length docs.now * length plan.now.nodes < 2 ^ 32 }
        ensures cells { IfOk result (λ cells. length cells ≡ length docs.now * length plan.now.nodes) }
    {
        let items = docs.len() * plan.nodes().len() as usize;
        let mut cells = Vec::with_capacity(alloc, items)?;
        for _ in 0..items {
            cells.push(OnceBox::new(alloc))?;
        }
        Ok(Results { cells })
    }

    /// A watch of the item, which knows nothing yet. It takes no memory and waits for nobody.
    pub fn watch(&self, item: u32) -> Watch<'d, W>
        requires in_range { item < length self.now }
        ensures item { result.item ≡ item }
        ensures belongs { Belongs self.now result }
        ensures nothing { result.held ≡ None }
    {
        Watch {
            item,
            note: self.cells[item as usize].note(),
        }
    }

    /// The result of the watch's item, where its cell is seen to hold one. It takes no memory and waits for
    /// nobody.
    ///
    /// None comes only where the watch knew no result. A value that another item's number came with counts
    /// as none.
    pub fn look(&self, watch: &mut Watch<'d, W>) -> Option<&Published<'d, W>>
        requires belongs { Belongs self.now watch.old }
        ensures item { watch.new.item ≡ watch.old.item }
        ensures belongs { Belongs self.now watch.new }
        ensures found { MatchOption result ((known watch.old ≡ None) × (known watch.new ≡ None)) (λ found. (found.now.item ≡ watch.old.item) × (known watch.new ≡ Some found.now) × Agrees (known watch.old) found.now) }
    {
        let found = self.cells[watch.item as usize].get_as(&mut watch.note)?;
        if found.item() == watch.item {
            Some(found)
        } else {
            None
        }
    }

    /// Puts the result into the cell of its item. It takes no memory and waits for nobody.
    ///
    /// After Ok the watch knows this very result, and had seen nothing in the cell before. Else the same box is
    /// handed back, the cell is known to be full, and what the watch knew it still knows.
    pub fn publish(
        &self,
        watch: &mut Watch<'d, W>,
        found: Box<Published<'d, W>>,
    ) -> Result<(), Box<Published<'d, W>>>
        requires belongs { Belongs self.now watch.old }
        requires of_item { found.value.item ≡ watch.old.item }
        ensures item { watch.new.item ≡ watch.old.item }
        ensures belongs { Belongs self.now watch.new }
        ensures published { MatchResult result (λ _. (watch.old.held ≡ None) × (known watch.new ≡ Some found.entry.value)) (λ back. (back.value ≡ found.entry.value) × IsFilled watch.new) }
        ensures kept { IfSome (known watch.old) (λ seen. known watch.new ≡ Some seen) }
    {
        self.cells[watch.item as usize].set_as(found, &mut watch.note)
    }

    /// Two watches of one item that know results know the same one. It does nothing.
    pub fn agree(&self, one: &mut Watch<'d, W>, other: &mut Watch<'d, W>)
        requires belongs { Belongs self.now one.old }
        requires other_belongs { Belongs self.now other.old }
        requires one_item { one.old.item ≡ other.old.item }
        ensures same { (one.new ≡ one.old) × (other.new ≡ other.old) }
        ensures agree { IfSome (known one.old) (λ seen. IfSome (known other.old) (λ too. seen ≡ too)) }
    {
        let again = other.note.again();
        one.note.compare(again);
    }
}
