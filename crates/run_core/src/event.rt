/// A step of the machine: what a worker did with an item. Workers and items count from 0; item
/// `d * plan.nodes().len() + n` is node `n` on document `d`.
///
/// Meaning: `IsLegal` and `after`, `specs/Events.antt`.
#[derive(Clone, Copy, Debug, PartialEq, Eq)]
pub enum Event {
    /// The worker took the item up: it is wanted, ready and unclaimed.
    Claim { worker: u32, item: u32 },
    /// The worker published the item's rows: it is wanted, ready and unpublished. Whoever claimed it, a
    /// worker may help.
    Publish { worker: u32, item: u32 },
    /// The worker came with rows of an item that is published. Nothing changes.
    Late { worker: u32, item: u32 },
}
