/// What is called before each evaluation of an item, in the thread that evaluates it.
///
/// Workers count from 0; what is evaluated after the threads were joined comes with the number of all
/// workers. Item `d * plan.nodes().len() + n` is node `n` on document `d`.
pub trait Gate: Sync {
    fn pass(&self, worker: u32, item: u32);
}

/// The gate at which nothing happens.
#[derive(Drop)]
pub struct Open;

impl Gate for Open {
    fn pass(&self, _worker: u32, _item: u32) {}
}
