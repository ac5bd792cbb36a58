ghost use Rattle.std.specs.Prelude.{◌≡◌, ◌<◌, IfErr};

use crossbeam_queue::RuledArrayQueue;
use crossbeam_queue::protocol::Free;
use std::alloc::{AllocError, Global};

/// How often a value is tried to be put, or taken, where another thread comes first each time.
const TRIES: usize = 16;

/// A queue for values of any number of threads, shared by `&`. What was put first is taken first: that, and when there is room, is
/// tested and no clause.
#[derive(Drop)]
pub struct SharedQueue<T> {
    ring: RuledArrayQueue<T, (), Free>,
}

impl<T> SharedQueue<T> {
    /// A queue with room for so many values, and none in it. The error is that memory was wanting.
    pub fn new(alloc: Global, most: usize) -> Result<SharedQueue<T>, AllocError>
        requires some { 0 < most }
    {
        let ring = RuledArrayQueue::ruled(alloc, most)?.0;
        Ok(SharedQueue { ring })
    }

    /// Puts a value behind the others, or gives it back: where the queue is full, or where other threads came first at each of
    /// some tries. It takes no memory and waits for nobody.
    pub fn put(&self, value: T) -> Result<(), T>
        ensures back { IfErr result (λ back. back ≡ value) }
    {
        let mut pass = self.ring.pass();
        let mut value = value;
        for _ in 0..TRIES {
            match self.ring.try_push_as::<Free>(&mut pass, value) {
                Ok(()) => return Ok(()),
                Err(back) => value = back,
            }
        }
        Err(value)
    }

    /// Takes the first value out. `None` where there is none, where the first one is still being put, or where other threads
    /// came first at each of some tries. It takes no memory and waits for nobody.
    pub fn take(&self) -> Option<T> {
        let mut pass = self.ring.pass();
        for _ in 0..TRIES {
            if let Some(value) = self.ring.try_pop_as::<Free>(&mut pass) {
                return Some(value);
            }
        }
        None
    }
}
