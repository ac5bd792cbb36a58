use std::alloc::Global;

/// Memory for evaluations one after another, of any plans on any documents.
#[derive(Drop)]
pub struct EvaluationRoom {
    pub(crate) readers: Vec<u64>,
    pub(crate) asking: Vec<u32>,
}

impl EvaluationRoom {
    /// No room yet: it grows with what it is used for.
    pub fn new(alloc: Global) -> EvaluationRoom {
        EvaluationRoom {
            readers: Vec::new(alloc),
            asking: Vec::new(alloc),
        }
    }
}
