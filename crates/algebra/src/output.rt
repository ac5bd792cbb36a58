use row_values::Output;

/// An output of a plan: its name and the names of its columns, and the number of the node that it shows.
#[derive(Debug, Drop)]
pub struct PlanOut {
    pub names: Output,
    pub node: u32,
}
