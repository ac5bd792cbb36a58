/// The nodes of what a query may name: of the document, and of the views below it by their numbers.
#[derive(Drop)]
pub(crate) struct Below {
    pub document: u32,
    pub views: Vec<u32>,
}
