/// The bytes of a token in the text of its document, half-open, from 0.
#[derive(Clone, Copy)]
pub(crate) struct TokenBytes {
    pub(crate) begin: u32,
    pub(crate) end: u32,
}
