mod decimal;
mod key;
mod layout;
mod line;
mod member;
mod order;
mod place;
mod plain;
mod row;
mod text;
mod value;
mod views;

pub use layout::Layout;
pub use line::{append_document, write_document};
