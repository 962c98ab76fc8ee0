//! The text of a store's content: a JSON document, for stores whose bytes others keep.
//!
//! `store_text` writes what a store holds, and `read_stores` reads an array of such texts.
#![tactic(auto)]

mod laws;
mod reading;
mod rising;
mod shape;
mod writing;

pub use laws::{one_reading, read_back};
pub use reading::read_stores;
pub use writing::store_text;
