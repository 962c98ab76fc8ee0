//! What the objects of guardians hold: values; records, arrays and variants of them; counters; and their text.
//!
//! Each content is one JSON document and has one spelling; what is read is that document, whatever its white space
//! and the order of its members, and what is written is that spelling.
#![tactic(auto)]

mod array;
mod chunks;
mod content;
mod counter;
mod record;
mod shape;
mod value;
mod variant;
mod words;

pub use array::{Array, GREATEST_INDEX, LEAST_INDEX, MAX_ITEMS};
pub use content::{
    Content, contents_may_be_stored, one_document, one_spelling, written_is_read_back,
};
pub use counter::Counter;
pub use record::{Field, MAX_FIELDS, Record};
pub use value::{Kind, Value};
pub use variant::{MAX_TAGS, Tag, Variant};
pub use words::{Identifier, MAX_TEXT, Text, ValueFault, is_identifier};
