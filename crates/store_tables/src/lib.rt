//! The tables of a store in a SQL database, and the content of the store for which their rows stand.
//!
//! `specs/Holds.antt` says when tables hold a content: each row stands for something in it, and all that is in it has
//! its row. The text of an object's part is its one spelling (`specs/PartTexts.antt`). `proofs/Statements.antt` has
//! what each statement makes of the content, for `sql_store`.
#![tactic(auto)]

mod answers;
mod columns;
mod first;
mod known;
mod meaning;
mod parts;
mod rowids;
mod shape;
mod text;

pub use answers::{QUERIES, content_of, one_content_is_held};
pub use first::{FIRST_QUERIES, first_content_of};
pub use known::is_known;
pub use meaning::statements_stand_alone;
pub use rowids::{ROWIDS, all_rise};
pub use text::{one_part_spelling, part_from_text, part_text};
