//! Names of actions by place: each name that a guardian knows has a number, and what is kept of it stands in rows at
//! that number.
//!
//! Contracts see the list of the names by place. A place stays: names only come to the end. A name may have a place
//! and no row. So a place is room: `provide` makes it, and a row that is then put there cannot fail.
#![tactic(auto)]

mod children;
mod places;
mod rows;

pub use places::Places;
pub use rows::Rows;
