//! A guardian's stable store in the tables of a SQL database.
//!
//! `SqlStable` keeps the content in maps too, so that each answer comes from memory and a call
//! touches only the rows that it changes; a call is one transaction. `store_tables` says what the
//! rows stand for, and `store_writing` writes them.
#![tactic(auto)]

mod asking;
mod building;
mod calls;
mod layout;
mod mirror;
mod opening;
mod places;
mod store;

pub use store::SqlStable;
