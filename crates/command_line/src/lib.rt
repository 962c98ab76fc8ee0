//! The command line of `argus`.
//!
//! `command` reads the words by clap and gives the subcommand that they ask for, its paths and its options; what the
//! words mean is clap's own definition of simple commands, at the commands of `specs/`. It reads no file and prints
//! nothing.
#![tactic(auto)]

mod parsing;
pub mod request;

pub use parsing::command;
