//! Runs the clients of a checked script as actions of a world, over stores of any kind.
//!
//! A client is an activity: one top action, whose body is gone through statement by statement. The world is changed
//! by its steps alone. Here the clients run one after another, and the arms of a `coenter` too, unless who makes the
//! steps runs arms apart.
#![tactic(auto)]

mod abortable;
mod activity;
mod activity_steps;
mod apart;
mod arms;
mod client;
mod flow;
mod laws;
mod open_action;
mod operations;
mod serial;
mod top_steps;

pub use activity_steps::ActivitySteps;
pub use apart::{BegunArm, EndedArm, run_arm};
pub use client::ClientEnd;
pub use laws::{earlier_is_left_alone, serial_runs_are_run};
pub use script_model::Checked;
pub use serial::{run_client, run_serial};
