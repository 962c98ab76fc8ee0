//! Tests of the store in SQL tables, as rows of data: what a stop of its device leaves, and which databases it opens
//! or refuses.
//!
//! A section works on a database in memory, on two files in memory that stand for a device, or on the store in them.
//! A call that changes a store answers `done` or the fault, and `load` the content in one line, as `count 2 next 8
//! 1={"record":{"a":1}} [7@2: 3={"delta":5}] !4`.
#![tactic(auto)]

mod calls;
mod contents;
mod devices;
mod files;
mod machines;
mod memory;
mod stops;
mod stores;

use files::Device;
use memory::InMemory;
use std::io;
use stores::Stores;

fn main(rt: HostRuntime) -> io::Result<()> {
    let mut stores: Stores<InMemory, Device> = Stores::new(rt.alloc());
    rows::run(&rt, &mut stores)
}
