//! Tests of the calls of a service, as rows of data. Each section has a world of its own.
#![tactic(auto)]

mod asked;
mod came;
mod reading;
mod works;

use rows::{Row, RowFault, Subject, again};
use run_model::{Setup, SetupFault};
use service::Service;
use std::alloc::{AllocError, Global};
use std::io;
use world::{PlainStable, World};

fn main(rt: HostRuntime) -> io::Result<()> {
    let mut tested = Tested {
        alloc: rt.alloc(),
        service: None,
    };
    rows::run(&rt, &mut tested)
}

/// The service of a section, once a row has given its setup.
#[derive(Drop)]
struct Tested {
    alloc: Global,
    service: Option<Service<World<PlainStable>>>,
}

impl Subject for Tested {
    fn begin(&mut self, _section: &str) -> Result<(), AllocError> {
        self.service = None;
        Ok(())
    }

    fn answer(&mut self, row: &Row<'_>, answer: &mut String) -> Result<(), RowFault> {
        match &mut self.service {
            Some(service) => {
                let came = asked::ask(self.alloc, service, row)?;
                let text = again!(came.text(self.alloc))?;
                Ok(again!(answer.push_str(text.as_str()))?)
            }
            None => {
                self.service = Some(new_service(self.alloc, row)?);
                Ok(())
            }
        }
    }
}

/// The service of the row `setup SETUP`.
fn new_service(alloc: Global, row: &Row<'_>) -> Result<Service<World<PlainStable>>, RowFault> {
    if row.call != "setup" {
        return Err(RowFault::Unread);
    }
    match Setup::read(alloc, row.given.as_bytes()) {
        Ok(setup) => Ok(Service::over(World::in_memory(alloc, setup)?)),
        Err(SetupFault::Memory) => Err(RowFault::Memory),
        Err(SetupFault::Bad) => Err(RowFault::Unread),
    }
}
