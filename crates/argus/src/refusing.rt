//! What the program says where it runs no command.

use argus_engine::Fault;
use command_line::request::CommandFault;
use std::process::ExitCode;

/// The exit status of a fault and of a mistake in the command line.
pub const FAULT: u8 = 2;

/// Prints what clap says.
pub fn explain(rt: &HostRuntime, fault: &CommandFault) -> Result<ExitCode, Fault> {
    let CommandFault::Said(error) = fault else {
        return Ok(ExitCode::from(FAULT));
    };
    if error.kind() == clap::error::ErrorKind::OutOfMemory {
        return Err(Fault::Memory);
    }
    if error.print(rt).is_err() {
        return Err(Fault::Output);
    }
    Ok(match error.exit_code() {
        0 => ExitCode::SUCCESS,
        _ => ExitCode::from(FAULT),
    })
}

/// Writes why nothing was run, to standard output.
pub fn refuse(rt: &HostRuntime, why: &str) -> Result<ExitCode, Fault> {
    match println!(rt; "{why}") {
        Ok(()) => Ok(ExitCode::FAILURE),
        Err(_) => Err(Fault::Output),
    }
}
