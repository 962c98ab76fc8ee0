ghost use Rattle.std.specs.Prelude.{◌≡◌, ◌≢◌, List, ◌<◌, ◌≤◌, length, slice_set, true, Bool, Vec, Contains, IfOk, IsTrue, ◌↔◌};
ghost use Rattle.std.specs.declared.alloc.Global.{Global};
ghost use Rattle.script_model.specs.Reaching.{called, called_by, Reaches, handler_place};
ghost use Rattle.script_model.specs.declared.checked.Handler.{Handler};
ghost use Rattle.script.specs.Marks.{marked_all, called_in_arm, called_in_arms, call_rows, rows_of, AddsRow, Spreads, IsAsked};

use script_model::{Arm, Checked, FaultKind, Handler, ScriptFault, Statement};
use script_parts::Place;
use std::alloc::{AllocError, Global};

/// Marks the handler of this number.
fn mark(number: usize, marks: &mut [bool])
    ensures { marks.new ≡ slice_set marks.old number true }
{
    if number < marks.len() {
        marks[number] = true;
    }
}

/// Marks each handler that the statements call.
#[cycle(mark)]
fn mark_calls(statements: &[Statement], marks: &mut [bool])
    ensures { marks.new ≡ marked_all (called statements.now) marks.old }
{
    for statement in statements {
        mark_statement(statement, marks);
    }
}

#[cycle(mark)]
fn mark_statement(statement: &Statement, marks: &mut [bool])
    ensures { marks.new ≡ marked_all (called_by statement.now) marks.old }
{
    match statement {
        Statement::Op(_, signals) => {
            if let Some(signals) = signals {
                mark_calls(signals.as_slice(), marks);
            }
        }
        Statement::Call(call, signals) => {
            mark(call.handler as usize, marks);
            if let Some(signals) = signals {
                mark_calls(signals.as_slice(), marks);
            }
        }
        Statement::Coenter(arms) => mark_arms(arms.as_slice(), marks),
        Statement::TopAction(body, signals) => {
            mark_calls(body.as_slice(), marks);
            mark_calls(signals.as_slice(), marks);
        }
        Statement::If(_, first, second) => {
            mark_calls(first.as_slice(), marks);
            mark_calls(second.as_slice(), marks);
        }
        Statement::Repeat(_, body) => mark_calls(body.as_slice(), marks),
        Statement::Abort | Statement::Return(_) => {}
    }
}

#[cycle(mark)]
fn mark_arms(arms: &[Arm], marks: &mut [bool])
    ensures { marks.new ≡ marked_all (called_in_arms arms.now) marks.old }
{
    for arm in arms {
        mark_arm(arm, marks);
    }
}

#[cycle(mark)]
fn mark_arm(arm: &Arm, marks: &mut [bool])
    ensures { marks.new ≡ marked_all (called_in_arm arm.now) marks.old }
{
    match arm {
        Arm::Sub(body) | Arm::Top(body) => mark_calls(body.as_slice(), marks),
    }
}

/// For each handler, which handlers it calls.
fn call_table(alloc: Global, handlers: &[Handler]) -> Result<Vec<Vec<bool>>, AllocError>
    ensures { IfOk result (λ table. rows_of table.items ≡ call_rows handlers.now) }
{
    let mut table = Vec::with_capacity(alloc, handlers.len())?;
    for handler in handlers {
        let mut called = vec![in alloc; false; handlers.len()]?;
        mark_calls(handler.body.as_slice(), &mut called);
        table.push(called)?;
    }
    Ok(table)
}

/// Marks what the row marks as well, and says whether there was more to mark.
fn add_row(row: &[bool], marks: &mut [bool]) -> bool
    requires { length row.now ≡ length marks.old }
    ensures { AddsRow row.now marks.old marks.new result }
{
    let mut grew = false;
    for (number, called) in row.iter().enumerate() {
        if *called && !marks[number] {
            marks[number] = true;
            grew = true;
        }
    }
    grew
}

/// Marks what the marked handlers call, and says whether there was more to mark.
fn spread(table: &[Vec<bool>], marks: &mut [bool]) -> bool
    requires square { (row : Vec Bool Global) → Contains table.now row
        → length row.items ≡ length table.now }
    requires as_many { length table.now ≡ length marks.old }
    ensures { Spreads (rows_of table.now) marks.old marks.new result }
{
    let mut grew = false;
    for (number, row) in table.iter().enumerate() {
        if marks[number] && add_row(row, marks) {
            grew = true;
        }
    }
    grew
}

/// Whether the handler of this number can reach itself by calls.
fn reaches_itself(alloc: Global, table: &[Vec<bool>], start: usize) -> Result<bool, AllocError>
    requires within { start < length table.now }
    requires square { (row : Vec Bool Global) → Contains table.now row
        → length row.items ≡ length table.now }
    ensures { (hs : List Handler) → rows_of table.now ≡ call_rows hs
        → IfOk result (λ yes. IsTrue yes ↔ Reaches hs start start) }
{
    let mut reached = vec![in alloc; false; table.len()]?;
    add_row(&table[start], &mut reached);
    while spread(table, &mut reached) {}
    Ok(reached[start])
}

/// Where a handler stands in the document.
fn fault_at(alloc: Global, handler: &Handler) -> ScriptFault
    requires { 1 ≤ handler.now.guardian }
    ensures { result ≢ ScriptFault.Memory
        → result ≡ ScriptFault.Bad FaultKind.Recursion (handler_place handler.now) }
{
    let root = Place::Root;
    let guardians = root.member("guardians");
    let guardian = guardians.item(handler.guardian as usize - 1);
    let handlers = guardian.member("handlers");
    let place = handlers.member(handler.name.as_str());
    place.fault(alloc, FaultKind::Recursion)
}

/// Asks that no handler can reach itself by calls.
pub(crate) fn ask_endings(alloc: Global, script: &Checked) -> Result<(), ScriptFault>
    requires { (h : Handler) → Contains script.now.handlers h → 1 ≤ h.guardian }
    ensures { IsAsked script.now result }
{
    let handlers = script.handlers.as_slice();
    let table = call_table(alloc, handlers)?;
    for (number, handler) in handlers.iter().enumerate() {
        if reaches_itself(alloc, &table, number)? {
            return Err(fault_at(alloc, handler));
        }
    }
    Ok(())
}
