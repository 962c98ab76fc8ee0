//! Work of transactions, as a row spells it.
ghost use Rattle.std.specs.Prelude.{◌≡◌};

use crate::asked::operation;
use crate::reading::object;
use layer_contracts::Fault;
use rows::{Row, RowFault};
use service::{Begun, CallFault, MayPass, Obstacle, Transaction, Work};
use std::alloc::Global;
use stepping::MakesOwnSteps;

/// One or two items. `CALL OBJECT ..` is an operation, and `fail` gives an error. `at GUARDIAN ITEM` makes the item as a
/// handler call, and so does `try GUARDIAN ITEM`, which goes on after an error. `nest ITEM` makes it in a nested top
/// action, and goes on however that ends.
#[derive(Drop)]
pub(crate) struct Items<'a> {
    pub(crate) alloc: Global,
    pub(crate) text: &'a str,
}

/// Items that are made, but so often with an error behind them as if memory had run out.
#[derive(Drop)]
pub(crate) struct FailingAtFirst<'a> {
    pub(crate) failures: u32,
    pub(crate) items: Items<'a>,
}

/// One item that is an operation or an error.
#[derive(Drop)]
struct Item<'a> {
    alloc: Global,
    text: &'a str,
}

/// Why work gives an error.
#[derive(Drop)]
pub(crate) enum WorkFault {
    /// The row spells no work, or memory was refused as it was read.
    Row(RowFault),
    Call(CallFault),
    /// The row asks for an error.
    Asked,
}

impl From<RowFault> for WorkFault {
    fn from(fault: RowFault) -> WorkFault {
        WorkFault::Row(fault)
    }
}

impl From<CallFault> for WorkFault {
    fn from(fault: CallFault) -> WorkFault {
        WorkFault::Call(fault)
    }
}

impl MayPass for WorkFault {
    ghost use Rattle.std.specs.Prelude.{None};
    ghost use Rattle.service.specs.Retrying.{fault_obstacle};
    ghost use Rattle.service_rows.specs.declared.works.WorkFault.TheVariants.{Row, Call, Asked};

    ghost obstacle = { elim [ Row _ ↦ None | Call fault ↦ fault_obstacle fault | Asked ↦ None ] };

    fn obstacle(&self) -> Option<Obstacle> {
        match self {
            WorkFault::Call(fault) => fault.obstacle(),
            WorkFault::Row(_) | WorkFault::Asked => None,
        }
    }
}

impl<W: MakesOwnSteps + Drop> Work<W> for Items<'_> {
    type Value = ();

    type Error = WorkFault;

    fn run<B: Begun>(&mut self, tx: &mut Transaction<'_, W, B>) -> Result<(), WorkFault> {
        match self.text.split_once("; ") {
            None => make(self.alloc, tx, self.text),
            Some((first, second)) => {
                make(self.alloc, tx, first)?;
                make(self.alloc, tx, second)
            }
        }
    }
}

impl<W: MakesOwnSteps + Drop> Work<W> for FailingAtFirst<'_> {
    type Value = ();

    type Error = WorkFault;

    fn run<B: Begun>(&mut self, tx: &mut Transaction<'_, W, B>) -> Result<(), WorkFault> {
        self.items.run(tx)?;
        match self.failures.checked_sub(1) {
            None => Ok(()),
            Some(left) => {
                self.failures = left;
                Err(WorkFault::Call(CallFault::Failed(Fault::Memory)))
            }
        }
    }
}

impl<W: MakesOwnSteps + Drop> Work<W> for Item<'_> {
    type Value = ();

    type Error = WorkFault;

    fn run<B: Begun>(&mut self, tx: &mut Transaction<'_, W, B>) -> Result<(), WorkFault> {
        operate(self.alloc, tx, self.text)
    }
}

/// Makes an item.
fn make<W: MakesOwnSteps + Drop, B: Begun>(
    alloc: Global,
    tx: &mut Transaction<'_, W, B>,
    item: &str,
) -> Result<(), WorkFault>
    ensures same_service { tx.new.service.ghost_name ≡ tx.old.service.ghost_name }
    ensures same_action { tx.new.at.ghost_name ≡ tx.old.at.ghost_name }
{
    if let Some(given) = item.strip_prefix("at ") {
        return call(alloc, tx, given);
    }
    if let Some(given) = item.strip_prefix("try ") {
        let _undone = call(alloc, tx, given);
        return Ok(());
    }
    if let Some(text) = item.strip_prefix("nest ") {
        let _ended = tx.nested(alloc, &mut Item { alloc, text });
        return Ok(());
    }
    operate(alloc, tx, item)
}

/// Makes the item behind the number of a guardian as a handler call there.
fn call<W: MakesOwnSteps + Drop, B: Begun>(
    alloc: Global,
    tx: &mut Transaction<'_, W, B>,
    given: &str,
) -> Result<(), WorkFault>
    ensures same_service { tx.new.service.ghost_name ≡ tx.old.service.ghost_name }
    ensures same_action { tx.new.at.ghost_name ≡ tx.old.at.ghost_name }
{
    let (guardian, text) = given.split_once(' ').ok_or(RowFault::Unread)?;
    let guardian = guardian.parse().map_err(|_| RowFault::Unread)?;
    tx.call(guardian, &mut Item { alloc, text })
}

/// Makes an operation, or gives the error that is asked for.
fn operate<W: MakesOwnSteps + Drop, B: Begun>(
    alloc: Global,
    tx: &mut Transaction<'_, W, B>,
    item: &str,
) -> Result<(), WorkFault>
    ensures same_service { tx.new.service.ghost_name ≡ tx.old.service.ghost_name }
    ensures same_action { tx.new.at.ghost_name ≡ tx.old.at.ghost_name }
{
    let Some((call, given)) = item.split_once(' ') else {
        return Err(WorkFault::Asked);
    };
    let row = Row {
        call,
        given,
        answer: "",
    };
    let mut words = row.words();
    let at = object(&mut words)?;
    tx.operate(at, operation(alloc, call, words)?)?;
    Ok(())
}
