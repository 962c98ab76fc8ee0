//! What steps ask of a guardian.
ghost use Rattle.std.specs.Prelude.{◌≡◌, true, IsErrOf, IsFalse};
ghost use Rattle.layer_contracts.specs.Stores.{CountsFailure, LeavesStore, fault_in};
ghost use Rattle.layer_contracts.specs.declared.guardian.Fault.TheVariants.{Stable};
ghost use Rattle.layer_contracts.specs.Messages.{is_operation};
ghost use Rattle.volatile_state.specs.Plans.{FitsPlan, FollowsWhere, IsPlannedWhere};
ghost use Rattle.guardian.specs.Guardians.{IsPlannedHere, IsRecordedAt, WhereverPlanned};
ghost use Rattle.guardian.specs.Writes.{fault_by};

use crate::guardian::Guardian;
use crate::records::recorded_in;
use crate::writes::Write;
use layer_contracts::{Draw, EventRef, Fault, Lineage, Message};
use run_model::{Answer, Name, Names, ObjectId, Op, Opening, Step};
use stable_store::{Stable, StoreFault};
use std::alloc::{AllocError, Global};
use volatile_state::{Memory, Plan};

impl<S: Stable> layer_contracts::Guardian for Guardian<S> {
    ghost use Rattle.volatile_state.specs.Plans.{FitsPlan, IsPlanOf};
    ghost use Rattle.guardian.specs.Guardians.{IsWhole};

    ghost stands = { λ g s. IsWhole S.seen g s };

    ghost stored = { λ g. S.seen g.store };

    ghost is_planned = { λ g s news. IsPlanOf g.plan g.memory s news };

    ghost fits = { λ g. FitsPlan g.plan g.memory };

    fn opening(&self) -> &Opening {
        self.memory.opening()
    }

    fn number(&self) -> u32 {
        self.memory.number()
    }

    fn is_there(&self, action: &Name) -> bool {
        self.memory.is_there(action)
    }

    fn is_done(&self, action: &Name) -> bool {
        self.memory.is_done(action)
    }

    fn is_busy(&self, action: &Name) -> bool {
        self.memory.is_busy(action)
    }

    fn is_down(&self) -> bool {
        self.memory.is_down()
    }

    fn crashes(&self) -> u64 {
        self.memory.crashes()
    }

    fn is_gone(&self, action: &Name) -> bool {
        self.memory.is_gone(action)
    }

    fn is_orphan(&self, action: &Name) -> Result<bool, AllocError> {
        self.memory.is_orphan(action)
    }

    fn was_told(&self, action: &Name) -> bool {
        self.memory.was_told(action)
    }

    fn told_count(&self, action: &Name, committed: bool) -> Result<u64, AllocError> {
        self.memory.told_count(action, committed)
    }

    fn operated(
        &self,
        action: &Name,
        object: ObjectId,
        operation: &Op,
    ) -> Result<Answer, AllocError> {
        self.memory.operated(action, object, operation)
    }

    fn unsent_aborts(&self, to: &Self) -> Result<Names, AllocError> {
        self.memory.unsent_aborts(&to.memory)
    }

    fn unsent_counts(&self, to: &Self) -> Result<Vec<(u32, u64)>, AllocError> {
        self.memory.unsent_counts(&to.memory)
    }

    fn plan<L: Lineage>(
        &mut self,
        lineage: &L,
        event: &EventRef<'_>,
        message: &mut Message,
    ) -> Result<(), AllocError> {
        self.memory.plan(lineage, event, message, &mut self.plan)
    }

    fn plan_turn(&mut self, event: &EventRef<'_>) -> Result<(), AllocError> {
        self.memory.plan_turn(event, &mut self.plan)
    }

    fn operate<D: Draw>(&mut self, event: &EventRef<'_>, stamp: &mut D) -> Result<u64, AllocError> {
        self.memory.operate(event, stamp)
    }

    fn carry_out<D: Draw>(&mut self, event: &EventRef<'_>, stamp: &mut D) -> Result<u64, Fault> {
        if let Err(fault) = write(self.alloc, &self.memory, &self.plan, &mut self.store, event) {
            return Err(fault);
        }
        let drawn = stamp.draw();
        keep(&mut self.memory, &mut self.plan, &self.store, event, drawn);
        Ok(drawn)
    }

    fn install(&mut self, event: &EventRef<'_>, stamp: u64) {
        keep(&mut self.memory, &mut self.plan, &self.store, event, stamp);
    }
}

// The memory follows an event that is no operation, once the store holds what it asks for. A crash asks for nothing.
fn keep<S: Stable>(
    memory: &mut Memory,
    plan: &mut Plan,
    store: &S,
    event: &EventRef<'_>,
    stamp: u64,
)
    requires fits { FitsPlan plan.old memory.old }
    requires planned { IsPlannedWhere (IsRecordedAt event.now.step (S.seen store.now).content)
        plan.old memory.old event.now }
    requires other { IsFalse (is_operation event.now.step) }
    requires found { (S.seen store.now).holds_content ≡ true }
    ensures { FollowsWhere (IsRecordedAt event.now.step (S.seen store.now).content) plan.old
        memory.old event.now stamp memory.new }
{
    match event.step {
        Step::Crash(_) => memory.crash(plan, event, stamp, &recorded_in(store)),
        _ => memory.keep(plan, event, stamp),
    }
}

// Writes to the store what the event asks for, before the memory follows it.
fn write<S: Stable>(
    alloc: Global,
    memory: &Memory,
    plan: &Plan,
    store: &mut S,
    event: &EventRef<'_>,
) -> Result<(), Fault>
    requires { IsPlannedHere S.seen
        (record { memory = memory.now; plan = plan.now; store = store.old }) event.now }
    ensures leaves { WhereverPlanned S.seen
        (record { memory = memory.now; plan = plan.now; store = store.old }) event.now
        (λ s news. LeavesStore s news (S.seen store.old) (S.seen store.new) (fault_in result)) }
    ensures cause { IsErrOf result Stable → CountsFailure (S.seen store.old) (S.seen store.new) }
{
    let write = Write::of(memory, plan, store, event)?;
    match write.perform(alloc, store) {
        Ok(()) => Ok(()),
        Err(fault) => Err(fault_of(fault)),
    }
}

fn fault_of(fault: StoreFault) -> Fault
    ensures { result ≡ fault_by fault }
{
    match fault {
        StoreFault::Memory => Fault::Memory,
        StoreFault::Failed | StoreFault::NotOurs => Fault::Stable,
    }
}
