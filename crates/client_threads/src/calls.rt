//! What a thread that makes steps asks of the runtime, and of the thread that starts arms.
ghost use Rattle.std.specs.Prelude.{◌≡◌, IfOk};
ghost use Rattle.run_model.specs.declared.step.Step.TheVariants.{Op as Operation};
ghost use Rattle.run_model.specs.Openings.{opening_in};
ghost use Rattle.locked_run.specs.Acting.{IsAnswered};

use crate::coenter::{Coenter, Coenters, UntilLeft, is_awake, may_sleep};
use crate::handed::{DoneArm, Handed, OfScript, Order};
use crate::watch::Watch;
use action_names::Name;
use atomic_types::Op;
use crossbeam_channel::{Receiver, Sender};
use layer_contracts::{Forest, Guardian};
use run_model::{ObjectId, Opening, Step};
use runtime::{Answered, Gate, OfRun, Runtime, StepFault};
use std::alloc::{AllocError, Global};
use std::sync::Wait;

/// A runtime, the handle by which threads wait and are started, and who starts the threads of arms.
#[derive(Drop)]
pub(crate) struct OverRuntime<'a, K: OfRun, S: OfScript, R: Forest, G: Guardian, P: Gate, H> {
    pub(crate) alloc: Global,
    pub(crate) rt: &'a H,
    pub(crate) runtime: &'a Runtime<K, R, G, P>,
    pub(crate) opening: &'a Opening,
    pub(crate) orders: &'a Sender<Order<K, S>>,
    pub(crate) watch: &'a Watch,
    pub(crate) ghost same: { opening_in opening.now ≡ K.opening },
}

impl<'a, K: OfRun, S: OfScript, R: Forest, G: Guardian, P: Gate, H: Wait> OverRuntime<
    'a,
    K,
    S,
    R,
    G,
    P,
    H,
> {
    pub(crate) fn step(&self, step: &Step) -> Result<Answered<K>, StepFault>
        ensures { IfOk result (λ a. IsAnswered (opening_in self.now.opening.now) step.now
            a.answer a.receipt a.seen) }
    {
        self.runtime.step(self.rt, step)
    }

    /// Makes an operation of an arm of these `coenter`s, or of a client. It sleeps while it waits, until one of the
    /// `coenter`s is left or all are to abort.
    pub(crate) fn op_wait(
        &self,
        action: &Name,
        object: ObjectId,
        operation: &Op,
        starters: &[Name],
        coenters: &Coenters,
    ) -> Result<Answered<K>, StepFault>
        ensures { IfOk result (λ a. IsAnswered (opening_in self.now.opening.now)
            (Operation action.now object operation.now) a.answer a.receipt a.seen) }
    {
        let coenters = coenters.as_slice();
        may_sleep(self.rt, coenters, object.guardian)?;
        let patience = UntilLeft {
            coenters,
            watch: self.watch,
        };
        let answered = self
            .runtime
            .op_wait_while(self.rt, action, object, operation, starters, &patience);
        is_awake(self.rt, coenters, object.guardian);
        answered
    }

    /// Hands arms to the thread that starts arms.
    pub(crate) fn hand_over(&self, arms: Handed<K, S>) {
        // who starts arms is there as long as clients run, and its channel never grows
        let _ = self.orders.send(self.rt, Order::Start(arms));
    }

    /// Waits until each arm that was started has ended, and puts them where there is room for them.
    pub(crate) fn all_ended(
        &self,
        ended: Receiver<DoneArm<K>>,
        room: Vec<DoneArm<K>>,
    ) -> Result<Vec<DoneArm<K>>, AllocError> {
        let mut all = room;
        let mut fault = Ok(());
        for arm in ended.iter(self.rt) {
            fault = fault.and(all.push(arm).map_err(AllocError::from));
        }
        fault?;
        Ok(all)
    }

    /// Gives an arm that has ended to who waits for it.
    pub(crate) fn give_back(&self, to: &Sender<DoneArm<K>>, arm: DoneArm<K>) {
        // who waits for it is gone only after a fault, which the run answers
        let _ = to.send(self.rt, arm);
    }

    pub(crate) fn claim(&self, coenter: &Coenter) -> bool {
        coenter.claim(self.rt)
    }

    pub(crate) fn settle(&self, coenter: &Coenter, has_left: bool) {
        coenter.settle(self.rt, has_left);
        if has_left {
            coenter.each_asleep(self.rt, |guardian| self.runtime.wake(self.rt, guardian));
        }
    }
}
