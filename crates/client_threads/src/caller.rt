//! The steps of one thread.
ghost use Rattle.std.specs.Prelude.{◌≡◌, ◌++◌, [], ◌∷◌, IfOk, Some, length, take};
ghost use Rattle.activities.specs.Apart.{AllRunnable, begun_names, ended_name, ended_names};
ghost use Rattle.activities.specs.Making.{AreOwn, CommitOnly, Makes};
ghost use Rattle.client_threads.specs.Callers.{only, run_of};
ghost use Rattle.runtime.specs.Faults.{fault_told};
ghost use Rattle.runtime.specs.Receipts.{IsKept, events_of};
ghost use Rattle.runtime.specs.declared.fault.StepFault.TheVariants.{UsedUp};

use crate::calls::OverRuntime;
use crate::coenter::{Coenter, Coenters, is_called_off, shared};
use crate::handed::{DoneArm, Handed, OfScript};
use action_names::{Name, Names};
use activities::{ActivitySteps, BegunArm, EndedArm};
use atomic_types::Op;
use crossbeam_channel::bounded;
use layer_contracts::{Forest, Guardian};
use run_model::{Answer, ObjectId, Step};
use runtime::{Answered, Gate, OfRun, Receipts, StepFault};
use std::alloc::{AllocError, Global};
use std::sync::{Arc, Wait};
use stepping::Fault;

/// Makes the steps of one thread, and keeps the receipts of its events. Contracts see the opening and these events.
#[derive(Drop)]
pub(crate) struct Caller<'a, K: OfRun, S: OfScript, R: Forest, G: Guardian, P: Gate, H> {
    calls: &'a OverRuntime<'a, K, S, R, G, P, H>,
    receipts: Receipts<K>,
    coenters: Coenters,
    has_arms_apart: bool,
    /// Why a step failed first, in this thread or in its arms, if one did. The thread ends with its first fault.
    first_fault: Option<StepFault>,
}

impl<'a, K: OfRun, S: OfScript, R: Forest, G: Guardian, P: Gate, H: Wait> Caller<
    'a,
    K,
    S,
    R,
    G,
    P,
    H,
> {
    /// Nothing has happened in the thread, which runs a client.
    pub(crate) fn of_client(
        calls: &'a OverRuntime<'a, K, S, R, G, P, H>,
        has_arms_apart: bool,
    ) -> Caller<'a, K, S, R, G, P, H>
        ensures calls { result.calls.now ≡ calls.now }
        ensures none { result.receipts ≡ [] }
    {
        Caller {
            calls,
            receipts: calls.runtime.no_receipts(),
            coenters: Vec::new(calls.alloc),
            has_arms_apart,
            first_fault: None,
        }
    }

    /// Nothing has happened in the thread, which runs an arm of the last of these `coenter`s.
    pub(crate) fn of_arm(
        calls: &'a OverRuntime<'a, K, S, R, G, P, H>,
        coenters: Coenters,
    ) -> Caller<'a, K, S, R, G, P, H>
        ensures calls { result.calls.now ≡ calls.now }
        ensures none { result.receipts ≡ [] }
    {
        Caller {
            calls,
            receipts: calls.runtime.no_receipts(),
            coenters,
            has_arms_apart: true,
            first_fault: None,
        }
    }

    /// The arm, which the thread ran, with the receipts of its events.
    pub(crate) fn into_done(self, place: usize, arm: EndedArm) -> DoneArm<K>
        requires own { AreOwn (ended_name arm ∷ []) (events_of self.receipts) }
        requires commits { CommitOnly (ended_name arm ∷ []) (events_of self.receipts) }
    {
        let Caller {
            calls: _,
            receipts,
            coenters: _,
            has_arms_apart: _,
            first_fault,
        } = self;
        DoneArm {
            place,
            arm,
            receipts,
            first_fault,
        }
    }

    /// The receipts of its events.
    pub(crate) fn into_receipts(self) -> Receipts<K>
        ensures { result ≡ self.entry.receipts }
    {
        let Caller {
            calls: _,
            receipts,
            coenters: _,
            has_arms_apart: _,
            first_fault: _,
        } = self;
        receipts
    }

    /// Of a thread that ended with a fault, what that was: drawn stamps are told from a store that failed.
    pub(crate) fn fault_of(&self, fault: Fault) -> StepFault
        ensures told { fault_told result ≡ fault }
        ensures used_up { result ≡ UsedUp → self.now.first_fault ≡ Some UsedUp }
    {
        match (fault, self.first_fault) {
            (Fault::Memory, _) => StepFault::Memory,
            (Fault::Stable, Some(StepFault::UsedUp)) => StepFault::UsedUp,
            (Fault::Stable, _) => StepFault::Stable,
        }
    }

    /// Keeps the receipt of an answer, if it has one; or the fault, if it is the first.
    fn keep(&mut self, answered: Result<Answered<K>, StepFault>) -> Result<Answer, Fault>
        ensures calls { self.new.calls.now ≡ self.old.calls.now }
        ensures kept { IsKept answered result self.old.receipts self.new.receipts }
    {
        match answered {
            Ok(answered) => {
                let Answered {
                    answer,
                    receipt,
                    seen: _,
                } = answered;
                if let Some(receipt) = receipt {
                    self.calls.watch.note_step();
                    self.calls.runtime.add_receipt(&mut self.receipts, receipt);
                }
                Ok(answer)
            }
            Err(fault) => {
                self.first_fault = self.first_fault.or(Some(fault));
                Err(told(fault))
            }
        }
    }

    /// Hands arms over to be started, waits until those that were have ended, and gives them in their order.
    fn ran(&self, arms: Vec<BegunArm>) -> Result<Vec<DoneArm<K>>, AllocError>
        requires { AllRunnable S.script arms.items }
    {
        let alloc = self.calls.alloc;
        let count = arms.len();
        let room = Vec::with_capacity(alloc, count)?;
        let (to, ended) = bounded(alloc, count)?;
        let coenters = self.coenters_within()?;
        self.calls.hand_over(Handed::new(arms, coenters, to));
        let mut done = self.calls.all_ended(ended, room)?;
        done.sort_unstable_by_key(|arm| arm.place);
        Ok(done)
    }

    /// Its `coenter`s, and a new one within them.
    fn coenters_within(&self) -> Result<Coenters, AllocError> {
        let alloc = self.calls.alloc;
        let mut coenters = shared(alloc, self.coenters.as_slice())?;
        let own = Arc::new(alloc, Coenter::new(alloc)).map_err(AllocError::from)?;
        coenters.push(own).map_err(AllocError::from)?;
        Ok(coenters)
    }

    /// Takes arms back that have ended, with the receipts of their events: those with the first so many of the names.
    fn take_back(
        &mut self,
        names: &Names,
        done: Vec<DoneArm<K>>,
    ) -> Result<Vec<EndedArm>, AllocError>
        ensures makes { Makes names.now names.now
            (run_of self.old.calls.now.opening.now self.old.receipts)
            (run_of self.new.calls.now.opening.now self.new.receipts) }
        ensures ended { IfOk result (λ ended. ended_names ended.items
            ≡ take (length ended.items) names.now) }
    {
        let mut ended = Vec::with_capacity(self.calls.alloc, names.len())?;
        let mut done = done.into_iter();
        for name in names.as_slice() {
            match done.next() {
                Some(arm) if arm.arm.name() == name => {
                    ended.push_reserved(self.learn(arm));
                }
                _ => break,
            }
        }
        Ok(ended)
    }

    /// Takes the receipts of an arm that has ended.
    fn learn(&mut self, arm: DoneArm<K>) -> EndedArm
        ensures calls { self.new.calls.now ≡ self.old.calls.now }
        ensures arm { result ≡ arm.arm }
        ensures receipts { self.new.receipts ≡ self.old.receipts ++ arm.receipts }
    {
        let DoneArm {
            place: _,
            arm,
            receipts,
            first_fault,
        } = arm;
        self.calls
            .runtime
            .join_receipts(&mut self.receipts, receipts);
        self.first_fault = self.first_fault.or(first_fault);
        arm
    }
}

impl<'a, K: OfRun, S: OfScript, R: Forest, G: Guardian, P: Gate, H: Wait> ActivitySteps
    for Caller<'a, K, S, R, G, P, H> {
    ghost use Rattle.client_threads.specs.Callers.{only, run_of};

    ghost run = { λ c. run_of c.calls.now.opening.now c.receipts };

    ghost alone = { ⊥ };

    ghost scripts = { only S.script };

    ghost fails = { λ fault. Unit {0} };

    fn make_step(&mut self, step: &Step) -> Result<Answer, Fault> {
        let answered = self.calls.step(step);
        self.keep(answered)
    }

    fn operate(
        &mut self,
        action: &Name,
        object: ObjectId,
        operation: Op,
        starters: &[Name],
    ) -> Result<Answer, Fault> {
        let answered = self
            .calls
            .op_wait(action, object, &operation, starters, &self.coenters);
        self.keep(answered)
    }

    fn has_arms_apart(&self) -> bool {
        self.has_arms_apart
    }

    fn run_arms(&mut self, arms: Vec<BegunArm>) -> Result<Vec<EndedArm>, Fault> {
        let names = names_of(self.calls.alloc, &arms)?;
        let done = self.ran(arms)?;
        Ok(self.take_back(&names, done)?)
    }

    fn is_called_off(&self) -> bool {
        self.calls.watch.is_stopped() || is_called_off(&self.coenters)
    }

    fn claim(&mut self) -> bool {
        match self.coenters.last() {
            Some(own) => self.calls.claim(own),
            None => true,
        }
    }

    fn settle(&mut self, has_left: bool) {
        if let Some(own) = self.coenters.last() {
            self.calls.settle(own, has_left);
        }
    }
}

/// The fault, to a caller that knows those of guardians alone.
fn told(fault: StepFault) -> Fault
    ensures { result ≡ fault_told fault }
{
    match fault {
        StepFault::Memory => Fault::Memory,
        StepFault::Stable | StepFault::UsedUp => Fault::Stable,
    }
}

fn names_of(alloc: Global, arms: &[BegunArm]) -> Result<Names, AllocError>
    ensures { IfOk result (λ names. names ≡ begun_names arms.now) }
{
    let mut names = Vec::with_capacity(alloc, arms.len())?;
    for arm in arms {
        names.push(arm.name().copy()?)?;
    }
    Ok(Names::from_vec(names))
}
