//! The steps of one thread.
ghost use Rattle.std.specs.Prelude.{◌≡◌, ◌++◌, [], true, IfOk, None, option_to_list};
ghost use Rattle.run_model.specs.Openings.{opening_in};
ghost use Rattle.run_model.specs.declared.step.Step.{Step};
ghost use Rattle.run_model.specs.declared.step.Step.TheVariants.{Op as Operation};
ghost use Rattle.layer_contracts.specs.Stores.{fault_in};
ghost use Rattle.runtime.specs.Answering.{IsAnsweredFrom};
ghost use Rattle.runtime.specs.Faults.{fault_told};
ghost use Rattle.runtime.specs.Receipts.{IsKept};
ghost use Rattle.sessions.specs.Sessions.{AreInOrder, IsLastFault, IsLastSeen};
ghost use Rattle.stepping.specs.Beside.{is_waits};

use layer_contracts::{Forest, Guardian};
use run_model::{Answer, Name, ObjectId, Op, Opening, Step};
use runtime::{
    Answered, Gate, Known, OfRun, Patience, Receipt, Receipts, Runtime, Seen, StepFault,
};
use std::sync::Wait;
use stepping::{Fault, MakesOwnSteps};

/// Makes the steps of one thread, each behind the one before, and keeps the receipts of its events. Contracts see the
/// opening and these events. The session of an arm begins with the events that its starter had by then.
///
/// An operation that waits for other actions sleeps until the patience is over.
#[derive(Drop)]
pub struct Session<'a, K: OfRun, R: Forest, G: Guardian, P: Gate, U: Patience, H> {
    pub(crate) rt: &'a H,
    pub(crate) runtime: &'a Runtime<K, R, G, P>,
    pub(crate) opening: &'a Opening,
    pub(crate) patience: &'a U,
    pub(crate) receipts: Receipts<K>,
    /// The events that its starter had, if it is the session of an arm.
    pub(crate) since: Known<K>,
    /// What was seen of the run once a step was answered, if one was.
    pub(crate) last_seen: Option<Seen<K>>,
    /// Why the last step failed, if it did.
    pub(crate) last_fault: Option<StepFault>,
    pub(crate) ghost same: { opening_in opening.now ≡ K.opening },
    pub(crate) ghost ordered: { ∥ AreInOrder K.opening since receipts last_seen ∥₁ },
}

impl<'a, K: OfRun, R: Forest, G: Guardian, P: Gate, U: Patience, H: Wait> Session<
    'a,
    K,
    R,
    G,
    P,
    U,
    H,
> {
    /// Nothing has happened in the thread.
    pub fn new(
        rt: &'a H,
        runtime: &'a Runtime<K, R, G, P>,
        opening: &'a Opening,
        patience: &'a U,
    ) -> Session<'a, K, R, G, P, U, H>
        requires { opening_in opening.now ≡ K.opening }
        ensures opening { result.opening.now ≡ opening.now }
        ensures none { result.receipts ≡ [] }
        ensures first { result.since ≡ [] }
        ensures unseen { result.last_seen ≡ None }
        ensures no_fault { result.last_fault ≡ None }
    {
        Session {
            rt,
            runtime,
            opening,
            patience,
            receipts: runtime.no_receipts(),
            since: runtime.none_known(),
            last_seen: None,
            last_fault: None,
        }
    }

    /// The receipts of its events, those of its arms too.
    pub fn into_receipts(self) -> Receipts<K>
        ensures { result ≡ self.entry.receipts }
    {
        let Session { receipts, .. } = self;
        receipts
    }

    /// Why the last step failed, if it did. It tells drawn stamps from a store that failed.
    pub fn last_fault(&self) -> Option<StepFault>
        ensures { result ≡ self.now.last_fault }
    {
        self.last_fault
    }

    /// Makes a step behind the last one.
    fn step_behind(&mut self, step: &Step) -> Result<Answered<K>, StepFault>
        ensures answered { IfOk result (λ a. IsAnsweredFrom K.opening self.old.last_seen step.now
            a.answer a.receipt a.seen) }
        ensures seen { self.new.last_seen ≡ self.old.last_seen }
        ensures since { self.new.since ≡ self.old.since }
        ensures receipts { self.new.receipts ≡ self.old.receipts }
        ensures opening { self.new.opening.now ≡ self.old.opening.now }
    {
        match &mut self.last_seen {
            Some(seen) => self.runtime.step_behind(self.rt, seen, step),
            None => self.runtime.step(self.rt, step),
        }
    }

    /// Makes an operation behind the last step, and sleeps while it waits.
    fn wait_behind(
        &mut self,
        action: &Name,
        object: ObjectId,
        operation: &Op,
    ) -> Result<Answered<K>, StepFault>
        ensures answered { IfOk result (λ a. IsAnsweredFrom K.opening self.old.last_seen
            (Operation action.now object operation.now) a.answer a.receipt a.seen) }
        ensures waits { IfOk result (λ a. is_waits a.answer ≡ true → U.over) }
        ensures seen { self.new.last_seen ≡ self.old.last_seen }
        ensures since { self.new.since ≡ self.old.since }
        ensures receipts { self.new.receipts ≡ self.old.receipts }
        ensures opening { self.new.opening.now ≡ self.old.opening.now }
    {
        let (rt, patience) = (self.rt, self.patience);
        match &mut self.last_seen {
            Some(seen) => self
                .runtime
                .op_wait_behind(rt, seen, action, object, operation, patience),
            None => self
                .runtime
                .op_wait_while(rt, action, object, operation, &[], patience),
        }
    }

    /// Keeps what was seen after an answer that came behind the last step, and its receipt if it has one; or the fault.
    fn keep(&mut self, answered: Result<Answered<K>, StepFault>) -> Result<Answer, Fault>
        requires behind { (step : Step) × IfOk answered (λ a. IsAnsweredFrom K.opening
            self.old.last_seen step a.answer a.receipt a.seen) }
        ensures since { self.new.since ≡ self.old.since }
        ensures kept { IsKept answered result self.old.receipts self.new.receipts }
        ensures seen { IsLastSeen answered self.old.last_seen self.new.last_seen }
        ensures fault { IsLastFault (fault_in result) self.new.last_fault }
        ensures opening { self.new.opening.now ≡ self.old.opening.now }
    {
        match answered {
            Ok(answered) => {
                let Answered {
                    answer,
                    receipt,
                    seen,
                } = answered;
                keep_receipt(self.runtime, &mut self.receipts, receipt);
                self.last_seen = Some(seen);
                self.last_fault = None;
                Ok(answer)
            }
            Err(fault) => {
                self.last_fault = Some(fault);
                Err(told(fault))
            }
        }
    }
}

/// Keeps the receipt, if there is one.
fn keep_receipt<K: OfRun, R: Forest, G: Guardian, P: Gate>(
    runtime: &Runtime<K, R, G, P>,
    receipts: &mut Receipts<K>,
    receipt: Option<Receipt<K>>,
)
    ensures { receipts.new ≡ receipts.old ++ option_to_list receipt }
{
    if let Some(receipt) = receipt {
        runtime.add_receipt(receipts, receipt);
    }
}

/// The fault, to a caller that knows those of guardians alone.
fn told(fault: StepFault) -> Fault
    ensures { result ≡ fault_told fault }
{
    match fault {
        StepFault::Memory => Fault::Memory,
        StepFault::Stable | StepFault::UsedUp => Fault::Stable,
    }
}

/// A step leaves behind why it failed, if it did.
impl<'a, K: OfRun, R: Forest, G: Guardian, P: Gate, U: Patience, H: Wait> MakesOwnSteps
    for Session<'a, K, R, G, P, U, H> {
    ghost use Rattle.sessions.specs.Sessions.{IsLastFault, run_of};

    ghost run = { λ s. run_of s.opening.now s.since s.receipts s.last_seen };

    ghost sees = { λ own seen. Unit {0} };

    ghost leaves = { λ step fault old new. IsLastFault fault new.last_fault };

    ghost gives_up = { U.over };

    fn make_step(&mut self, step: &Step) -> Result<Answer, Fault> {
        let answered = self.step_behind(step);
        self.keep(answered)
    }

    fn operate(&mut self, action: &Name, object: ObjectId, operation: Op) -> Result<Answer, Fault> {
        let answered = self.wait_behind(action, object, &operation);
        self.keep(answered)
    }
}
