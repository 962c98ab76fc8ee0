//! The runtime that all threads of a service share.
ghost use Rattle.std.specs.Prelude.{◌≡◌, ◌⊎◌, ◌≤◌, ◌++◌, ◌∷◌, [], false, IfErr, IfOk, IfSome, length, vec_capacity, vec_len};
ghost use Rattle.run_model.specs.Openings.{opening_in};
ghost use Rattle.run_model.specs.Runs.{IsRun};
ghost use Rattle.run_model.specs.declared.step.Step.TheVariants.{Op};
ghost use Rattle.world_steps.specs.Standings.{IsWorld};
ghost use Rattle.locked_run.specs.Acting.{IsAnswered};
ghost use Rattle.locked_run.specs.Behind.{IsBehind};
ghost use Rattle.locked_run.specs.Closing.{IsClosed, IsUnclosed};
ghost use Rattle.locked_run.specs.Parts.{AreOfOne};
ghost use Rattle.locked_run.specs.Receipts.{StandIn};
ghost use Rattle.runtime.specs.Answering.{IsAnsweredBehind, IsAnsweredFrom};
ghost use Rattle.runtime.specs.Waiting.{sleeps};

use crate::answered::Answered;
use crate::behind::{guardian_behind, one_behind, registry_behind, two_behind};
use crate::fault::StepFault;
use crate::gate::{Gate, action_of};
use crate::patience::{Endless, Patience};
use crate::place::Place;
use crate::waiting::sleeps;
use layer_contracts::{Forest, Guardian};
use locked_run::{
    CloseFault, Ends, Held, HeldRegistry, Known, OfRun, Receipt, Receipts, Seen, Shared, Start,
    begin, close_all,
};
use run_model::{Name, ObjectId, Op, Step};
use std::alloc::{AllocError, Global};
use std::sync::{Mutex, Wait};
use world_steps::NamedGuardians;

/// Guardians and the registry of one run, each under its lock. All threads of a service share it.
pub struct Runtime<K: OfRun, R: Forest, G: Guardian, P: Gate> {
    alloc: Global,
    shared: Shared<K>,
    gate: P,
    registry: Mutex<HeldRegistry<K, R>>,
    places: Vec<Place<K, G>>,
    ghost all: { length places.items ≡ length K.opening.setup },
}

impl<K: OfRun, R: Forest, G: Guardian, P: Gate> Runtime<K, R, G, P> {
    /// The runtime of a system to which nothing has happened. A caller names the run: it calls a generic function of
    /// its own with `Brand`. Fails only if memory runs out, and then nothing of it is kept.
    #[tactic(auto, using(locked_run::proofs::Begun::held_count))]
    pub fn new(
        alloc: Global,
        start: Start,
        registry: R,
        guardians: Vec<G>,
        gate: P,
    ) -> Result<Runtime<K, R, G, P>, AllocError>
        requires table { start.run.table.shared.table_id ≡ K.table }
        requires opening { opening_in start.run.table.shared.key ≡ K.opening }
        requires world { IsWorld G.stands G.stored (R.stands registry) K.opening
            [] guardians.items }
    {
        let (shared, registry, held) = match begin(alloc, start, registry, guardians) {
            Ok(begun) => begun,
            Err((refused, _, _)) => return Err(refused),
        };
        let room = Vec::with_capacity(alloc, held.len())?;
        Ok(Runtime {
            alloc,
            shared,
            gate,
            registry: Mutex::new(registry),
            places: placed(held, room),
        })
    }

    /// Makes one step. The answer is that of the step at the run of all threads, and comes with what was seen of that
    /// run. An accepted step has a receipt too, and wakes the operations that wait at the guardians that it names.
    /// After an error all stand where they stood.
    pub fn step<H: Wait>(&self, rt: &H, step: &Step) -> Result<Answered<K>, StepFault>
        ensures { IfOk result (λ a. IsAnswered K.opening step.now a.answer a.receipt a.seen) }
    {
        self.until_made(rt, None, step)
    }

    /// Makes one step behind what was seen, as `step`: the run at which it is answered goes on from there.
    pub fn step_behind<H: Wait>(
        &self,
        rt: &H,
        earlier: &mut Seen<K>,
        step: &Step,
    ) -> Result<Answered<K>, StepFault>
        ensures answered { IfOk result
            (λ a. IsAnsweredBehind K.opening earlier.old step.now a.answer a.receipt a.seen) }
        ensures same { earlier.new ≡ earlier.old }
    {
        let copy = earlier.copy(&self.shared);
        self.until_made(rt, Some(copy), step)
    }

    /// Makes an operation of the action, as `step`. While it has to wait it sleeps, and is tried again after each
    /// accepted step that names its guardian. It is answered that it waits only if it waits for one of the starters or
    /// for an ancestor of one.
    pub fn op_wait<H: Wait>(
        &self,
        rt: &H,
        action: &Name,
        object: ObjectId,
        operation: &Op,
        starters: &[Name],
    ) -> Result<Answered<K>, StepFault>
        ensures answered { IfOk result
            (λ a. IsAnswered K.opening (Op action.now object operation.now)
            a.answer a.receipt a.seen) }
        ensures waits { IfOk result (λ a. sleeps a.answer starters.now ≡ false) }
    {
        self.op_wait_while(rt, action, object, operation, starters, &Endless)
    }

    /// Makes an operation of the action, as `op_wait`, but only until the patience is over: then it is answered that
    /// it waits. Who ends the patience of an operation that sleeps has to `wake` the guardian that it names.
    pub fn op_wait_while<H: Wait, U: Patience>(
        &self,
        rt: &H,
        action: &Name,
        object: ObjectId,
        operation: &Op,
        starters: &[Name],
        patience: &U,
    ) -> Result<Answered<K>, StepFault>
        ensures answered { IfOk result
            (λ a. IsAnswered K.opening (Op action.now object operation.now)
            a.answer a.receipt a.seen) }
        ensures waits { IfOk result (λ a. (sleeps a.answer starters.now ≡ false) ⊎ U.over) }
    {
        let step = Step::Op(action.copy()?, object, operation.copy()?);
        self.until_answered(rt, None, &step, starters, patience)
    }

    /// Makes an operation of the action behind what was seen, as `op_wait_while` with no starters: the run at which it
    /// is answered goes on from there.
    pub fn op_wait_behind<H: Wait, U: Patience>(
        &self,
        rt: &H,
        earlier: &mut Seen<K>,
        action: &Name,
        object: ObjectId,
        operation: &Op,
        patience: &U,
    ) -> Result<Answered<K>, StepFault>
        ensures answered { IfOk result (λ a. IsAnsweredBehind K.opening earlier.old
            (Op action.now object operation.now) a.answer a.receipt a.seen) }
        ensures waits { IfOk result (λ a. (sleeps a.answer [] ≡ false) ⊎ U.over) }
        ensures same { earlier.new ≡ earlier.old }
    {
        let operation = operation.copy()?;
        let step = Step::Op(action.copy()?, object, operation);
        let copy = earlier.copy(&self.shared);
        self.until_answered(rt, Some(copy), &step, &[], patience)
    }

    /// Has the operations that sleep at a guardian tried again, if there is one of this number.
    pub fn wake<H: Wait>(&self, rt: &H, guardian: u32) {
        if let Some(place) = self.at(guardian) {
            // who is about to sleep does so before this has the lock
            let _held = place.lock(rt);
            place.wake();
        }
    }

    /// What was seen in two threads, or twice in one, is of one run.
    pub fn compare(&self, one: Seen<K>, other: Seen<K>)
        ensures { AreOfOne K.opening one other }
    {
        self.shared.compare(one, other)
    }

    /// What was seen in two threads, or twice in one, together: a run that goes on from both.
    pub fn join(&self, one: Seen<K>, other: Seen<K>) -> Seen<K>
        ensures run { IsRun K.opening result }
        ensures first { IsBehind one result }
        ensures second { IsBehind other result }
    {
        self.shared.join(one, other)
    }

    /// What a receipt has seen: the run that ends with its event.
    pub fn seen_at(&self, receipt: &mut Receipt<K>) -> Seen<K>
        ensures seen { result ≡ receipt.old }
        ensures same { receipt.new ≡ receipt.old }
    {
        receipt.seen(&self.shared)
    }

    /// What was seen once more, perhaps for another thread.
    pub fn copy(&self, seen: &mut Seen<K>) -> Seen<K>
        ensures copied { result ≡ seen.old }
        ensures same { seen.new ≡ seen.old }
    {
        seen.copy(&self.shared)
    }

    /// Receipts of no events.
    pub fn no_receipts(&self) -> Receipts<K>
        ensures { result ≡ [] }
    {
        Receipts::none(&self.shared)
    }

    /// One receipt more.
    pub fn add_receipt(&self, receipts: &mut Receipts<K>, receipt: Receipt<K>)
        ensures { receipts.new ≡ receipts.old ++ receipt ∷ [] }
    {
        receipts.add(&self.shared, receipt);
    }

    /// The receipts of two threads, together.
    pub fn join_receipts(&self, receipts: &mut Receipts<K>, others: Receipts<K>)
        ensures { receipts.new ≡ receipts.old ++ others }
    {
        receipts.join(&self.shared, others);
    }

    /// The events of these receipts, for another thread to know.
    pub fn told(&self, receipts: &mut Receipts<K>) -> Known<K>
        ensures told { result ≡ receipts.old }
        ensures same { receipts.new ≡ receipts.old }
    {
        receipts.told(&self.shared)
    }

    /// Looks at the run together with what was seen of it. Each event of these receipts stands in it, and none has two
    /// of them.
    pub fn look(&self, receipts: &mut Receipts<K>, seen: Seen<K>) -> Seen<K>
        ensures run { IsRun K.opening result }
        ensures behind { IsBehind seen result }
        ensures stand { StandIn result receipts.old }
        ensures same { receipts.new ≡ receipts.old }
    {
        receipts.look(&self.shared, seen)
    }

    /// What is known of no events.
    pub fn none_known(&self) -> Known<K>
        ensures { result ≡ [] }
    {
        Known::none(&self.shared)
    }

    /// What is known of events once more, perhaps for another thread.
    pub fn copy_known(&self, known: &mut Known<K>) -> Known<K>
        ensures copied { result ≡ known.old }
        ensures same { known.new ≡ known.old }
    {
        known.copy(&self.shared)
    }

    /// What is known of events, with what is known of others.
    pub fn join_known(&self, known: &mut Known<K>, others: Known<K>)
        ensures { known.new ≡ known.old ++ others }
    {
        known.join(&self.shared, others);
    }

    /// Ends the run, which is served: each action that is no orphan sees in it what one plain store would have shown
    /// it, serially. The registry and the guardians are a world of that run, and each has kept its events. It is
    /// closed exactly if these receipts are those of its events, each once; otherwise they come back.
    pub fn close_all(self, receipts: Receipts<K>) -> Result<Ends<R, G>, CloseFault<K, R, G>>
        ensures closed { IfOk result
            (λ ends. IsClosed G.stands G.stored R.stands K.opening receipts ends) }
        ensures unclosed { IfErr result (λ fault. IsUnclosed G.stands G.stored R.stands K.opening
            receipts fault) }
    {
        let Runtime {
            alloc,
            shared,
            gate: _,
            registry,
            places,
        } = self;
        let room = Vec::with_capacity(alloc, places.len())?;
        close_all(
            shared,
            registry.into_inner(),
            unplaced(places, room),
            receipts,
        )
    }

    /// Tries a step until it is answered, behind what was seen if anything was.
    fn until_made<H: Wait>(
        &self,
        rt: &H,
        earlier: Option<Seen<K>>,
        step: &Step,
    ) -> Result<Answered<K>, StepFault>
        ensures { IfOk result
            (λ a. IsAnsweredFrom K.opening earlier step.now a.answer a.receipt a.seen) }
    {
        let mut behind = earlier;
        for _ in rt.forever() {
            if let Some(answered) = self.try_step(rt, &mut behind, step)? {
                return Ok(answered);
            }
        }
        unreachable!()
    }

    /// One try of a step, behind what was seen if anything was. `None` if its guardians are others by the time that
    /// they are locked.
    fn try_step<H: Wait>(
        &self,
        rt: &H,
        earlier: &mut Option<Seen<K>>,
        step: &Step,
    ) -> Result<Option<Answered<K>>, StepFault>
        ensures answered { IfOk result
            (λ r. IfSome r (λ a. IsAnsweredFrom K.opening earlier.old step.now
            a.answer a.receipt a.seen)) }
        ensures same { earlier.new ≡ earlier.old }
    {
        match self.own(rt, earlier, step)? {
            Some(answered) => Ok(Some(answered)),
            None => self.with_registry(rt, earlier, step),
        }
    }

    /// One try of a step that a guardian makes by itself, under its lock alone. `None` if it is none.
    fn own<H: Wait>(
        &self,
        rt: &H,
        earlier: &mut Option<Seen<K>>,
        step: &Step,
    ) -> Result<Option<Answered<K>>, StepFault>
        ensures answered { IfOk result
            (λ r. IfSome r (λ a. IsAnsweredFrom K.opening earlier.old step.now
            a.answer a.receipt a.seen)) }
        ensures same { earlier.new ≡ earlier.old }
    {
        let number = own_guardian(step);
        let Some(place) = self.at(number) else {
            return Ok(None);
        };
        let mut held = place.lock(rt);
        self.gate.pass(number, action_of(step));
        let done = guardian_behind(&self.shared, &mut held, earlier, step)?;
        if is_accepted(&done) {
            place.wake();
        }
        Ok(done)
    }

    /// One try of a step that takes the registry's lock.
    fn with_registry<H: Wait>(
        &self,
        rt: &H,
        earlier: &mut Option<Seen<K>>,
        step: &Step,
    ) -> Result<Option<Answered<K>>, StepFault>
        ensures answered { IfOk result
            (λ r. IfSome r (λ a. IsAnsweredFrom K.opening earlier.old step.now
            a.answer a.receipt a.seen)) }
        ensures same { earlier.new ≡ earlier.old }
    {
        let (low, high) = in_order(self.named(rt, step));
        match (self.at(low), self.at(high)) {
            (Some(one), Some(other)) if low != high => {
                self.two(rt, low, one, other, earlier, step)
            }
            (Some(one), _) => self.one(rt, low, one, earlier, step),
            (None, Some(one)) => self.one(rt, high, one, earlier, step),
            (None, None) => {
                let mut registry = self.registry.lock(rt);
                Ok(registry_behind(self.alloc, &self.shared, &mut registry, earlier, step)?)
            }
        }
    }

    /// One try of a step of two guardians.
    fn two<H: Wait>(
        &self,
        rt: &H,
        low: u32,
        one: &Place<K, G>,
        other: &Place<K, G>,
        earlier: &mut Option<Seen<K>>,
        step: &Step,
    ) -> Result<Option<Answered<K>>, StepFault>
        ensures answered { IfOk result
            (λ r. IfSome r (λ a. IsAnsweredFrom K.opening earlier.old step.now
            a.answer a.receipt a.seen)) }
        ensures same { earlier.new ≡ earlier.old }
    {
        let mut first = one.lock(rt);
        let mut second = other.lock(rt);
        self.gate.pass(low, action_of(step));
        if first.is_used_up() {
            return Err(StepFault::UsedUp);
        }
        let mut registry = self.registry.lock(rt);
        let done = two_behind(
            self.alloc,
            &self.shared,
            &mut registry,
            &mut first,
            &mut second,
            earlier,
            step,
        )?;
        drop(registry);
        if is_accepted(&done) {
            one.wake();
            other.wake();
        }
        Ok(done)
    }

    /// One try of a step of one guardian.
    fn one<H: Wait>(
        &self,
        rt: &H,
        number: u32,
        place: &Place<K, G>,
        earlier: &mut Option<Seen<K>>,
        step: &Step,
    ) -> Result<Option<Answered<K>>, StepFault>
        ensures answered { IfOk result
            (λ r. IfSome r (λ a. IsAnsweredFrom K.opening earlier.old step.now
            a.answer a.receipt a.seen)) }
        ensures same { earlier.new ≡ earlier.old }
    {
        let mut held = place.lock(rt);
        self.gate.pass(number, action_of(step));
        if held.is_used_up() {
            return Err(StepFault::UsedUp);
        }
        let mut registry = self.registry.lock(rt);
        let done = one_behind(
            self.alloc,
            &self.shared,
            &mut registry,
            &mut held,
            earlier,
            step,
        )?;
        drop(registry);
        if is_accepted(&done) {
            place.wake();
        }
        Ok(done)
    }

    /// Tries an operation until it is answered or the patience is over, behind what was seen if anything was. It
    /// sleeps between two tries.
    fn until_answered<H: Wait, U: Patience>(
        &self,
        rt: &H,
        earlier: Option<Seen<K>>,
        step: &Step,
        starters: &[Name],
        patience: &U,
    ) -> Result<Answered<K>, StepFault>
        ensures answered { IfOk result
            (λ a. IsAnsweredFrom K.opening earlier step.now a.answer a.receipt a.seen) }
        ensures waits { IfOk result (λ a. (sleeps a.answer starters.now ≡ false) ⊎ U.over) }
    {
        let mut behind = earlier;
        for _ in rt.forever() {
            if let Some(answered) = self.try_op(rt, &mut behind, step, starters, patience)? {
                return Ok(answered);
            }
        }
        unreachable!()
    }

    /// One try of an operation, behind what was seen if anything was. `None` after it has slept.
    fn try_op<H: Wait, U: Patience>(
        &self,
        rt: &H,
        earlier: &mut Option<Seen<K>>,
        step: &Step,
        starters: &[Name],
        patience: &U,
    ) -> Result<Option<Answered<K>>, StepFault>
        ensures answered { IfOk result
            (λ r. IfSome r (λ a. IsAnsweredFrom K.opening earlier.old step.now
            a.answer a.receipt a.seen)) }
        ensures waits { IfOk result
            (λ r. IfSome r (λ a. (sleeps a.answer starters.now ≡ false) ⊎ U.over)) }
        ensures same { earlier.new ≡ earlier.old }
    {
        let number = own_guardian(step);
        let Some(place) = self.at(number) else {
            return self.unless_waiting(rt, earlier, step, starters, patience);
        };
        let mut held = place.lock(rt);
        self.gate.pass(number, action_of(step));
        let done = guardian_behind(&self.shared, &mut held, earlier, step)?;
        let Some(answered) = done else {
            drop(held);
            return self.unless_waiting(rt, earlier, step, starters, patience);
        };
        if sleeps(&answered.answer, starters) && !patience.is_over() {
            place.sleep(rt, held);
            return Ok(None);
        }
        if answered.receipt.is_some() {
            place.wake();
        }
        Ok(Some(answered))
    }

    /// One try of an operation at whatever guardians it names, behind what was seen if anything was. `None` if it has to
    /// wait.
    fn unless_waiting<H: Wait, U: Patience>(
        &self,
        rt: &H,
        earlier: &mut Option<Seen<K>>,
        step: &Step,
        starters: &[Name],
        patience: &U,
    ) -> Result<Option<Answered<K>>, StepFault>
        ensures answered { IfOk result
            (λ r. IfSome r (λ a. IsAnsweredFrom K.opening earlier.old step.now
            a.answer a.receipt a.seen)) }
        ensures waits { IfOk result
            (λ r. IfSome r (λ a. (sleeps a.answer starters.now ≡ false) ⊎ U.over)) }
        ensures same { earlier.new ≡ earlier.old }
    {
        let Some(answered) = self.try_step(rt, earlier, step)? else {
            return Ok(None);
        };
        if sleeps(&answered.answer, starters) && !patience.is_over() {
            return Ok(None);
        }
        Ok(Some(answered))
    }

    /// The guardians that the step names, as the registry knows it now.
    fn named<H: Wait>(&self, rt: &H, step: &Step) -> NamedGuardians {
        match step {
            // the step itself names its guardian
            Step::Top(guardian) | Step::Tell(guardian, _) => NamedGuardians {
                first: *guardian,
                second: *guardian,
            },
            _ => {
                let registry = self.registry.lock(rt);
                registry.named(step)
            }
        }
    }

    fn at(&self, number: u32) -> Option<&Place<K, G>> {
        let index = (number as usize).checked_sub(1)?;
        self.places.get(index)
    }
}

/// The guardian that makes the step by itself, if its action is at home there: the object's, or the one that crashes or
/// recovers. Else 0, which no guardian has.
fn own_guardian(step: &Step) -> u32 {
    match step {
        Step::Op(_, object, _) => object.guardian,
        Step::Crash(guardian) | Step::Recover(guardian) => *guardian,
        _ => 0,
    }
}

/// Whether a step was accepted.
fn is_accepted<K: OfRun>(done: &Option<Answered<K>>) -> bool {
    match done {
        Some(answered) => answered.receipt.is_some(),
        None => false,
    }
}

/// The guardians under their locks, where there is room for them.
fn placed<K: OfRun, G: Guardian>(
    guardians: Vec<Held<K, G>>,
    room: Vec<Place<K, G>>,
) -> Vec<Place<K, G>>
    requires empty { vec_len room ≡ 0 }
    requires room { length guardians.items ≤ vec_capacity room }
    ensures { length result.items ≡ length guardians.items }
{
    let mut places = room;
    for held in guardians {
        places.push_reserved(Place::new(held));
    }
    places
}

/// The guardians without their locks, where there is room for them.
fn unplaced<K: OfRun, G: Guardian>(
    places: Vec<Place<K, G>>,
    room: Vec<Held<K, G>>,
) -> Vec<Held<K, G>>
    requires empty { vec_len room ≡ 0 }
    requires room { length places.items ≤ vec_capacity room }
    ensures { length result.items ≡ length places.items }
{
    let mut held = room;
    for place in places {
        held.push_reserved(place.into_held());
    }
    held
}

/// The two that are named, the lower number first.
fn in_order(named: NamedGuardians) -> (u32, u32) {
    let NamedGuardians { first, second } = named;
    if first <= second {
        (first, second)
    } else {
        (second, first)
    }
}
