//! What steps say beside the names of actions.
ghost use Rattle.std.specs.Prelude.{◌≡◌, ◌+◌, ◌≤◌, ◌<◌, IfOk, MatchOption, OnErr, length, slice_range, List, ℕ};
ghost use Rattle.run_model.specs.declared.step.Step.TheVariants as steps;
ghost use Rattle.packed_history.specs.Steps.{HasStep, IsKeptStep, no_requests, step_in, steps_before};
ghost use Rattle.packed_history.specs.declared.steps.ShortStep.TheVariants as short;

use crate::names::name_of;
use crate::plain::PlainOps;
use run_model::{ArmKind, ArmKinds, Name, ObjectId, Op, Step};
use std::alloc::{AllocError, Global};
use std::marker::Model;

/// A step without the name of its action. The kinds of its arms, and what its operation asks for, are kept at a place.
#[derive(Clone, Copy)]
pub(crate) enum ShortStep {
    Top(u32),
    NestedTop,
    Call(u32),
    Arms { count: u8, start: u32 },
    Plain(u32),
    Op(u32),
    Commit,
    Close,
    Prepare(u32),
    Decide,
    Abort,
    Tell(u32),
    Crash(u32),
    Recover(u32),
}

/// An operation on an object that has a text or two numbers.
#[derive(Drop)]
struct Request {
    object: ObjectId,
    operation: Op,
}

/// What steps ask for: the kinds of arms, and operations on objects, the oldest first.
#[derive(Drop)]
pub(crate) struct Steps {
    kinds: Vec<ArmKind>,
    plain: PlainOps,
    requests: Vec<Request>,
}

impl Model for Steps {
    ghost use Rattle.packed_history.specs.Steps.{Requests};

    ghost Value = { Requests };

    ghost view = { λ a.
        record { kinds = a.kinds.items; plain = a.plain; requests = a.requests.items } };
}

impl Steps {
    /// Nothing is kept. This takes no memory.
    pub(crate) fn new(alloc: Global) -> Steps
        ensures { result ≡ no_requests }
    {
        Steps {
            kinds: Vec::new(alloc),
            plain: PlainOps::new(alloc),
            requests: Vec::new(alloc),
        }
    }

    /// Keeps the step, if it has a short form. Without memory nothing is changed.
    pub(crate) fn keep(&mut self, step: &Step) -> Result<Option<ShortStep>, AllocError>
        ensures ok { IfOk result (λ short. MatchOption short (self.new ≡ self.old)
            (λ s. IsKeptStep self.old self.new s step.now)) }
        ensures err { OnErr result (self.new ≡ self.old) }
    {
        Ok(Some(match step {
            Step::Arms(_, kinds) => return self.keep_kinds(kinds.as_slice()),
            Step::Op(_, object, operation) => return self.keep_request(*object, operation),
            Step::Top(guardian) => ShortStep::Top(*guardian),
            Step::NestedTop(_) => ShortStep::NestedTop,
            Step::Call(_, guardian) => ShortStep::Call(*guardian),
            Step::Commit(_) => ShortStep::Commit,
            Step::Close(_) => ShortStep::Close,
            Step::Prepare(guardian, _) => ShortStep::Prepare(*guardian),
            Step::Decide(_) => ShortStep::Decide,
            Step::Abort(_) => ShortStep::Abort,
            Step::Tell(guardian, _) => ShortStep::Tell(*guardian),
            Step::Crash(guardian) => ShortStep::Crash(*guardian),
            Step::Recover(guardian) => ShortStep::Recover(*guardian),
        }))
    }

    // Keeps the kinds of arms, if a short form can tell where they lie.
    fn keep_kinds(&mut self, kinds: &[ArmKind]) -> Result<Option<ShortStep>, AllocError>
        ensures ok { IfOk result (λ short. MatchOption short (self.new ≡ self.old)
            (λ s. (a : List ℕ) → IsKeptStep self.old self.new s (steps.Arms a kinds.now))) }
        ensures err { OnErr result (self.new ≡ self.old) }
    {
        let (Ok(start), Ok(count)) = (u32::try_from(self.kinds.len()), u8::try_from(kinds.len()))
        else {
            return Ok(None);
        };
        self.kinds.extend_from_slice(kinds)?;
        Ok(Some(ShortStep::Arms { count, start }))
    }

    // Keeps what an operation asks for, if a short form can tell where it lies.
    fn keep_request(
        &mut self,
        object: ObjectId,
        operation: &Op,
    ) -> Result<Option<ShortStep>, AllocError>
        ensures ok { IfOk result (λ short. MatchOption short (self.new ≡ self.old)
            (λ s. (a : List ℕ)
            → IsKeptStep self.old self.new s (steps.Op a object operation.now))) }
        ensures err { OnErr result (self.new ≡ self.old) }
    {
        match self.plain.keep(object, operation)? {
            Some(place) => Ok(Some(ShortStep::Plain(place))),
            None => self.keep_other(object, operation),
        }
    }

    // The same of an operation that is not plain.
    fn keep_other(
        &mut self,
        object: ObjectId,
        operation: &Op,
    ) -> Result<Option<ShortStep>, AllocError>
        ensures ok { IfOk result (λ short. MatchOption short (self.new ≡ self.old)
            (λ s. (a : List ℕ)
            → IsKeptStep self.old self.new s (steps.Op a object operation.now))) }
        ensures err { OnErr result (self.new ≡ self.old) }
    {
        let Ok(place) = u32::try_from(self.requests.len()) else {
            return Ok(None);
        };
        let operation = operation.copy()?;
        self.requests.push(Request { object, operation })?;
        Ok(Some(ShortStep::Op(place)))
    }

    /// Forgets what was kept from this step on. This takes no memory.
    pub(crate) fn cut(&mut self, short: ShortStep)
        ensures { self.new ≡ steps_before self.old short }
    {
        match short {
            ShortStep::Arms { start, .. } => self.kinds.truncate(start as usize),
            ShortStep::Plain(place) => self.plain.cut(place),
            ShortStep::Op(place) => self.requests.truncate(place as usize),
            _ => {}
        }
    }

    /// The step with this name.
    pub(crate) fn step(&self, action: &[u32], short: ShortStep) -> Result<Step, AllocError>
        requires { HasStep self.now short }
        ensures { IfOk result (λ step. step ≡ step_in self.now action.now short) }
    {
        let alloc = *self.kinds.allocator();
        Ok(match short {
            ShortStep::Top(guardian) => Step::Top(guardian),
            ShortStep::NestedTop => Step::NestedTop(name_of(alloc, action)?),
            ShortStep::Call(guardian) => Step::Call(name_of(alloc, action)?, guardian),
            ShortStep::Arms { count, start } => Step::Arms(
                name_of(alloc, action)?,
                self.arms(start, count)?,
            ),
            ShortStep::Plain(place) => {
                let (object, operation) = self.plain.operation(place)?;
                Step::Op(name_of(alloc, action)?, object, operation)
            }
            ShortStep::Op(place) => self.operation(name_of(alloc, action)?, place)?,
            ShortStep::Commit => Step::Commit(name_of(alloc, action)?),
            ShortStep::Close => Step::Close(name_of(alloc, action)?),
            ShortStep::Prepare(guardian) => Step::Prepare(guardian, name_of(alloc, action)?),
            ShortStep::Decide => Step::Decide(name_of(alloc, action)?),
            ShortStep::Abort => Step::Abort(name_of(alloc, action)?),
            ShortStep::Tell(guardian) => Step::Tell(guardian, name_of(alloc, action)?),
            ShortStep::Crash(guardian) => Step::Crash(guardian),
            ShortStep::Recover(guardian) => Step::Recover(guardian),
        })
    }

    // The kinds that lie there.
    fn arms(&self, start: u32, count: u8) -> Result<ArmKinds, AllocError>
        requires { start + count ≤ length self.now.kinds }
        ensures { IfOk result (λ kinds. kinds ≡ slice_range self.now.kinds start (start + count)) }
    {
        let start = start as usize;
        let kinds = &self.kinds[start..start + count as usize];
        Ok(ArmKinds::from_vec(Vec::from_slice(*self.kinds.allocator(), kinds)?))
    }

    // The operation that is asked for there, by this action.
    fn operation(&self, action: Name, place: u32) -> Result<Step, AllocError>
        requires { place < length self.now.requests }
        ensures { IfOk result (λ step. step ≡ step_in self.now action (short.Op place)) }
    {
        let request = &self.requests[place as usize];
        Ok(Step::Op(action, request.object, request.operation.copy()?))
    }
}
