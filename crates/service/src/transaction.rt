//! The work of a transaction, and what it is given.
ghost use Rattle.std.specs.Prelude.{◌≡◌, true, IfErr, OnErr, OnOk};
ghost use Rattle.run_model.specs.declared.step.Step.TheVariants as steps;
ghost use Rattle.service.specs.Transacting.{Includes, Works, began_at};

use crate::fault::CallFault;
use crate::nested::nest_in;
use crate::outcome::Outcome;
use crate::place::Place;
use crate::service::Service;
use crate::subactions::{call_in, operate_in};
use action_names::Name;
use atomic_types::{Op, Reply};
use run_model::ObjectId;
use std::alloc::Global;
use std::marker::{Brand, PhantomData};
use stepping::MakesOwnSteps;

/// Where work begins: nobody makes a value of it.
pub trait Begun {
    ghost use Rattle.service.specs.Opening.{Start};

    ghost start: { Start };
}

impl Begun for Brand {
    ghost use Rattle.service.specs.Opening.{nowhere};

    ghost start = { nowhere };
}

/// What work is given: an action that it works in, and no more of the service than that.
#[derive(Drop)]
pub struct Transaction<'s, W: MakesOwnSteps + Drop, B: Begun> {
    pub(crate) service: &'s mut Service<W>,
    pub(crate) at: &'s mut Place,
    pub(crate) of: PhantomData<B>,
    pub(crate) ghost action: { at.now.action ≡ B.start.action },
    pub(crate) ghost home: { at.now.home ≡ B.start.home },
    pub(crate) ghost there: { began_at B.start.home B.start.action B.start.run.past ≡ true },
    pub(crate) ghost reached: { Includes B.start.reached at.now.reached.items },
    pub(crate) ghost works: { ∥ Works W.sees B.start.action B.start.run (W.run service.now.world)
        B.start.left at.now.left ∥₁ },
}

/// Work of a transaction, or of a subaction in it.
pub trait Work<W: MakesOwnSteps + Drop> {
    ghost use Rattle.service.specs.Working.{Anything, Does};

    type Value: Drop;

    type Error: Drop + From<CallFault>;

    /// That the work, at a run, gives a result, and how it and the run are then. If this is not stated, it is anything.
    ghost does: { Does Self Self.Value Self.Error } = { Anything };

    /// Works in the action that it is given. After an error what it did is undone.
    fn run<B: Begun>(&mut self, tx: &mut Transaction<'_, W, B>) -> Result<Self::Value, Self::Error>
        ensures same_service { tx.new.service.ghost_name ≡ tx.old.service.ghost_name }
        ensures same_action { tx.new.at.ghost_name ≡ tx.old.at.ghost_name }
        ensures does { does self.old (W.run tx.old.service.now.world) result self.new
            (W.run tx.new.service.now.world) };
}

impl<'s, W: MakesOwnSteps + Drop, B: Begun> Transaction<'s, W, B> {
    ghost use Rattle.service.specs.Calling.{IsCall, IsReply, WaitsIf};
    ghost use Rattle.service.specs.Transacting.{CommitsCall, CommitsNoChild, Transacts};
    ghost use Rattle.service.specs.Working.{CallsOnce, TransactsOnce};

    /// Makes an operation on an object at the action's home, and gives the reply.
    pub fn operate(&mut self, object: ObjectId, operation: Op) -> Result<Reply, CallFault>
        ensures same_service { self.new.service.ghost_name ≡ self.old.service.ghost_name }
        ensures same_action { self.new.at.ghost_name ≡ self.old.at.ghost_name }
        ensures call { IsCall W.run W.sees W.leaves
            (steps.Op self.old.at.now.action object operation) IsReply
            self.old.service.now.world self.new.service.now.world result }
        ensures waits { IfErr result (WaitsIf W.gives_up) }
    {
        operate_in(self.service, self.at, object, operation)
    }

    /// Calls a handler of the guardian: the work runs as a subaction there, which commits if it succeeds. After an
    /// error it is undone, and it alone.
    pub fn call<J: Work<W>>(&mut self, guardian: u32, work: &mut J) -> Result<J::Value, J::Error>
        ensures same_service { self.new.service.ghost_name ≡ self.old.service.ghost_name }
        ensures same_action { self.new.at.ghost_name ≡ self.old.at.ghost_name }
        ensures committed { OnOk result (CommitsCall W.sees self.old.at.now.action guardian
            (W.run self.old.service.now.world) (W.run self.new.service.now.world)) }
        ensures undone { OnErr result (CommitsNoChild self.old.at.now.action
            (W.run self.old.service.now.world) (W.run self.new.service.now.world)) }
        ensures once { CallsOnce W.sees J.does J.Error.from_gives self.old.at.now.action guardian
            (W.run self.old.service.now.world) (W.run self.new.service.now.world)
            work.old work.new result }
    {
        call_in(self.service, self.at, guardian, work)
    }

    /// Begins a nested top action at the action's home, runs the work in it, and ends it by two phases. It commits or
    /// aborts whether the action commits later or not. The transaction tells what it leaves unsettled.
    pub fn nested<J: Work<W>>(&mut self, alloc: Global, work: &mut J) -> Outcome<J::Value, J::Error>
        ensures same_service { self.new.service.ghost_name ≡ self.old.service.ghost_name }
        ensures same_action { self.new.at.ghost_name ≡ self.old.at.ghost_name }
        ensures ended { Transacts W.sees (steps.NestedTop self.old.at.now.action)
            (W.run self.old.service.now.world) (W.run self.new.service.now.world) result
            self.old.at.now.left self.new.at.now.left }
        ensures once { TransactsOnce W.sees J.does (steps.NestedTop self.old.at.now.action)
            (W.run self.old.service.now.world) (W.run self.new.service.now.world)
            work.old work.new result }
    {
        nest_in(self.service, self.at, alloc, work)
    }
}

/// Runs the work in the action that has just begun.
pub(crate) fn work_in<B: Begun, W: MakesOwnSteps + Drop, J: Work<W>>(
    service: &mut Service<W>,
    at: &mut Place,
    work: &mut J,
) -> Result<J::Value, J::Error>
    requires run { B.start.run ≡ W.run service.old.world }
    requires action { B.start.action ≡ at.old.action }
    requires home { B.start.home ≡ at.old.home }
    requires there { began_at B.start.home B.start.action B.start.run.past ≡ true }
    requires reached { B.start.reached ≡ at.old.reached.items }
    requires left { B.start.left ≡ at.old.left }
    ensures action { at.new.action ≡ B.start.action }
    ensures home { at.new.home ≡ B.start.home }
    ensures reached { Includes B.start.reached at.new.reached.items }
    ensures works { ∥ Works W.sees B.start.action B.start.run (W.run service.new.world)
        B.start.left at.new.left ∥₁ }
    ensures does { J.does work.old (W.run service.old.world) result work.new
        (W.run service.new.world) }
{
    let mut tx: Transaction<'_, W, B> = Transaction {
        service,
        at,
        of: PhantomData,
    };
    work.run(&mut tx)
}
