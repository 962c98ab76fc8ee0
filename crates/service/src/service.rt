//! The steps of a caller, each by a method of its own.
use crate::answered::{began_one, began_these, reply, taken, told, vote};
use crate::fault::CallFault;
use action_names::{Name, Names};
use atomic_types::{Op, Reply};
use committing::commit_by_two_phases;
use run_model::{Answer, ArmKinds, ObjectId, Step};
use stepping::MakesOwnSteps;

/// Steps that are made by calls: those of a world, or those of one caller beside others.
#[derive(Drop)]
pub struct Service<W: MakesOwnSteps + Drop> {
    /// Makes the steps. A caller uses it for what is no step.
    pub world: W,
}

impl<W: MakesOwnSteps + Drop> Service<W> {
    ghost use Rattle.std.specs.Prelude.{◌≡◌, true, false, IfErr, IfOk, IsOk, OnOk};
    ghost use Rattle.run_model.specs.declared.step.Step.TheVariants as steps;
    ghost use Rattle.service.specs.Ending.{AreCutShort, HaveHappened, IsEnded, IsEndingCut, tells};
    ghost use Rattle.service.specs.Calling.{BeganOne, BeganThese, IsAccepted, IsCall, IsDone, IsFinishing, IsReply, IsVote, Told, WaitsIf};

    /// Calls over this maker of steps.
    pub fn over(world: W) -> Service<W>
        ensures { result.world ≡ world }
    {
        Service { world }
    }

    /// Begins a top action at the guardian, and gives its name.
    pub fn begin(&mut self, guardian: u32) -> Result<Name, CallFault>
        ensures { IsCall W.run W.sees W.leaves (steps.Top guardian) BeganOne
            self.old.world self.new.world result }
    {
        Ok(began_one(self.make(&Step::Top(guardian))?))
    }

    /// Begins a nested top action, which the action makes, and gives its name.
    pub fn begin_nested(&mut self, action: &Name) -> Result<Name, CallFault>
        ensures { IsCall W.run W.sees W.leaves (steps.NestedTop action.now) BeganOne
            self.old.world self.new.world result }
    {
        Ok(began_one(self.make(&Step::NestedTop(action.copy()?))?))
    }

    /// Calls a handler of the guardian: begins a subaction of the action there, and gives its name.
    pub fn call(&mut self, action: &Name, guardian: u32) -> Result<Name, CallFault>
        ensures { IsCall W.run W.sees W.leaves (steps.Call action.now guardian) BeganOne
            self.old.world self.new.world result }
    {
        Ok(began_one(self.make(&Step::Call(action.copy()?, guardian))?))
    }

    /// Begins the arms of a `coenter` of the action, and gives their names in order.
    pub fn begin_arms(&mut self, action: &Name, kinds: ArmKinds) -> Result<Names, CallFault>
        ensures { IsCall W.run W.sees W.leaves (steps.Arms action.now kinds) BeganThese
            self.old.world self.new.world result }
    {
        Ok(began_these(self.make(&Step::Arms(action.copy()?, kinds))?))
    }

    /// Makes an operation of the action on an object at its home, and gives the reply. `Waits` comes if another action
    /// holds the object in a conflicting way. Where others make steps too, it sleeps instead, until it gives up.
    pub fn operate(
        &mut self,
        action: &Name,
        object: ObjectId,
        operation: Op,
    ) -> Result<Reply, CallFault>
        ensures call { IsCall W.run W.sees W.leaves (steps.Op action.now object operation) IsReply
            self.old.world self.new.world result }
        ensures waits { IfErr result (WaitsIf W.gives_up) }
    {
        Ok(reply(taken(self.world.operate(action, object, operation))?))
    }

    /// Commits a subaction to its parent.
    pub fn commit(&mut self, action: &Name) -> Result<(), CallFault>
        ensures { IsCall W.run W.sees W.leaves (steps.Commit action.now) IsDone
            self.old.world self.new.world result }
    {
        self.finish(&Step::Commit(action.copy()?))
    }

    /// Closes a top action, before the votes on it.
    pub fn close(&mut self, top: &Name) -> Result<(), CallFault>
        ensures { IsCall W.run W.sees W.leaves (steps.Close top.now) IsDone
            self.old.world self.new.world result }
    {
        self.finish(&Step::Close(top.copy()?))
    }

    /// Lets the guardian vote on the closed top action. True is a vote to commit: the guardian is prepared then.
    pub fn prepare(&mut self, guardian: u32, top: &Name) -> Result<bool, CallFault>
        ensures { IsCall W.run W.sees W.leaves (steps.Prepare guardian top.now) IsVote
            self.old.world self.new.world result }
    {
        Ok(vote(&self.make(&Step::Prepare(guardian, top.copy()?))?))
    }

    /// Commits a closed top action on which all participants voted yes.
    pub fn decide(&mut self, top: &Name) -> Result<(), CallFault>
        ensures { IsCall W.run W.sees W.leaves (steps.Decide top.now) IsDone
            self.old.world self.new.world result }
    {
        self.finish(&Step::Decide(top.copy()?))
    }

    /// Aborts an action.
    pub fn abort(&mut self, action: &Name) -> Result<(), CallFault>
        ensures { IsCall W.run W.sees W.leaves (steps.Abort action.now) IsDone
            self.old.world self.new.world result }
    {
        self.finish(&Step::Abort(action.copy()?))
    }

    /// Tells the guardian how an action ended, and gives how many objects that changed there.
    pub fn tell(&mut self, guardian: u32, action: &Name) -> Result<u64, CallFault>
        ensures { IsCall W.run W.sees W.leaves (steps.Tell guardian action.now) Told
            self.old.world self.new.world result }
    {
        Ok(told(&self.make(&Step::Tell(guardian, action.copy()?))?))
    }

    /// Crashes the guardian: it loses what is not in its store.
    pub fn crash(&mut self, guardian: u32) -> Result<(), CallFault>
        ensures { IsCall W.run W.sees W.leaves (steps.Crash guardian) IsDone
            self.old.world self.new.world result }
    {
        self.finish(&Step::Crash(guardian))
    }

    /// Recovers a guardian that is down from its store.
    pub fn recover(&mut self, guardian: u32) -> Result<(), CallFault>
        ensures { IsCall W.run W.sees W.leaves (steps.Recover guardian) IsDone
            self.old.world self.new.world result }
    {
        self.finish(&Step::Recover(guardian))
    }

    /// Commits a top action by two phases: closes it, lets the participants vote in this order up to the first no, and
    /// decides it if all vote yes. Else aborts it. Then tells each participant. Whether the action committed.
    ///
    /// The participants are the homes of the top action and of what was committed into it. If one is missing,
    /// `Refused` comes of the decision, with `Unready`. After an error the steps so far have happened, and the action
    /// can be aborted unless it was decided.
    pub fn commit_top(&mut self, top: &Name, participants: &[u32]) -> Result<bool, CallFault>
        ensures ended { IfOk result (λ committed. IsEnded W.run W.sees W.leaves
            top.now participants.now committed self.old.world self.new.world) }
        ensures cut { IfErr result (IsEndingCut W.run W.sees W.leaves top.now participants.now
            self.old.world self.new.world) }
    {
        let committed = commit_by_two_phases(self, top, participants.iter())?;
        self.abort_unless(committed, top)?;
        self.tell_all(participants, top)?;
        Ok(committed)
    }

    /// Aborts a top action unless it has committed.
    fn abort_unless(&mut self, committed: bool, top: &Name) -> Result<(), CallFault>
        ensures aborts { committed ≡ false → IsCall W.run W.sees W.leaves (steps.Abort top.now)
            IsDone self.old.world self.new.world result }
        ensures rests { committed ≡ true → IsOk result × (self.new.world ≡ self.old.world) }
    {
        if !committed {
            self.abort(top)?;
        }
        Ok(())
    }

    /// Tells each of the guardians how an action ended, in this order.
    pub fn tell_all(&mut self, guardians: &[u32], action: &Name) -> Result<(), CallFault>
        ensures told { OnOk result (HaveHappened W.run W.sees W.leaves (tells action.now guardians.now)
            self.old.world self.new.world) }
        ensures cut { IfErr result (AreCutShort W.run W.sees W.leaves (tells action.now guardians.now)
            self.old.world self.new.world) }
    {
        for guardian in guardians {
            self.tell(*guardian, action)?;
        }
        Ok(())
    }

    /// Makes a step that is answered 0 if it happens.
    fn finish(&mut self, step: &Step) -> Result<(), CallFault>
        requires { IsFinishing step.now }
        ensures { IsCall W.run W.sees W.leaves step.now IsDone self.old.world self.new.world result }
    {
        self.make(step)?;
        Ok(())
    }

    /// Makes the step. An answer comes only of a step that happened.
    fn make(&mut self, step: &Step) -> Result<Answer, CallFault>
        ensures { IsCall W.run W.sees W.leaves step.now IsAccepted self.old.world self.new.world result }
    {
        taken(self.world.make_step(step))
    }
}
