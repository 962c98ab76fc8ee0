ghost use Rattle.std.specs.Prelude.{◌≡◌, [], ◌∷◌, ◌++◌, List, IsTrue, None, length, reverse, IfErr, IfOk, OnOk, OnErr, if◌then◌else◌};
ghost use Rattle.action_names.specs.Names.{Name, is_top};
ghost use Rattle.run_model.specs.declared.answer.Answer.TheVariants.{Began};
ghost use Rattle.run_model.specs.declared.step.Step.TheVariants.{Abort, Call, NestedTop, Prepare, Tell};
ghost use Rattle.run_model.specs.Actions.{maker_in, names_begun};
ghost use Rattle.run_model.specs.Runs.{world_after};
ghost use Rattle.run_model.specs.Votes.{is_yes};
ghost use Rattle.activities.specs.Failing.{EndOrFail, IsCause};
ghost use Rattle.activities.specs.Making.{Begins, IsAnswered, Makes, Tells, commits_of};
ghost use Rattle.activities.specs.OwnSteps.{IsOfAction, about};
ghost use Rattle.activities.specs.Reaching.{is_made};
ghost use Rattle.activities.specs.Ends.{called, commits, named_by};
ghost use Rattle.activities.specs.Performing.{op_step};
ghost use Rattle.activities.specs.Serial.{aborted, after, arms_aborted, asked, begun_by, called_by, commit_tried};
ghost use Rattle.activities.specs.Serial.{committed, end_tried, ended, joined, once_told, or_aborted, outwards};
ghost use Rattle.activities.specs.Serial.{taken_in, two_phases};
ghost use Rattle.activities.specs.Acting.{acting};
ghost use Rattle.activities.specs.Bodies.{is_sub};
ghost use Rattle.activities.specs.TopSteps.{ComesTo};

use crate::abortable::Abortable;
use crate::activity_steps::ActivitySteps;
use crate::flow::{Flow, Reach};
use crate::top_steps::TopSteps;
use action_names::{Name, Names};
use atomic_types::Op;
use committing::commit_by_two_phases;
use run_model::{Answer, ObjectId, Refusal, Step};
use script_model::Arm;
use std::alloc::{AllocError, Global};
use std::collections::BTreeSet;
use stepping::Fault;

/// Guardians that an action has to do with, in rising number, and starters.
#[derive(Drop)]
pub(crate) struct Reached {
    /// Those that are home to it or a descendant.
    homes: BTreeSet<u32>,
    /// Its home and those of what was committed into it.
    participants: BTreeSet<u32>,
    /// The starters of the nested top actions in which it runs, the outermost first.
    starters: Names,
}

impl Reached {
    /// What an action has to do with when it begins at this home.
    pub(crate) fn new(alloc: Global, home: u32, starters: Names) -> Result<Reached, AllocError>
        ensures homes { IfOk result (λ reached. reached.homes.keys ≡ home ∷ []) }
        ensures participants { IfOk result (λ reached. reached.participants.keys ≡ home ∷ []) }
        ensures starters { IfOk result (λ reached. reached.starters ≡ starters) }
    {
        let mut homes = BTreeSet::new(alloc);
        homes.insert(home)?;
        let mut participants = BTreeSet::new(alloc);
        participants.insert(home)?;
        Ok(Reached {
            homes,
            participants,
            starters,
        })
    }
}

/// An action that is running.
#[derive(Drop)]
pub(crate) struct OpenAction {
    pub(crate) name: Abortable,
    pub(crate) home: u32,
    reached: Reached,
}

/// What came of a call.
#[derive(Drop)]
pub(crate) enum Called {
    Began(Name),
    /// The guardian is down, or the action would be nested too deeply.
    Signalled,
    Refused,
}

impl OpenAction {
    pub(crate) fn new(name: Name, home: u32, reached: Reached) -> OpenAction
        ensures name { result.name ≡ name }
        ensures home { result.home ≡ home }
        ensures reached { result.reached ≡ reached }
    {
        OpenAction {
            name: Abortable::new(name),
            home,
            reached,
        }
    }

    /// What a subaction at this home has to do with when it begins.
    pub(crate) fn reached_by_call(&self, alloc: Global, home: u32) -> Result<Reached, AllocError>
        ensures homes { IfOk result (λ reached. reached.homes.keys ≡ home ∷ []) }
        ensures participants { IfOk result (λ reached. reached.participants.keys ≡ home ∷ []) }
        ensures starters { IfOk result (λ reached. reached.starters ≡ self.now.reached.starters) }
    {
        Reached::new(alloc, home, self.reached.starters.copy()?)
    }

    /// What a nested top action that it starts has to do with when that begins.
    pub(crate) fn reached_by_nested(&self, alloc: Global) -> Result<Reached, AllocError>
        ensures homes { IfOk result (λ reached. reached.homes.keys ≡ self.now.home ∷ []) }
        ensures participants { IfOk result
            (λ reached. reached.participants.keys ≡ self.now.home ∷ []) }
        ensures starters { IfOk result
            (λ reached. reached.starters ≡ self.now.reached.starters ++ self.now.name ∷ []) }
    {
        let mut starters = self.reached.starters.copy()?;
        starters.push(self.name.copy()?)?;
        Reached::new(alloc, self.home, starters)
    }

    /// What an arm of it has to do with when it begins.
    pub(crate) fn reached_by_arm(&self, alloc: Global, arm: &Arm) -> Result<Reached, AllocError>
        ensures homes { IfOk result (λ reached. reached.homes.keys ≡ self.now.home ∷ []) }
        ensures participants { IfOk result
            (λ reached. reached.participants.keys ≡ self.now.home ∷ []) }
        ensures starters { IfOk result
            (λ reached. reached.starters ≡ (if is_sub arm.now then self.now.reached.starters
            else self.now.reached.starters ++ self.now.name ∷ [])) }
    {
        match arm {
            Arm::Sub(_) => self.reached_by_call(alloc, self.home),
            Arm::Top(_) => self.reached_by_nested(alloc),
        }
    }

    /// Begins a subaction of it at a guardian. After an error nothing has begun.
    pub(crate) fn begin_call<W: ActivitySteps>(
        &self,
        world: &mut W,
        guardian: u32,
    ) -> Result<Called, Fault>
        ensures makes { Makes (self.now.name ∷ []) [] (W.run world.old) (W.run world.new) }
        ensures began { IfOk result
            (λ c. Begins (self.now.name ∷ []) [] (called c) (W.run world.old) (W.run world.new)) }
        ensures made { OnOk result (W.alone
            → W.run world.new ≡ after (Call self.now.name guardian) (W.run world.old)) }
        ensures called { IfOk result (λ c. W.alone
            → c ≡ called_by (asked (Call self.now.name guardian) (W.run world.old))) }
        ensures failed { IfErr result (IsCause W.fails) }
        ensures err { OnErr result (W.run world.new ≡ W.run world.old) }
    {
        let answer = make(world, Step::Call(self.name.copy()?, guardian))?;
        Ok(what_came(answer))
    }

    /// Begins a nested top action that it starts; none where that is refused. After an error nothing has begun.
    pub(crate) fn begin_nested<W: ActivitySteps>(
        &self,
        world: &mut W,
    ) -> Result<Option<Name>, Fault>
        ensures makes { Makes (self.now.name ∷ []) [] (W.run world.old) (W.run world.new) }
        ensures began { IfOk result
            (λ found. Begins (self.now.name ∷ []) [] (named_by found) (W.run world.old)
            (W.run world.new)) }
        ensures made { OnOk result (W.alone
            → W.run world.new ≡ after (NestedTop self.now.name) (W.run world.old)) }
        ensures begun { IfOk result (λ found. W.alone
            → found ≡ begun_by (asked (NestedTop self.now.name) (W.run world.old))) }
        ensures failed { IfErr result (IsCause W.fails) }
        ensures err { OnErr result (W.run world.new ≡ W.run world.old) }
    {
        let answer = make(world, Step::NestedTop(self.name.copy()?))?;
        Ok(begun_by(answer))
    }

    /// Makes an operation on an object of its home. After an error the world is as it was.
    pub(crate) fn perform<W: ActivitySteps>(
        &self,
        world: &mut W,
        object: u32,
        operation: Op,
    ) -> Result<Answer, Fault>
        ensures makes { Makes (self.now.name ∷ []) [] (W.run world.old) (W.run world.new) }
        ensures after { OnOk result (W.alone
            → W.run world.new
            ≡ after (op_step self.now.name self.now.home object operation) (W.run world.old)) }
        ensures answer { IfOk result (λ answer. W.alone
            → answer
            ≡ asked (op_step self.now.name self.now.home object operation) (W.run world.old)) }
        ensures failed { IfErr result (IsCause W.fails) }
        ensures over { EndOrFail W.alone W.fails []
            (W.run world.old) (W.run world.new) }
        ensures err { OnErr result (W.run world.new ≡ W.run world.old) }
    {
        let object = ObjectId {
            guardian: self.home,
            number: object,
        };
        world.operate(
            self.name.as_name(),
            object,
            operation,
            self.reached.starters.as_slice(),
        )
    }

    /// Learns where a subaction of it, which has ended, and the descendants of that had their homes, and where it
    /// committed from.
    pub(crate) fn take_in(&mut self, child: &OpenAction, committed: bool) -> Result<(), AllocError>
        ensures name { self.new.name ≡ self.old.name }
        ensures home { self.new.home ≡ self.old.home }
        ensures taken { OnOk result
            (acting self.new ≡ taken_in (acting self.old) (acting child.now) committed) }
    {
        add_all(&mut self.reached.homes, &child.reached.homes)?;
        if committed {
            add_all(&mut self.reached.participants, &child.reached.participants)?;
        }
        Ok(())
    }

    /// Ends it as its body ended, and says how: where it cannot commit, and after an error, it aborts.
    pub(crate) fn end<W: ActivitySteps>(&self, world: &mut W, flow: Flow) -> Result<Flow, Fault>
        ensures makes { Makes (self.now.name ∷ []) (self.now.name ∷ [])
            (W.run world.old) (W.run world.new) }
        ensures told { IfOk result
            (λ end. Tells (commits end) self.now.name (W.run world.old) (W.run world.new)) }
        ensures means { IfOk result (λ end. W.alone → record { world = W.run world.new; flow = end }
            ≡ ended (acting self.now) flow (W.run world.old)) }
        ensures wanted { IfOk result (λ end. IsTrue (commits end) → end ≡ flow) }
        ensures failed { IfErr result (IsCause W.fails) }
        ensures over { EndOrFail W.alone W.fails (self.now.name ∷ [])
            (W.run world.old) (W.run world.new) }
    {
        match self.try_end(world, wants_commit(&flow)) {
            Ok(true) => Ok(flow),
            Ok(false) => Ok(self.flow_of_abort(flow)),
            Err(fault) => {
                let _ = self.abort(world);
                Err(fault)
            }
        }
    }

    /// Commits it where that is wanted; where it cannot, and else, aborts it. Whether it has committed.
    fn try_end<W: ActivitySteps>(&self, world: &mut W, wanted: bool) -> Result<bool, Fault>
        ensures makes { Makes (self.now.name ∷ []) (self.now.name ∷ [])
            (W.run world.old) (W.run world.new) }
        ensures told { IfOk result
            (λ done. Tells done self.now.name (W.run world.old) (W.run world.new)) }
        ensures wanted { IfOk result (λ done. IsTrue done → IsTrue wanted) }
        ensures means { IfOk result
            (λ done. W.alone → record { world = W.run world.new; done = done }
            ≡ end_tried (acting self.now) wanted (W.run world.old)) }
        ensures failed { IfErr result (IsCause W.fails) }
        ensures over { EndOrFail W.alone W.fails []
            (W.run world.old) (W.run world.new) }
        ensures ended { OnOk result (EndOrFail W.alone W.fails (self.now.name ∷ [])
            (W.run world.old) (W.run world.new)) }
    {
        if wanted {
            self.commit_or_abort(world)
        } else {
            self.abort(world)?;
            Ok(false)
        }
    }

    fn commit_or_abort<W: ActivitySteps>(&self, world: &mut W) -> Result<bool, Fault>
        ensures makes { Makes (self.now.name ∷ []) (self.now.name ∷ [])
            (W.run world.old) (W.run world.new) }
        ensures told { IfOk result
            (λ done. Tells done self.now.name (W.run world.old) (W.run world.new)) }
        ensures means { IfOk result
            (λ done. W.alone → record { world = W.run world.new; done = done }
            ≡ or_aborted (acting self.now) (committed (acting self.now) (W.run world.old))) }
        ensures failed { IfErr result (IsCause W.fails) }
        ensures over { EndOrFail W.alone W.fails []
            (W.run world.old) (W.run world.new) }
        ensures ended { OnOk result (EndOrFail W.alone W.fails (self.now.name ∷ [])
            (W.run world.old) (W.run world.new)) }
    {
        if self.commit(world)? {
            return Ok(true);
        }
        self.abort(world)?;
        Ok(false)
    }

    /// How it ended where it has aborted and its body ended so.
    fn flow_of_abort(&self, flow: Flow) -> Flow
        ensures { result ≡ outwards (is_top self.now.name) flow }
    {
        let Flow::Outwards(reach) = flow else {
            return Flow::Aborted;
        };
        if self.name.as_name().is_top() && reach == Reach::TopAction {
            Flow::Aborted
        } else {
            Flow::Outwards(reach)
        }
    }

    /// Commits it, and tells so; whether that succeeded.
    fn commit<W: ActivitySteps>(&self, world: &mut W) -> Result<bool, Fault>
        ensures makes { Makes (self.now.name ∷ []) (self.now.name ∷ [])
            (W.run world.old) (W.run world.new) }
        ensures told { IfOk result
            (λ done. Tells done self.now.name (W.run world.old) (W.run world.new)) }
        ensures means { IfOk result
            (λ done. W.alone → record { world = W.run world.new; done = done }
            ≡ committed (acting self.now) (W.run world.old)) }
        ensures failed { IfErr result (IsCause W.fails) }
        ensures over { EndOrFail W.alone W.fails []
            (W.run world.old) (W.run world.new) }
    {
        if !self.try_commit(world)? {
            return Ok(false);
        }
        tell(world, &self.name, &self.reached.homes)?;
        Ok(true)
    }

    /// Commits it; whether that succeeded.
    fn try_commit<W: ActivitySteps>(&self, world: &mut W) -> Result<bool, Fault>
        ensures makes { Makes (self.now.name ∷ []) (self.now.name ∷ [])
            (W.run world.old) (W.run world.new) }
        ensures told { IfOk result
            (λ done. Tells done self.now.name (W.run world.old) (W.run world.new)) }
        ensures means { IfOk result
            (λ done. W.alone → record { world = W.run world.new; done = done }
            ≡ commit_tried (acting self.now) (W.run world.old)) }
        ensures failed { IfErr result (IsCause W.fails) }
        ensures over { EndOrFail W.alone W.fails []
            (W.run world.old) (W.run world.new) }
    {
        if self.name.as_name().is_top() {
            self.commit_top(world)
        } else {
            try_step(world, Step::Commit(self.name.copy()?))
        }
    }

    /// Commits it by two phases; false at the first participant that does not vote yes.
    fn commit_top<W: ActivitySteps>(&self, world: &mut W) -> Result<bool, Fault>
        ensures makes { Makes (self.now.name ∷ []) (self.now.name ∷ [])
            (W.run world.old) (W.run world.new) }
        ensures told { IfOk result
            (λ done. Tells done self.now.name (W.run world.old) (W.run world.new)) }
        ensures means { IfOk result
            (λ done. W.alone → record { world = W.run world.new; done = done }
            ≡ two_phases (acting self.now) (W.run world.old)) }
        ensures failed { IfErr result (IsCause W.fails) }
        ensures over { EndOrFail W.alone W.fails []
            (W.run world.old) (W.run world.new) }
    {
        let mut steps = TopSteps { world };
        self.commit_with(&mut steps)
    }

    /// Commits it by two phases, with these steps.
    fn commit_with<W: ActivitySteps>(&self, steps: &mut TopSteps<'_, W>) -> Result<bool, Fault>
        ensures same_world { steps.new.world.ghost_name ≡ steps.old.world.ghost_name }
        ensures comes { ComesTo W.alone W.fails self.now.name (two_phases (acting self.now)) result
            (W.run steps.old.world.now) (W.run steps.new.world.now) }
    {
        commit_by_two_phases(steps, self.name.as_name(), self.reached.participants.iter())
    }

    /// Aborts it, and tells so.
    pub(crate) fn abort<W: ActivitySteps>(&self, world: &mut W) -> Result<(), Fault>
        ensures makes { Makes (self.now.name ∷ []) [] (W.run world.old) (W.run world.new) }
        ensures means { OnOk result (W.alone → W.run world.new
            ≡ aborted (acting self.now) (W.run world.old)) }
        ensures failed { IfErr result (IsCause W.fails) }
        ensures over { EndOrFail W.alone W.fails (self.now.name ∷ [])
            (W.run world.old) (W.run world.new) }
    {
        try_abort(world, &self.name)?;
        tell(world, &self.name, &self.reached.homes)
    }

    /// Aborts its arms that have not run, the last one first, and tells so. After an error the other arms are aborted
    /// all the same.
    pub(crate) fn abort_arms<W: ActivitySteps>(
        &self,
        world: &mut W,
        mut arms: Vec<Name>,
    ) -> Result<(), Fault>
        ensures makes { Makes arms.items [] (W.run world.old) (W.run world.new) }
        ensures means { OnOk result (W.alone → W.run world.new
            ≡ arms_aborted self.now.home (reverse arms.items) (W.run world.old)) }
        ensures failed { IfErr result W.fails }
        ensures over { EndOrFail W.alone W.fails arms.items (W.run world.old) (W.run world.new) }
    {
        let mut fault = Ok(());
        while let Some(arm) = arms.pop() {
            fault = fault.and(abort_at_home(world, arm, self.home));
        }
        fault
    }
}

/// Aborts an action that has done nothing yet, and tells its home.
fn abort_at_home<W: ActivitySteps>(world: &mut W, action: Name, home: u32) -> Result<(), Fault>
    ensures makes { Makes (action ∷ []) [] (W.run world.old) (W.run world.new) }
    ensures means { OnOk result (W.alone → W.run world.new
        ≡ after (Tell home action) (after (Abort action) (W.run world.old))) }
    ensures failed { IfErr result W.fails }
    ensures over { EndOrFail W.alone W.fails (action ∷ []) (W.run world.old) (W.run world.new) }
{
    let action = Abortable::new(action);
    try_abort(world, &action)?;
    try_step(world, Step::Tell(home, action.into_name()))?;
    Ok(())
}

/// Tells the outcome of an action to guardians, in rising number. Those that are down refuse it.
fn tell<W: ActivitySteps>(
    world: &mut W,
    action: &Abortable,
    guardians: &BTreeSet<u32>,
) -> Result<(), Fault>
    ensures makes { Makes (action.now ∷ []) [] (W.run world.old) (W.run world.new) }
    ensures means { OnOk result (W.alone → W.run world.new
        ≡ once_told action.now guardians.now.keys (W.run world.old)) }
    ensures failed { IfErr result (IsCause W.fails) }
    ensures over { EndOrFail W.alone W.fails []
        (W.run world.old) (W.run world.new) }
{
    for guardian in guardians {
        try_step(world, Step::Tell(*guardian, action.copy()?))?;
    }
    Ok(())
}

/// What came of a call that was answered so.
fn what_came(answer: Answer) -> Called
    requires { (names : List Name) → answer ≡ Began names → length names ≡ 1 }
    ensures { result ≡ called_by answer }
{
    match answer {
        Answer::Began(names) => Called::Began(only(names)),
        Answer::Refused(Refusal::Down | Refusal::TooDeep) => Called::Signalled,
        _ => Called::Refused,
    }
}

/// The action that an answer began: one at most.
pub(crate) fn begun_by(answer: Answer) -> Option<Name>
    requires { (names : List Name) → answer ≡ Began names → length names ≡ 1 }
    ensures { result ≡ begun_by answer }
{
    match answer {
        Answer::Began(names) => Some(only(names)),
        _ => None,
    }
}

/// Asks a guardian for its vote on a top action; whether that is yes.
pub(crate) fn prepare<W: ActivitySteps>(
    world: &mut W,
    guardian: u32,
    top: &Name,
) -> Result<bool, Fault>
    ensures makes { Makes (top.now ∷ []) [] (W.run world.old) (W.run world.new) }
    ensures after { OnOk result (W.alone
        → W.run world.new ≡ after (Prepare guardian top.now) (W.run world.old)) }
    ensures yes { IfOk result (λ yes. W.alone
        → yes ≡ is_yes (asked (Prepare guardian top.now) (W.run world.old))) }
    ensures failed { IfErr result (IsCause W.fails) }
    ensures over { EndOrFail W.alone W.fails []
        (W.run world.old) (W.run world.new) }
{
    let vote = make(world, Step::Prepare(guardian, top.copy()?))?;
    Ok(vote.is_yes())
}

/// Makes the step that aborts an action. This takes no memory.
fn try_abort<W: ActivitySteps>(world: &mut W, action: &Abortable) -> Result<(), Fault>
    ensures makes { Makes (action.now ∷ []) [] (W.run world.old) (W.run world.new) }
    ensures after { OnOk result (W.alone
        → W.run world.new ≡ after (Abort action.now) (W.run world.old)) }
    ensures failed { IfErr result W.fails }
    ensures over { EndOrFail W.alone W.fails (action.now ∷ [])
        (W.run world.old) (W.run world.new) }
{
    world.make_step(action.abort())?;
    Ok(())
}

/// Makes a step; whether it was done.
pub(crate) fn try_step<W: ActivitySteps>(world: &mut W, step: Step) -> Result<bool, Fault>
    requires step { IsOfAction step }
    ensures makes { Makes (about step) (commits_of step) (W.run world.old) (W.run world.new) }
    ensures told { IfOk result (λ done. (a : Name) → about step ≡ a ∷ [] → commits_of step ≡ a ∷ []
        → Tells done a (W.run world.old) (W.run world.new)) }
    ensures after { OnOk result (W.alone → W.run world.new ≡ after step (W.run world.old)) }
    ensures done { IfOk result (λ done. W.alone → done ≡ is_made (asked step (W.run world.old))) }
    ensures failed { IfErr result W.fails }
    ensures over { maker_in step ≡ None
        → EndOrFail W.alone W.fails [] (W.run world.old) (W.run world.new) }
{
    let answer = make(world, step)?;
    Ok(is_done(answer))
}

fn is_done(answer: Answer) -> bool
    ensures { result ≡ is_made answer }
{
    matches!(answer, Answer::Done(_))
}

/// Whether an action whose body ended so is to commit.
fn wants_commit(flow: &Flow) -> bool
    ensures { result ≡ commits flow.now }
{
    matches!(flow, Flow::Ended | Flow::Returned(_))
}

/// Adds the guardians of a set to another.
fn add_all(to: &mut BTreeSet<u32>, guardians: &BTreeSet<u32>) -> Result<(), AllocError>
    ensures { OnOk result (to.new.keys ≡ joined to.old.keys guardians.now.keys) }
{
    for guardian in guardians {
        to.insert(*guardian)?;
    }
    Ok(())
}

/// The one name.
fn only(names: Names) -> Name
    requires { length names ≡ 1 }
    ensures { names ≡ result ∷ [] }
{
    names.into_vec().pop().unwrap()
}

/// Makes a step that is about an action.
pub(crate) fn make<W: ActivitySteps>(world: &mut W, step: Step) -> Result<Answer, Fault>
    requires step { IsOfAction step }
    ensures makes { Makes (about step) (commits_of step) (W.run world.old) (W.run world.new) }
    ensures began { IfOk result
        (λ answer. Begins (about step) (commits_of step) (names_begun answer)
        (W.run world.old) (W.run world.new)) }
    ensures answered { IfOk result (IsAnswered (W.run world.old).lists step) }
    ensures after { IfOk result
        (λ answer. W.run world.new ≡ world_after (W.run world.old) step answer) }
    ensures alone { IfOk result (λ answer. W.alone → answer ≡ asked step (W.run world.old)) }
    ensures failed { IfErr result W.fails }
    ensures err { OnErr result (W.run world.new ≡ W.run world.old) }
{
    world.make_step(&step)
}
