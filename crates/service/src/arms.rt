//! Arms of an action that run at once, each in a thread of its own.
ghost use Rattle.std.specs.Prelude.{◌≡◌, List, OnErr, OnOk};
ghost use Rattle.run_model.specs.declared.history.Event.{Event};
ghost use Rattle.stepping.specs.Beside.{started};
ghost use Rattle.service.specs.Arms.{HaveRun, any_step};
ghost use Rattle.service.specs.Transacting.{Goes};

use crate::service::Service;
use layer_contracts::Fault;
use std::thread::{Threads, join_mut};
use stepping::MakesOwnSteps;

/// What runs in a thread of its own, and makes its steps by a maker of its own.
pub trait Arm<W: MakesOwnSteps + Drop> {
    ghost use Rattle.service.specs.Arms.{ArmDoes};
    ghost use Rattle.stepping.specs.Beside.{OwnRun};

    /// That it may run from this run on.
    ghost may_run: { Self → OwnRun → Type 0 };

    /// That it borrows what it borrowed before.
    ghost keeps: { Self → Self → Type 0 };

    /// That it ran from a run on, and how it and its run are then.
    ghost does: { ArmDoes Self };

    /// Runs from what has happened so far.
    fn run(&mut self, service: &mut Service<W>)
        requires { may_run self.old (W.run service.old.world) }
        ensures keeps { keeps self.old self.new }
        ensures goes { ∥ Goes W.sees any_step (W.run service.old.world)
            (W.run service.new.world) ∥₁ }
        ensures does { does self.old (W.run service.old.world) self.new (W.run service.new.world) };
}

/// Makes the steps of one caller, and gives arms that run at once makers of their own.
pub trait RunsArms: MakesOwnSteps + Drop + Send + Sized {
    ghost use Rattle.std.specs.Prelude.{◌≡◌, IfOk, List};
    ghost use Rattle.run_model.specs.declared.history.Event.{Event};
    ghost use Rattle.stepping.specs.Beside.{started};
    ghost use Rattle.service.specs.Arms.{AreJoined, any_step};
    ghost use Rattle.service.specs.Transacting.{Goes};

    /// Starts the threads in which arms run.
    type Handle: Threads;

    /// Where the events of the caller and of its starters stand: the run of all callers as it was after each of them.
    ghost stand: { Self → List (List Event) };

    /// What starts the threads in which arms run.
    fn threads(&self) -> &Self::Handle;

    /// A maker of steps for an arm, which has the caller's events so far. After an error there is none.
    fn arm(&mut self) -> Result<Self, Fault>
        ensures arm { IfOk result
            (λ arm. Self.run arm ≡ started (Self.run self.old) (stand self.old)) }
        ensures run { Self.run self.new ≡ Self.run self.old }
        ensures stand { stand self.new ≡ stand self.old };

    /// Takes in what two arms did that began with what the caller has.
    fn join(&mut self, one: Self, other: Self)
        requires one { ∥ Goes Self.sees any_step (started (Self.run self.old) (stand self.old))
            (Self.run one) ∥₁ }
        requires other { ∥ Goes Self.sees any_step (started (Self.run self.old) (stand self.old))
            (Self.run other) ∥₁ }
        ensures { ∥ AreJoined Self.sees (Self.run self.old) (stand self.old) (Self.run one)
            (Self.run other) (Self.run self.new) ∥₁ };
}

/// Runs both arms at once. For each there is a maker of its own, which has the caller's events so far. The caller
/// has the events of both afterwards. After an error neither has run.
pub(crate) fn run_arms<W: RunsArms, A: Arm<W> + Send, B: Arm<W> + Send>(
    world: &mut W,
    one: &mut A,
    other: &mut B,
) -> Result<(), Fault>
    requires one { (since : List (List Event))
        → A.may_run one.old (started (W.run world.old) since) }
    requires other { (since : List (List Event))
        → B.may_run other.old (started (W.run world.old) since) }
    ensures run { OnOk result (HaveRun W.sees A.does B.does (W.run world.old) (W.run world.new)
        one.old one.new other.old other.new) }
    ensures one_keeps { OnOk result (A.keeps one.old one.new) }
    ensures other_keeps { OnOk result (B.keeps other.old other.new) }
    ensures err { OnErr result (W.run world.new ≡ W.run world.old) }
    ensures one { OnErr result (one.new ≡ one.old) }
    ensures other { OnErr result (other.new ≡ other.old) }
{
    let mut first = Service::over(world.arm()?);
    let mut second = Service::over(world.arm()?);
    run_beside(world.threads(), one, &mut first, other, &mut second);
    world.join(first.world, second.world);
    Ok(())
}

/// Runs two arms at once, each by its own maker of steps. If no thread can be made, one runs after the other.
fn run_beside<H: Threads, W: MakesOwnSteps + Drop + Send, A: Arm<W> + Send, B: Arm<W> + Send>(
    rt: &H,
    one: &mut A,
    first: &mut Service<W>,
    other: &mut B,
    second: &mut Service<W>,
)
    requires one { A.may_run one.old (W.run first.old.world) }
    requires other { B.may_run other.old (W.run second.old.world) }
    ensures one_goes { ∥ Goes W.sees any_step (W.run first.old.world) (W.run first.new.world) ∥₁ }
    ensures one_does { A.does one.old (W.run first.old.world) one.new (W.run first.new.world) }
    ensures one_keeps { A.keeps one.old one.new }
    ensures other_goes { ∥ Goes W.sees any_step (W.run second.old.world)
        (W.run second.new.world) ∥₁ }
    ensures other_does { B.does other.old (W.run second.old.world) other.new
        (W.run second.new.world) }
    ensures other_keeps { B.keeps other.old other.new }
{
    join_mut(rt, &mut || one.run(first), &mut || other.run(second));
}
