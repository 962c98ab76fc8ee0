//! Keeping an event.
ghost use Rattle.std.specs.Prelude.{◌≡◌, IfOk, OnErr, IsFalse, IsTrue};
ghost use Rattle.run_model.specs.Actions.{step_crashes};
ghost use Rattle.layer_contracts.specs.Guardians.{GuardianState, IsNext, by_itself};
ghost use Rattle.layer_contracts.specs.Messages.{is_operation};
ghost use Rattle.volatile_state.specs.Memories.{IsSound};
ghost use Rattle.volatile_state.specs.Plans.{AreRecorded, FitsPlan, Follows, FollowsWhere, IsPlanned, IsPlannedWhere, Operated};

use crate::memory::Memory;
use crate::plan::Plan;
use holders::Survivors;
use layer_contracts::{Draw, EventRef};
use run_model::Step;
use std::alloc::AllocError;

impl Memory {
    /// Follows an event that is neither an operation nor a crash of the guardian. This cannot fail. Nothing is said
    /// of what is left in the plan.
    pub fn keep(&mut self, plan: &mut Plan, event: &EventRef<'_>, stamp: u64)
        requires fits { FitsPlan plan.old self.old }
        requires planned { IsPlanned plan.old self.old event.now }
        requires other { IsFalse (is_operation event.now.step) }
        requires up { IsFalse (step_crashes event.now.step self.old.number) }
        ensures { Follows plan.old self.old event.now stamp self.new }
    {
        self.told.hear(&mut plan.heard);
        self.lists.learn(&mut plan.lesson);
        self.roster.enter(&mut plan.entry);
        self.objects.tell(&mut plan.planned);
    }

    /// The guardian crashes: it forgets its lists, what it was told but for commits, and of its objects all but the
    /// base and what the survivors wrote and added. It stands in the state that follows wherever the survivors are
    /// the top actions of which the store has a record. This cannot fail.
    pub fn crash<S: Survivors>(
        &mut self,
        plan: &mut Plan,
        event: &EventRef<'_>,
        stamp: u64,
        survivors: &S,
    )
        requires fits { FitsPlan plan.old self.old }
        requires planned { IsPlannedWhere (AreRecorded (λ a. S.stays survivors.now a)) plan.old
            self.old event.now }
        requires down { IsTrue (step_crashes event.now.step self.old.number) }
        ensures { FollowsWhere (AreRecorded (λ a. S.stays survivors.now a)) plan.old self.old
            event.now stamp self.new }
    {
        let alloc = self.alloc;
        self.told.crash(&mut plan.heard);
        self.lists.crash(alloc);
        self.roster.enter(&mut plan.entry);
        self.objects.crash(survivors);
    }

    /// Makes an operation on its object, and follows it with the stamp that is drawn then. No message comes with it,
    /// and nothing changes beside the object. Fails only if memory runs out.
    pub fn operate<D: Draw>(
        &mut self,
        event: &EventRef<'_>,
        stamp: &mut D,
    ) -> Result<u64, AllocError>
        requires stamp { D.may_draw stamp.old }
        requires operation { IsTrue (is_operation event.now.step) }
        requires next { (s : GuardianState) × IsSound self.old s × IsNext s (by_itself event.now) }
        ensures ok { IfOk result (λ n. D.draws stamp.old n stamp.new) }
        ensures undrawn { OnErr result (stamp.new ≡ stamp.old) }
        ensures kept { IfOk result (λ n. Operated self.old event.now n self.new) }
        ensures err { OnErr result ((s : GuardianState) → IsSound self.old s → IsSound self.new s) }
    {
        let Step::Op(action, object, operation) = event.step else {
            unreachable!();
        };
        self.objects.grant(action, object.number, operation)?;
        Ok(stamp.draw())
    }
}
