//! Making room for an event.
ghost use Rattle.std.specs.Prelude.{◌≡◌, [], OnOk, IsTrue};
ghost use Rattle.atomic_object.specs.Staying.{OutcomesRise};
ghost use Rattle.run_model.specs.Actions.{names_begun};
ghost use Rattle.run_model.specs.Runs.{is_accepted};
ghost use Rattle.local_laws.specs.Owed.{IsOwed};
ghost use Rattle.guardian_laws.specs.Laws.{Agrees};
ghost use Rattle.layer_contracts.specs.Forests.{ForestState};
ghost use Rattle.layer_contracts.specs.Guardians.{GuardianState, IsNext, by_itself};
ghost use Rattle.layer_contracts.specs.Messages.{is_turn, local_event, news_in};
ghost use Rattle.volatile_state.specs.Memories.{IsSound};
ghost use Rattle.volatile_state.specs.Plans.{FitsMessage, FitsPlan, HasMessage, IsPlanOf};

use crate::memory::Memory;
use crate::plan::Plan;
use layer_contracts::{EventRef, Lineage, Message};
use orphans::News;
use std::alloc::AllocError;
use std::mem;

impl Memory {
    /// Makes room for an event, and writes what it changes into a plan, over what that was for before. The outcomes
    /// that the message brings change places with those of the plan before. With memory and without, the memory
    /// stands where it stood. The plan is for the event in each state whose history it agrees with, where the event
    /// brings what that history asks of it. If memory runs out, or one more crash could not be counted, it fails, and
    /// the plan may hold anything.
    pub fn plan<L: Lineage>(
        &mut self,
        lineage: &L,
        event: &EventRef<'_>,
        message: &mut Message,
        plan: &mut Plan,
    ) -> Result<(), AllocError>
        requires accepted { IsTrue (is_accepted event.now.answer) }
        requires rising { OutcomesRise message.old.outcomes.items }
        ensures same { (s : GuardianState) → IsSound self.old s → IsSound self.new s }
        ensures fits { OnOk result (FitsPlan plan.new self.new) }
        ensures planned { OnOk result ((s : GuardianState) (f : ForestState) → IsSound self.old s
            → L.is_of lineage.now f
            → IsOwed s.opening s.number (local_event f event.now message.old) s.past event.now.step
            → Agrees s.opening s.number (local_event f event.now message.old) s.past
            → IsPlanOf plan.new self.new s (news_in f event.now message.old)) }
    {
        mem::swap(&mut plan.outcomes, &mut message.outcomes);
        self.plan_message(message, plan)?;
        let sending = message.dependencies;
        self.roster
            .plan(&mut self.places, event, lineage, sending, &mut plan.entry)
    }

    /// The same for a crash or a recovery, which begins nothing, and with which no message comes.
    pub fn plan_turn(&mut self, event: &EventRef<'_>, plan: &mut Plan) -> Result<(), AllocError>
        requires turn { IsTrue (is_turn event.now.step) }
        requires begins { names_begun event.now.answer ≡ [] }
        requires accepted { IsTrue (is_accepted event.now.answer) }
        ensures same { (s : GuardianState) → IsSound self.old s → IsSound self.new s }
        ensures fits { OnOk result (FitsPlan plan.new self.new) }
        ensures planned { OnOk result ((s : GuardianState) → IsSound self.old s
            → IsNext s (by_itself event.now)
            → IsPlanOf plan.new self.new s (by_itself event.now)) }
    {
        plan.outcomes.clear();
        let nothing = Message::empty(self.alloc);
        self.plan_message(&nothing, plan)?;
        self.roster.plan_turn(event, &mut plan.entry);
        Ok(())
    }

    // Plans what the message brings beside dependencies. Its outcomes stand in the plan already.
    fn plan_message(&mut self, message: &Message, plan: &mut Plan) -> Result<(), AllocError>
        requires { OutcomesRise plan.old.outcomes.items }
        ensures same { (s : GuardianState) → IsSound self.old s → IsSound self.new s }
        ensures fits { OnOk result (FitsMessage plan.new self.new) }
        ensures planned { OnOk result ((s : GuardianState) → IsSound self.old s
            → HasMessage plan.new self.new s message.now plan.old.outcomes.items) }
    {
        if self.roster.crashes() == u64::MAX {
            return Err(AllocError);
        }
        let outcomes = plan.outcomes.as_slice();
        let news = News {
            sender: message.sender,
            life: message.life,
            aborts: &message.aborts,
            counts: message.counts.as_slice(),
            outcomes,
        };
        self.objects
            .plan(outcomes, &self.places, &self.told, &mut plan.planned)?;
        self.told.plan(&mut self.places, outcomes, &mut plan.heard)?;
        self.lists.plan_lesson(self.alloc, news, &mut plan.lesson)?;
        plan.sender = message.sender;
        Ok(())
    }
}
