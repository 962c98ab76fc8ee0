//! What an event asks of the guardian's store.
ghost use Rattle.std.specs.Prelude.{◌≡◌, ◌∷◌, Bool, true, not, IfOk, IsOk, IsTrue, IsFalse, OnOk};
ghost use Rattle.run_model.specs.declared.step.Step.TheVariants as steps;
ghost use Rattle.run_model.specs.LocalReadings.{outcome_in, says_committed};
ghost use Rattle.stable_store.specs.Calls.{Makes};
ghost use Rattle.stable_store.specs.Stored.{Stored, after_bump};
ghost use Rattle.guardian_laws.specs.Stored.{after_event, asks_store, has_record};
ghost use Rattle.layer_contracts.specs.Guardians.{GuardianState, News, stamped};
ghost use Rattle.volatile_state.specs.Memories.{IsSound};
ghost use Rattle.volatile_state.specs.Plans.{IsPlanOf};
ghost use Rattle.guardian.specs.Guardians.{IsPlannedHere, WhereverPlanned};
ghost use Rattle.run_model.specs.Votes.{is_yes};
ghost use Rattle.guardian.specs.Writes.{is_nothing, is_recovery, told_stored, written};

use crate::records::recorded_in;
use atomic_types::Part;
use holders::Survivors;
use layer_contracts::EventRef;
use run_model::{Answer, Name, Step};
use stable_store::{Stable, StoreFault};
use std::alloc::{AllocError, Global};
use std::collections::BTreeMap;
use volatile_state::{Memory, Plan};

/// What an event asks of the store. Top actions go by their numbers.
#[derive(Drop)]
pub(crate) enum Write {
    Nothing,
    Prepare {
        top: u32,
        home: u32,
        parts: BTreeMap<u32, Part>,
    },
    Install(u32),
    Discard(u32),
    Decide(u32),
    /// That the content can be read, and then that the recovery is counted.
    Recover,
}

impl Write {
    /// What the event asks for, read before anything changes. Fails only if memory runs out.
    pub(crate) fn of<S: Stable>(
        memory: &Memory,
        plan: &Plan,
        store: &S,
        event: &EventRef<'_>,
    ) -> Result<Write, AllocError>
        requires { IsPlannedHere S.seen
            (record { memory = memory.now; plan = plan.now; store = store.now }) event.now }
        ensures written { WhereverPlanned S.seen
            (record { memory = memory.now; plan = plan.now; store = store.now }) event.now
            (λ s news. IfOk result (λ write. written write (S.seen store.now).content
            ≡ after_event s.opening s.number (stamped 0 news) s.past (S.seen store.now).content)) }
        ensures asked { WhereverPlanned S.seen
            (record { memory = memory.now; plan = plan.now; store = store.now }) event.now
            (λ s news. IfOk result (λ write. is_nothing write
            ≡ not (asks_store s.number (stamped 0 news) (S.seen store.now).content))) }
    {
        let number = memory.number();
        match event.step {
            Step::Prepare(voter, top) if *voter == number => {
                Write::of_vote(memory, plan, event.answer, top)
            }
            Step::Tell(told, action) if *told == number => Ok(Write::of_telling(
                store, plan, action,
            )),
            Step::Decide(top) if top.is_top() => Ok(Write::Decide(top.last())),
            Step::Recover(guardian) if *guardian == number => Ok(Write::Recover),
            _ => Ok(Write::Nothing),
        }
    }

    // A yes vote prepares what the top action will hold.
    fn of_vote(
        memory: &Memory,
        plan: &Plan,
        answer: &Answer,
        top: &Name,
    ) -> Result<Write, AllocError>
        requires { (s : GuardianState) × (news : News) × IsSound memory.now s
            × IsPlanOf plan.now memory.now s news }
        ensures written { (s : GuardianState) (news : News) → IsSound memory.now s
            → IsPlanOf plan.now memory.now s news
            → news.event ≡ record { step = steps.Prepare s.number top.now; answer = answer.now }
            → (held : Stored) → IfOk result (λ write. written write held
            ≡ after_event s.opening s.number (stamped 0 news) s.past held) }
        ensures asked { IfOk result (λ write. is_nothing write ≡ not (is_yes answer.now)) }
    {
        match answer {
            Answer::VoteYes => Ok(Write::Prepare {
                top: top.last(),
                home: plan.sender().unwrap_or(0),
                parts: memory.parts(top, plan)?,
            }),
            _ => Ok(Write::Nothing),
        }
    }

    // A telling installs or discards what its top action has prepared.
    fn of_telling<S: Stable>(store: &S, plan: &Plan, action: &Name) -> Write
        requires found { (S.seen store.now).holds_content ≡ true }
        ensures written { written result (S.seen store.now).content
            ≡ told_stored action.now
            (says_committed (outcome_in plan.now.outcomes.items action.now))
            (S.seen store.now).content }
        ensures asked { is_nothing result ≡ not (has_record (S.seen store.now).content action.now) }
    {
        if !recorded_in(store).stays(action) {
            return Write::Nothing;
        }
        if is_committed(plan.outcomes(), action) {
            Write::Install(action.last())
        } else {
            Write::Discard(action.last())
        }
    }

    /// Makes the call of the store, if there is one. It makes its whole change or none.
    pub(crate) fn perform<S: Stable>(self, alloc: Global, store: &mut S) -> Result<(), StoreFault>
        ensures none { IsTrue (is_nothing self) → (store.new ≡ store.old) × IsOk result }
        ensures makes { IsFalse (is_nothing self) → Makes (S.seen store.old) (S.seen store.new)
            (Unit {0}) (written self (S.seen store.old).content) result }
        ensures read { IsTrue (is_recovery self) → OnOk result S.read }
    {
        match self {
            Write::Nothing => Ok(()),
            Write::Prepare { top, home, parts } => store.prepare(alloc, top, home, parts),
            Write::Install(top) => store.install(alloc, top),
            Write::Discard(top) => store.discard(top),
            Write::Decide(top) => store.decide(top),
            Write::Recover => recover(alloc, store),
        }
    }
}

// Reads the content, and then counts the recovery.
fn recover<S: Stable>(alloc: Global, store: &mut S) -> Result<(), StoreFault>
    ensures makes { Makes (S.seen store.old) (S.seen store.new) (Unit {0})
        (after_bump (S.seen store.old).content) result }
    ensures read { OnOk result S.read }
{
    match store.load(alloc) {
        Ok(content) => {
            drop(content);
            store.bump()
        }
        Err(fault) => Err(fault),
    }
}

// Whether the first of the outcomes that names the action says that it committed.
fn is_committed(outcomes: &[(Name, bool)], action: &Name) -> bool
    ensures { result ≡ says_committed (outcome_in outcomes.now action.now) }
{
    for (told, committed) in outcomes {
        if told == action {
            return *committed;
        }
    }
    false
}
