//! What the messages of an event bring to one of the guardians that it names.
ghost use Rattle.std.specs.Prelude.{◌≡◌, ℕ, ◌==◌, List, [], ◌∷◌, map, filter, IfOk, OnOk, None, Some, IsTrue};
ghost use Rattle.run_model.specs.Actions.{crashes, home_of, names_begun};
ghost use Rattle.run_model.specs.LocalReadings.{events_here};
ghost use Rattle.run_model.specs.LocalHistories.{action_lent, aborts_from, carried_lent, counts_of_sender, dependencies_sent, dependency_there, entries_of, events_there, home_lent, life_lent, outcomes_carried, sender_lent, sender_life};
ghost use Rattle.layer_contracts.specs.Forests.{ForestState, begun_in};
ghost use Rattle.layer_contracts.specs.Guardians.{GuardianState, lent_two};
ghost use Rattle.layer_contracts.specs.Messages.{carried_of, sent_by};
ghost use Rattle.world_steps.specs.Lending.{IsOneOf, Lends, begun_lent, dependencies_two, new_two};
ghost use Rattle.world_steps.specs.Naming.{AreNamed};

use crate::lent::Lent;
use crate::names::{NamedGuardians, home_of_new};
use action_names::{Name, Names};
use layer_contracts::{EventRef, Forest, Guardian, Message, Sending};
use run_model::Step;
use std::alloc::{AllocError, Global};
use step_answers::Reads;

/// The messages of an event to the two guardians that a step is lent. Their room is used again for the next event.
#[derive(Drop)]
pub struct Messages {
    pub(crate) to_first: Message,
    pub(crate) to_second: Message,
}

impl Messages {
    /// Messages of no event. This takes no memory.
    pub fn empty(alloc: Global) -> Messages {
        Messages {
            to_first: Message::empty(alloc),
            to_second: Message::empty(alloc),
        }
    }
}

impl<'a, R: Forest, G: Guardian> Lent<'a, R, G> {
    /// Writes what the event brings to the guardian, which is one of those that are lent, over the message. The step
    /// names these.
    pub(crate) fn fill(
        &self,
        named: NamedGuardians,
        event: &EventRef<'_>,
        at: &G,
        message: &mut Message,
    ) -> Result<(), AllocError>
        requires { AreNamed (R.stands self.now.forest.now) event.now.step named }
        ensures { (f : ForestState) (a b x : GuardianState) → Lends R.stands G.stands self.now f a b
            → G.stands at.now x → IsOneOf a b x → OnOk result (carried_of f event.now message.new
            ≡ carried_lent f.opening event.now x.number f.registry (lent_two a b)) }
    {
        let sender = self.sender(named, event.step, at.number());
        message.sender = sender;
        message.life = self.life_of(sender);
        self.lists(sender, at, &mut message.aborts, &mut message.counts)?;
        message.dependencies = self.dependencies(named, event, at.number());
        self.outcomes(event.step, at, &mut message.outcomes)?;
        Ok(())
    }

    /// Whose lists the step carries to the guardian of this number.
    fn sender(&self, named: NamedGuardians, step: &Step, at: u32) -> Option<u32>
        requires { AreNamed (R.stands self.now.forest.now) step.now named }
        ensures { (f : ForestState) (a b : GuardianState) → Lends R.stands G.stands self.now f a b
            → result ≡ sender_lent step.now at f.registry (lent_two a b) }
    {
        match step {
            Step::Call(_, to) | Step::Prepare(to, _) => {
                if *to == at {
                    return Some(named.first);
                }
                None
            }
            Step::Commit(_) => {
                if named.second == at && !self.is_down(at) {
                    return Some(named.first);
                }
                None
            }
            _ => None,
        }
    }

    /// How often the guardian crashed, and 0 where it is not lent.
    pub fn crashes_at(&self, guardian: u32) -> u64
        ensures { (a b : GuardianState) → G.stands self.now.first.now a
            → G.stands self.now.second.now b
            → result ≡ crashes guardian (events_here (lent_two a b guardian)) }
    {
        match self.at(guardian) {
            Some(guardian) => guardian.crashes(),
            None => 0,
        }
    }

    /// How often the home of what the event begins has crashed. Where it begins nothing, that is not asked.
    pub(crate) fn life_of_new(&self, named: NamedGuardians, event: &EventRef<'_>) -> u64
        requires { AreNamed (R.stands self.now.forest.now) event.now.step named }
        ensures { (f : ForestState) (a b : GuardianState) → Lends R.stands G.stands self.now f a b
            → begun_in f result event.now ≡ begun_lent f a b event.now }
    {
        if event.answer.names_begun().is_empty() {
            return 0;
        }
        self.crashes_at(home_of_new(named, event.step))
    }

    fn life_of(&self, sender: Option<u32>) -> u64
        ensures { (a b : GuardianState) → G.stands self.now.first.now a
            → G.stands self.now.second.now b → result ≡ sender_life sender (lent_two a b) }
    {
        match sender {
            Some(guardian) => self.crashes_at(guardian),
            None => 0,
        }
    }

    /// Writes what the sender has not sent yet of its lists, over what another had not sent.
    fn lists(
        &self,
        sender: Option<u32>,
        at: &G,
        aborts: &mut Names,
        counts: &mut Vec<(u32, u64)>,
    ) -> Result<(), AllocError>
        ensures aborts { (f : ForestState) (a b x : GuardianState)
            → Lends R.stands G.stands self.now f a b → G.stands at.now x → IsOneOf a b x
            → OnOk result (aborts.new ≡ aborts_from sender x.number (lent_two a b)) }
        ensures counts { (f : ForestState) (a b x : GuardianState)
            → Lends R.stands G.stands self.now f a b
            → G.stands at.now x → IsOneOf a b x → OnOk result
            (counts.new.items ≡ counts_of_sender sender x.number (lent_two a b)) }
    {
        let Some(number) = sender else {
            clear_lists(self.alloc, aborts, counts);
            return Ok(());
        };
        let Some(from) = self.at(number) else {
            clear_lists(self.alloc, aborts, counts);
            return Ok(());
        };
        *aborts = from.unsent_aborts(at)?;
        *counts = from.unsent_counts(at)?;
        Ok(())
    }

    /// Of which actions the event says to the guardian of this number on what they depend.
    fn dependencies(&self, named: NamedGuardians, event: &EventRef<'_>, at: u32) -> Sending
        requires { AreNamed (R.stands self.now.forest.now) event.now.step named }
        ensures { (f : ForestState) (a b : GuardianState) → Lends R.stands G.stands self.now f a b
            → sent_by f event.now result ≡ dependencies_two f a b event.now at }
    {
        match event.step {
            Step::Commit(_) if named.second == at => Sending::OfKnown,
            Step::Prepare(to, _) if *to == at => Sending::OfKnown,
            Step::Commit(_) | Step::Prepare(..) => Sending::Nothing,
            _ => self.new_dependencies(named, event, at),
        }
    }

    fn new_dependencies(&self, named: NamedGuardians, event: &EventRef<'_>, at: u32) -> Sending
        requires { AreNamed (R.stands self.now.forest.now) event.now.step named }
        ensures { (f : ForestState) (a b : GuardianState) → Lends R.stands G.stands self.now f a b
            → sent_by f event.now result ≡ new_two f a b event.now at }
    {
        if event.answer.names_begun().is_empty() {
            // Most events begin nothing.
            return Sending::Nothing;
        }
        let home = home_of_new(named, event.step);
        if home != at {
            return Sending::Nothing;
        }
        Sending::OfNew {
            home,
            life: self.crashes_at(home),
        }
    }

    /// Writes what outcomes the step brings, over those that were brought before.
    fn outcomes(
        &self,
        step: &Step,
        at: &G,
        outcomes: &mut Vec<(Name, bool)>,
    ) -> Result<(), AllocError>
        ensures { (f : ForestState) (a b x : GuardianState) → Lends R.stands G.stands self.now f a b
            → G.stands at.now x → IsOneOf a b x
            → OnOk result (outcomes.new.items ≡ outcomes_carried step.now x.number
            (events_there f.registry) (lent_two a b x.number)) }
    {
        outcomes.clear();
        match step {
            Step::Tell(to, action) => {
                if *to == at.number() {
                    outcomes.push((action.copy()?, self.forest.is_committed(action)))?;
                }
                Ok(())
            }
            Step::Prepare(to, top) => {
                if *to == at.number() {
                    *outcomes = self.forest.outcomes_below(top, at)?;
                }
                Ok(())
            }
            _ => Ok(()),
        }
    }
}

/// Makes both lists empty. Mostly they are: a list of names that is empty stays as it is.
fn clear_lists(alloc: Global, aborts: &mut Names, counts: &mut Vec<(u32, u64)>)
    ensures aborts { aborts.new ≡ [] }
    ensures counts { counts.new.items ≡ [] }
{
    if !aborts.is_empty() {
        *aborts = Names::new(alloc);
    }
    counts.clear();
}
