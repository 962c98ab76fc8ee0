//! Outcomes of actions, which the objects are told.
ghost use Rattle.std.specs.Prelude.{◌≡◌, ◌≤◌, ◌&&◌, ◌↔◌, ◌∷◌, [], ℕ, Bool, List, length, IsTrue, IsFalse, IsSome, IfOk, OnOk, MatchOption, Some, None};
ghost use Rattle.std.specs.Option.{IfSome, option_copied as name_of};
ghost use Rattle.action_names.specs.Names.{Name, is_ancestor, parent_of};
ghost use Rattle.run_model.specs.LocalReadings.{LocalEvent, told_committed_here};
ghost use Rattle.run_model.specs.Openings.{Opening};
ghost use Rattle.run_model.specs.Telling.{holder_by};
ghost use Rattle.atomic_object.specs.Staying.{OutcomesRise};
ghost use Rattle.guardian_index.specs.Held.{IsRising, has_number, objects_at};
ghost use Rattle.tellings.specs.Hearing.{AreTold};
ghost use Rattle.guardian_objects.specs.Objects.{AreObjects, AreSome, Keeps, index_of, object_at};
ghost use Rattle.guardian_objects.specs.Outcomes.{ArePlanned, Fits, HasIndexRoom, HasRoomFor, IsHearing, OnlyTells, is_alone, outcomes_of};
ghost use Rattle.guardian_objects.specs.Turns.{Aborts, AreChanged, Commits, Has, HasRoomAt, HasRoomOf, Hears, IsHeard, IsReady, IsRoomier, KeepsReady, MayCommitAt};

use crate::objects::Objects;
use action_names::Name;
use places::Places;
use std::alloc::{AllocError, Global};
use std::mem;
use tellings::Tellings;

/// One outcome: which objects it concerns, and for a commit the next holder.
#[derive(Drop)]
pub(crate) struct Telling {
    pub(crate) action: Name,
    pub(crate) committed: bool,
    /// To whom what the action holds is handed on; nobody where that is the base, or the action aborted.
    pub(crate) to: Option<Name>,
    /// The objects that it concerns, rising, each with a copy of the next holder's name.
    pub(crate) at: Vec<(u32, Option<Name>)>,
}

/// Outcomes that are to be told, in copies, for which there is room. Its own room is used again for the next ones.
#[derive(Drop)]
pub struct Planned {
    pub(crate) tellings: Vec<Telling>,
    pub(crate) room: Room,
}

/// Room for the objects that one outcome concerns.
#[derive(Drop)]
pub(crate) struct Room {
    numbers: Vec<u32>,
    at: Vec<(u32, Option<Name>)>,
}

// What is there, with nothing in it.
fn emptied(alloc: Global, room: &mut Vec<(u32, Option<Name>)>) -> Vec<(u32, Option<Name>)>
    ensures { result.items ≡ [] }
{
    let mut at = mem::replace(room, Vec::new(alloc));
    at.clear();
    at
}

impl Planned {
    /// No outcomes. This takes no memory.
    pub fn new(alloc: Global) -> Planned
        ensures { outcomes_of result.tellings.items ≡ [] }
    {
        Planned {
            tellings: Vec::new(alloc),
            room: Room {
                numbers: Vec::new(alloc),
                at: Vec::new(alloc),
            },
        }
    }
}

impl Objects {
    /// Copies outcomes, which rise by name, in place of those that were to be told, finds the next holders, and makes
    /// room for what they are handed. Whether or not there is memory for it, the objects are those of the same
    /// history.
    pub fn plan(
        &mut self,
        outcomes: &[(Name, bool)],
        places: &Places,
        told: &Tellings,
        planned: &mut Planned,
    ) -> Result<(), AllocError>
        requires shown { AreSome self.old }
        requires rising { OutcomesRise outcomes.now }
        ensures same { Keeps self.old self.new }
        ensures guardian { self.new.guardian ≡ self.old.guardian }
        ensures count { length self.new.objects ≡ length self.old.objects }
        ensures fits { OnOk result (Fits self.new planned.new.tellings.items) }
        ensures outcomes { OnOk result (outcomes_of planned.new.tellings.items ≡ outcomes.now) }
        ensures planned { OnOk result ((g : ℕ) (here : List LocalEvent)
            → AreTold g here places.now told.now → ArePlanned here planned.new.tellings.items) }
    {
        planned.tellings.clear();
        let alone = is_alone(outcomes);
        for (action, committed) in outcomes {
            let before = planned.tellings.last();
            let room = &mut planned.room;
            let telling = self.plan_one(action, *committed, alone, before, places, told, room)?;
            planned.tellings.push(telling)?;
        }
        Ok(())
    }

    /// Tells the objects the outcomes that an event brings, the last of them first, so that descendants come before
    /// their ancestors. It looks at the objects alone that the outcomes concern. This cannot fail.
    pub fn tell(&mut self, planned: &mut Planned)
        requires fits { Fits self.old planned.old.tellings.items }
        requires heard { IsHearing self.old planned.old.tellings.items }
        ensures told { (opening : Opening) (here : List LocalEvent) (c : LocalEvent)
            → AreObjects opening here self.old → ArePlanned here planned.old.tellings.items
            → outcomes_of planned.old.tellings.items ≡ c.carried.outcomes → OnlyTells c here
            → AreObjects opening (c ∷ here) self.new }
        ensures guardian { self.new.guardian ≡ self.old.guardian }
        ensures count { length self.new.objects ≡ length self.old.objects }
    {
        while let Some(telling) = planned.tellings.pop() {
            planned.room.at = self.tell_one(telling);
        }
    }
}

// Making room.
impl Objects {
    // Copies one outcome, and makes room for what the next holder is handed, where it is told alone or with others,
    // of which this one was planned before.
    fn plan_one(
        &mut self,
        action: &Name,
        committed: bool,
        alone: bool,
        before: Option<&Telling>,
        places: &Places,
        told: &Tellings,
        room: &mut Room,
    ) -> Result<Telling, AllocError>
        requires shown { AreSome self.old }
        requires before { IfSome (name_of before) (λ t. HasRoomFor alone self.old t) }
        ensures roomier { IsRoomier self.old self.new }
        ensures room { IfOk result (λ telling. HasRoomFor alone self.new telling) }
        ensures action { IfOk result (λ telling. telling.action ≡ action.now) }
        ensures committed { IfOk result (λ telling. telling.committed ≡ committed) }
        ensures next { IfOk result (λ telling. (g : ℕ) (here : List LocalEvent)
            → AreTold g here places.now told.now → IsTrue committed
            → telling.to ≡ holder_by (λ b. told_committed_here b here) (parent_of action.now)) }
    {
        let to = next_holder(action, committed, places, told)?;
        let at = self.make_room(action, committed, to.as_ref(), alone, before, room)?;
        let copy = action.copy()?;
        Ok(Telling {
            action: copy,
            committed,
            to,
            at,
        })
    }

    // Makes room for what the next holder is handed of what the action holds, and gives the objects that the outcome
    // concerns.
    fn make_room(
        &mut self,
        action: &Name,
        committed: bool,
        to: Option<&Name>,
        alone: bool,
        before: Option<&Telling>,
        room: &mut Room,
    ) -> Result<Vec<(u32, Option<Name>)>, AllocError>
        requires shown { AreSome self.old }
        requires before { IfSome (name_of before) (λ t. HasRoomFor alone self.old t) }
        requires next { IsFalse committed → name_of to ≡ None }
        ensures roomier { IsRoomier self.old self.new }
        ensures room { IfOk result
            (λ at. HasRoomAt alone committed self.new action.now (name_of to.entry) at.items) }
    {
        self.concerned(action, committed, alone, &mut room.numbers)?;
        self.make_index_room(action, to, alone, before, room.numbers.len())?;
        let mut at = emptied(self.alloc, &mut room.at);
        for &number in &room.numbers {
            at.push((number, self.make_room_at(number, to)?))?;
        }
        Ok(at)
    }

    // Writes down the objects that the outcome concerns, rising, in place of others. Where it is a commit that is told
    // alone, nobody else's row is looked at.
    fn concerned(
        &self,
        action: &Name,
        committed: bool,
        alone: bool,
        numbers: &mut Vec<u32>,
    ) -> Result<(), AllocError>
        ensures has { OnOk result ((n : ℕ) → IsTrue (has_number numbers.new.items n)
            ↔ Has (alone && committed) self.now.held action.now n) }
        ensures own { OnOk result (IsTrue (alone && committed)
            → numbers.new.items ≡ objects_at self.now.held action.now) }
        ensures rising { OnOk result (IsRising numbers.new.items) }
    {
        if alone && committed {
            numbers.clear();
            numbers.extend_from_slice(self.held.objects_of(action))?;
        } else {
            *numbers = self.held.objects_below(action)?;
        }
        Ok(())
    }

    // Makes room in the index for what the next holder is handed. Told alone, the action hands on what it has, of
    // which there is so much. Of those that are told together, siblings mostly come one after the other, and room is
    // made with their parent once.
    fn make_index_room(
        &mut self,
        action: &Name,
        to: Option<&Name>,
        alone: bool,
        before: Option<&Telling>,
        count: usize,
    ) -> Result<(), AllocError>
        requires before { IfSome (name_of before) (λ t. HasRoomFor alone self.old t) }
        requires count { IsTrue alone
            → IfSome (name_of to) (λ h. count ≡ length (objects_at self.old.held action.now)) }
        ensures roomier { IsRoomier self.old self.new }
        ensures objects { self.new.objects ≡ self.old.objects }
        ensures room { OnOk result
            (IfSome (name_of to.entry) (λ h. HasIndexRoom alone self.new action.now h)) }
    {
        let Some(next) = to else {
            return Ok(());
        };
        if alone {
            return self.held.make_room_for(next, count);
        }
        if goes_to(before, next) {
            return Ok(());
        }
        self.held.make_room_below(next)
    }

    // Makes room for the next holder at the object of this number, and copies its name.
    fn make_room_at(&mut self, number: u32, to: Option<&Name>) -> Result<Option<Name>, AllocError>
        requires { (1 ≤ number) × (number ≤ length self.old.objects) }
        ensures roomier { IsRoomier self.old self.new }
        ensures index { index_of self.new ≡ index_of self.old }
        ensures copied { IfOk result (λ next. next ≡ name_of to.entry) }
        ensures room { OnOk result (HasRoomOf self.new (name_of to.entry) number) }
    {
        let Some(next) = to else {
            return Ok(None);
        };
        self.objects[number as usize - 1].make_room(next)?;
        Ok(Some(next.copy()?))
    }
}

// Whether there is one outcome, which is told alone.
fn is_alone(outcomes: &[(Name, bool)]) -> bool
    ensures { result ≡ is_alone outcomes.now }
{
    outcomes.len() == 1
}

// Whether what the telling hands on goes to this holder.
fn goes_to(telling: Option<&Telling>, holder: &Name) -> bool
    ensures { IsTrue result → MatchOption telling.entry ⊥ (λ t. t.now.to ≡ Some holder.now) }
{
    let Some(telling) = telling else {
        return false;
    };
    match &telling.to {
        Some(next) => next == holder,
        None => false,
    }
}

// To whom an action that committed hands on what it holds.
fn next_holder(
    action: &Name,
    committed: bool,
    places: &Places,
    told: &Tellings,
) -> Result<Option<Name>, AllocError>
    ensures none { IfOk result (λ to. IsFalse committed → to ≡ None) }
    ensures next { IfOk result
        (λ to. (g : ℕ) (here : List LocalEvent)
        → AreTold g here places.now told.now → IsTrue committed
        → to ≡ holder_by (λ b. told_committed_here b here) (parent_of action.now)) }
{
    if !committed {
        return Ok(None);
    }
    told.next_holder(places, action)
}

// Telling one outcome.
impl Objects {
    // Tells it, and gives the room back in which its objects stood.
    fn tell_one(&mut self, telling: Telling) -> Vec<(u32, Option<Name>)>
        requires ready { (alone : Bool) × IsReady alone self.old telling }
        requires heard { IsHeard self.old telling }
        ensures told { Hears telling self.old self.new }
        ensures ready { KeepsReady telling self.old self.new }
        ensures guardian { self.new.guardian ≡ self.old.guardian }
        ensures count { length self.new.objects ≡ length self.old.objects }
    {
        if telling.committed {
            self.hand_on(telling)
        } else {
            self.drop_below(telling)
        }
    }

    // Hands on what the action holds.
    fn hand_on(&mut self, telling: Telling) -> Vec<(u32, Option<Name>)>
        requires committed { IsTrue telling.committed }
        requires ready { (alone : Bool) × IsReady alone self.old telling }
        requires heard { IsHeard self.old telling }
        ensures told { Hears telling self.old self.new }
        ensures ready { KeepsReady telling self.old self.new }
        ensures guardian { self.new.guardian ≡ self.old.guardian }
        ensures count { length self.new.objects ≡ length self.old.objects }
    {
        let Telling {
            action,
            to,
            mut at,
            ..
        } = telling;
        // It has numbers, as its depth says.
        let _depth = action.depth();
        while let Some((number, next)) = at.pop() {
            self.hand_on_at(number, &action, next);
        }
        self.held.hand_on(&action, to);
        at
    }

    // Hands on what the action holds at the object of this number.
    fn hand_on_at(&mut self, number: u32, action: &Name, to: Option<Name>)
        requires named { IsTrue (is_ancestor action.now action.now) }
        requires there { MayCommitAt self.old.objects action.now to number }
        ensures objects { AreChanged (Commits action.now to) (number ∷ [])
            self.old.objects self.new.objects }
        ensures guardian { self.new.guardian ≡ self.old.guardian }
        ensures index { index_of self.new ≡ index_of self.old }
    {
        self.objects[number as usize - 1].told_commit(action, to);
    }

    // Drops what the action and its descendants hold.
    fn drop_below(&mut self, telling: Telling) -> Vec<(u32, Option<Name>)>
        requires aborted { IsFalse telling.committed }
        requires ready { (alone : Bool) × IsReady alone self.old telling }
        requires heard { IsHeard self.old telling }
        ensures told { Hears telling self.old self.new }
        ensures ready { KeepsReady telling self.old self.new }
        ensures guardian { self.new.guardian ≡ self.old.guardian }
        ensures count { length self.new.objects ≡ length self.old.objects }
    {
        let Telling { action, mut at, .. } = telling;
        // It has numbers, as its depth says.
        let _depth = action.depth();
        while let Some((number, _)) = at.pop() {
            self.drop_below_at(number, &action);
        }
        self.held.drop_below(&action);
        at
    }

    // Drops what the action and its descendants hold at the object of this number.
    fn drop_below_at(&mut self, number: u32, action: &Name)
        requires named { IsTrue (is_ancestor action.now action.now) }
        requires there { IsSome (object_at self.old.objects number) }
        ensures objects { AreChanged (Aborts action.now) (number ∷ [])
            self.old.objects self.new.objects }
        ensures guardian { self.new.guardian ≡ self.old.guardian }
        ensures held { self.new.held ≡ self.old.held }
    {
        self.objects[number as usize - 1].told_abort(action);
    }
}
