//! Actions by name, and how their guardian stands.
ghost use Rattle.std.specs.Prelude.{◌≡◌, ◌+◌, ◌<◌, ◌^◌, [], ◌∷◌, ℕ, List, false, get_or, length, IfOk, OnOk, IsTrue, None, Some, true, vec_capacity, vec_len};
ghost use Rattle.std.specs.FinMap as map;
ghost use Rattle.std.specs.Option.{option_and_then, option_map};
ghost use Rattle.action_names.specs.Deps.{lesser};
ghost use Rattle.action_names.specs.Names.{Name};
ghost use Rattle.places.specs.Placed.{AreMore, place_in};
ghost use Rattle.run_model.specs.declared.history.Event.{Event};
ghost use Rattle.run_model.specs.Actions.{begins, crashes, home_in, is_begun, is_busy, is_done, is_down, is_gone, maker_in, names_begun};
ghost use Rattle.run_model.specs.LocalReadings.{LocalEvent, dependency_here, events_here, is_at_home, least_of};
ghost use Rattle.run_model.specs.Openings.{Held};
ghost use Rattle.run_model.specs.Reopening.{life_before};
ghost use Rattle.run_model.specs.StableContent.{Prepared};
ghost use Rattle.run_model.specs.declared.step.Step.TheVariants.{Commit};
ghost use Rattle.guardian_laws.specs.Actions.{AgreesOnActions};
ghost use Rattle.layer_contracts.specs.Forests.{ForestState};
ghost use Rattle.layer_contracts.specs.Messages.{is_turn, sent_by};

use crate::brought::{came_of, known_of};
use crate::entry::{Birth, Concerned, Entry, Row, Turn, concerns_none, turn_in};
use layer_contracts::{Lineage, Sending};
use places::{Places, Rows};
use run_model::{Deps, EventRef, Name, Step};
use std::alloc::{AllocError, Global};

/// Which actions are at home at one guardian, and what the guardian's own history says of them and of itself. The
/// actions have places, which each call that names one is lent.
#[derive(Drop)]
pub struct Roster {
    alloc: Global,
    guardian: u32,
    crashes: u64,
    down: bool,
    /// In the order in which the actions began.
    rows: Vec<Row>,
    /// The places of the rows, by the places of the names.
    at: Rows<usize>,
}

impl Roster {
    ghost use Rattle.roster.specs.Entries.{FitsEntry, IsEntry};
    ghost use Rattle.roster.specs.Rosters.{IsRoster, crashes_of};
    ghost use Rattle.roster.specs.Tables.{table};

    /// The roster of the guardian before anything happened. This takes no memory.
    pub fn new(alloc: Global, guardian: u32) -> Roster
        ensures { (names : List Name) → IsRoster guardian [] (table names result) }
    {
        Roster {
            alloc,
            guardian,
            crashes: 0,
            down: false,
            rows: Vec::new(alloc),
            at: Rows::new(alloc),
        }
    }

    /// The roster of a guardian that is opened again by itself: it is down, has crashed once more than recoveries
    /// were counted, and no action is at home there. This takes no memory.
    pub fn reopened(alloc: Global, guardian: u32, crashes: u64) -> Roster
        ensures crashes { crashes_of result ≡ crashes }
        ensures roster { (held : Held) (records : List (Name × Prepared)) (names : List Name)
            → crashes ≡ held.count + 1
            → IsRoster guardian (life_before guardian held records) (table names result) }
    {
        Roster {
            alloc,
            guardian,
            crashes,
            down: true,
            rows: Vec::new(alloc),
            at: Rows::new(alloc),
        }
    }

    /// Whether the action is at home here. This takes no memory, as no reading below does.
    pub fn is_there(&self, places: &Places, action: &Name) -> bool
        ensures { (g : ℕ) (here : List LocalEvent) → IsRoster g here (table places.now self.now)
            → result ≡ is_at_home g action.now here }
    {
        match self.row(places, action) {
            Some(row) => row.home == self.guardian,
            None => false,
        }
    }

    /// Whether the action has ended or is closed.
    pub fn is_done(&self, places: &Places, action: &Name) -> bool
        ensures { (g : ℕ) (here : List LocalEvent) → IsRoster g here (table places.now self.now)
            → result ≡ is_done action.now (events_here here) }
    {
        match self.row(places, action) {
            Some(row) => row.ended || row.closed,
            None => false,
        }
    }

    /// Whether something that the action made has not ended, where the action began here.
    pub fn is_busy(&self, places: &Places, action: &Name) -> bool
        ensures { (g : ℕ) (here : List LocalEvent) → IsRoster g here (table places.now self.now)
            → IsTrue (is_begun action.now (events_here here))
            → result ≡ is_busy action.now (events_here here) }
    {
        match self.row(places, action) {
            Some(row) => row.unended > 0,
            None => false,
        }
    }

    /// Whether the guardian crashed since the action began here, where the action is at home. Of others' crashes a
    /// guardian keeps none.
    pub fn is_gone(&self, places: &Places, action: &Name) -> bool
        ensures { (g : ℕ) (here : List LocalEvent) → IsRoster g here (table places.now self.now)
            → result ≡ is_gone action.now (events_here here) }
    {
        // Nothing is looked up where there was no crash.
        if self.crashes == 0 {
            return false;
        }
        let (home, life) = self.birth(places, action);
        home == self.guardian && life < self.crashes
    }

    /// Whether the guardian is down.
    pub fn is_down(&self) -> bool
        ensures { (g : ℕ) (here : List LocalEvent) (names : List Name)
            → IsRoster g here (table names self.now)
            → result ≡ is_down g (events_here here) }
    {
        self.down
    }

    /// How often the guardian has crashed.
    pub fn crashes(&self) -> u64
        ensures { (g : ℕ) (here : List LocalEvent) (names : List Name)
            → IsRoster g here (table names self.now)
            → result ≡ crashes g (events_here here) }
    {
        self.crashes
    }

    /// On which guardians an action depends that began here; nothing is kept of another.
    pub fn dependencies(&self, places: &Places, action: &Name) -> Option<&Deps>
        ensures { (g : ℕ) (here : List LocalEvent) → IsRoster g here (table places.now self.now)
            → (h : ℕ) → option_and_then (λ depends. map.get depends.now h) result
            ≡ dependency_here action.now h here }
    {
        Some(&self.row(places, action)?.depends)
    }

    /// Copies what an event makes of the roster, with the dependencies that it brings, in place of what another made
    /// of it, and makes places and room. Whether or not there is memory for it, the roster is that of the same
    /// history. The entry is that of the event where this agrees with some history.
    pub fn plan<L: Lineage>(
        &mut self,
        places: &mut Places,
        event: &EventRef<'_>,
        lineage: &L,
        sending: Sending,
        entry: &mut Entry,
    ) -> Result<(), AllocError>
        ensures more { AreMore places.old places.new }
        ensures same { (g : ℕ) (here : List LocalEvent)
            → IsRoster g here (table places.old self.old)
            → IsRoster g here (table places.new self.new) }
        ensures crashes { crashes_of self.new ≡ crashes_of self.old }
        ensures fits { OnOk result (FitsEntry self.new entry.new) }
        ensures planned { OnOk result ((f : ForestState) (g : ℕ) (c : LocalEvent)
            (here : List LocalEvent) → L.is_of lineage.now f → c.event ≡ event.now
            → AgreesOnActions g c here
            → IsEntry (table places.new self.new) event.now
            (sent_by f event.now sending) entry.new) }
    {
        // Nothing is looked up where the event concerns no row.
        if concerns_none(event) {
            entry.idle = true;
            return Ok(());
        }
        entry.idle = false;
        // Places come first: who is concerned is looked up among all names.
        self.plan_begun(places, event, lineage, sending, &mut entry.begun)?;
        let Concerned {
            ended,
            closed,
            maker,
        } = self.concerned_in(places, event.step);
        entry.ended = ended;
        entry.closed = closed;
        entry.birth = self.birth_in(event.step, maker);
        entry.turn = turn_in(event.step);
        entry.merged = self.plan_merge(places, event.step, lineage, sending)?;
        self.plan_count(maker, entry.begun.len())?;
        Ok(())
    }

    /// Writes into the entry what a crash or a recovery of the guardian makes of the roster. This takes no memory.
    pub fn plan_turn(&self, event: &EventRef<'_>, entry: &mut Entry)
        requires turn { IsTrue (is_turn event.now.step) }
        requires begins { names_begun event.now.answer ≡ [] }
        ensures fits { FitsEntry self.now entry.new }
        ensures planned { (names : List Name)
            → IsEntry (table names self.now) event.now [] entry.new }
    {
        entry.reset(turn_in(event.step));
    }

    /// Enters an event for which there is room. This cannot fail.
    pub fn enter(&mut self, entry: &mut Entry)
        requires fits { FitsEntry self.old entry.old }
        requires count { crashes_of self.old + 1 < 2 ^ 64 }
        ensures { (g : ℕ) (here : List LocalEvent) (c : LocalEvent) (names : List Name)
            → IsRoster g here (table names self.old) → AgreesOnActions g c here
            → IsEntry (table names self.old) c.event c.carried.dependencies entry.old
            → IsRoster g (c ∷ here) (table names self.new) }
    {
        if entry.idle {
            return;
        }
        self.count_more(entry.birth.maker, entry.begun.len());
        self.add_all(entry.birth, &mut entry.begun);
        self.end(entry.ended);
        self.close(entry.closed);
        self.merge(entry.merged.take());
        self.turn(entry.turn);
    }
}

impl Roster {
    ghost use Rattle.roster.specs.Entries.{AreBegun, CanCount, CommitsOld, FitsBegun, HavePlaces, IsLeft, IsMerged};
    ghost use Rattle.roster.specs.Steps.{above, closed_in, ended_in};
    ghost use Rattle.roster.specs.Rosters.{crashes_of};
    ghost use Rattle.roster.specs.Tables.{IsKept, added, all_added, begun_of, changed_at, ended, home_at, life_at, life_in, maker_left, merged, more_by};
    ghost use Rattle.roster.specs.Tables.{one_less, place_of, placed, row_at, row_of, said, table, turned, with_closed, with_ended};

    // The place of the action's row.
    fn place(&self, places: &Places, action: &Name) -> Option<usize>
        ensures { result ≡ place_of (table places.now self.now) action.now }
    {
        self.at.get(places.find(action)?).copied()
    }

    // Finds the rows of the actions that the step ends or closes, or for which it begins something. It looks up one name
    // at most.
    fn concerned_in(&self, places: &Places, step: &Step) -> Concerned
        ensures ended { result.ended ≡ placed (table places.now self.now) (ended_in step.now) }
        ensures closed { result.closed ≡ placed (table places.now self.now) (closed_in step.now) }
        ensures maker { result.maker ≡ placed (table places.now self.now) (maker_in step.now) }
    {
        let (ended, closed, maker) = match step {
            Step::Commit(action) => {
                let at = self.place(places, action);
                (at, at, None)
            }
            Step::Decide(action) | Step::Abort(action) => (self.place(places, action), None, None),
            Step::Close(action) => (None, self.place(places, action), None),
            Step::NestedTop(action) | Step::Call(action, _) | Step::Arms(action, _) => {
                (None, None, self.place(places, action))
            }
            _ => (None, None, None),
        };
        Concerned {
            ended,
            closed,
            maker,
        }
    }

    fn row_at(&self, at: Option<usize>) -> Option<&Row>
        ensures { (names : List Name)
            → option_map (λ row. row.now) result ≡ row_at (table names self.now) at }
    {
        self.rows.get(at?)
    }

    fn row(&self, places: &Places, action: &Name) -> Option<&Row>
        ensures { option_map (λ row. row.now) result
            ≡ row_of (table places.now self.now) action.now }
    {
        self.row_at(self.place(places, action))
    }

    // The home of the action, and how often that had crashed when the action began; 0 and 0 where it did not begin
    // here.
    fn birth(&self, places: &Places, action: &Name) -> (u32, u64)
        ensures home { result.0 ≡ home_at (table places.now self.now) action.now }
        ensures life { result.1 ≡ life_at (table places.now self.now) action.now }
    {
        match self.row(places, action) {
            Some(row) => (row.home, row.life),
            None => (0, 0),
        }
    }

    // How all that the step begins is born, whose maker has its row at the place.
    fn birth_in(&self, step: &Step, maker: Option<usize>) -> Birth
        ensures home { (names : List Name) → result.home
            ≡ home_in step.now (λ _. said (λ row. row.home) 0 (row_at (table names self.now) maker)) }
        ensures life { (names : List Name)
            → result.life ≡ life_in (table names self.now) result.home }
        ensures maker { result.maker ≡ maker }
    {
        let home = self.home_in(step, maker);
        let life = self.life_in(home);
        Birth { home, life, maker }
    }

    // The home of what the step begins, whose maker has its row at the place.
    fn home_in(&self, step: &Step, maker: Option<usize>) -> u32
        ensures { (names : List Name) → result
            ≡ home_in step.now (λ _. said (λ row. row.home) 0 (row_at (table names self.now) maker)) }
    {
        match step {
            Step::Top(guardian) | Step::Call(_, guardian) => *guardian,
            Step::NestedTop(_) | Step::Arms(..) => self.home_at(maker),
            _ => 0,
        }
    }

    // The home of the action at the place, and 0 where none is there.
    fn home_at(&self, at: Option<usize>) -> u32
        ensures { (names : List Name)
            → result ≡ said (λ row. row.home) 0 (row_at (table names self.now) at) }
    {
        match self.row_at(at) {
            Some(row) => row.home,
            None => 0,
        }
    }

    // How often the guardian has crashed, of whose crashes the own alone are counted.
    fn life_in(&self, guardian: u32) -> u64
        ensures { (names : List Name) → result ≡ life_in (table names self.now) guardian }
    {
        if guardian == self.guardian {
            self.crashes
        } else {
            0
        }
    }

    // The place of the parent of an action that commits, if the parent has a row, and on what it depends then.
    fn plan_merge<L: Lineage>(
        &self,
        places: &Places,
        step: &Step,
        lineage: &L,
        sending: Sending,
    ) -> Result<Option<(usize, Deps)>, AllocError>
        ensures { IfOk result (λ merged. (f : ForestState) (e : Event) → L.is_of lineage.now f
            → e.step ≡ step.now → CommitsOld e
            → IsMerged (table places.now self.now) step.now (sent_by f e sending) merged) }
    {
        match step {
            Step::Commit(action) => self.plan_left(places, action, lineage, sending),
            _ => Ok(None),
        }
    }

    fn plan_left<L: Lineage>(
        &self,
        places: &Places,
        action: &Name,
        lineage: &L,
        sending: Sending,
    ) -> Result<Option<(usize, Deps)>, AllocError>
        ensures { IfOk result (λ left. (f : ForestState) (e : Event) → L.is_of lineage.now f
            → e.step ≡ Commit action.now → begins e action.now ≡ false
            → IsLeft (table places.now self.now)
            (placed (table places.now self.now) (above action.now))
            (λ h. least_of (sent_by f e sending) action.now h) left) }
    {
        let place = self.parent_place(places, action)?;
        let Some(at) = place else {
            return Ok(None);
        };
        let depends = self.left_with(at, came_of(lineage, sending, action))?;
        Ok(Some((at, depends)))
    }

    // The place of the action's parent, if it has one that has a row.
    fn parent_place(&self, places: &Places, action: &Name) -> Result<Option<usize>, AllocError>
        ensures { IfOk result (λ at. at ≡ placed (table places.now self.now) (above action.now)) }
    {
        let parent = action.parent()?;
        match parent {
            Some(parent) => Ok(self.place(places, &parent)),
            None => Ok(None),
        }
    }

    // On what the action at the place depends, once what came is merged into that.
    fn left_with(&self, at: usize, came: Option<&Deps>) -> Result<Deps, AllocError>
        ensures { IfOk result (λ depends. (h : ℕ) (names : List Name) → map.get depends h
            ≡ lesser (said (λ row. map.get row.depends h) None
            (row_at (table names self.now) (Some at)))
            (option_and_then (λ depends. map.get depends.now h) came.entry)) }
    {
        let mut depends = self.depends_at(at)?;
        let Some(came) = came else {
            return Ok(depends);
        };
        depends.merge(came)?;
        Ok(depends)
    }

    // On what the action at the place depends, in a copy.
    fn depends_at(&self, at: usize) -> Result<Deps, AllocError>
        ensures { IfOk result (λ depends. (h : ℕ) (names : List Name) → map.get depends h
            ≡ said (λ row. map.get row.depends h) None (row_at (table names self.now) (Some at))) }
    {
        match self.row_at(Some(at)) {
            Some(row) => row.depends.copy(),
            None => Ok(Deps::new(self.alloc)),
        }
    }

    // Makes places for what the event begins, and room for its rows, and copies on what each depends.
    fn plan_begun<L: Lineage>(
        &mut self,
        places: &mut Places,
        event: &EventRef<'_>,
        lineage: &L,
        sending: Sending,
        begun: &mut Vec<(usize, Deps)>,
    ) -> Result<(), AllocError>
        ensures more { AreMore places.old places.new }
        ensures kept { IsKept places.new self.old self.new }
        ensures fits { OnOk result (FitsBegun self.new begun.new.items (vec_len begun.new)) }
        ensures placed { OnOk result (HavePlaces places.new begun.new.items) }
        ensures begun { OnOk result ((f : ForestState) → L.is_of lineage.now f
            → AreBegun places.new event.now (sent_by f event.now sending) begun.new.items) }
    {
        let names = event.answer.names_begun();
        begun.clear();
        self.rows.reserve(names.len())?;
        for name in names {
            let at = places.provide(name)?;
            let depends = self.begun_with(event, lineage, sending, name)?;
            begun.push((at, depends))?;
        }
        self.at.make_room(places.len())
    }

    // On what an action depends that the event begins, as far as that comes.
    fn begun_with<L: Lineage>(
        &self,
        event: &EventRef<'_>,
        lineage: &L,
        sending: Sending,
        name: &Name,
    ) -> Result<Deps, AllocError>
        ensures { (f : ForestState) → L.is_of lineage.now f → begins event.now name.now ≡ true
            → IfOk result (λ depends. (h : ℕ)
            → map.get depends h ≡ least_of (sent_by f event.now sending) name.now h) }
    {
        match sending {
            Sending::Nothing => Ok(Deps::new(self.alloc)),
            Sending::OfKnown => match known_of(lineage, event.step, name) {
                Some(depends) => depends.copy(),
                None => Ok(Deps::new(self.alloc)),
            },
            Sending::OfNew { home, life } => lineage.new_dependencies(name, home, life),
        }
    }

    // Sees to it that the action at the place can count so many things more. Fails where they are too many to be
    // counted.
    fn plan_count(&self, at: Option<usize>, more: usize) -> Result<(), AllocError>
        ensures { OnOk result (CanCount self.now.rows.items at more) }
    {
        let Some(row) = self.row_at(at) else {
            return Ok(());
        };
        row.unended.checked_add(more as u64).ok_or(AllocError)?;
        Ok(())
    }

    // So many things more that the action at the place made have not ended.
    fn count_more(&mut self, at: Option<usize>, more: usize)
        requires { CanCount self.old.rows.items at more }
        ensures counted { (names : List Name)
            → table names self.new ≡ changed_at (more_by more) at (table names self.old) }
        ensures len { vec_len self.new.rows ≡ vec_len self.old.rows }
        ensures capacity { vec_capacity self.new.rows ≡ vec_capacity self.old.rows }
        ensures places { self.new.at ≡ self.old.at }
    {
        let Some(at) = at else {
            return;
        };
        if let Some(row) = self.rows.get_mut(at) {
            row.unended += more as u64;
        }
    }

    // Puts in the rows of what begins, for which there is room.
    fn add_all(&mut self, birth: Birth, begun: &mut Vec<(usize, Deps)>)
        requires { FitsBegun self.old begun.old.items (vec_len begun.old) }
        ensures added { (names : List Name) → HavePlaces names begun.old.items
            → table names self.new
            ≡ all_added (begun_of names birth begun.old.items) (table names self.old) }
        ensures crashes { crashes_of self.new ≡ crashes_of self.old }
    {
        while let Some((at, depends)) = begun.pop() {
            self.add(at, birth.row(depends));
        }
    }

    // Puts in one row, for which there is room.
    fn add(&mut self, at: usize, row: Row)
        requires room { vec_len self.old.rows < vec_capacity self.old.rows }
        requires place { at < length self.old.at }
        ensures added { (names : List Name) → place_in names (get_or names at []) ≡ Some at
            → table names self.new ≡ added (get_or names at [], row) (table names self.old) }
        ensures len { vec_len self.new.rows ≡ vec_len self.old.rows + 1 }
        ensures capacity { vec_capacity self.new.rows ≡ vec_capacity self.old.rows }
        ensures places { length self.new.at ≡ length self.old.at }
        ensures crashes { crashes_of self.new ≡ crashes_of self.old }
    {
        self.at.put(at, self.rows.len());
        self.rows.push_reserved(row);
    }

    // The action at the place ends: where it had not, its maker has one thing less that has not.
    fn end(&mut self, at: Option<usize>)
        ensures { (names : List Name)
            → table names self.new ≡ ended at (table names self.old) }
    {
        let maker = self.maker_left(at);
        self.set_ended(at);
        self.count_less(maker);
    }

    // The place of the maker of the action at the place, if that has not ended.
    fn maker_left(&self, at: Option<usize>) -> Option<usize>
        ensures { (names : List Name)
            → result ≡ said maker_left None (row_at (table names self.now) at) }
    {
        let row = self.row_at(at)?;
        if row.ended { None } else { row.maker }
    }

    fn set_ended(&mut self, at: Option<usize>)
        ensures { (names : List Name)
            → table names self.new ≡ changed_at with_ended at (table names self.old) }
    {
        let Some(at) = at else {
            return;
        };
        if let Some(row) = self.rows.get_mut(at) {
            row.ended = true;
        }
    }

    // One thing less that the action at the place made has not ended.
    fn count_less(&mut self, at: Option<usize>)
        ensures { (names : List Name)
            → table names self.new ≡ changed_at one_less at (table names self.old) }
    {
        let Some(at) = at else {
            return;
        };
        if let Some(row) = self.rows.get_mut(at) {
            row.unended = row.unended.saturating_sub(1);
        }
    }

    // The action at the place is closed.
    fn close(&mut self, at: Option<usize>)
        ensures { (names : List Name)
            → table names self.new ≡ changed_at with_closed at (table names self.old) }
    {
        let Some(at) = at else {
            return;
        };
        if let Some(row) = self.rows.get_mut(at) {
            row.closed = true;
        }
    }

    // The action at the place is left with these dependencies.
    fn merge(&mut self, parent: Option<(usize, Deps)>)
        ensures { (names : List Name)
            → table names self.new ≡ merged parent (table names self.old) }
    {
        let Some((at, depends)) = parent else {
            return;
        };
        if let Some(row) = self.rows.get_mut(at) {
            row.depends = depends;
        }
    }

    // What an event makes of the guardian.
    fn turn(&mut self, turn: Turn)
        requires { crashes_of self.old + 1 < 2 ^ 64 }
        ensures { (names : List Name)
            → table names self.new ≡ turned turn (table names self.old) }
    {
        match turn {
            Turn::Stays => {}
            Turn::Crashes => {
                self.crashes += 1;
                self.down = true;
            }
            Turn::Recovers => self.down = false,
        }
    }
}
