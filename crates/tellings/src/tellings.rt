//! What a guardian was told of actions.
ghost use Rattle.std.specs.Prelude.{◌≡◌, ◌+◌, ◌<◌, ◌^◌, ◌||◌, [], ◌∷◌, ℕ, Bool, true, false, length, List, IfOk, OnOk, Some};
ghost use Rattle.action_names.specs.Names.{Name, parent_of};
ghost use Rattle.places.specs.Placed.{AreMore};
ghost use Rattle.run_model.specs.Actions.{step_crashes};
ghost use Rattle.run_model.specs.LocalReadings.{LocalEvent, told_committed_here, told_here};
ghost use Rattle.run_model.specs.Telling.{holder_by};

use action_names::Name;
use places::{Places, Rows};
use std::alloc::{AllocError, Global};

/// What was told of one action.
#[derive(Clone, Copy, Drop)]
struct Told {
    /// How often the guardian had crashed when it was told last.
    life: u64,
    /// Whether it was ever told that the action committed.
    committed: bool,
}

/// Which outcomes a guardian was told since its last crash, and of which actions it was ever told that they committed.
/// The actions have places, which each call is lent.
#[derive(Drop)]
pub struct Tellings {
    crashes: u64,
    told: Rows<Told>,
}

/// Outcomes that are to be told; the first of an action's counts. Its room is used again for the next ones.
#[derive(Drop)]
pub struct Heard {
    /// What will have been told of each, by the action's place, in the order of the outcomes.
    told: Vec<(usize, Told)>,
}

impl Heard {
    ghost use Rattle.tellings.specs.Hearing.{AreNone};

    /// No outcomes. This takes no memory.
    pub fn new(alloc: Global) -> Heard
        ensures { AreNone result }
    {
        Heard {
            told: Vec::new(alloc),
        }
    }
}

impl Tellings {
    ghost use Rattle.tellings.specs.Hearing.{AreTold, FitsHeard, IsHeard, crashes_of};

    /// Nothing was told. This takes no memory.
    pub fn new(alloc: Global) -> Tellings
        ensures crashes { crashes_of result ≡ 0 }
        ensures told { (g : ℕ) (names : List Name) → AreTold g [] names result }
    {
        Tellings {
            crashes: 0,
            told: Rows::new(alloc),
        }
    }

    /// Nothing was told, of a guardian that has crashed so often: those of each history in which no outcome came.
    /// This takes no memory.
    pub fn reopened(alloc: Global, crashes: u64) -> Tellings
        ensures crashes { crashes_of result ≡ crashes }
        ensures told { (g : ℕ) (here : List LocalEvent) (names : List Name)
            → ((b : Name) → told_here g b here ≡ false)
            → ((b : Name) → told_committed_here b here ≡ false) → AreTold g here names result }
    {
        Tellings {
            crashes,
            told: Rows::new(alloc),
        }
    }

    /// How often the guardian has crashed. This takes no memory.
    pub fn crashes(&self) -> u64
        ensures { result ≡ crashes_of self.now }
    {
        self.crashes
    }

    /// Whether the outcome of the action was told since the last crash. This takes no memory.
    pub fn was_told(&self, places: &Places, action: &Name) -> bool
        ensures { (g : ℕ) (here : List LocalEvent) → AreTold g here places.now self.now
            → result ≡ told_here g action.now here }
    {
        match self.told_of(places, action) {
            Some(told) => told.life == self.crashes,
            None => false,
        }
    }

    /// Whether it was ever told that the action committed. This takes no memory.
    pub fn is_committed(&self, places: &Places, action: &Name) -> bool
        ensures { (g : ℕ) (here : List LocalEvent) → AreTold g here places.now self.now
            → result ≡ told_committed_here action.now here }
    {
        self.knows_commit(places, action)
    }

    /// To whom the action hands on what it did when it commits: the nearest ancestor above it that was not told
    /// committed; nobody where that is the base (Moss 1981). This takes no memory, and fails only where a name of
    /// more than 8 numbers has too many copies for one more.
    pub fn next_holder(&self, places: &Places, action: &Name) -> Result<Option<Name>, AllocError>
        ensures { IfOk result (λ to. (g : ℕ) (here : List LocalEvent)
            → AreTold g here places.now self.now
            → to ≡ holder_by (λ b. told_committed_here b here) (parent_of action.now)) }
    {
        let mut above = action.parent()?;
        while let Some(name) = above {
            if !self.knows_commit(places, &name) {
                return Ok(Some(name));
            }
            above = name.parent()?;
        }
        Ok(None)
    }

    /// Takes outcomes, each with whether the action committed, in place of what was to be heard, and makes places and
    /// room for them. Whether or not there is memory for it, the tellings are those of the same history.
    pub fn plan(
        &mut self,
        places: &mut Places,
        outcomes: &[(Name, bool)],
        heard: &mut Heard,
    ) -> Result<(), AllocError>
        ensures more { AreMore places.old places.new }
        ensures same { (g : ℕ) (here : List LocalEvent) → AreTold g here places.old self.old
            → AreTold g here places.new self.new }
        ensures crashes { crashes_of self.new ≡ crashes_of self.old }
        ensures fits { OnOk result (FitsHeard self.new heard.new) }
        ensures heard { OnOk result (IsHeard places.new self.new outcomes.now heard.new) }
    {
        heard.told.clear();
        for (action, committed) in outcomes {
            heard.told.push(self.plan_one(places, action, *committed)?)?;
        }
        self.told.make_room(places.len())
    }

    /// Hears the outcomes that an event brings, for which there is room. This cannot fail.
    pub fn hear(&mut self, heard: &mut Heard)
        requires { FitsHeard self.old heard.old }
        ensures crashes { crashes_of self.new ≡ crashes_of self.old }
        ensures told { (g : ℕ) (here : List LocalEvent) (c : LocalEvent) (names : List Name)
            → AreTold g here names self.old
            → IsHeard names self.old c.carried.outcomes heard.old
            → step_crashes c.event.step g ≡ false → AreTold g (c ∷ here) names self.new }
    {
        self.put_all(heard);
    }

    /// Hears the outcomes that came with a crash, and forgets what was told before it but for commits. This cannot
    /// fail.
    pub fn crash(&mut self, heard: &mut Heard)
        requires fits { FitsHeard self.old heard.old }
        requires count { crashes_of self.old + 1 < 2 ^ 64 }
        ensures crashes { crashes_of self.new ≡ crashes_of self.old + 1 }
        ensures told { (g : ℕ) (here : List LocalEvent) (c : LocalEvent) (names : List Name)
            → AreTold g here names self.old
            → IsHeard names self.old c.carried.outcomes heard.old
            → step_crashes c.event.step g ≡ true → AreTold g (c ∷ here) names self.new }
    {
        self.put_all(heard);
        self.crashes += 1;
    }
}

impl Tellings {
    ghost use Rattle.std.specs.Option.{option_copied};
    ghost use Rattle.places.specs.Placed.{place_in};
    ghost use Rattle.places.specs.Rows.{row_at, row_of};
    ghost use Rattle.run_model.specs.Telling.{or_else};
    ghost use Rattle.tellings.specs.Hearing.{FitsHeard, HavePlaces, crashes_of, heard_in, is_told_committed, told_of};

    // What was told of the action.
    fn told_of(&self, places: &Places, action: &Name) -> Option<&Told>
        ensures { option_copied result ≡ told_of places.now self.now action.now }
    {
        self.told.get(places.find(action)?)
    }

    // Whether it was ever told that the action committed.
    fn knows_commit(&self, places: &Places, action: &Name) -> bool
        ensures { result ≡ is_told_committed (told_of places.now self.now action.now) }
    {
        match self.told_of(places, action) {
            Some(told) => told.committed,
            None => false,
        }
    }

    // Makes a place for the action of one outcome, and says what will have been told of it.
    fn plan_one(
        &self,
        places: &mut Places,
        action: &Name,
        committed: bool,
    ) -> Result<(usize, Told), AllocError>
        ensures more { AreMore places.old places.new }
        ensures place { IfOk result (λ row. place_in places.new action.now ≡ Some row.0) }
        ensures lives { IfOk result (λ row. row.1.life ≡ crashes_of self.now) }
        ensures committed { IfOk result (λ row. row.1.committed
            ≡ (committed || is_told_committed (row_at self.now.told row.0))) }
    {
        let at = places.provide(action)?;
        let before = self.told.get(at);
        let told = Told {
            life: self.crashes,
            committed: committed || before.is_some_and(|told| told.committed),
        };
        Ok((at, told))
    }

    // Puts in what is heard, the last of it first, so that the first that is said of an action stays.
    fn put_all(&mut self, heard: &mut Heard)
        requires { FitsHeard self.old heard.old }
        ensures crashes { crashes_of self.new ≡ crashes_of self.old }
        ensures length { length self.new.told ≡ length self.old.told }
        ensures values { (names : List Name) → HavePlaces names heard.old.told.items → (b : Name)
            → told_of names self.new b
            ≡ or_else (heard_in names heard.old.told.items b) (told_of names self.old b) }
    {
        while let Some((at, told)) = heard.told.pop() {
            self.told.put(at, told);
        }
    }
}
