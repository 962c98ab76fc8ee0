//! Actions in trees.
ghost use Rattle.std.specs.Prelude.{◌≡◌, ◌∷◌, [], ℕ, List, IsFalse, IsTrue, IfOk, OnOk, MatchOption, ◌+◌, ◌<◌, ◌≤◌, None, Some, if◌then◌else◌, min, slice_get, suc, vec_capacity, vec_len};
ghost use Rattle.std.specs.FinMap as map;
ghost use Rattle.std.specs.Option.{option_and_then, option_map};
ghost use Rattle.action_names.specs.Names.{Name, is_top};
ghost use Rattle.run_model.specs.Actions.{home_of, is_begun, is_committed, maker_in, maker_of, next_number};
ghost use Rattle.run_model.specs.LocalHistories.{RegistryEvent, dependency_there, entries_of, events_there};
ghost use Rattle.run_model.specs.Openings.{opening_in};
ghost use Rattle.run_model.specs.Refusals.{max_number};
ghost use Rattle.run_model.specs.declared.step.Step.TheVariants.{Abort, Close, Commit, Decide};
ghost use Rattle.run_model.specs.declared.step.Step.{Step};
ghost use Rattle.step_answers.specs.Actors.{IsActorOf, IsReadAs};
ghost use Rattle.action_forest.specs.Trees.{closed, numbered};

use run_model::{Deps, Name, Names, Opening};
use std::alloc::{AllocError, Global};
use std::mem;
use step_answers::{Actor, Status};

/// An action. Other actions are named by their places in the forest.
#[derive(Drop)]
pub struct Node {
    pub(crate) name: Name,
    home: u32,
    maker: Option<usize>,
    depends: Deps,
    pub(crate) status: Status,
    unended: u64,
    pub(crate) children: Vec<usize>,
}

/// Actions in the order in which they began, and the places of the top actions by their numbers.
#[derive(Drop)]
pub struct Forest {
    first_top: u64,
    guardians: usize,
    pub(crate) nodes: Vec<Node>,
    tops: Vec<usize>,
}

/// The commit of the subaction at a place, with what its parent depends on then.
#[derive(Drop)]
pub struct Commitment {
    at: Option<usize>,
    depends: Deps,
}

/// Actions that begin, all made by the action at one place if by any. Their room is used again for the next.
#[derive(Drop)]
pub struct Begun {
    maker: Option<usize>,
    nodes: Vec<Node>,
}

impl Node {
    ghost use Rattle.action_forest.specs.Acting.{actor_of};
    ghost use Rattle.action_forest.specs.Trees.{action_in};

    // What refusals ask of the action.
    fn actor(&self) -> Actor
        ensures { result ≡ actor_of (action_in self.now) }
    {
        Actor {
            home: self.home,
            status: self.status,
            busy: self.unended > 0,
        }
    }
}

impl Commitment {
    /// The commit of no action. This takes no memory.
    pub fn new(alloc: Global) -> Commitment {
        Commitment {
            at: None,
            depends: Deps::new(alloc),
        }
    }
}

impl Begun {
    /// No action begins. This takes no memory.
    pub fn new(alloc: Global) -> Begun {
        Begun {
            maker: None,
            nodes: Vec::new(alloc),
        }
    }
}

// The number after the greatest that a name has room for.
const USED_UP: u64 = 4294967296;

impl Forest {
    ghost use Rattle.action_forest.specs.Trees.{action_in, action_of, added, changed, changed_at, children_of, depends_at, ended, fresh_action, hung, maker_place, one_less, one_more, place_of, status_at, trees, with_closed, with_depends, with_status};
    ghost use Rattle.action_forest.specs.Events.{IsUnended, beginning, done, first_entries};
    ghost use Rattle.action_forest.specs.Rooms.{AreBorn, FitsBegun, HasRoom, HasRoomAt, HasRoomBelow, IsBeginning};
    ghost use Rattle.action_forest.specs.Forests.{AtEach, IsCommitmentOf, IsForest};

    /// The forest before a history: no action was begun. This takes no memory.
    pub fn new(alloc: Global, opening: &Opening) -> Forest
        ensures { IsForest (opening_in opening.now) [] (trees result) }
    {
        Forest {
            first_top: opening.first_top().max(1),
            guardians: opening.setup().guardians(),
            nodes: Vec::new(alloc),
            tops: Vec::new(alloc),
        }
    }

    /// What refusals ask of the action, if it was begun, in one look-up. This takes no memory, as no
    /// reading below does but those that give a list.
    pub fn actor(&self, path: &[u32]) -> Option<Actor>
        ensures { AtEach (trees self.now) (λ opening registry. IsReadAs
            (is_begun path.now (events_there registry))
            (IsActorOf path.now (events_there registry)) result) }
    {
        Some(self.node(path)?.actor())
    }

    /// Whether the action has committed.
    pub fn is_committed(&self, path: &[u32]) -> bool
        ensures { AtEach (trees self.now)
            (λ opening registry. result ≡ is_committed path.now (events_there registry)) }
    {
        matches!(self.standing(path), Status::Committed)
    }

    /// The home of the action, and 0 where there is no such action.
    pub fn home(&self, path: &[u32]) -> u32
        ensures { AtEach (trees self.now)
            (λ opening registry. result ≡ home_of path.now (events_there registry)) }
    {
        match self.node(path) {
            Some(node) => node.home,
            None => 0,
        }
    }

    /// Who made the action.
    pub fn maker(&self, path: &[u32]) -> Option<&Name>
        ensures { AtEach (trees self.now) (λ opening registry.
            MatchOption result (maker_of path.now (events_there registry) ≡ None)
            (λ maker. maker_of path.now (events_there registry) ≡ Some maker.now)) }
    {
        let maker = self.node(path)?.maker?;
        Some(&self.nodes.get(maker)?.name)
    }

    /// The number of the next child of the action, and for the empty path that of the next top action. All numbers
    /// above 4294967295 count as 4294967296.
    pub fn next(&self, path: &[u32]) -> u64
        ensures { AtEach (trees self.now) (λ opening registry. result
            ≡ min (next_number opening path.now (events_there registry)) (suc max_number)) }
    {
        let first = if path.is_empty() { self.first_top } else { 1 };
        let given = self.children(path).len() as u64;
        first.saturating_add(given).min(USED_UP)
    }

    /// The least incarnation of the guardian on which the action depends, if it depends on it.
    pub fn dependency(&self, path: &[u32], guardian: u32) -> Option<u64>
        ensures { AtEach (trees self.now)
            (λ opening registry. result ≡ dependency_there path.now guardian registry) }
    {
        self.node(path)?.depends.get(guardian)
    }

    /// On which guardians the action depends, with the least incarnation of each.
    pub fn depends(&self, path: &[u32]) -> Option<&Deps>
        ensures least { AtEach (trees self.now)
            (λ opening registry. (g : ℕ) → option_and_then (λ depends. map.get depends.now g) result
            ≡ dependency_there path.now g registry) }
        ensures entries { AtEach (trees self.now) (λ opening registry. MatchOption result
            (entries_of opening (λ h. dependency_there path.now h registry) ≡ [])
            (λ depends. map.entries depends.now
            ≡ entries_of opening (λ h. dependency_there path.now h registry))) }
    {
        Some(&self.node(path)?.depends)
    }

    /// On which guardians an action depends that begins at this home in this life of it.
    pub fn new_dependencies(&self, action: &Name, home: u32, life: u64) -> Result<Deps, AllocError>
        ensures { AtEach (trees self.now)
            (λ opening registry. IfOk result (λ depends. map.entries depends
            ≡ first_entries opening registry home life action.now)) }
    {
        let path = action.components();
        let mut depends = self.depends_of(&path[..path.len() - 1])?;
        if home > 0 && home as usize <= self.guardians {
            depends.lower(home, life)?;
        }
        Ok(depends)
    }

    /// A top action closes.
    pub fn close(&mut self, top: &Name)
        ensures { AtEach (trees self.old) (λ opening registry. (stamp : ℕ)
            → IsTrue (is_begun top.now (events_there registry))
            → IsForest opening (done stamp (Close top.now) ∷ registry) (trees self.new)) }
    {
        if let Some(at) = self.place(top.components()) {
            self.set_closed(at);
        }
    }

    /// A top action commits.
    pub fn decide(&mut self, top: &Name)
        ensures { AtEach (trees self.old)
            (λ opening registry. (stamp : ℕ) → IsUnended (events_there registry) top.now →
            IsForest opening (done stamp (Decide top.now) ∷ registry) (trees self.new)) }
    {
        if let Some(at) = self.place(top.components()) {
            self.end(at, Status::Committed);
        }
    }

    /// An action aborts.
    pub fn abort(&mut self, action: &Name)
        ensures { AtEach (trees self.old)
            (λ opening registry. (stamp : ℕ) → IsUnended (events_there registry) action.now →
            IsForest opening (done stamp (Abort action.now) ∷ registry) (trees self.new)) }
    {
        if let Some(at) = self.place(action.components()) {
            self.end(at, Status::Aborted);
        }
    }

    /// The commit of a subaction to its parent: what the parent depends on then. The forest stays as it is. The plan
    /// is written over that of another commit.
    pub fn plan_commit(&self, action: &Name, plan: &mut Commitment) -> Result<(), AllocError>
        ensures { OnOk result (IsCommitmentOf (trees self.now) action.now plan.new) }
    {
        let path = action.components();
        let at = self.place(path);
        let mut depends = self.depends_of(&path[..path.len() - 1])?;
        if let Some(node) = self.node_at(at) {
            depends.merge(&node.depends)?;
        }
        plan.at = at;
        plan.depends = depends;
        Ok(())
    }

    /// A subaction commits. This cannot fail. Nothing is said of what is left in the plan.
    pub fn commit(&mut self, plan: &mut Commitment)
        ensures { AtEach (trees self.old) (λ opening registry. (stamp : ℕ) (a : Name)
            → IsCommitmentOf (trees self.old) a plan.old → IsUnended (events_there registry) a
            → IsFalse (is_top a)
            → IsForest opening (done stamp (Commit a) ∷ registry) (trees self.new)) }
    {
        if let Some(at) = plan.at {
            self.end(at, Status::Committed);
            if let Some(parent) = self.maker_place(at) {
                self.set_depends(parent, &mut plan.depends);
            }
        }
    }

    /// What a step needs that begins actions of these names, at this home in this life of it, made by this action if
    /// by any. This one pair of calls serves top actions, nested ones, calls and arms. Whatever comes of it, the
    /// forest keeps what it kept. The plan is written over another.
    pub fn plan_begin(
        &mut self,
        names: &Names,
        maker: Option<&Name>,
        home: u32,
        life: u64,
        plan: &mut Begun,
    ) -> Result<(), AllocError>
        ensures kept { trees self.new ≡ trees self.old }
        ensures room { OnOk result (FitsBegun self.new plan.new) }
        ensures born { AtEach (trees self.old)
            (λ opening registry. OnOk result (AreBorn opening registry
            (option_map (λ name. name.now) maker.entry) home life (trees self.old) names.now
            plan.new)) }
    {
        let count = names.len();
        self.nodes.reserve(count)?;
        self.tops.reserve(count)?;
        let place = self.reserve_children(maker, count)?;
        plan.nodes.clear();
        for name in names.as_slice() {
            plan.nodes.push(self.born(name, place, home, life)?)?;
        }
        plan.maker = place;
        Ok(())
    }

    /// Begins the actions of a plan that was made of this forest. This cannot fail. Its room is left in the plan.
    pub fn begin(&mut self, plan: &mut Begun)
        requires { FitsBegun self.old plan.old }
        ensures { AtEach (trees self.old)
            (λ opening registry. (stamp : ℕ) (step : Step) (names : List (List ℕ)) (home life : ℕ) →
            IsBeginning opening registry step names home
            → AreBorn opening registry (maker_in step) home life (trees self.old) names plan.old →
            IsForest opening (beginning opening registry stamp step names home life ∷ registry)
            (trees self.new)) }
    {
        plan.nodes.reverse();
        while let Some(node) = plan.nodes.pop() {
            self.add(node);
        }
    }

    // How the action stands; one that was not begun counts as active.
    fn standing(&self, path: &[u32]) -> Status
        ensures { result ≡ status_at (trees self.now) path.now }
    {
        match self.node(path) {
            Some(node) => node.status,
            None => Status::Active,
        }
    }

    // The places of the children of the action, and for the empty path those of the top actions.
    fn children(&self, path: &[u32]) -> &[usize]
        ensures { result.now ≡ children_of (trees self.now) path.now }
    {
        if path.is_empty() {
            return &self.tops;
        }
        match self.node(path) {
            Some(node) => &node.children,
            None => &[],
        }
    }

    // A copy of what the action depends on.
    fn depends_of(&self, path: &[u32]) -> Result<Deps, AllocError>
        ensures { IfOk result
            (λ depends. (g : ℕ) → map.get depends g ≡ depends_at (trees self.now) path.now g) }
    {
        match self.node(path) {
            Some(node) => node.depends.copy(),
            None => Ok(Deps::new(*self.nodes.allocator())),
        }
    }

    // What is kept of an action as it begins.
    fn born(
        &self,
        name: &Name,
        maker: Option<usize>,
        home: u32,
        life: u64,
    ) -> Result<Node, AllocError>
        ensures made { IfOk result
            (λ node. action_in node ≡ fresh_action name.now maker home node.depends) }
        ensures depends { AtEach (trees self.now)
            (λ opening registry. IfOk result (λ node. map.entries node.depends
            ≡ first_entries opening registry home life name.now)) }
    {
        Ok(Node {
            name: name.copy()?,
            home,
            maker,
            depends: self.new_dependencies(name, home, life)?,
            status: Status::Active,
            unended: 0,
            children: Vec::new(*self.nodes.allocator()),
        })
    }

    // The place of the maker, if there is one, with room for so many more children of it.
    fn reserve_children(
        &mut self,
        maker: Option<&Name>,
        count: usize,
    ) -> Result<Option<usize>, AllocError>
        ensures kept { trees self.new ≡ trees self.old }
        ensures len { vec_len self.new.nodes ≡ vec_len self.old.nodes }
        ensures capacity { vec_capacity self.new.nodes ≡ vec_capacity self.old.nodes }
        ensures tops { self.new.tops ≡ self.old.tops }
        ensures room { IfOk result (HasRoomBelow self.new count) }
        ensures place { AtEach (trees self.old) (λ opening registry. IfOk result
            (λ at. at ≡ option_and_then (λ a. place_of (trees self.old) a)
            (option_map (λ name. name.now) maker.entry))) }
    {
        let Some(maker) = maker else {
            return Ok(None);
        };
        let Some(at) = self.place(maker.components()) else {
            return Ok(None);
        };
        let Some(node) = self.nodes.get_mut(at) else {
            return Ok(None);
        };
        node.unended.checked_add(count as u64).ok_or(AllocError)?;
        node.children.reserve(count)?;
        Ok(Some(at))
    }

    // Puts an action in, for which there is room.
    fn add(&mut self, node: Node)
        requires { HasRoom self.old 1 node.maker }
        ensures added { trees self.new ≡ added (action_in node) (trees self.old) }
        ensures room { (n : ℕ) → HasRoom self.old (n + 1) node.maker
            → HasRoom self.new n node.maker }
    {
        let place = self.nodes.len();
        let maker = node.maker;
        let top = node.name.is_top();
        self.count_more(maker);
        self.nodes.push_reserved(node);
        self.hang(top, maker, place);
    }

    // One thing more that it made has not ended.
    fn count_more(&mut self, maker: Option<usize>)
        requires { HasRoomAt self.old.nodes.items 0 1 maker }
        ensures counted { trees self.new ≡ changed_at one_more maker (trees self.old) }
        ensures len { vec_len self.new.nodes ≡ vec_len self.old.nodes }
        ensures capacity { vec_capacity self.new.nodes ≡ vec_capacity self.old.nodes }
        ensures tops { self.new.tops ≡ self.old.tops }
        ensures room { (n k : ℕ) → HasRoomAt self.old.nodes.items n (k + 1) maker
            → HasRoomAt self.new.nodes.items n k maker }
    {
        let Some(at) = maker else {
            return;
        };
        if let Some(node) = self.nodes.get_mut(at) {
            node.unended += 1;
        }
    }

    // The next number of a top action, or of a child of the maker, leads to the place.
    fn hang(&mut self, top: bool, maker: Option<usize>, place: usize)
        requires tops { vec_len self.old.tops < vec_capacity self.old.tops }
        requires below { HasRoomAt self.old.nodes.items 1 0 maker }
        ensures hung { trees self.new ≡ hung top maker place (trees self.old) }
        ensures len { vec_len self.new.nodes ≡ vec_len self.old.nodes }
        ensures capacity { vec_capacity self.new.nodes ≡ vec_capacity self.old.nodes }
        ensures tops_len { vec_len self.new.tops ≤ vec_len self.old.tops + 1 }
        ensures tops_capacity { vec_capacity self.new.tops ≡ vec_capacity self.old.tops }
        ensures room { (n k : ℕ) → HasRoomAt self.old.nodes.items (n + 1) k maker
            → HasRoomAt self.new.nodes.items n k maker }
    {
        if top {
            self.tops.push_reserved(place);
            return;
        }
        let Some(parent) = maker else {
            return;
        };
        if let Some(node) = self.nodes.get_mut(parent) {
            node.children.push_reserved(place);
        }
    }

    fn maker_place(&self, at: usize) -> Option<usize>
        ensures { result ≡ maker_place (trees self.now) at }
    {
        self.nodes.get(at)?.maker
    }

    // The action ends with this status.
    fn end(&mut self, at: usize, status: Status)
        ensures { trees self.new ≡ ended status at (trees self.old) }
    {
        let maker = self.maker_place(at);
        self.set_status(at, status);
        if let Some(maker) = maker {
            self.count_less(maker);
        }
    }

    fn set_status(&mut self, at: usize, status: Status)
        ensures { trees self.new ≡ changed (with_status status) at (trees self.old) }
    {
        if let Some(node) = self.nodes.get_mut(at) {
            node.status = status;
        }
    }

    // The action closes, unless it has ended.
    fn set_closed(&mut self, at: usize)
        ensures { trees self.new ≡ changed with_closed at (trees self.old) }
    {
        if let Some(node) = self.nodes.get_mut(at) {
            node.status = closed(node.status);
        }
    }

    // The action at the place depends on these then, and what it depended on is left in their place.
    fn set_depends(&mut self, at: usize, depends: &mut Deps)
        ensures { trees self.new ≡ changed (with_depends depends.old) at (trees self.old) }
    {
        if let Some(node) = self.nodes.get_mut(at) {
            mem::swap(&mut node.depends, depends);
        }
    }

    // One thing less that it made has not ended.
    fn count_less(&mut self, at: usize)
        ensures { trees self.new ≡ changed one_less at (trees self.old) }
    {
        if let Some(node) = self.nodes.get_mut(at) {
            node.unended = node.unended.saturating_sub(1);
        }
    }

    // The place of the action.
    pub(crate) fn place(&self, path: &[u32]) -> Option<usize>
        ensures { result ≡ place_of (trees self.now) path.now }
    {
        let (first, below) = path.split_first()?;
        let mut at = numbered(&self.tops, self.first_top, *first)?;
        for number in below {
            at = numbered(&self.nodes.get(at)?.children, 1, *number)?;
        }
        Some(at)
    }

    // What is kept of the action.
    fn node(&self, path: &[u32]) -> Option<&Node>
        ensures { option_map (λ node. action_in node.now) result
            ≡ action_of (trees self.now) path.now }
    {
        self.nodes.get(self.place(path)?)
    }

    // What is kept of the action at the place, if there is one.
    fn node_at(&self, at: Option<usize>) -> Option<&Node>
        ensures { option_map (λ node. action_in node.now) result
            ≡ option_and_then (λ i. slice_get (trees self.now).actions i) at }
    {
        self.nodes.get(at?)
    }
}

// How an action stands that stood so and closes.
fn closed(status: Status) -> Status
    ensures { result ≡ closed status }
{
    match status {
        Status::Active => Status::Closed,
        _ => status,
    }
}

// The place that has this number, where these are all, from the first number on.
fn numbered(places: &[usize], first: u64, number: u32) -> Option<usize>
    ensures { result ≡ numbered places.now first number }
{
    let index = u64::from(number).checked_sub(first)?;
    places.get(index as usize).copied()
}
