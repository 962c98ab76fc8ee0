//! What an event is to change.
ghost use Rattle.std.specs.Prelude.{◌≡◌, [], None};

use guardian_objects::Planned;
use orphans::Lesson;
use roster::Entry;
use run_model::Name;
use std::alloc::Global;
use tellings::Heard;

/// What one event is to change in a guardian's memory, made of copies. The memory has room for it. Its own room is
/// used again for the next event.
#[derive(Drop)]
pub struct Plan {
    pub(crate) sender: Option<u32>,
    pub(crate) outcomes: Vec<(Name, bool)>,
    /// For what it was told.
    pub(crate) heard: Heard,
    /// For its lists.
    pub(crate) lesson: Lesson,
    /// For its roster.
    pub(crate) entry: Entry,
    /// For its objects.
    pub(crate) planned: Planned,
}

impl Plan {
    /// A plan for no event. This takes no memory.
    pub fn new(alloc: Global) -> Plan
        ensures sender { result.sender ≡ None }
        ensures outcomes { result.outcomes.items ≡ [] }
    {
        Plan {
            sender: None,
            outcomes: Vec::new(alloc),
            heard: Heard::new(alloc),
            lesson: Lesson::new(alloc),
            entry: Entry::new(alloc),
            planned: Planned::new(alloc),
        }
    }

    /// Whose lists come with the event, if any.
    pub fn sender(&self) -> Option<u32>
        ensures { result ≡ self.now.sender }
    {
        self.sender
    }

    /// The outcomes that the event brings: which actions, and whether they committed.
    pub fn outcomes(&self) -> &[(Name, bool)]
        ensures { result.now ≡ self.now.outcomes.items }
    {
        self.outcomes.as_slice()
    }
}
