//! What a guardian knows.
ghost use Rattle.std.specs.Prelude.{◌≡◌, ◌<◌, ◌^◌, ◌+◌, [], ◌∷◌, ℕ, List, IsTrue, IsFalse, IfOk, OnOk};
ghost use Rattle.std.specs.FinMap as map;
ghost use Rattle.action_names.specs.Names.{has_name};
ghost use Rattle.run_model.specs.Actions.{crashes, step_crashes};
ghost use Rattle.run_model.specs.Lists.{is_orphan_by};
ghost use Rattle.run_model.specs.LocalReadings.{LocalEvent, aborts_here, events_here, known_crashes_here, unsent_aborts, unsent_counts};
ghost use Rattle.run_model.specs.Openings.{opening_in};

use crate::counts::Counts;
use crate::lesson::{Lesson, News};
use crate::log::Log;
use crate::sent::Sent;
use run_model::{Deps, Name, Names, Opening};
use std::alloc::{AllocError, Global};

/// Which aborts and crashes a guardian knows of since its last crash, how often it crashed itself, and how much each
/// sender has sent.
#[derive(Drop)]
pub struct Lists {
    guardian: u32,
    crashes: u64,
    aborts: Log,
    counts: Counts,
    sent: Sent,
}

impl Lists {
    ghost use Rattle.orphans.specs.Knowing.{AreLists, FitsLesson, IsLesson, crashes_of, guardian_of};

    /// The lists of a guardian at which nothing happened. This takes no memory.
    pub fn new(alloc: Global, guardian: u32) -> Lists
        ensures own { guardian_of result ≡ guardian }
        ensures lists { AreLists [] result }
    {
        Lists {
            guardian,
            crashes: 0,
            aborts: Log::new(alloc),
            counts: Counts::new(alloc),
            sent: Sent::new(alloc),
        }
    }

    /// The lists of a guardian that has just crashed, for the last of so many times. This takes no memory.
    pub fn reopened(alloc: Global, guardian: u32, count: u64) -> Lists
        ensures own { guardian_of result ≡ guardian }
        ensures crashes { crashes_of result ≡ count }
        ensures lists { (here : List LocalEvent) (c : LocalEvent)
            → IsTrue (step_crashes c.event.step guardian)
            → count ≡ crashes guardian (events_here (c ∷ here)) → AreLists (c ∷ here) result }
    {
        Lists {
            guardian,
            crashes: count,
            aborts: Log::new(alloc),
            counts: Counts::new(alloc),
            sent: Sent::new(alloc),
        }
    }

    /// Copies news, in place of what was to be learnt, and makes room for learning it. Whether or not there is memory
    /// for it, the lists are those of the same history.
    pub fn plan_lesson(
        &mut self,
        alloc: Global,
        news: News<'_>,
        lesson: &mut Lesson,
    ) -> Result<(), AllocError>
        ensures own { guardian_of self.new ≡ guardian_of self.old }
        ensures same { (here : List LocalEvent) → AreLists here self.old → AreLists here self.new }
        ensures fits { OnOk result (FitsLesson self.new lesson.new) }
        ensures news { OnOk result (IsLesson news.entry.sender news.entry.life news.entry.aborts.now
            news.entry.counts.now news.entry.outcomes.now lesson.new) }
    {
        lesson.fill(alloc, news)?;
        if lesson.is_empty() {
            return Ok(());
        }
        self.aborts.plan_room(lesson.aborts.len())?;
        self.counts.plan_room(lesson.counts.len())?;
        self.sent.plan_place()
    }

    /// Learns the news of a lesson for which the lists have room. This cannot fail.
    pub fn learn(&mut self, lesson: &mut Lesson)
        requires { FitsLesson self.old lesson.old }
        ensures own { guardian_of self.new ≡ guardian_of self.old }
        ensures lists { (here : List LocalEvent) (c : LocalEvent) → AreLists here self.old
            → IsFalse (step_crashes c.event.step (guardian_of self.old)) → IsLesson c.carried.sender
            c.carried.life c.carried.aborts c.carried.counts c.carried.outcomes lesson.old
            → AreLists (c ∷ here) self.new }
    {
        if lesson.is_empty() {
            return;
        }
        self.aborts.learn(&mut lesson.aborts);
        self.counts.learn(&mut lesson.counts);
        // Where nothing came, no sender is looked up.
        if lesson.sent_aborts == 0 && lesson.sent_counts == 0 {
            return;
        }
        self.sent.count(
            lesson.sender,
            lesson.life,
            lesson.sent_aborts as u64,
            lesson.sent_counts as u64,
        );
    }

    /// Forgets all but the own crashes, of which there is one more. This cannot fail.
    pub fn crash(&mut self, alloc: Global)
        requires { crashes_of self.old + 1 < 2 ^ 64 }
        ensures own { guardian_of self.new ≡ guardian_of self.old }
        ensures lists { (here : List LocalEvent) (c : LocalEvent) → AreLists here self.old
            → IsTrue (step_crashes c.event.step (guardian_of self.old))
            → AreLists (c ∷ here) self.new }
    {
        self.crashes += 1;
        self.aborts = Log::new(alloc);
        self.counts = Counts::new(alloc);
        self.sent = Sent::new(alloc);
    }

    /// How often the guardian crashed. This takes no memory.
    pub fn crashes(&self) -> u64
        ensures { result ≡ crashes_of self.now }
    {
        self.crashes
    }

    /// Whether an action with these dependencies is known as an orphan. This takes no memory.
    pub fn is_known_orphan(&self, opening: &Opening, action: &Name, depends: &Deps) -> bool
        ensures { (here : List LocalEvent) → AreLists here self.now
            → result ≡ is_orphan_by (opening_in opening.now)
            (λ b. has_name (aborts_here (guardian_of self.now) here) b)
            (λ h. known_crashes_here (guardian_of self.now) h here)
            (λ h. map.get depends.now h) action.now }
    {
        self.knows_abort_above(action.components()) || self.knows_crash_since(opening, depends)
    }

    /// The aborts that this guardian has not sent to the other in this life, the newest first: copies of these alone.
    pub fn unsent_aborts(&self, to: &Lists) -> Result<Names, AllocError>
        ensures { IfOk result (λ names. (there here : List LocalEvent) → AreLists there self.now
            → AreLists here to.now
            → names ≡ unsent_aborts (guardian_of self.now) (guardian_of to.now) there here) }
    {
        // Where there is nothing to send, it is not looked up what came.
        if self.aborts.len() == 0 {
            return Ok(Names::from_vec(self.aborts.newest(0)?));
        }
        let had = to.sent.came(self.guardian, self.crashes).aborts;
        let unsent = (self.aborts.len() as u64).saturating_sub(had);
        Ok(Names::from_vec(self.aborts.newest(unsent as usize)?))
    }

    /// The counts of crashes that this guardian has not sent to the other in this life, the newest first.
    pub fn unsent_counts(&self, to: &Lists) -> Result<Vec<(u32, u64)>, AllocError>
        ensures { IfOk result (λ counts. (there here : List LocalEvent) → AreLists there self.now
            → AreLists here to.now
            → counts.items ≡ unsent_counts (guardian_of self.now) (guardian_of to.now) there here) }
    {
        if self.counts.len() == 0 {
            return self.counts.newest(0);
        }
        let had = to.sent.came(self.guardian, self.crashes).counts;
        let unsent = (self.counts.len() as u64).saturating_sub(had);
        self.counts.newest(unsent as usize)
    }
}

impl Lists {
    ghost use Rattle.std.specs.List.{list_any};
    ghost use Rattle.action_names.specs.Names.{ancestors};
    ghost use Rattle.run_model.specs.Lists.{guardians_of, is_below};
    ghost use Rattle.orphans.specs.Knowing.{known_count};
    ghost use Rattle.orphans.specs.Logs.{known_names};

    // How many crashes of the guardian the lists tell of.
    fn count_of(&self, guardian: u32) -> u64
        ensures { result ≡ known_count self.now guardian }
    {
        if self.guardian == guardian {
            return self.crashes;
        }
        self.counts.greatest(guardian)
    }

    // Whether it knows that an ancestor of the action with this path aborted.
    fn knows_abort_above(&self, path: &[u32]) -> bool
        ensures { result
            ≡ list_any (λ b. has_name (known_names self.now.aborts) b) (ancestors path.now) }
    {
        // Where none is known, no path is looked up.
        if self.aborts.len() == 0 {
            return false;
        }
        for depth in 0..path.len() {
            if self.aborts.contains(&path[..depth + 1]) {
                return true;
            }
        }
        false
    }

    // Whether the lists tell of no crash.
    fn knows_no_crash(&self) -> bool
        ensures { IsTrue result → (h : ℕ) → known_count self.now h ≡ 0 }
    {
        self.crashes == 0 && self.counts.len() == 0
    }

    // Whether a guardian of the opening crashed since an incarnation among these.
    fn knows_crash_since(&self, opening: &Opening, depends: &Deps) -> bool
        ensures { result ≡ list_any (λ h. is_below (map.get depends.now h) (known_count self.now h))
            (guardians_of (opening_in opening.now)) }
    {
        // Where no crash is known, no dependency is looked at.
        if self.knows_no_crash() {
            return false;
        }
        let guardians = opening.setup().guardians();
        for &(guardian, least) in depends.entries() {
            if guardian > 0 && guardian as usize <= guardians && least < self.count_of(guardian) {
                return true;
            }
        }
        false
    }
}
