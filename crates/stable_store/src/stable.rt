ghost use Rattle.std.specs.Prelude.{◌≡◌, ◌≤◌, ◌⊎◌, Bool, false, Some, None, IfOk, IsErrOf, IsTrue, MatchOption, OnOk};
ghost use Rattle.stable_store.specs.Stored.{after_prepare, after_install, after_discard, after_decide, after_bump, after_save, greatest_count};
ghost use Rattle.stable_store.specs.Numbers.{has_zero, is_misnumbered};
ghost use Rattle.stable_store.specs.Calls.{View, Makes, IsRefused, found};
ghost use Rattle.stable_store.specs.Held.{held};
ghost use Rattle.stable_store.specs.declared.fault.StoreFault.TheVariants.{NotOurs};

use crate::fault::StoreFault;
use crate::kept::Kept;
use atomic_types::Part;
use std::alloc::Global;
use std::collections::BTreeMap;
use values::Content;

/// The count that is not raised any more.
pub const GREATEST_COUNT: u64 = 9_223_372_036_854_775_807;

/// What a guardian keeps through a crash. A call makes its whole change or none: where it answers an error the
/// content is what it was, and what it was handed by value is dropped. `Memory` is out of memory; every other error
/// is counted. Where the device is laid out as the store knows it and returns what was written to it, and no failure
/// has shut the store, an opening after a stop in the midst of a call finds the content before the call or the one
/// after it; after an `Ok` it finds the one after it.
///
/// Objects, top actions and guardians go by their numbers, from 1: a number 0 is refused as `Failed`. A store on whose
/// device no content was found when it was opened answers `NotOurs` to each call.
pub trait Stable: Drop {
    /// What contracts see of it.
    ghost seen: { Self → View };

    /// What excuses that a call answered `Failed`, by the store before the call and after it.
    ghost may_fail: { Self → Self → Type 0 };

    /// That a device of such a store was read.
    ghost read: { Type 0 };

    /// Keeps the record of a prepared top action: its home, and the value or the delta that it would install by object
    /// number. A record that the top action had is replaced. The next top action's number is raised above this one's.
    fn prepare(
        &mut self,
        alloc: Global,
        top: u32,
        home: u32,
        parts: BTreeMap<u32, Part>,
    ) -> Result<(), StoreFault>
        ensures makes { Makes (seen self.old) (seen self.new)
            (may_fail self.old self.new ⊎ IsTrue (is_misnumbered top home parts.entries))
            (after_prepare top home parts.entries (seen self.old).content) result }
        ensures numbers { IsTrue (is_misnumbered top home parts.entries) → IsRefused result }
        ensures ours { IsErrOf result NotOurs → (seen self.old).holds_content ≡ false };

    /// Installs what the top action's record has, and forgets the record: a value takes the place of what was
    /// installed, a delta is added to it, or stands there itself where nothing was. With no record it changes
    /// nothing.
    fn install(&mut self, alloc: Global, top: u32) -> Result<(), StoreFault>
        ensures makes { Makes (seen self.old) (seen self.new) (may_fail self.old self.new)
            (after_install top (seen self.old).content) result }
        ensures ours { IsErrOf result NotOurs → (seen self.old).holds_content ≡ false };

    /// Forgets the top action's record. With no record it changes nothing.
    fn discard(&mut self, top: u32) -> Result<(), StoreFault>
        ensures makes { Makes (seen self.old) (seen self.new) (may_fail self.old self.new)
            (after_discard top (seen self.old).content) result }
        ensures ours { IsErrOf result NotOurs → (seen self.old).holds_content ≡ false };

    /// Keeps that the top action was decided.
    fn decide(&mut self, top: u32) -> Result<(), StoreFault>
        ensures makes { Makes (seen self.old)
            (seen self.new) (may_fail self.old self.new ⊎ (top ≡ 0))
            (after_decide top (seen self.old).content) result }
        ensures numbers { top ≡ 0 → IsRefused result }
        ensures ours { IsErrOf result NotOurs → (seen self.old).holds_content ≡ false };

    /// Counts one recovery more. At `GREATEST_COUNT` it is refused as `Failed`.
    fn bump(&mut self) -> Result<(), StoreFault>
        ensures makes { Makes (seen self.old) (seen self.new)
            (may_fail self.old self.new ⊎ (greatest_count ≤ (seen self.old).content.count))
            (after_bump (seen self.old).content) result }
        ensures spent { greatest_count ≤ (seen self.old).content.count → IsRefused result }
        ensures ours { IsErrOf result NotOurs → (seen self.old).holds_content ≡ false };

    /// Puts these contents in place of those of their objects, and leaves nothing decided. The prepared top actions,
    /// the count and the next top action's number stay, and so does what is installed of objects with no content
    /// here.
    fn save(&mut self, alloc: Global, contents: &BTreeMap<u32, Content>) -> Result<(), StoreFault>
        ensures makes { Makes (seen self.old) (seen self.new)
            (may_fail self.old self.new ⊎ IsTrue (has_zero contents.now.entries))
            (after_save contents.now.entries (seen self.old).content) result }
        ensures numbers { IsTrue (has_zero contents.now.entries) → IsRefused result }
        ensures ours { IsErrOf result NotOurs → (seen self.old).holds_content ≡ false };

    /// The content, as maps, read from the device. `NotOurs` where what the device returns is none; that is counted
    /// as a failure.
    fn load(&mut self, alloc: Global) -> Result<Kept, StoreFault>
        ensures makes { Makes (seen self.old) (seen self.new) (may_fail self.old self.new)
            (seen self.old).content result }
        ensures loaded { IfOk result (λ kept. held kept ≡ (seen self.old).content) }
        ensures read { OnOk result read };

    /// The content, as the store has it in memory; none where none was found on the device when the store was opened.
    fn kept(&self) -> Option<&Kept>
        ensures { MatchOption result (found (seen self.now) ≡ None)
            (λ kept. found (seen self.now) ≡ Some (held kept.now)) };

    /// How many calls were refused for another cause than out of memory. At 18,446,744,073,709,551,615 it stays.
    fn failures(&self) -> u64
        ensures { result ≡ (seen self.now).failures };
}
