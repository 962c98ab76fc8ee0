use crate::fault::StoreFault;
use crate::kept::Kept;
use crate::stable::Stable;
use atomic_types::Part;
use std::alloc::Global;
use std::collections::BTreeMap;
use std::marker::Model;
use values::Content;

/// A store of which one call fails, once. All others are passed on to the inner store.
#[derive(Drop)]
pub struct FailOnce<S: Stable> {
    inner: S,
    calls_left: u64,
    failed: u64,
}

impl<S: Stable> Model for FailOnce<S> {
    ghost use Rattle.stable_store.specs.Calls.{Rests};
    ghost use Rattle.stable_store.specs.Failing.{Failing};

    ghost Value = { Failing S };

    ghost view = { λ a. record { inner = a.inner; calls_left = a.calls_left; failed = a.failed } };

    ghost invariant = { λ a. Rests (S.seen a.inner) };
}

impl<S: Stable> FailOnce<S> {
    ghost use Rattle.std.specs.Prelude.{◌≡◌, ◌↔◌, IsTrue};
    ghost use Rattle.stable_store.specs.Calls.{Rests};
    ghost use Rattle.stable_store.specs.Failing.{Failing, counted};

    /// A store whose call of this number fails with `Failed`, once, and is counted. Calls are counted from 1, all but
    /// `kept` and `failures`; with 0 none fails.
    pub fn new(inner: S, call: u64) -> FailOnce<S>
        requires { Rests (S.seen inner) }
        ensures { result ≡ record { inner = inner; calls_left = call; failed = 0 } }
    {
        FailOnce {
            inner,
            calls_left: call,
            failed: 0,
        }
    }

    /// Counts a call, and says whether it is the one that fails.
    fn count_call(&mut self) -> bool
        ensures answer { IsTrue result ↔ (self.old.calls_left ≡ 1) }
        ensures counts { self.new ≡ counted self.old }
        ensures rests { Rests (S.seen self.new.inner) }
    {
        let fails = self.calls_left == 1;
        self.calls_left = self.calls_left.saturating_sub(1);
        if fails {
            self.failed = self.failed.saturating_add(1);
        }
        fails
    }
}

impl<S: Stable> Stable for FailOnce<S> {
    ghost use Rattle.std.specs.Prelude.{◌≡◌, ◌⊎◌, ◌≤◌, false, IfOk, IsErrOf, IsTrue, Some, None, MatchOption, OnOk};
    ghost use Rattle.stable_store.specs.Stored.{after_prepare, after_install, after_discard, after_decide, after_bump, after_save, greatest_count};
    ghost use Rattle.stable_store.specs.Numbers.{has_zero, is_misnumbered};
    ghost use Rattle.stable_store.specs.Calls.{View, Makes, IsRefused, found};
    ghost use Rattle.stable_store.specs.Held.{held};
    ghost use Rattle.stable_store.specs.Failing.{failing_view, IsFailing, TakesTurn};
    ghost use Rattle.stable_store.specs.declared.fault.StoreFault.TheVariants.{NotOurs};

    ghost seen = { λ s. failing_view S.seen s };

    ghost may_fail = { λ old new. IsFailing S.may_fail old new };

    ghost read = { S.read };

    fn prepare(
        &mut self,
        alloc: Global,
        top: u32,
        home: u32,
        parts: BTreeMap<u32, Part>,
    ) -> Result<(), StoreFault>
        ensures makes { Makes (failing_view S.seen self.old) (failing_view S.seen self.new)
            (IsFailing S.may_fail self.old self.new
            ⊎ IsTrue (is_misnumbered top home parts.entries))
            (after_prepare top home parts.entries (S.seen self.old.inner).content) result }
        ensures numbers { IsTrue (is_misnumbered top home parts.entries) → IsRefused result }
        ensures ours { IsErrOf result NotOurs → (S.seen self.old.inner).holds_content ≡ false }
        ensures turn { TakesTurn self.old self.new result }
    {
        if self.count_call() {
            return Err(StoreFault::Failed);
        }
        self.inner.prepare(alloc, top, home, parts)
    }

    fn install(&mut self, alloc: Global, top: u32) -> Result<(), StoreFault>
        ensures makes { Makes (failing_view S.seen self.old) (failing_view S.seen self.new)
            (IsFailing S.may_fail self.old self.new)
            (after_install top (S.seen self.old.inner).content) result }
        ensures ours { IsErrOf result NotOurs → (S.seen self.old.inner).holds_content ≡ false }
        ensures turn { TakesTurn self.old self.new result }
    {
        if self.count_call() {
            return Err(StoreFault::Failed);
        }
        self.inner.install(alloc, top)
    }

    fn discard(&mut self, top: u32) -> Result<(), StoreFault>
        ensures makes { Makes (failing_view S.seen self.old) (failing_view S.seen self.new)
            (IsFailing S.may_fail self.old self.new)
            (after_discard top (S.seen self.old.inner).content) result }
        ensures ours { IsErrOf result NotOurs → (S.seen self.old.inner).holds_content ≡ false }
        ensures turn { TakesTurn self.old self.new result }
    {
        if self.count_call() {
            return Err(StoreFault::Failed);
        }
        self.inner.discard(top)
    }

    fn decide(&mut self, top: u32) -> Result<(), StoreFault>
        ensures makes { Makes (failing_view S.seen self.old) (failing_view S.seen self.new)
            (IsFailing S.may_fail self.old self.new ⊎ (top ≡ 0))
            (after_decide top (S.seen self.old.inner).content) result }
        ensures numbers { top ≡ 0 → IsRefused result }
        ensures ours { IsErrOf result NotOurs → (S.seen self.old.inner).holds_content ≡ false }
        ensures turn { TakesTurn self.old self.new result }
    {
        if self.count_call() {
            return Err(StoreFault::Failed);
        }
        self.inner.decide(top)
    }

    fn bump(&mut self) -> Result<(), StoreFault>
        ensures makes { Makes (failing_view S.seen self.old) (failing_view S.seen self.new)
            (IsFailing S.may_fail self.old self.new
            ⊎ (greatest_count ≤ (S.seen self.old.inner).content.count))
            (after_bump (S.seen self.old.inner).content) result }
        ensures spent { greatest_count ≤ (S.seen self.old.inner).content.count → IsRefused result }
        ensures ours { IsErrOf result NotOurs → (S.seen self.old.inner).holds_content ≡ false }
        ensures turn { TakesTurn self.old self.new result }
    {
        if self.count_call() {
            return Err(StoreFault::Failed);
        }
        self.inner.bump()
    }

    fn save(&mut self, alloc: Global, contents: &BTreeMap<u32, Content>) -> Result<(), StoreFault>
        ensures makes { Makes (failing_view S.seen self.old) (failing_view S.seen self.new)
            (IsFailing S.may_fail self.old self.new ⊎ IsTrue (has_zero contents.now.entries))
            (after_save contents.now.entries (S.seen self.old.inner).content) result }
        ensures numbers { IsTrue (has_zero contents.now.entries) → IsRefused result }
        ensures ours { IsErrOf result NotOurs → (S.seen self.old.inner).holds_content ≡ false }
        ensures turn { TakesTurn self.old self.new result }
    {
        if self.count_call() {
            return Err(StoreFault::Failed);
        }
        self.inner.save(alloc, contents)
    }

    fn load(&mut self, alloc: Global) -> Result<Kept, StoreFault>
        ensures makes { Makes (failing_view S.seen self.old) (failing_view S.seen self.new)
            (IsFailing S.may_fail self.old self.new)
            (S.seen self.old.inner).content result }
        ensures loaded { IfOk result (λ kept. held kept ≡ (S.seen self.old.inner).content) }
        ensures read { OnOk result S.read }
        ensures turn { TakesTurn self.old self.new result }
    {
        if self.count_call() {
            return Err(StoreFault::Failed);
        }
        self.inner.load(alloc)
    }

    fn kept(&self) -> Option<&Kept> {
        self.inner.kept()
    }

    fn failures(&self) -> u64 {
        self.inner.failures().saturating_add(self.failed)
    }
}
