//! What an accepted step leaves of the forest and of the guardians that it was lent.
ghost use Rattle.std.specs.Prelude.{◌≡◌, ◌==◌, ◌&&◌, false, ◌⊎◌, IfOk, OnErr, OnOk, IsErrOf, IsTrue, IsFalse, MatchBool, map};
ghost use Rattle.std.specs.Bool.{OnTrue};
ghost use Rattle.std.specs.List.Sorted.{IsStrictlySortedBy};
ghost use Rattle.action_names.specs.Names.{name_cmp};
ghost use Rattle.run_model.specs.Runs.{is_accepted};
ghost use Rattle.run_model.specs.LocalHistories.{events_there, names_guardian, takes_registry};
ghost use Rattle.layer_contracts.specs.Guardians.{GuardianState, after_step, lent_two};
ghost use Rattle.layer_contracts.specs.Stores.{CountsFailure, LeavesStore, Stays, fault_in};
ghost use Rattle.layer_contracts.specs.declared.guardian.Fault.TheVariants.{Stable};
ghost use Rattle.layer_contracts.specs.Messages.{is_operation, may_fail};
ghost use Rattle.layer_contracts.specs.Forests.{ForestState, entered};
ghost use Rattle.world_steps.specs.Lending.{IsOneOf, Lends};
ghost use Rattle.world_steps.specs.Keeping.{AreAnswered, Brings, IsAnswered, IsDone, IsInstalled, IsKept, IsLentAt, IsPlannedHere, IsPlannedInSome, Plans, PlansThere, StandsStill, StoreLeft, WhereverPlanned};
ghost use Rattle.world_steps.specs.Naming.{AreNamed};

use crate::lent::Lent;
use crate::messages::Messages;
use crate::names::{NamedGuardians, is_named, is_operation, takes_registry};
use layer_contracts::{Draw, EventRef, Fault, Forest, Guardian, Lineage, Message};
use run_model::Step;
use std::alloc::{AllocError, Global};

impl<'a, R: Forest, G: Guardian> Lent<'a, R, G> {
    /// Fills the message with what the event brings to the guardian, if it names that. Answers whether it does.
    fn brought_to(
        &self,
        named: NamedGuardians,
        event: &EventRef<'_>,
        at: &G,
        message: &mut Message,
    ) -> Result<bool, AllocError>
        requires { AreNamed (R.stands self.now.forest.now) event.now.step named }
        ensures { IfOk result (λ brings. (f : ForestState) (a b x : GuardianState)
            → Lends R.stands G.stands self.now f a b → G.stands at.now x
            → IsOneOf a b x → x.opening ≡ f.opening → IsAnswered f a b event.now
            → Brings f a b event.now x brings message.new) }
    {
        if !is_named(named, at.number()) {
            return Ok(false);
        }
        self.fill(named, event, at, message)?;
        Ok(true)
    }
}

/// Makes room at the guardian for an event that brings this message to it, if it is to keep that.
fn plan_at<L: Lineage, G: Guardian>(
    lineage: &L,
    guardian: &mut G,
    keeps: bool,
    event: &EventRef<'_>,
    message: &mut Message,
) -> Result<(), AllocError>
    requires accepted { IsTrue (is_accepted event.now.answer) }
    requires rising { OnTrue keeps
        (IsStrictlySortedBy name_cmp (map (λ x. x.0) message.old.outcomes.items)) }
    ensures same { StandsStill (G.stands guardian.old) (G.stands guardian.new) }
    ensures store { Stays (G.stored guardian.old) (G.stored guardian.new) }
    ensures fits { OnOk result (OnTrue keeps (G.fits guardian.new)) }
    ensures planned { OnOk result ((f : ForestState) (a b x : GuardianState)
        → L.is_of lineage.now f → G.stands guardian.old x → Brings f a b event.now x keeps message.old
        → Plans (G.is_planned guardian.new) f a b event.now x keeps) }
{
    if keeps {
        guardian.plan(lineage, event, message)?;
    }
    Ok(())
}

/// Makes room in the forest for an event, if the forest keeps it.
fn plan_there<R: Forest>(forest: &mut R, event: &EventRef<'_>, life: u64) -> Result<(), AllocError>
    requires accepted { IsTrue (is_accepted event.now.answer) }
    ensures same { (f : ForestState) → R.stands forest.old f → R.stands forest.new f }
    ensures fits { OnOk result (IsTrue (takes_registry event.now.step) → R.fits forest.new) }
    ensures planned { OnOk result ((f : ForestState) → R.stands forest.old f → entered f event.now
        → PlansThere (R.is_planned forest.new) f life event.now) }
{
    if !takes_registry(event.step) {
        return Ok(());
    }
    forest.plan(event, life)
}

/// Whether what the event changes at this guardian, which it names, may fail though there is room.
fn may_fail(step: &Step, guardian: u32) -> bool
    ensures { result ≡ may_fail step.now guardian }
{
    match step {
        Step::Prepare(at, _) => *at == guardian,
        Step::Op(..) | Step::Decide(_) | Step::Tell(..) | Step::Recover(_) => true,
        _ => false,
    }
}

/// Whether the guardian keeps the event and what that changes there may fail though there is room.
fn may_fail_at<G: Guardian>(keeps: bool, event: &EventRef<'_>, guardian: &G) -> bool
    ensures { (x : GuardianState) → G.stands guardian.now x
        → result ≡ (keeps && may_fail event.now.step x.number) }
{
    keeps && may_fail(event.step, guardian.number())
}

/// Draws the stamp, and keeps the event at the guardian, if that is to keep it.
fn carry_out<G: Guardian, D: Draw>(
    guardian: &mut G,
    keeps: bool,
    event: &EventRef<'_>,
    stamp: &mut D,
) -> Result<u64, Fault>
    requires stamp { D.may_draw stamp.old }
    requires other { IsFalse (is_operation event.now.step) }
    requires fits { OnTrue keeps (G.fits guardian.old) }
    requires planned { OnTrue keeps
        (IsPlannedHere (G.stands guardian.old) (G.is_planned guardian.old) event.now) }
    ensures drawn { IfOk result (λ n. D.draws stamp.old n stamp.new) }
    ensures undrawn { OnErr result (stamp.new ≡ stamp.old) }
    ensures kept { IfOk result (λ n. MatchBool keeps
        (IsKept (G.stands guardian.old) (G.stands guardian.new)
        (G.is_planned guardian.old) event.now n)
        (StandsStill (G.stands guardian.old) (G.stands guardian.new))) }
    ensures err { OnErr result (StandsStill (G.stands guardian.old) (G.stands guardian.new)) }
    ensures store { MatchBool keeps
        (WhereverPlanned (G.stands guardian.old) (G.is_planned guardian.old) event.now
        (λ x news. LeavesStore x news (G.stored guardian.old) (G.stored guardian.new)
        (fault_in result)))
        (Stays (G.stored guardian.old) (G.stored guardian.new)) }
    ensures cause { IsErrOf result Stable
        → CountsFailure (G.stored guardian.old) (G.stored guardian.new) }
{
    if keeps {
        guardian.carry_out(event, stamp)
    } else {
        Ok(stamp.draw())
    }
}

/// Keeps the event at the guardian, if that is to keep it and cannot fail.
fn install<G: Guardian>(guardian: &mut G, keeps: bool, event: &EventRef<'_>, stamp: u64)
    requires fits { OnTrue keeps (G.fits guardian.old) }
    requires planned { OnTrue keeps
        (IsPlannedHere (G.stands guardian.old) (G.is_planned guardian.old) event.now) }
    requires quiet { OnTrue keeps ((x : GuardianState) × G.stands guardian.old x
        × IsFalse (may_fail event.now.step x.number)) }
    ensures kept { MatchBool keeps
        (IsKept (G.stands guardian.old)
        (G.stands guardian.new) (G.is_planned guardian.old) event.now stamp)
        (StandsStill (G.stands guardian.old) (G.stands guardian.new)) }
    ensures store { Stays (G.stored guardian.old) (G.stored guardian.new) }
{
    if keeps {
        guardian.install(event, stamp);
    }
}

/// Keeps the event in the forest, if the forest keeps it.
fn install_there<R: Forest>(forest: &mut R, event: &EventRef<'_>, stamp: u64)
    requires fits { IsTrue (takes_registry event.now.step) → R.fits forest.old }
    requires planned { IsTrue (takes_registry event.now.step)
        → IsPlannedInSome (R.stands forest.old) (R.is_planned forest.old) event.now }
    ensures kept { IsTrue (takes_registry event.now.step)
        → IsInstalled (R.stands forest.old) (R.stands forest.new)
        (R.is_planned forest.old) event.now stamp }
    ensures same { IsFalse (takes_registry event.now.step)
        → (f : ForestState) → R.stands forest.old f → R.stands forest.new f }
{
    if takes_registry(event.step) {
        forest.install(event, stamp);
    }
}

/// Keeps an operation at one of the guardians that are lent: with the stamp, if it is that guardian's, and else it
/// draws the stamp alone. No message comes with an operation, and the forest keeps none. Fails only if memory runs
/// out.
fn operate<R: Forest, G: Guardian, D: Draw>(
    forest: &R,
    guardian: &mut G,
    named: NamedGuardians,
    event: &EventRef<'_>,
    stamp: &mut D,
) -> Result<u64, AllocError>
    requires stamp { D.may_draw stamp.old }
    requires named { AreNamed (R.stands forest.now) event.now.step named }
    requires operation { IsTrue (is_operation event.now.step) }
    requires answered { (f : ForestState) × (a : GuardianState) × (b : GuardianState)
        × (x : GuardianState)
        × IsLentAt (R.stands forest.now) (G.stands guardian.old) f a b event.now x }
    ensures drawn { IfOk result (λ n. D.draws stamp.old n stamp.new) }
    ensures undrawn { OnErr result (stamp.new ≡ stamp.old) }
    ensures kept { IfOk result (λ n. (f : ForestState) (a b x : GuardianState)
        → IsLentAt (R.stands forest.now) (G.stands guardian.old) f a b event.now x
        → G.stands guardian.new (after_step x (n, event.now) f.registry (lent_two a b))) }
    ensures err { OnErr result (StandsStill (G.stands guardian.old) (G.stands guardian.new)) }
    ensures store { Stays (G.stored guardian.old) (G.stored guardian.new) }
{
    if is_named(named, guardian.number()) {
        guardian.operate(event, stamp)
    } else {
        Ok(stamp.draw())
    }
}

/// After an accepted step that was lent two guardians and names these: all of them keep its event as far as it names
/// them. Room is made first; then comes the one call of a store or of an object, if there is one, then the stamp,
/// then what cannot fail. After an error all are as they were. What is left is said of all states in which they stood
/// and by which the event was answered, and there are such.
pub fn keep_two<R: Forest, G: Guardian, D: Draw>(
    alloc: Global,
    messages: &mut Messages,
    forest: &mut R,
    first: &mut G,
    second: &mut G,
    named: NamedGuardians,
    event: &EventRef<'_>,
    stamp: &mut D,
) -> Result<u64, Fault>
    requires stamp { D.may_draw stamp.old }
    requires named { AreNamed (R.stands forest.old) event.now.step named }
    requires answered { (f : ForestState) × (a : GuardianState) × (b : GuardianState)
        × AreAnswered (R.stands forest.old) (G.stands first.old)
        (G.stands second.old) f a b event.now
        × ((a.number == b.number) ≡ false) }
    ensures drawn { IfOk result (λ n. D.draws stamp.old n stamp.new) }
    ensures undrawn { OnErr result (stamp.new ≡ stamp.old) }
    ensures done { IfOk result (λ n. (f : ForestState) (a b : GuardianState)
        → AreAnswered (R.stands forest.old) (G.stands first.old)
        (G.stands second.old) f a b event.now
        → IsDone (R.stands forest.new) (G.stands first.new) (G.stands second.new)
        f a b event.now n) }
    ensures forest_same { OnErr result
        ((f : ForestState) → R.stands forest.old f → R.stands forest.new f) }
    ensures first_same { OnErr result (StandsStill (G.stands first.old) (G.stands first.new)) }
    ensures second_same { OnErr result (StandsStill (G.stands second.old) (G.stands second.new)) }
    ensures first_store { (f : ForestState) (a b : GuardianState)
        → AreAnswered (R.stands forest.old) (G.stands first.old)
        (G.stands second.old) f a b event.now
        → StoreLeft f a b event.now a (G.stored first.old) (G.stored first.new) (fault_in result) }
    ensures second_store { (f : ForestState) (a b : GuardianState)
        → AreAnswered (R.stands forest.old) (G.stands first.old)
        (G.stands second.old) f a b event.now
        → StoreLeft f a b event.now b (G.stored second.old)
        (G.stored second.new) (fault_in result) }
    ensures cause { IsErrOf result Stable → CountsFailure (G.stored first.old) (G.stored first.new)
        ⊎ CountsFailure (G.stored second.old) (G.stored second.new) }
{
    // The stores of both are those of their histories.
    first.number();
    second.number();
    if is_operation(event.step) {
        if is_named(named, first.number()) {
            return Ok(operate(forest, first, named, event, stamp)?);
        }
        return Ok(operate(forest, second, named, event, stamp)?);
    }
    let lent = Lent {
        alloc,
        forest: &*forest,
        first: &*first,
        second: &*second,
    };
    let life = lent.life_of_new(named, event);
    let keeps_first = lent.brought_to(named, event, lent.first, &mut messages.to_first)?;
    let keeps_second = lent.brought_to(named, event, lent.second, &mut messages.to_second)?;
    plan_there(forest, event, life)?;
    plan_at(&*forest, first, keeps_first, event, &mut messages.to_first)?;
    plan_at(
        &*forest,
        second,
        keeps_second,
        event,
        &mut messages.to_second,
    )?;
    if may_fail_at(keeps_first, event, &*first) {
        let number = carry_out(first, keeps_first, event, stamp)?;
        install(second, keeps_second, event, number);
        install_there(forest, event, number);
        Ok(number)
    } else {
        let number = carry_out(second, keeps_second, event, stamp)?;
        install(first, keeps_first, event, number);
        install_there(forest, event, number);
        Ok(number)
    }
}

/// The same after one that was lent one guardian.
pub fn keep_one<R: Forest, G: Guardian, D: Draw>(
    alloc: Global,
    messages: &mut Messages,
    forest: &mut R,
    guardian: &mut G,
    named: NamedGuardians,
    event: &EventRef<'_>,
    stamp: &mut D,
) -> Result<u64, Fault>
    requires stamp { D.may_draw stamp.old }
    requires named { AreNamed (R.stands forest.old) event.now.step named }
    requires answered { (f : ForestState) × (x : GuardianState)
        × AreAnswered (R.stands forest.old) (G.stands guardian.old)
        (G.stands guardian.old) f x x event.now }
    ensures drawn { IfOk result (λ n. D.draws stamp.old n stamp.new) }
    ensures undrawn { OnErr result (stamp.new ≡ stamp.old) }
    ensures done { IfOk result (λ n. (f : ForestState) (x : GuardianState)
        → AreAnswered (R.stands forest.old) (G.stands guardian.old)
        (G.stands guardian.old) f x x event.now
        → IsDone (R.stands forest.new) (G.stands guardian.new) (G.stands guardian.new)
        f x x event.now n) }
    ensures forest_same { OnErr result
        ((f : ForestState) → R.stands forest.old f → R.stands forest.new f) }
    ensures guardian_same { OnErr result
        (StandsStill (G.stands guardian.old) (G.stands guardian.new)) }
    ensures store { (f : ForestState) (x : GuardianState)
        → AreAnswered (R.stands forest.old) (G.stands guardian.old)
        (G.stands guardian.old) f x x event.now
        → StoreLeft f x x event.now x (G.stored guardian.old)
        (G.stored guardian.new) (fault_in result) }
    ensures cause { IsErrOf result Stable
        → CountsFailure (G.stored guardian.old) (G.stored guardian.new) }
{
    // Its store is that of its history.
    guardian.number();
    if is_operation(event.step) {
        return Ok(operate(forest, guardian, named, event, stamp)?);
    }
    let lent = Lent {
        alloc,
        forest: &*forest,
        first: &*guardian,
        second: &*guardian,
    };
    let life = lent.life_of_new(named, event);
    let keeps = lent.brought_to(named, event, lent.first, &mut messages.to_first)?;
    plan_there(forest, event, life)?;
    plan_at(&*forest, guardian, keeps, event, &mut messages.to_first)?;
    let number = carry_out(guardian, keeps, event, stamp)?;
    install_there(forest, event, number);
    Ok(number)
}
