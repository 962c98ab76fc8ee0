ghost use Rattle.std.specs.Prelude.{◌≡◌, ◌≤◌, ◌<◌, ℕ, ◌-◌, ◌==◌, ◌||◌, List, ◌∷◌, drop, length, IsErrOf, IsTrue, IfOk, OnOk, OnErr, MatchOption, Some, slice_get};
ghost use Rattle.run_model.specs.Answers.{answer_of};
ghost use Rattle.run_model.specs.Runs.{IsRun, history_after, is_accepted};
ghost use Rattle.run_model.specs.LocalHistories.{answer_lent};
ghost use Rattle.run_model.specs.Openings.{Opening};
ghost use Rattle.layer_contracts.specs.Forests.{ForestState};
ghost use Rattle.layer_contracts.specs.Guardians.{GuardianState, lent_two};
ghost use Rattle.world_steps.specs.Lending.{nobody};
ghost use Rattle.world_steps.specs.Naming.{AreNamed};
ghost use Rattle.layer_contracts.specs.Stores.{fault_in};
ghost use Rattle.layer_contracts.specs.declared.guardian.Fault.TheVariants.{Stable};
ghost use Rattle.world_steps.specs.Standings.{AreSame, HasFailed, forest_of, IsKeptAt, IsLeftAt, IsOut, IsReady, IsWholeAt, IsWorld, Names, StoresLeft};

use crate::{Messages, NamedGuardians, answer_alone, answer_two, keep_one, keep_two, named};
use layer_contracts::{Draw, EventRef, Fault, Forest, Guardian};
use packed_history::PackedHistory;
use run_model::{Answer, Step};
use std::alloc::{AllocError, Global};

/// Makes one step of a world and gives its answer. An accepted step is in the history from then on, and with the
/// forest and the guardians that it names; one that is refused or waits changes nothing. After an error nothing has
/// changed. At most one store is called: `Stable` comes of it, and then it has counted one failure more. All this is
/// said of each opening in which these make a world.
pub fn step<R: Forest, G: Guardian>(
    alloc: Global,
    messages: &mut Messages,
    forest: &mut R,
    guardians: &mut [G],
    history: &mut PackedHistory,
    step: &Step,
) -> Result<Answer, Fault>
    ghost opening: { Opening }
    requires { IsWorld G.stands G.stored (R.stands forest.old) opening history.old guardians.old }
    ensures answer { IfOk result (λ answer. answer ≡ answer_of opening step.now history.old) }
    ensures after { IfOk result
        (λ answer. history.new ≡ history_after step.now answer history.old) }
    ensures err { OnErr result (history.new ≡ history.old) }
    ensures world { IsWorld G.stands G.stored (R.stands forest.new) opening
        history.new guardians.new }
    ensures stores { StoresLeft G.stored opening history.old step.now guardians.old
        guardians.new (fault_in result) }
    ensures cause { IsErrOf result Stable → HasFailed G.stored guardians.old guardians.new }
{
    let named = named(forest, step);
    let (low, high) = in_order(named);
    let answer = answer_at(alloc, forest, guardians, history, low, high, step)?;
    if !answer.is_accepted() {
        return Ok(answer);
    }
    let event = EventRef {
        step,
        answer: &answer,
    };
    keep(
        alloc, messages, forest, guardians, history, named, low, high, &event,
    )?;
    Ok(answer)
}

/// The guardians that a step names, the lower number first.
fn in_order(named: NamedGuardians) -> (u32, u32)
    ensures same { (g : ℕ)
        → ((named.first == g) || (named.second == g)) ≡ ((result.0 == g) || (result.1 == g)) }
    ensures ordered { result.0 ≤ result.1 }
{
    let NamedGuardians { first, second } = named;
    if first <= second {
        (first, second)
    } else {
        (second, first)
    }
}

/// The guardian of this number.
fn at<G>(guardians: &[G], number: u32) -> Option<&G>
    ensures { MatchOption result (IsOut (length guardians.now) number)
        (λ x. (1 ≤ number) × (number ≤ length guardians.now)
        × (slice_get guardians.now (number - 1) ≡ Some x.now)) }
{
    if number == 0 {
        return None;
    }
    guardians.get(number as usize - 1)
}

/// The answer of a step that names these two guardians.
fn answer_at<R: Forest, G: Guardian>(
    alloc: Global,
    forest: &R,
    guardians: &[G],
    _history: &PackedHistory,
    low: u32,
    high: u32,
    step: &Step,
) -> Result<Answer, AllocError>
    ghost opening: { Opening }
    requires world { IsWorld G.stands G.stored (R.stands forest.now) opening
        _history.now guardians.now }
    requires names { Names (forest_of opening _history.now) step.now low high }
    ensures { IfOk result (λ answer. answer ≡ answer_of opening step.now _history.now) }
{
    match at(guardians, low) {
        Some(first) => match at(guardians, high) {
            Some(second) => answer_two(alloc, forest, first, second, step),
            None => answer_two(alloc, forest, first, first, step),
        },
        None => match at(guardians, high) {
            Some(second) => answer_two(alloc, forest, second, second, step),
            None => answer_alone(alloc, forest, step),
        },
    }
}

/// Keeps an accepted step with its answer: in the history, in the forest and at the guardians that it names.
fn keep<R: Forest, G: Guardian>(
    alloc: Global,
    messages: &mut Messages,
    forest: &mut R,
    guardians: &mut [G],
    history: &mut PackedHistory,
    named: NamedGuardians,
    low: u32,
    high: u32,
    event: &EventRef<'_>,
) -> Result<(), Fault>
    ghost opening: { Opening }
    requires world { IsWorld G.stands G.stored (R.stands forest.old) opening
        history.old guardians.old }
    requires named { AreNamed (R.stands forest.old) event.now.step named }
    requires names { Names (forest_of opening history.old) event.now.step low high }
    requires ordered { low ≤ high }
    requires more { IsRun opening (event.now ∷ history.old) }
    ensures ok { OnOk result (history.new ≡ event.now ∷ history.old) }
    ensures err { OnErr result (history.new ≡ history.old) }
    ensures world { IsWorld G.stands G.stored (R.stands forest.new) opening
        history.new guardians.new }
    ensures stores { StoresLeft G.stored opening history.old event.now.step guardians.old
        guardians.new (fault_in result) }
    ensures cause { IsErrOf result Stable → HasFailed G.stored guardians.old guardians.new }
{
    let number = history.next_stamp();
    history.push(event)?;
    let kept = keep_at(
        alloc, messages, forest, guardians, named, low, high, event, number,
    );
    ask_number(guardians, low);
    ask_number(guardians, high);
    match kept {
        Ok(()) => Ok(()),
        Err(fault) => {
            history.pop();
            Err(fault)
        }
    }
}

/// Asks a guardian for its number: its store is that of each history in which it stands.
fn ask_number<G: Guardian>(guardians: &[G], number: u32)
    requires first { 1 ≤ number }
    requires last { number ≤ length guardians.now }
    ensures { IsWholeAt G.stands G.stored number guardians.now }
{
    guardians[number as usize - 1].number();
}

/// The stamp of an event whose number in the history is known.
#[derive(Drop)]
struct Numbered(u64);

impl Draw for Numbered {
    ghost use Rattle.std.specs.Prelude.{◌≡◌};

    ghost may_draw = { λ d. Unit {0} };

    ghost draws = { λ d n new. n ≡ d.0 };

    fn draw(&mut self) -> u64 {
        self.0
    }
}

/// Keeps an event at the two guardians of these numbers, or at one.
fn keep_at<R: Forest, G: Guardian>(
    alloc: Global,
    messages: &mut Messages,
    forest: &mut R,
    guardians: &mut [G],
    named: NamedGuardians,
    low: u32,
    high: u32,
    event: &EventRef<'_>,
    number: u64,
) -> Result<(), Fault>
    requires named { AreNamed (R.stands forest.old) event.now.step named }
    requires first { 1 ≤ low }
    requires ordered { low ≤ high }
    requires last { high ≤ length guardians.old }
    requires ready { (f : ForestState) × (states : ℕ → GuardianState)
        × IsReady G.stands (R.stands forest.old) f states low high event.now guardians.old }
    ensures ok { OnOk result ((f : ForestState) (states : ℕ → GuardianState)
        → IsReady G.stands (R.stands forest.old) f states low high event.now guardians.old
        → IsKeptAt G.stands (R.stands forest.new) f states low high number event.now
        guardians.old guardians.new) }
    ensures err { OnErr result
        (AreSame G.stands (R.stands forest.old) (R.stands forest.new) guardians.old guardians.new) }
    ensures stores { (f : ForestState) (states : ℕ → GuardianState)
        → IsReady G.stands (R.stands forest.old) f states low high event.now guardians.old
        → IsLeftAt G.stored f states low high event.now guardians.old
        guardians.new (fault_in result) }
    ensures cause { IsErrOf result Stable → HasFailed G.stored guardians.old guardians.new }
{
    let mut numbered = Numbered(number);
    if low == high {
        keep_one(
            alloc,
            messages,
            forest,
            &mut guardians[low as usize - 1],
            named,
            event,
            &mut numbered,
        )?;
        return Ok(());
    }
    let (left, right) = guardians.split_at_mut(high as usize - 1);
    keep_two(
        alloc,
        messages,
        forest,
        &mut left[low as usize - 1],
        &mut right[0],
        named,
        event,
        &mut numbered,
    )?;
    Ok(())
}
