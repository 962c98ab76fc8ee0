//! What a system finds that is opened again: what a new top action would have seen just before the stop.
//!
//! The first laws speak of histories, the others of what stable stores contain once `store_recovery` has settled them.
//! Each law is the contract of a function without a body.
#![tactic(auto, unfolding(run_model::specs::Answers::answer_of))]

ghost use Rattle.recovery_laws.specs.Examples as example;
ghost use Rattle.recovery_laws.specs.Examples.{Settles};
ghost use Rattle.recovery_laws.specs.Laws.{DecidedAheadIsInstalled, NewTopsAreNoOrphans, RecordsAlone, SettledInAnyOrder, SettledInParts, SettledIsSeen, SettledIsSeenByPlace, SettledSame};
ghost use Rattle.recovery_laws.specs.Numbers.{DecidedStayOlder, FreshAreNumbered, PreparedAreOlder};
ghost use Rattle.recovery_laws.specs.Opened.{ContentsThroughStops, OpenedAgainGoesOn, OpensWithWhatWasSeen, PreparedNeverAgain, SerialThroughStops, SettlesOnce, StaysNumbered};
ghost use Rattle.recovery_laws.specs.StoreExamples.{SetAwayByHand, StoresSettle};
ghost use Rattle.recovery_laws.specs.StoreLaws.{NewStores, NextOpeningGoesOn, OneStoreIsCalled, OpenedStoresGoOn, SerialThroughStores, SettledAreFound, SettledStores, StopWithinAStep, StopWithinAnyStep, StoresFollow, StoresHoldWhatIsSeen};
ghost use Rattle.std.specs.Prelude.{pos};
ghost use Rattle.values.specs.declared.content.Content.TheVariants.{Counter};

/// A top action that has not begun is no orphan.
pub fn new_tops_are_no_orphans()
    ensures { NewTopsAreNoOrphans }
{}

/// Once each record of a prepared top action is installed where the top action was decided, and dropped elsewhere,
/// each object has the content that a new top action would have seen just before.
pub fn settled_is_seen()
    ensures { SettledIsSeen }
{}

/// So it has where what the new top action would have seen is replayed in order of place.
pub fn settled_is_seen_by_place()
    ensures { SettledIsSeenByPlace }
{}

/// In whatever order the records come to rest, each once, the same is installed.
pub fn settled_in_any_order()
    ensures { SettledInAnyOrder }
{}

/// Names without records may be left out.
pub fn records_alone()
    ensures { RecordsAlone }
{}

/// Where the work is cut off after some names and taken up with the others, the same is installed.
pub fn settled_in_parts()
    ensures { SettledInParts }
{}

/// What the guardians know of their stores by their own histories comes to rest as what the whole history says.
pub fn settled_same()
    ensures { SettledSame }
{}

/// The stores of new guardians know the first number of a top action.
pub fn fresh_are_numbered()
    ensures { FreshAreNumbered }
{}

/// Each top action that some guardian has prepared has a number below the one that all stores together know as the
/// next.
pub fn prepared_are_older()
    ensures { PreparedAreOlder }
{}

/// So has each top action that is decided.
pub fn decided_stay_older()
    ensures { DecidedStayOlder }
{}

/// What all stores together open with is a run that goes on from what was settled.
pub fn opened_again_goes_on()
    ensures { OpenedAgainGoesOn }
{}

/// What has come to rest stays so: where nothing happened since, there is nothing to settle.
pub fn settles_once()
    ensures { SettlesOnce }
{}

/// A run that goes on from what was settled begins with what a new top action would have seen at the end of the run
/// before.
pub fn opens_with_what_was_seen()
    ensures { OpensWithWhatWasSeen }
{}

/// Its stores know the first number of a top action again.
pub fn stays_numbered()
    ensures { StaysNumbered }
{}

/// No top action that some guardian had prepared begins in it.
pub fn prepared_never_again()
    ensures { PreparedNeverAgain }
{}

/// However often the system stopped, the present run began with what a new top action would have seen at the end of
/// each run before.
pub fn contents_through_stops()
    ensures { ContentsThroughStops }
{}

/// However often the system stopped, all its runs are serial together.
pub fn serial_through_stops()
    ensures { SerialThroughStops }
{}

/// Of two adders, both prepared, one is decided.
pub fn one_decided()
    ensures { Settles example.from_ten example.one_decided example.counter example.three
        (Counter (pos 17)) }
{}

/// Of two adders, both prepared, one is decided and the other aborted.
pub fn one_aborted()
    ensures { Settles example.from_ten example.one_aborted example.counter example.three
        (Counter (pos 17)) }
{}

/// Once both are told, nothing changes.
pub fn both_told()
    ensures { Settles example.from_ten example.both_told example.counter example.three
        (Counter (pos 17)) }
{}

/// A subaction sets a record away from home, and its top action is decided, which only the home knows.
pub fn set_away()
    ensures { Settles example.two_guardians example.set_away example.away example.three
        (example.record_of 4) }
{}

/// Before that, the record is as it was.
pub fn set_in_vain()
    ensures { Settles example.two_guardians example.set_in_vain example.away example.three
        (example.record_of 0) }
{}

/// Where a store had a top action of the history as decided before, its record is installed though it was not decided
/// now.
pub fn decided_ahead_is_installed()
    ensures { DecidedAheadIsInstalled }
{}

/// The stores of a run, once all records are settled, hold what its history settles.
pub fn settled_stores()
    ensures { SettledStores }
{}

/// So they hold what a new top action would have seen just before.
pub fn stores_hold_what_is_seen()
    ensures { StoresHoldWhatIsSeen }
{}

/// An opening with what they hold goes on from the run.
pub fn next_opening_goes_on()
    ensures { NextOpeningGoesOn }
{}

/// So does an opening with what is found of them later, where recoveries may have been counted.
pub fn opened_stores_go_on()
    ensures { OpenedStoresGoOn }
{}

/// Where none were counted the settled stores are what is found.
pub fn settled_are_found()
    ensures { SettledAreFound }
{}

/// However often the system stopped, where each run begins with what was found of the settled stores of the run
/// before, all its runs are serial together.
pub fn serial_through_stores()
    ensures { SerialThroughStores }
{}

/// A stop within a step leaves the stores of the run with the step, or those of the run without it.
pub fn stop_within_a_step()
    ensures { StopWithinAStep }
{}

/// The stores of new guardians are those of a run to which nothing happened.
pub fn new_stores_are_empty()
    ensures { NewStores }
{}

/// And stores that make the calls that its events ask for follow the run.
pub fn stores_follow()
    ensures { StoresFollow }
{}

/// A step calls at most one store.
pub fn one_store_is_called()
    ensures { OneStoreIsCalled }
{}

/// So a stop within any step leaves the stores of the run with the step, or those of the run without it.
pub fn stop_within_any_step()
    ensures { StopWithinAnyStep }
{}

/// A subaction sets a record away from home, and its top action is decided, which only the home's store knows.
pub fn stores_set_away()
    ensures { StoresSettle example.two_guardians example.set_away example.away
        (example.record_of 4) }
{}

/// Before that, the record is as it was.
pub fn stores_set_in_vain()
    ensures { StoresSettle example.two_guardians example.set_in_vain example.away
        (example.record_of 0) }
{}

/// By hand: the two stores that the steps make of new ones, and what is installed in the second.
pub fn set_away_by_hand()
    ensures { SetAwayByHand }
{}
