//! A restart refuses what a run left only if memory runs out or a store counts a failure: the stores of a run belong
//! to its setup, and they still do once some of their records are settled.
//!
//! `World::reopen` answers `NotOurs` if what its stores contain does not belong to the setup. Without these laws a
//! check that refuses all stores would be proved too. Each law is the contract of a function without a body.
#![tactic(auto)]

ghost use Rattle.restart_laws.specs.Laws.{BelongThroughStops, NextOpensInType, OpensInTypeThroughStops, RefusedByFaultsAlone, RefusedStillBelong, ReopenedOpensInType, RunsBelong, SettledBelong, SettledInPartBelong, StopsBelong};
ghost use Rattle.restart_laws.specs.Openings.{FreshOpensInType, ObjectsKeepTypes, ObjectsOpenInType};

use stable_store::Stable;

/// New guardians open in type.
pub fn fresh_opens_in_type()
    ensures { FreshOpensInType }
{}

/// At an opening in type each object of the setup has a content of its type.
pub fn objects_open_in_type()
    ensures { ObjectsOpenInType }
{}

/// No run changes the type of an object's base or of an action's version.
pub fn objects_keep_types()
    ensures { ObjectsKeepTypes }
{}

/// The stores of a run belong to its setup.
pub fn runs_belong()
    ensures { RunsBelong }
{}

/// The stores that a stop within any step leaves belong to it too.
pub fn stops_belong()
    ensures { StopsBelong }
{}

/// Stores that belong still do once their records are settled.
pub fn settled_belong()
    ensures { SettledBelong }
{}

/// Stores with only some of their records settled belong too.
pub fn settled_in_part_belong()
    ensures { SettledInPartBelong }
{}

/// An opening with what the settled stores of a run hold opens in type, with the same setup.
pub fn next_opens_in_type()
    ensures { NextOpensInType }
{}

/// An opening behind any number of stopped runs opens in type, with the same setup.
pub fn opens_in_type_through_stops()
    ensures { OpensInTypeThroughStops }
{}

/// However often the system stopped, the stores of its present run belong to its setup.
pub fn belong_through_stops()
    ensures { BelongThroughStops }
{}

/// Stores that were opened give an opening in type, whoever filled them.
pub fn reopened_opens_in_type<S: Stable>()
    ensures { ReopenedOpensInType S.seen }
{}

/// Stores that hold what a run left are refused only if memory runs out or a store counts a failure in that call.
pub fn refused_by_faults_alone<S: Stable>()
    ensures { RefusedByFaultsAlone S.seen }
{}

/// Stores that belonged still do after an opening refused them.
pub fn refused_still_belong<S: Stable>()
    ensures { RefusedStillBelong S.seen }
{}
