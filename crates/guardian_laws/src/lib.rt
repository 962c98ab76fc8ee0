//! What a guardian may rest on: in a run each event agrees with the guardian's own history, and its store follows
//! that history.
//!
//! Each law is the contract of a function without a body. The calls of a guardian (`layer_contracts`) ask that an event
//! agrees; a world gives it by `runs_agree`.
#![tactic(auto)]

ghost use Rattle.guardian_laws.specs.Laws.{RunsAgree};
ghost use Rattle.guardian_laws.specs.StoreLaws.{LifeIsStored, NothingIsStored, StoreFollows};

/// In a run each event of a guardian agrees with the history before it.
pub fn runs_agree()
    ensures { RunsAgree }
{}

/// A store with the content of the opening, in which nothing is prepared, holds what the empty history says.
pub fn nothing_is_stored()
    ensures { NothingIsStored }
{}

/// After the call that an event asks for, the store holds what the history with that event in front says.
pub fn store_follows()
    ensures { StoreFollows }
{}

/// A store from which a guardian is opened again by itself holds what the time before says of which it tells.
pub fn life_is_stored()
    ensures { LifeIsStored }
{}
