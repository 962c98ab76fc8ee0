//! The ballots of top actions.
ghost use Rattle.std.specs.Prelude.{◌≡◌, ◌∷◌, [], ℕ, List, ◌||◌, IfOk, OnOk, is_none};
ghost use Rattle.std.specs.FinMap as map;
ghost use Rattle.std.specs.List.{list_all};
ghost use Rattle.std.specs.Option.{option_map};
ghost use Rattle.run_model.specs.declared.history.Event.{Event};
ghost use Rattle.run_model.specs.Lists.{guardians_of};
ghost use Rattle.run_model.specs.Openings.{opening_in};
ghost use Rattle.run_model.specs.Visibility.{has_prepared};
ghost use Rattle.run_model.specs.Votes.{has_voted};
ghost use Rattle.two_phase.specs.Ballots.{IsVote, vote};

use run_model::{Deps, Name, Opening};
use std::alloc::{AllocError, Global};
use std::collections::HashMap;
use two_phase::{Ballot, VotePlan};

/// The ballots of the top actions that were voted on, by the numbers of these.
#[derive(Drop)]
pub struct Ballots {
    alloc: Global,
    ballots: HashMap<u32, Ballot>,
}

/// A vote on the top action of this number.
#[derive(Clone, Copy)]
pub struct Vote {
    top: u32,
    vote: VotePlan,
}

impl Ballots {
    ghost use Rattle.registry.specs.Polls.{AreBallots, FitsBallots, HasBallot, HasRoomAt, IsVoteOn, ballot_of, is_yes_in, top_in, voter_in};

    /// No ballots: nobody has voted. This takes no memory.
    pub(crate) fn new(alloc: Global) -> Ballots
        ensures { AreBallots [] result }
    {
        Ballots {
            alloc,
            ballots: HashMap::new(alloc),
        }
    }

    /// Whether the guardian voted on the action, either way.
    pub(crate) fn has_voted(&self, guardian: u32, top: &Name) -> bool
        ensures { (past : List Event) → AreBallots past self.now
            → result ≡ has_voted guardian top.now past }
    {
        match self.ballot(top) {
            Some(ballot) => ballot.has_voted(guardian),
            None => false,
        }
    }

    /// Whether all these participants voted yes on the action, as far as they are guardians of the opening.
    pub(crate) fn may_commit(&self, opening: &Opening, participants: &Deps, top: &Name) -> bool
        ensures { (past : List Event) → AreBallots past self.now → result
            ≡ list_all (λ g. is_none (map.get participants.now g) || has_prepared g top.now past)
            (guardians_of (opening_in opening.now)) }
    {
        match self.ballot(top) {
            Some(ballot) => ballot.may_commit(opening, participants),
            None => Ballot::new(self.alloc).may_commit(opening, participants),
        }
    }

    /// Makes room for a vote of the guardian on the top action. With memory and without, the ballots note what they
    /// noted.
    pub(crate) fn plan_vote(
        &mut self,
        guardian: u32,
        top: &Name,
        yes: bool,
    ) -> Result<Vote, AllocError>
        ensures same { (past : List Event) → AreBallots past self.old → AreBallots past self.new }
        ensures fits { IfOk result (FitsBallots self.new) }
        ensures vote { IfOk result (IsVoteOn guardian top.now yes) }
    {
        let number = top.last();
        self.provide(number)?;
        let vote = self.make_room(number, guardian, yes)?;
        Ok(Vote { top: number, vote })
    }

    /// Notes a vote for which there is room. This cannot fail.
    pub(crate) fn note(&mut self, plan: Vote)
        requires { FitsBallots self.old plan }
        ensures { (past : List Event) → AreBallots past self.old
            → AreBallots (vote (voter_in plan) (top_in plan) (is_yes_in plan) ∷ past) self.new }
    {
        if let Some(ballot) = self.ballots.get_mut(&plan.top) {
            ballot.note_vote(plan.vote);
        }
    }

    // Sees to it that there is a ballot under the number.
    fn provide(&mut self, number: u32) -> Result<(), AllocError>
        ensures same { (past : List Event) → AreBallots past self.old → AreBallots past self.new }
        ensures there { OnOk result (HasBallot self.new number) }
    {
        if !self.ballots.contains_key(&number) {
            self.ballots.insert(number, Ballot::new(self.alloc))?;
        }
        Ok(())
    }

    // Makes room on the ballot under the number.
    fn make_room(&mut self, number: u32, guardian: u32, yes: bool) -> Result<VotePlan, AllocError>
        requires { HasBallot self.old number }
        ensures same { (past : List Event) → AreBallots past self.old → AreBallots past self.new }
        ensures fits { IfOk result (λ plan. HasRoomAt self.new number plan) }
        ensures vote { IfOk result (IsVote guardian yes) }
    {
        match self.ballots.get_mut(&number) {
            Some(ballot) => ballot.plan_vote(guardian, yes),
            None => unreachable!(),
        }
    }

    fn ballot(&self, top: &Name) -> Option<&Ballot>
        ensures { option_map (λ ballot. ballot.now) result ≡ ballot_of self.now top.now }
    {
        match top.components() {
            [number] => self.ballots.get(number),
            _ => None,
        }
    }
}
