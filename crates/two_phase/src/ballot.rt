ghost use Rattle.std.specs.Prelude.{◌≡◌, ◌∷◌, ℕ, List, IsFalse, IfOk, IfErr, is_none, ◌||◌};
ghost use Rattle.std.specs.List.{list_all};
ghost use Rattle.std.specs.FinMap as map;
ghost use Rattle.std.proofs.Props.{props};
ghost use Rattle.action_names.specs.Names.{Name};
ghost use Rattle.run_model.specs.declared.history.Event.{Event};
ghost use Rattle.run_model.specs.Lists.{guardians_of};
ghost use Rattle.run_model.specs.Openings.{opening_in};
ghost use Rattle.run_model.specs.Visibility.{has_prepared};
ghost use Rattle.run_model.specs.Votes.{has_voted};
ghost use Rattle.two_phase.specs.Votes.{AreRising, IsGapFor, IsVoteAt};

use run_model::{Deps, Opening};
use std::alloc::{AllocError, Global};

/// The votes on one top action: of each guardian that voted, whether it ever voted yes, in the order of the guardians.
#[derive(Drop)]
pub struct Ballot {
    votes: Vec<(u32, bool)>,
    ghost rising: { AreRising votes.items } by { Prim.hlevel props },
}

/// A vote for which a ballot has room.
#[derive(Clone, Copy)]
pub struct VotePlan {
    guardian: u32,
    yes: bool,
}

impl Ballot {
    ghost use Rattle.two_phase.specs.Ballots.{FitsVote, IsBallot, IsVote, has_yes, is_yes, vote, vote_of, voter_of};

    /// The ballot of a top action on which nobody has voted. This takes no memory.
    pub fn new(alloc: Global) -> Ballot
        ensures { (top : Name) (past : List Event) → ((g : ℕ) → IsFalse (has_voted g top past))
            → IsBallot top past result }
    {
        Ballot {
            votes: Vec::new(alloc),
        }
    }

    /// Makes room for a vote of the guardian. Whether or not there is memory for it, the ballot notes what it noted.
    pub fn plan_vote(&mut self, guardian: u32, yes: bool) -> Result<VotePlan, AllocError>
        ensures same { (top : Name) (past : List Event) → IsBallot top past self.old
            → IsBallot top past self.new }
        ensures fits { IfOk result (FitsVote self.new) }
        ensures vote { IfOk result (IsVote guardian yes) }
    {
        self.votes.reserve(1)?;
        Ok(VotePlan { guardian, yes })
    }

    /// Notes a vote for which the ballot has room. This cannot fail.
    pub fn note_vote(&mut self, plan: VotePlan)
        requires { FitsVote self.old plan }
        ensures { (top : Name) (past : List Event) → IsBallot top past self.old
            → IsBallot top (vote (voter_of plan) top (has_yes plan) ∷ past) self.new }
    {
        match place(&self.votes, plan.guardian) {
            Ok(at) => {
                if plan.yes {
                    let vote = &mut self.votes[at];
                    vote.1 = true;
                }
            }
            Err(at) => {
                let noted: Result<_, _> = self.votes.insert(at, (plan.guardian, plan.yes));
                noted.unwrap();
            }
        }
    }

    /// Whether the guardian voted, either way. This takes no memory.
    pub fn has_voted(&self, guardian: u32) -> bool
        ensures { (top : Name) (past : List Event) → IsBallot top past self.now
            → result ≡ has_voted guardian top past }
    {
        place(&self.votes, guardian).is_ok()
    }

    /// Whether all guardians of the opening on which the top action depends voted yes. This takes no memory.
    pub fn may_commit(&self, opening: &Opening, participants: &Deps) -> bool
        ensures { (top : Name) (past : List Event) → IsBallot top past self.now →
            result ≡ list_all (λ g. is_none (map.get participants.now g) || has_prepared g top past)
            (guardians_of (opening_in opening.now)) }
    {
        let guardians = opening.setup().guardians();
        for &(guardian, _) in participants.entries() {
            if guardian > 0 && guardian as usize <= guardians && !self.says_yes(guardian) {
                return false;
            }
        }
        true
    }

    // Whether the guardian ever voted yes.
    fn says_yes(&self, guardian: u32) -> bool
        ensures { result ≡ is_yes (vote_of self.now guardian) }
    {
        match place(&self.votes, guardian) {
            Ok(at) => self.votes[at].1,
            Err(_) => false,
        }
    }
}

// Where the guardian's vote stands, or would stand.
fn place(votes: &[(u32, bool)], guardian: u32) -> Result<usize, usize>
    requires { AreRising votes.now }
    ensures found { IfOk result (IsVoteAt votes.now guardian) }
    ensures absent { IfErr result (IsGapFor votes.now guardian) }
{
    votes.binary_search_by_key(&guardian, |&(known, _)| known)
}
