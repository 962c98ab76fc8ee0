//! The laws of local histories: what a guardian reads in its own history, and the registry in its, is what the whole
//! history says.
//!
//! Each law is the contract of a function without a body. `lent_answers`, `lent_grows` and `unnamed_stay` are what a
//! body whose guardians know their own histories alone has to cite: by them its answers are `answer_of`, and what it
//! keeps are the histories of the longer run.
#![tactic(auto)]

ghost use Rattle.local_laws.specs.Laws.{ToldSame, ToldCommittedSame};
ghost use Rattle.local_laws.specs.Standings.{StandingSame};
ghost use Rattle.local_laws.specs.Rosters.{GuardianSame, ActionSame, BegunSame};
ghost use Rattle.local_laws.specs.Answering.{OrphansSame, OperationsSame, VotesSame, TellingsSame, PreparedSame, BasesSame, DecidedSame};
ghost use Rattle.local_laws.specs.Registries.{RegistrySame, RegistryDependenciesSame, AnswersSame, HistoriesGrow, AsksNamed, LentAnswers, LentGrows, UnnamedStay, ClosingSame};
ghost use Rattle.local_laws.specs.Owed.{LocalRuns};
ghost use Rattle.local_laws.specs.Moving.{HoldersMove};
ghost use Rattle.local_laws.specs.Reopened.{LifeBefore, RecordsReadBack, ReopenedIsOrderly};
ghost use Rattle.local_laws.specs.Bases.{BasesAreLaid, RecordsAreHeld};
ghost use Rattle.local_laws.specs.Orderly.{BlockersByLocks, LocalRunsAreOrderly, OwnersAreChain, OwnersOfRuns, ReplyOfVersion, RunsAreOrderly};
ghost use Rattle.local_laws.specs.Tops.{TopWithDeltas, TopsOfRuns, VersionWithDeltas};
ghost use Rattle.local_laws.specs.Known.{AbortsSame, CrashesSame, DependenciesSame};
ghost use Rattle.local_laws.specs.NoLocalRuns.{ReplyIgnoresTelling, VoteIgnoresCrash, ListsNotCarried};
ghost use Rattle.local_laws.specs.Objects.{ObjectsAlike, CountsSame, PartsSame};

/// A guardian's own history says of each action whether the guardian was told its outcome since its last crash.
pub fn told_same()
    ensures { ToldSame }
{}

/// It says of which actions the guardian was ever told that they committed.
pub fn told_committed_same()
    ensures { ToldCommittedSame }
{}

/// It says how each of the guardian's objects stands, but for the numbers of kept operations, which count places in it.
pub fn standing_same()
    ensures { StandingSame }
{}

/// Objects that stand so have the same blockers, locks, owners, base, versions and replies.
pub fn objects_alike()
    ensures { ObjectsAlike }
{}

/// A telling counts the same objects.
pub fn counts_same()
    ensures { CountsSame }
{}

/// A top action holds the same values and deltas.
pub fn parts_same()
    ensures { PartsSame }
{}

/// A guardian's own history says how often it crashed and recovered, whether it is down, and how it voted.
pub fn guardian_same()
    ensures { GuardianSame }
{}

/// It says all that is asked of an action at home there.
pub fn action_same()
    ensures { ActionSame }
{}

/// What else its events begin has its right home.
pub fn begun_same()
    ensures { BegunSame }
{}

/// What messages carried, and tellings, give the aborts that the guardian knows by the whole history, though a
/// message has only what its sender had not sent to this receiver before.
pub fn aborts_same()
    ensures { AbortsSame }
{}

/// A guardian's own history says on which incarnations an action at home there depends.
pub fn dependencies_same()
    ensures { DependenciesSame }
{}

/// So do they give the crashes that it knows.
pub fn crashes_same()
    ensures { CrashesSame }
{}

/// It says whether an action at home there is known as an orphan.
pub fn orphans_same()
    ensures { OrphansSame }
{}

/// It says the whole answer of an operation of an action at home there.
pub fn operations_same()
    ensures { OperationsSame }
{}

/// With what the message of a prepare brings it says the guardian's vote.
pub fn votes_same()
    ensures { VotesSame }
{}

/// With the outcome that a telling brings it says how many objects the telling counts.
pub fn tellings_same()
    ensures { TellingsSame }
{}

/// It says which prepared records the guardian's store has.
pub fn prepared_same()
    ensures { PreparedSame }
{}

/// It says which value of each object a telling of a commit has last installed in the store.
pub fn bases_same()
    ensures { BasesSame }
{}

/// It says which top actions the store has as decided.
pub fn decided_same()
    ensures { DecidedSame }
{}

/// The registry's own history says all that is asked of actions.
pub fn registry_same()
    ensures { RegistrySame }
{}

/// It says on which incarnations each action depends.
pub fn registry_dependencies_same()
    ensures { RegistryDependenciesSame }
{}

/// Where events are stamped with their numbers, it says at which step each action closed.
pub fn closing_same()
    ensures { ClosingSame }
{}

/// By the registry's history and those of all guardians each step is answered as the definition has it.
pub fn answers_same()
    ensures { AnswersSame }
{}

/// They give the histories that are kept after an accepted step.
pub fn histories_grow()
    ensures { HistoriesGrow }
{}

/// The answer asks of no guardian but those that the step names.
pub fn asks_named()
    ensures { AsksNamed }
{}

/// A step that is lent the registry, the guardians that it names and no other is answered as the definition has it.
pub fn lent_answers()
    ensures { LentAnswers }
{}

/// After it, if it is accepted, these have the histories that they have in the longer run.
pub fn lent_grows()
    ensures { LentGrows }
{}

/// The history of a guardian that it does not name stays.
pub fn unnamed_stay()
    ensures { UnnamedStay }
{}

/// In a run, the history of each guardian, by itself, has the replies, own votes and counts that it should.
pub fn local_runs()
    ensures { LocalRuns }
{}

/// What a guardian does by its own history keeps Moss's rule at each object: what is newer stands under what it
/// conflicts with.
pub fn local_runs_are_orderly()
    ensures { LocalRunsAreOrderly }
{}

/// Where what is kept of an object stands by Moss's rule, the owners of its versions are a chain by ancestry.
pub fn owners_are_chain()
    ensures { OwnersAreChain }
{}

/// Every run keeps Moss's rule at each object.
pub fn runs_are_orderly()
    ensures { RunsAreOrderly }
{}

/// The owners of an object's versions are a chain in every run.
pub fn owners_of_runs()
    ensures { OwnersOfRuns }
{}

/// The reply of an operation that waits for nobody is that of the version of its action.
pub fn reply_of_version()
    ensures { ReplyOfVersion }
{}

/// What all that is kept of an object leaves of its content is the version on top, with the deltas beside it: those
/// of all who are no ancestors of that version's owner.
pub fn top_with_deltas()
    ensures { TopWithDeltas }
{}

/// So is the version of an action whose total waits for nobody.
pub fn version_with_deltas()
    ensures { VersionWithDeltas }
{}

/// In every run this is what the kept operations leave of each object.
pub fn tops_of_runs()
    ensures { TopsOfRuns }
{}

/// For whom an operation waits is said by the lock set.
pub fn blockers_by_locks()
    ensures { BlockersByLocks }
{}

/// At every moment of a run, what is installed of an object, laid on its content at the setup, is its base.
pub fn bases_are_laid()
    ensures { BasesAreLaid }
{}

/// As long as a record of a prepared top action is there, it says what the top action holds.
pub fn records_are_held()
    ensures { RecordsAreHeld }
{}

/// What a guardian that was opened again by itself reads of the time before is what its store held.
pub fn life_before_is()
    ensures { LifeBefore }
{}

/// It reads each record of its store back as it stands there, and no other.
pub fn records_read_back()
    ensures { RecordsReadBack }
{}

/// Where no value of its records stands beside another part on its object, its objects keep Moss's rule.
pub fn reopened_is_orderly()
    ensures { ReopenedIsOrderly }
{}

/// Once an action is told committed, what it held goes to the nearest ancestor above it that was not told so, and
/// nothing else moves.
pub fn holders_move()
    ensures { HoldersMove }
{}

/// A history with a reply that ignores what the guardian was told is none.
pub fn reply_ignores_telling()
    ensures { ReplyIgnoresTelling }
{}

/// A history with a vote that ignores a crash is none.
pub fn vote_ignores_crash()
    ensures { VoteIgnoresCrash }
{}

/// By a history to which no lists were carried, an orphan would be granted an operation.
pub fn lists_not_carried()
    ensures { ListsNotCarried }
{}
