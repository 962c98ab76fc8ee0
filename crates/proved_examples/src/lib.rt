//! Runs by hand: what the definitions of runs answer, computed.
//!
//! Each function promises that the steps of one example are answered as the example says, and does nothing.
#![tactic(auto, unfolding(run_model::specs::Answers::answer_of))]

ghost use Rattle.std.specs.Prelude.{◌≡◌, [], ◌∷◌, ◌++◌, Some, None, true, false, codes, pos, negsuc};
ghost use Rattle.values.specs.declared.value.Value.TheVariants.{Int};
ghost use Rattle.values.specs.declared.content.Content.TheVariants.{Counter};
ghost use Rattle.atomic_types.specs.declared.operation.Operation.TheVariants.{Total};
ghost use Rattle.atomic_types.specs.declared.op.Reply.TheVariants as reply;
ghost use Rattle.atomic_types.specs.declared.part.Part.TheVariants.{Value, Delta};
ghost use Rattle.run_model.specs.declared.answer.Answer.TheVariants.{Granted, Waits};
ghost use Rattle.run_model.specs.LocalReadings.{operation_here, prepared_here, stable_base_here};
ghost use Rattle.atomic_types.specs.declared.op.Class.{Class};
ghost use Rattle.run_model.specs.Texts.{step_text, answer_text};
ghost use Rattle.run_model.specs.Versions.{locks_on, versions, base_of, deltas};
ghost use Rattle.run_model.specs.Gathering.{least_failing};
ghost use Rattle.run_model.specs.StableContent.{stable_count, stable_base, stable_next_top, stable_prepared, is_stably_decided};
ghost use Rattle.proved_examples.specs.Example.{Answers, AnswersFrom, Explains, two_records, history_of, record_of, action_1, action_1_1, action_2, balance, set_balance, gives};
ghost use Rattle.proved_examples.specs.Histories as histories;
ghost use Rattle.proved_examples.specs.Telling as telling;
ghost use Rattle.proved_examples.specs.Crashes as crashes;
ghost use Rattle.proved_examples.specs.Orphans as orphans;
ghost use Rattle.proved_examples.specs.Endings as endings;
ghost use Rattle.proved_examples.specs.Refusals as refusals;
ghost use Rattle.proved_examples.specs.Types as types;
ghost use Rattle.proved_examples.specs.Counting as counting;
ghost use Rattle.proved_examples.specs.Opened as opened;

/// A child's commit that was not told yet: its parent waits for it.
pub fn committed_not_told()
    ensures { Answers telling.committed_not_told }
{}

/// Once the commit was told, the parent sees what the child wrote.
pub fn commit_told_to_parent()
    ensures { Answers telling.commit_told_to_parent }
{}

/// An abort, once told, restores what the child overwrote.
pub fn abort_restores()
    ensures { Answers telling.abort_restores }
{}

/// A commit that was told before a child's commit leaves the lock with the child until that is told too.
pub fn tells_out_of_order()
    ensures { Answers telling.tells_out_of_order }
{}

/// A read alone holds a lock, which passes to the parent.
pub fn read_lock_alone()
    ensures { Answers telling.read_lock_alone }
{}

/// A guardian that crashed before its vote has lost a write, and votes no.
pub fn crash_before_prepare()
    ensures { Answers crashes.crash_before_prepare }
{}

/// What a guardian voted yes on survives its crash, locked until the outcome is told.
pub fn crash_after_yes_vote()
    ensures { Answers crashes.crash_after_yes_vote }
{}

/// A read lock is lost in a crash even after a yes vote; the read still comes before the write in order of place.
pub fn prepared_read_lock_lost()
    ensures answers { Answers crashes.prepared_read_lock_lost }
    ensures explanation { Explains crashes.prepared_read_lock_lost action_2
        crashes.read_before_write }
{}

/// A top action whose home crashed is not decided any more, and its abort frees the other guardian.
pub fn coordinator_crashes()
    ensures { Answers crashes.coordinator_crashes }
{}

/// An orphan goes on until its guardian is told that an ancestor aborted.
pub fn orphan_by_abort()
    ensures { Answers orphans.orphan_by_abort }
{}

/// A call to a guardian that crashed since its caller came to depend on it is an orphan there.
pub fn orphan_by_crash_count()
    ensures { Answers orphans.orphan_by_crash_count }
{}

/// A call carries what the caller's guardian knows of aborts.
pub fn lists_by_call()
    ensures { Answers orphans.lists_by_call }
{}

/// A call carries what the caller's guardian knows of crashes, its own among them.
pub fn dependency_below_known_count()
    ensures { Answers orphans.dependency_below_known_count }
{}

/// A nested top action that committed stays committed when its starter aborts.
pub fn nested_top_action_outlives_starter()
    ensures { Answers endings.nested_top_action_outlives_starter }
{}

/// What was done once is refused the second time.
pub fn repeated_steps()
    ensures { Answers endings.repeated_steps }
{}

/// Of several reasons to refuse a step, the first counts.
pub fn refusal_numbers()
    ensures { Answers refusals.refusal_numbers }
{}

/// A call that would begin an action of 33 levels is refused.
pub fn depth_limit()
    ensures { Answers refusals.depth_limit }
{}

/// An array grows and shrinks at both ends, and its low index moves with the low end.
pub fn array_ends()
    ensures { AnswersFrom types.three_types types.array_ends }
{}

/// At the least index nothing is added below.
pub fn array_bounds()
    ensures { AnswersFrom types.array_at_the_bound types.array_bounds }
{}

/// A variant gives its value under its tag alone.
pub fn variant_tags()
    ensures { AnswersFrom types.three_types types.variant_tags }
{}

/// Histories that fit together fail nowhere.
pub fn histories_gather()
    ensures { least_failing histories.one_guardian (histories.histories_of histories.transfer)
        ≡ None }
{}

/// A reply that was invented fails at its stamp.
pub fn invented_reply_fails()
    ensures { least_failing histories.one_guardian histories.invented_reply ≡ Some 3 }
{}

/// An event that one of its histories lacks fails at its stamp.
pub fn missing_event_fails()
    ensures { least_failing histories.one_guardian histories.registry_with_a_gap ≡ Some 5 }
{}

/// A guardian that voted yes and was told the commit has installed what it prepared; its home has decided.
pub fn stores_after_commit()
    ensures count { stable_count two_records 2 (history_of crashes.crash_after_yes_vote) ≡ 1 }
    ensures base { stable_base two_records 2 1 (history_of crashes.crash_after_yes_vote)
        ≡ Some (Value (record_of (codes "n") 4)) }
    ensures prepared { stable_prepared two_records 2
        action_1 (history_of crashes.crash_after_yes_vote)
        ≡ None }
    ensures decided { is_stably_decided two_records 1 action_1
        (history_of crashes.crash_after_yes_vote)
        ≡ true }
    ensures untold { stable_prepared two_records 1 action_1
        (history_of crashes.crash_after_yes_vote)
        ≡ Some (record { home = 1; parts = [] }) }
{}

/// A write that was not told to have committed stands above the base, under the lock of the action that made it.
pub fn versions_before_telling()
    ensures locks { locks_on balance (history_of telling.committed_not_told)
        ≡ (action_1_1, Class.Write) ∷ [] }
    ensures base { base_of two_records balance (history_of telling.committed_not_told)
        ≡ record_of (codes "balance") 100 }
    ensures versions { versions two_records balance (history_of telling.committed_not_told)
        ≡ (action_1_1, record_of (codes "balance") 50) ∷ [] }
{}

/// Two adders beside one another, prepared, decided, and told in another order, with a crash between.
pub fn two_adders()
    ensures decided { AnswersFrom counting.from_ten counting.both_decided }
    ensures aborted { AnswersFrom counting.from_ten counting.one_aborted }
{}

/// What is held of the counter while both are prepared, and what the store has.
pub fn adds_prepared()
    ensures deltas { deltas counting.counter (counting.history_of counting.prepared_both)
        ≡ (action_1, pos 5) ∷ (action_2, pos 7) ∷ [] }
    ensures versions { versions counting.from_ten
        counting.counter (counting.history_of counting.prepared_both)
        ≡ [] }
    ensures locks { locks_on counting.counter (counting.history_of counting.prepared_both)
        ≡ (action_2, Class.Add) ∷ (action_1, Class.Add) ∷ [] }
    ensures prepared { stable_prepared counting.from_ten 1 action_2
        (counting.history_of counting.prepared_both)
        ≡ Some (record { home = 1; parts = (1, Delta (pos 7)) ∷ [] }) }
    ensures next { stable_next_top counting.from_ten 1 (counting.history_of counting.prepared_both)
        ≡ 3 }
    ensures base { stable_base counting.from_ten 1 1 (counting.history_of counting.both_decided)
        ≡ Some (Delta (pos 12)) }
{}

/// Sums wrap at both ends.
pub fn sums_wrap()
    ensures above { AnswersFrom (counting.counting_from (pos 9223372036854775807))
        counting.wraps_above }
    ensures below { AnswersFrom (counting.counting_from (negsuc 9223372036854775807))
        counting.wraps_below }
{}

/// An add beside a read waits.
pub fn add_beside_a_reader()
    ensures { AnswersFrom counting.from_ten counting.beside_a_reader }
{}

/// A put takes the place of adds.
pub fn put_takes_their_place()
    ensures answers { AnswersFrom counting.from_ten counting.put_over_adds }
    ensures versions { versions counting.from_ten
        counting.counter (counting.history_of counting.put_over_adds)
        ≡ (action_1, Counter (pos 7)) ∷ [] }
    ensures deltas { deltas counting.counter (counting.history_of counting.put_over_adds) ≡ [] }
{}

/// A child's adds go to its parent.
pub fn adds_go_to_the_parent()
    ensures { AnswersFrom counting.from_ten counting.adds_of_a_child }
{}

/// A history goes on from what the stores held.
pub fn history_goes_on()
    ensures { AnswersFrom opened.opened opened.goes_on }
{}

/// A guardian that was opened again by itself is down; once it is up, a prepared add stands under its lock until it
/// is told.
pub fn opened_again()
    ensures waits { operation_here opened.alone 1 opened.seven counting.counter Total opened.up
        ≡ Waits (action_1 ∷ []) }
    ensures committed { operation_here opened.alone 1 opened.seven counting.counter Total
        (opened.told true)
        ≡ Granted (reply.Gives (Int (pos 18))) }
    ensures aborted { operation_here opened.alone
        1 opened.seven counting.counter Total (opened.told false)
        ≡ Granted (reply.Gives (Int (pos 15))) }
    ensures prepared { prepared_here opened.alone 1 action_1 opened.up
        ≡ Some opened.record_of_three }
    ensures told { prepared_here opened.alone 1 action_1 (opened.told true) ≡ None }
    ensures base { stable_base_here opened.alone 1 1 (opened.told true) ≡ Some (Delta (pos 8)) }
{}

/// A step and an answer as lines.
pub fn texts()
    ensures step { step_text (set_balance action_1_1 50) ≡ codes "op 1.1 1/1 set balance 50" }
    ensures answer { answer_text (gives 100) ≡ codes "granted 100" }
{}
