//! The run to which all that stands under locks belongs.
ghost use Rattle.std.specs.Prelude.{◌≡◌, ◌∷◌, [], ◌<◌, ◌≤◌, None, length};
ghost use Rattle.one_run.specs.declared.piece.Piece.{Piece};
ghost use Rattle.one_run.specs.Pieces.{first_left, owner, seen_of, witness};
ghost use Rattle.one_run.specs.Rules.{Adds, MayAdd};
ghost use Rattle.run_model.specs.declared.history.Event.{Event};
ghost use Rattle.run_model.specs.Openings.{opening_in};
ghost use Rattle.run_model.specs.Runs.{IsRun};
ghost use Rattle.shared_run.specs.Places.{touches};
ghost use Rattle.locked_run.specs.Behind.{IsBehind};
ghost use Rattle.locked_run.specs.Parts.{AreOfOne, IsReceipt, IsSeen};

use layer_contracts::Draw;
use one_run::Part;
use run_model::{Answer, Event};
use shared_run::SharedRun;
use std::marker::{Brand, Model, PhantomData};

/// Which run it is: its opening, and the table in which its seats are.
pub trait OfRun {
    ghost use Rattle.atomic_table.specs.Seated.{TableId};
    ghost use Rattle.run_model.specs.Openings.{Opening};

    ghost opening: { Opening };

    ghost table: { TableId };
}

impl OfRun for Brand {
    ghost use Rattle.std.specs.Prelude.{[]};
    ghost use Rattle.run_model.specs.Openings.{fresh};
    ghost use Rattle.locked_run.specs.Tables.{no_table};

    ghost opening = { fresh [] };

    ghost table = { no_table };
}

/// What happens next.
pub trait Deed {
    ghost use Rattle.run_model.specs.declared.history.Event.{Event};

    ghost event: { Event };
}

impl Deed for Brand {
    ghost use Rattle.run_model.specs.declared.step.Step.TheVariants.{Crash};
    ghost use Rattle.run_model.specs.declared.answer.Answer.TheVariants.{Done};

    ghost event = { record { step = Crash 0; answer = Done 0 } };
}

/// The run, of which threads share no more than the word of its length.
#[derive(Drop)]
pub struct Shared<K: OfRun> {
    pub run: SharedRun,
    pub of: PhantomData<K>,
    pub ghost table: { run.table.shared.table_id ≡ K.table },
    pub ghost opening: { opening_in run.table.shared.key ≡ K.opening },
}

impl<K: OfRun> Shared<K> {
    /// The run of this name.
    pub fn new(run: SharedRun) -> Shared<K>
        requires table { run.table.shared.table_id ≡ K.table }
        requires opening { opening_in run.table.shared.key ≡ K.opening }
    {
        Shared {
            run,
            of: PhantomData,
        }
    }

    /// What was seen in two threads, or twice in one, is of one run.
    pub fn compare(&self, one: Seen<K>, other: Seen<K>)
        ensures { AreOfOne K.opening one other }
    {
        let mut part = one.into_part();
        self.run.join(&mut part, other.into_part());
        self.run.look(&mut part);
    }

    /// What two threads have seen, together: a run that goes on from both.
    pub fn join(&self, one: Seen<K>, other: Seen<K>) -> Seen<K>
        ensures run { IsRun K.opening result }
        ensures first { IsBehind one result }
        ensures second { IsBehind other result }
    {
        let mut part = one.into_part();
        self.run.join(&mut part, other.into_part());
        self.run.look(&mut part);
        // both have seen the same now, and one is enough
        self.run.split(&mut part);
        Seen::new(part)
    }

    /// What a part has seen of the run. The part stays as it is.
    pub(crate) fn seen_by(&self, part: &mut Part<Event>) -> Seen<K>
        requires table { part.old.token.table_id ≡ K.table }
        requires one { (piece : Piece Event) × (part.old.token.me.0 ≡ piece ∷ []) }
        requires run { IsRun K.opening (seen_of part.old.token.me.0) }
        ensures table { part.new.token.table_id ≡ K.table }
        ensures same { part.new.token.me.0 ≡ part.old.token.me.0 }
        ensures seen { result ≡ seen_of part.old.token.me.0 }
    {
        Seen::new(self.run.tell(part))
    }
}

/// Draws the stamp of an event, and so adds the event to the run.
#[derive(Drop)]
pub struct Drawing<'a, K: OfRun, T: Deed> {
    pub shared: &'a Shared<K>,
    pub part: Part<Event>,
    pub of: PhantomData<T>,
    pub ghost table: { part.token.table_id ≡ K.table },
}

impl<'a, K: OfRun, T: Deed> Draw for Drawing<'a, K, T> {
    ghost may_draw = { λ d. (0 < first_left d.part.token.me.0)
        × MayAdd (IsRun K.opening) touches T.event d.part.token.me.0 };

    ghost draws = { λ d n w.
        Adds (IsRun K.opening) touches T.event d.part.token.me.0 n w.part.token.me.0 };

    fn draw(&mut self) -> u64 {
        self.shared.run.add(&mut self.part)
    }
}

/// What was seen of the run, which goes on from there. Contracts see it as these events.
#[derive(Drop)]
pub struct Seen<K: OfRun> {
    part: Part<Event>,
    of: PhantomData<K>,
}

impl<K: OfRun> Model for Seen<K> {
    ghost use Rattle.std.specs.Prelude.{List};
    ghost use Rattle.run_model.specs.declared.history.Event.{Event};
    ghost use Rattle.one_run.specs.Pieces.{seen_of};
    ghost use Rattle.locked_run.specs.Parts.{IsSeen};

    ghost Value = { List Event };

    ghost view = { λ s. seen_of s.part.token.me.0 };

    ghost invariant = { λ s. IsSeen K.opening K.table s.part };
}

impl<K: OfRun> Seen<K> {
    /// What a part has seen that has no place.
    pub(crate) fn new(part: Part<Event>) -> Seen<K>
        requires { IsSeen K.opening K.table part }
        ensures { result ≡ seen_of part.token.me.0 }
    {
        Seen {
            part,
            of: PhantomData,
        }
    }

    /// Gives up what it knows of the run.
    pub(crate) fn into_part(self) -> Part<Event>
        ensures table { result.token.table_id ≡ K.table }
        ensures seen { result.token.me.0 ≡ witness self ∷ [] }
    {
        let Seen { part, of: _ } = self;
        part
    }

    /// The same once more, perhaps for another thread.
    pub fn copy(&mut self, shared: &Shared<K>) -> Seen<K>
        ensures copied { result ≡ self.old }
        ensures same { self.new ≡ self.old }
    {
        shared.seen_by(&mut self.part)
    }
}

/// That an event stands in the run, at its number. No other receipt is of this event. Contracts see it as the run that
/// ends with the event.
#[derive(Drop)]
pub struct Receipt<K: OfRun> {
    part: Part<Event>,
    number: u64,
    of: PhantomData<K>,
}

impl<K: OfRun> Model for Receipt<K> {
    ghost use Rattle.std.specs.Prelude.{List};
    ghost use Rattle.run_model.specs.declared.history.Event.{Event};
    ghost use Rattle.one_run.specs.Pieces.{seen_of};
    ghost use Rattle.locked_run.specs.Parts.{AreOfOne, IsReceipt};

    ghost Value = { List Event };

    ghost view = { λ r. seen_of r.part.token.me.0 };

    ghost invariant = { λ r. IsReceipt K.opening K.table r.part r.number };
}

impl<K: OfRun> Receipt<K> {
    /// A receipt of the part that owns the event.
    pub(crate) fn new(part: Part<Event>, number: u64) -> Receipt<K>
        requires { IsReceipt K.opening K.table part number }
        ensures { result ≡ seen_of part.token.me.0 }
    {
        Receipt {
            part,
            number,
            of: PhantomData,
        }
    }

    /// Gives up what it knows of the run.
    pub(crate) fn into_part(self) -> Part<Event>
        ensures table { result.token.table_id ≡ K.table }
        ensures owner { result.token.me.0 ≡ owner (length self) self ∷ [] }
        ensures run { IsRun K.opening self }
        ensures first { 1 ≤ length self }
    {
        let Receipt {
            part,
            number: _,
            of: _,
        } = self;
        part
    }

    /// The run that ends with its event.
    pub fn seen(&mut self, shared: &Shared<K>) -> Seen<K>
        ensures seen { result ≡ self.old }
        ensures same { self.new ≡ self.old }
    {
        shared.seen_by(&mut self.part)
    }

    /// The number of its event in the run.
    pub fn number(&self) -> u64
        ensures number { result ≡ length self.now }
        ensures run { IsRun K.opening self.now }
    {
        self.number
    }
}

/// The answer of a step, and where it was accepted a receipt of its event.
#[derive(Drop)]
pub struct Answered<K: OfRun> {
    pub answer: Answer,
    pub receipt: Option<Receipt<K>>,
}

impl<K: OfRun> Answered<K> {
    /// The answer of a step that was refused or waits, and so has no event.
    pub(crate) fn without_event(answer: Answer) -> Answered<K>
        ensures answer { result.answer ≡ answer }
        ensures receipt { result.receipt ≡ None }
    {
        Answered {
            answer,
            receipt: None,
        }
    }
}
