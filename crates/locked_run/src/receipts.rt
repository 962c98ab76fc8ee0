//! The receipts of many events, which take no memory.
ghost use Rattle.std.specs.Prelude.{◌≡◌, ◌++◌, ◌∷◌, [], false, length, true};
ghost use Rattle.run_model.specs.Runs.{IsRun};
ghost use Rattle.locked_run.specs.Behind.{IsBehind};
ghost use Rattle.locked_run.specs.Receipts.{AllTell, StandIn, runs_of};

use crate::shared::{OfRun, Receipt, Seen, Shared};
use one_run::Part;
use run_model::Event;
use std::marker::{Model, PhantomData};

/// Receipts of events. Contracts see the runs that end with these events, in the order in which they came in.
#[derive(Drop)]
pub struct Receipts<K: OfRun> {
    part: Part<Event>,
    count: u64,
    of: PhantomData<K>,
}

impl<K: OfRun> Model for Receipts<K> {
    ghost use Rattle.std.specs.Prelude.{◌≡◌, List, length, true};
    ghost use Rattle.run_model.specs.declared.history.Event.{Event};
    ghost use Rattle.locked_run.specs.Receipts.{AllTell, runs_of};

    ghost Value = { List (List Event) };

    ghost view = { λ r. runs_of r.part.token.me.0 };

    ghost invariant = { λ r. AllTell K.opening K.table true r.part
        × (r.count ≡ length r.part.token.me.0) };
}

impl<K: OfRun> Receipts<K> {
    /// Of no events.
    pub fn none(shared: &Shared<K>) -> Receipts<K>
        ensures { result ≡ [] }
    {
        Receipts {
            part: shared.run.nothing(),
            count: 0,
            of: PhantomData,
        }
    }

    /// One receipt more.
    pub fn add(&mut self, shared: &Shared<K>, receipt: Receipt<K>)
        ensures { self.new ≡ self.old ++ receipt ∷ [] }
    {
        self.take_in(shared, receipt.into_part(), 1);
    }

    /// Those of two together.
    pub fn join(&mut self, shared: &Shared<K>, other: Receipts<K>)
        ensures { self.new ≡ self.old ++ other }
    {
        let count = other.count;
        self.take_in(shared, other.into_part(), count);
    }

    /// How many there are.
    pub fn len(&self) -> u64
        ensures { result ≡ length self.now }
    {
        self.count
    }

    /// The events, for another thread to know.
    pub fn told(&mut self, shared: &Shared<K>) -> Known<K>
        ensures told { result ≡ self.old }
        ensures same { self.new ≡ self.old }
    {
        Known::new(shared.run.tell_all(&mut self.part))
    }

    /// Looks at the run together with what was seen of it. Each of these events stands in it, and none is here twice.
    pub fn look(&mut self, shared: &Shared<K>, seen: Seen<K>) -> Seen<K>
        ensures run { IsRun K.opening result }
        ensures behind { IsBehind seen result }
        ensures stand { StandIn result self.old }
        ensures same { self.new ≡ self.old }
    {
        let mut part = seen.into_part();
        let own = shared.run.take(&mut self.part);
        shared.run.join(&mut part, own);
        shared.run.count(&mut part);
        self.part = shared.run.split(&mut part);
        Seen::new(part)
    }

    /// Gives up what it knows of the run.
    pub(crate) fn into_part(self) -> Part<Event>
        ensures tell { AllTell K.opening K.table true result }
        ensures runs { runs_of result.token.me.0 ≡ self }
    {
        let Receipts {
            part,
            count: _,
            of: _,
        } = self;
        part
    }

    /// Takes in the parts of so many events.
    fn take_in(&mut self, shared: &Shared<K>, part: Part<Event>, count: u64)
        requires tell { AllTell K.opening K.table true part }
        requires count { count ≡ length part.token.me.0 }
        ensures { self.new ≡ self.old ++ runs_of part.token.me.0 }
    {
        shared.run.join(&mut self.part, part);
        // no two are of one event, so there are no more than the run has
        shared.run.count(&mut self.part);
        self.count += count;
    }
}

/// What is known of events that others have added. Contracts see the runs that end with these events, in the order in
/// which they came in.
#[derive(Drop)]
pub struct Known<K: OfRun> {
    part: Part<Event>,
    of: PhantomData<K>,
}

impl<K: OfRun> Model for Known<K> {
    ghost use Rattle.std.specs.Prelude.{List, false};
    ghost use Rattle.run_model.specs.declared.history.Event.{Event};
    ghost use Rattle.locked_run.specs.Receipts.{AllTell, runs_of};

    ghost Value = { List (List Event) };

    ghost view = { λ k. runs_of k.part.token.me.0 };

    ghost invariant = { λ k. AllTell K.opening K.table false k.part };
}

impl<K: OfRun> Known<K> {
    /// Of no events.
    pub fn none(shared: &Shared<K>) -> Known<K>
        ensures { result ≡ [] }
    {
        Known::new(shared.run.nothing())
    }

    fn new(part: Part<Event>) -> Known<K>
        requires { AllTell K.opening K.table false part }
        ensures { result ≡ runs_of part.token.me.0 }
    {
        Known {
            part,
            of: PhantomData,
        }
    }

    /// The same once more, perhaps for another thread.
    pub fn copy(&mut self, shared: &Shared<K>) -> Known<K>
        ensures copied { result ≡ self.old }
        ensures same { self.new ≡ self.old }
    {
        Known::new(shared.run.tell_all(&mut self.part))
    }

    /// Those of two together.
    pub fn join(&mut self, shared: &Shared<K>, other: Known<K>)
        ensures { self.new ≡ self.old ++ other }
    {
        let Known { part, of: _ } = other;
        shared.run.join(&mut self.part, part);
    }
}
