//! Arms on their way: to the thread that starts them, to their own threads, and back once they have ended.
ghost use Rattle.std.specs.Prelude.{◌≡◌, [], ◌∷◌};
ghost use Rattle.activities.specs.Apart.{AllRunnable, IsRunnable, ended_name};
ghost use Rattle.activities.specs.Making.{AreOwn, CommitOnly};
ghost use Rattle.runtime.specs.Receipts.{events_of};

use crate::coenter::{Coenters, shared};
use activities::{BegunArm, EndedArm};
use crossbeam_channel::Sender;
use runtime::{OfRun, Receipts, StepFault};
use std::alloc::{AllocError, Global};
use std::marker::{Brand, PhantomData};

/// Which script's clients run.
pub(crate) trait OfScript {
    ghost use Rattle.script_model.specs.declared.checked.Checked.{Checked};

    ghost script: { Checked };
}

impl OfScript for Brand {
    ghost use Rattle.std.specs.Prelude.{[]};

    ghost script = { record { guardians = []; handlers = []; clients = [] } };
}

/// What the thread that starts arms is told.
#[derive(Drop)]
pub(crate) enum Order<K: OfRun, S: OfScript> {
    Start(Handed<K, S>),
    Stop,
}

/// The arms of a `coenter`, to be started in their order. The last of these `coenter`s is theirs.
#[derive(Drop)]
pub(crate) struct Handed<K: OfRun, S: OfScript> {
    pub(crate) arms: Vec<BegunArm>,
    pub(crate) coenters: Coenters,
    pub(crate) ended: Sender<DoneArm<K>>,
    pub(crate) of: PhantomData<S>,
    pub(crate) ghost runnable: { AllRunnable S.script arms.items },
}

/// An arm for which a thread is started.
#[derive(Drop)]
pub(crate) struct Started<K: OfRun, S: OfScript> {
    pub(crate) place: usize,
    pub(crate) arm: BegunArm,
    pub(crate) coenters: Coenters,
    pub(crate) ended: Sender<DoneArm<K>>,
    pub(crate) of: PhantomData<S>,
    pub(crate) ghost runnable: { IsRunnable S.script arm },
}

/// An arm that has ended, its place among the arms of its `coenter`, and the receipts of its events.
#[derive(Drop)]
pub(crate) struct DoneArm<K: OfRun> {
    pub(crate) place: usize,
    pub(crate) arm: EndedArm,
    pub(crate) receipts: Receipts<K>,
    /// Why a step failed first, if one did.
    pub(crate) first_fault: Option<StepFault>,
    pub(crate) ghost own: { ∥ AreOwn (ended_name arm ∷ []) (events_of receipts) ∥₁ },
    pub(crate) ghost commits: { ∥ CommitOnly (ended_name arm ∷ []) (events_of receipts) ∥₁ },
}

impl<K: OfRun, S: OfScript> Handed<K, S> {
    pub(crate) fn new(
        arms: Vec<BegunArm>,
        coenters: Coenters,
        ended: Sender<DoneArm<K>>,
    ) -> Handed<K, S>
        requires { AllRunnable S.script arms.items }
    {
        Handed {
            arms,
            coenters,
            ended,
            of: PhantomData,
        }
    }
}

impl<K: OfRun, S: OfScript> Started<K, S> {
    pub(crate) fn new(
        alloc: Global,
        place: usize,
        arm: BegunArm,
        coenters: &Coenters,
        ended: &Sender<DoneArm<K>>,
    ) -> Result<Started<K, S>, AllocError>
        requires { IsRunnable S.script arm }
    {
        Ok(Started {
            place,
            arm,
            coenters: shared(alloc, coenters.as_slice())?,
            ended: ended.clone()?,
            of: PhantomData,
        })
    }
}
