//! A world over stores of which nothing is known yet: new ones, or those that a stop left.
ghost use Rattle.std.specs.Prelude.{◌≡◌, ◌≢◌, [], length, map, false, true, IfErr, IfOk, IsErrAnd};
ghost use Rattle.run_model.specs.Openings.{fresh, opening_in};
ghost use Rattle.run_model.specs.Runs.{new_world};
ghost use Rattle.store_recovery.specs.Beginning.{AreEmpty};
ghost use Rattle.store_recovery.specs.Steps.{NoneHasCounted, OneHasCounted, all_hold};
ghost use Rattle.store_recovery.specs.Settling.{contents};
ghost use Rattle.store_recovery.specs.Opened.{AreOpened, AreRefused, IsOpeningOf};
ghost use Rattle.world.specs.GoingOn.{GoesOnFromStores, HoldAsMuch};
ghost use Rattle.world.specs.Worlds.{store_in};

use crate::world::World;
use run_model::Setup;
use stable_store::Stable;
use std::alloc::Global;
use store_recovery::{Refused, begin_stores, open_stores};

impl<S: Stable> World<S> {
    /// New guardians of the setup, to whom nothing has happened, each over its store, in order, where the stores are
    /// new: each is read from its device, and nothing was ever kept there.
    ///
    /// After an error the stores come back, and contain what they did. `NotOurs` comes where a store holds no content
    /// or not that of a new one, or its device returned none; `Stable` of a store that counted a failure.
    pub fn begin(alloc: Global, setup: Setup, stores: Vec<S>) -> Result<World<S>, (Refused, Vec<S>)>
        requires { length stores.items ≡ length setup }
        ensures new { IfOk result (λ world. world.run ≡ new_world setup) }
        ensures fresh { IfOk result (λ world. opening_in world.run.lists ≡ fresh setup) }
        ensures stores { IfOk result (λ world. contents S.seen (map store_in world.guardians)
            ≡ contents S.seen stores.items) }
        ensures refused { IfErr result
            (λ refused. contents S.seen refused.1.items ≡ contents S.seen stores.items) }
        ensures empty { all_hold S.seen stores.items ≡ false
            → IsErrAnd result (λ refused.
            (refused.0 ≡ Refused.NotOurs) × (refused.1.items ≡ stores.items)) }
        ensures cause { all_hold S.seen stores.items ≡ true → AreEmpty S.seen stores.items
            → IfErr result (λ refused. refused.0 ≢ Refused.Memory
            → OneHasCounted S.seen stores.items refused.1.items) }
        ensures counted { IfErr result (λ refused. refused.0 ≡ Refused.Stable
            → OneHasCounted S.seen stores.items refused.1.items) }
        ensures memory { IfErr result (λ refused. refused.0 ≡ Refused.Memory
            → NoneHasCounted S.seen stores.items refused.1.items) }
    {
        let mut stores = stores;
        if let Err(why) = begin_stores(alloc, stores.as_mut_slice()) {
            return Err((why, stores));
        }
        match World::new(alloc, setup, stores) {
            Ok(world) => Ok(world),
            Err((refused, stores)) => Err((Refused::from(refused), stores)),
        }
    }

    /// The guardians of the setup over the stores that a stop left, in order, to whom nothing has happened since. All
    /// records are settled, a recovery is counted at each store, and the opening is what the stores hold then: it
    /// goes on from the run that left them.
    ///
    /// After an error the stores come back, and hold as much as they did, so that they can be opened again. `NotOurs`
    /// comes before anything is changed: where a store holds no content, or what is not of its guardian's objects or
    /// guardians of the setup. `Stable` comes of a store that counted a failure.
    pub fn reopen(
        alloc: Global,
        setup: Setup,
        stores: Vec<S>,
    ) -> Result<World<S>, (Refused, Vec<S>)>
        requires { length stores.items ≡ length setup }
        ensures past { IfOk result (λ world. world.run.past ≡ []) }
        ensures opened { IfOk result
            (λ world. AreOpened S.seen setup stores.items (map store_in world.guardians)) }
        ensures opening { IfOk result (λ world. IsOpeningOf setup
            (contents S.seen (map store_in world.guardians)) (opening_in world.run.lists)) }
        ensures goes_on { IfOk result (λ world.
            GoesOnFromStores setup (contents S.seen stores.items) (opening_in world.run.lists)) }
        ensures refused { IfErr result
            (λ refused. AreRefused S.seen setup stores.items refused.1.items refused.0) }
        ensures again { IfErr result (λ refused.
            HoldAsMuch (contents S.seen stores.items) (contents S.seen refused.1.items)) }
    {
        let (opening, stores) = match open_stores(alloc, setup, stores) {
            Ok(opened) => opened,
            Err((why, _, stores)) => return Err((why, stores)),
        };
        match World::over(alloc, opening, stores) {
            Ok(world) => Ok(world),
            Err((refused, stores)) => Err((Refused::from(refused), stores)),
        }
    }
}
