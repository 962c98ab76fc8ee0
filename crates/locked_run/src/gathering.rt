//! Parts that are taken together for a step, and given back.
ghost use Rattle.std.specs.Prelude.{◌≡◌, ◌++◌, ◌∷◌, []};
ghost use Rattle.one_run.specs.declared.piece.Piece.{Piece};
ghost use Rattle.one_run.specs.Rules.{Looks, first_of, others_of};
ghost use Rattle.run_model.specs.declared.history.Event.{Event};
ghost use Rattle.run_model.specs.Runs.{IsRun};
ghost use Rattle.shared_run.specs.Places.{touches};
ghost use Rattle.locked_run.specs.Behind.{LooksBehind};

use crate::shared::{OfRun, Seen, Shared};
use one_run::Part;
use run_model::Event;

/// Takes one part, and looks at the run.
pub(crate) fn look_alone<K: OfRun>(shared: &Shared<K>, one: &mut Part<Event>) -> Part<Event>
    requires { one.old.token.table_id ≡ K.table }
    ensures table { result.token.table_id ≡ K.table }
    ensures looks { Looks (IsRun K.opening) touches one.old.token.me.0 result.token.me.0 }
{
    let mut all = shared.run.take(one);
    shared.run.look(&mut all);
    all
}

/// Looks at the run together with what was seen of it earlier.
pub(crate) fn look_behind<K: OfRun>(
    shared: &Shared<K>,
    part: &mut Part<Event>,
    earlier: &mut Seen<K>,
)
    requires table { part.old.token.table_id ≡ K.table }
    requires one { (piece : Piece Event) × (part.old.token.me.0 ≡ piece ∷ []) }
    ensures table { part.new.token.table_id ≡ K.table }
    ensures looks { LooksBehind K.opening earlier.old part.old.token.me.0 part.new.token.me.0 }
    ensures same { earlier.new ≡ earlier.old }
{
    shared.run.join(part, earlier.copy(shared).into_part());
    shared.run.look(part);
    // what was joined stays behind
    shared.run.split(part);
}

/// Takes two parts together, and looks at the run.
pub(crate) fn gather_two<K: OfRun>(
    shared: &Shared<K>,
    one: &mut Part<Event>,
    other: &mut Part<Event>,
) -> Part<Event>
    requires { (one.old.token.table_id ≡ K.table) × (other.old.token.table_id ≡ K.table) }
    ensures table { result.token.table_id ≡ K.table }
    ensures looks { Looks (IsRun K.opening) touches (one.old.token.me.0 ++ other.old.token.me.0)
        result.token.me.0 }
{
    let mut all = shared.run.take(one);
    let second = shared.run.take(other);
    shared.run.join(&mut all, second);
    shared.run.look(&mut all);
    all
}

/// Takes three parts together, and looks at the run.
pub(crate) fn gather_three<K: OfRun>(
    shared: &Shared<K>,
    one: &mut Part<Event>,
    other: &mut Part<Event>,
    registry: &mut Part<Event>,
) -> Part<Event>
    requires { (one.old.token.table_id ≡ K.table) × (other.old.token.table_id ≡ K.table)
        × (registry.old.token.table_id ≡ K.table) }
    ensures table { result.token.table_id ≡ K.table }
    ensures looks { Looks (IsRun K.opening) touches
        ((one.old.token.me.0 ++ other.old.token.me.0) ++ registry.old.token.me.0)
        result.token.me.0 }
{
    let mut all = shared.run.take(one);
    let second = shared.run.take(other);
    let third = shared.run.take(registry);
    shared.run.join(&mut all, second);
    shared.run.join(&mut all, third);
    shared.run.look(&mut all);
    all
}

/// Gives two parts back.
pub(crate) fn scatter_two<K: OfRun>(
    shared: &Shared<K>,
    all: Part<Event>,
    one: &mut Part<Event>,
    other: &mut Part<Event>,
)
    requires { all.token.table_id ≡ K.table }
    ensures tables { (one.new.token.table_id ≡ K.table) × (other.new.token.table_id ≡ K.table) }
    ensures first { one.new.token.me.0 ≡ first_of all.token.me.0 }
    ensures second { other.new.token.me.0 ≡ others_of all.token.me.0 }
{
    let mut first = all;
    let second = shared.run.split(&mut first);
    *one = first;
    *other = second;
}

/// Gives three parts back.
pub(crate) fn scatter_three<K: OfRun>(
    shared: &Shared<K>,
    all: Part<Event>,
    one: &mut Part<Event>,
    other: &mut Part<Event>,
    registry: &mut Part<Event>,
)
    requires { all.token.table_id ≡ K.table }
    ensures tables { (one.new.token.table_id ≡ K.table) × (other.new.token.table_id ≡ K.table)
        × (registry.new.token.table_id ≡ K.table) }
    ensures first { one.new.token.me.0 ≡ first_of all.token.me.0 }
    ensures second { other.new.token.me.0 ≡ first_of (others_of all.token.me.0) }
    ensures third { registry.new.token.me.0 ≡ others_of (others_of all.token.me.0) }
{
    let mut first = all;
    let mut second = shared.run.split(&mut first);
    let third = shared.run.split(&mut second);
    *one = first;
    *other = second;
    *registry = third;
}
