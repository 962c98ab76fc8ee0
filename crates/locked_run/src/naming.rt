//! Which guardians a step names, of so many.
ghost use Rattle.std.specs.Prelude.{◌≡◌, ◌==◌, ◌&&◌, ◌||◌};
ghost use Rattle.locked_run.specs.Acting.{is_at_most, is_out};

use world_steps::NamedGuardians;

/// Whether no guardian of so many has this number.
pub(crate) fn is_out(count: usize, guardian: u32) -> bool
    ensures { result ≡ is_out count guardian }
{
    guardian == 0 || guardian as usize > count
}

/// Whether it is this guardian, or none of so many.
fn is_at_most(count: usize, guardian: u32, named: u32) -> bool
    ensures { result ≡ is_at_most count guardian named }
{
    named == guardian || is_out(count, named)
}

/// Whether just these two are named.
pub(crate) fn names_two(named: NamedGuardians, one: u32, other: u32) -> bool
    ensures { result ≡ (((named.first == one) && (named.second == other))
        || ((named.first == other) && (named.second == one))) }
{
    (named.first == one && named.second == other) || (named.first == other && named.second == one)
}

/// Whether none of so many is named but this one.
pub(crate) fn names_one(named: NamedGuardians, count: usize, guardian: u32) -> bool
    ensures { result
        ≡ (is_at_most count guardian named.first && is_at_most count guardian named.second) }
{
    is_at_most(count, guardian, named.first) && is_at_most(count, guardian, named.second)
}

/// Whether none of so many is named.
pub(crate) fn names_nobody(named: NamedGuardians, count: usize) -> bool
    ensures { result ≡ (is_out count named.first && is_out count named.second) }
{
    is_out(count, named.first) && is_out(count, named.second)
}
