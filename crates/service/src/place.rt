//! Actions in which a transaction is at work.
ghost use Rattle.std.specs.Prelude.{◌≡◌, ◌+◌, ◌≤◌, ◌∷◌, [], true, IfOk, vec_capacity, vec_len};
ghost use Rattle.std.specs.Option.{option_or};
ghost use Rattle.service.specs.Together.{HasRoomAgain};
ghost use Rattle.service.specs.Transacting.{Includes, has_number};

use crate::fault::CallFault;
use action_names::Name;
use std::alloc::{AllocError, Global};

/// An action in which a transaction is at work.
#[derive(Drop)]
pub(crate) struct Place {
    pub(crate) action: Name,
    /// The guardian at which it began.
    pub(crate) home: u32,
    /// The guardians that will vote, in rising number: its home, and those of what was committed into it.
    pub(crate) reached: Vec<u32>,
    /// Why a step that was to end or tell something came to nothing, if one did.
    pub(crate) left: Option<CallFault>,
}

impl Place {
    /// Keeps in mind what came to nothing.
    pub(crate) fn keep(&mut self, left: Option<CallFault>)
        ensures left { self.new.left ≡ left }
        ensures action { self.new.action ≡ self.old.action }
        ensures home { self.new.home ≡ self.old.home }
        ensures reached { self.new.reached ≡ self.old.reached }
    {
        self.left = left;
    }

    /// Takes over what two arms left, and the guardians that each of them reached which committed. Such an arm's list
    /// has room for as many again.
    pub(crate) fn join(
        &mut self,
        one: Place,
        one_committed: bool,
        other: Place,
        other_committed: bool,
    )
        requires one { Includes self.old.reached.items one.reached.items }
        requires other { Includes self.old.reached.items other.reached.items }
        requires one_room { one_committed ≡ true → HasRoomAgain one.reached }
        requires other_room { other_committed ≡ true → HasRoomAgain other.reached }
        ensures left { self.new.left ≡ option_or (option_or self.old.left one.left) other.left }
        ensures action { self.new.action ≡ self.old.action }
        ensures home { self.new.home ≡ self.old.home }
        ensures reached { Includes self.old.reached.items self.new.reached.items }
    {
        self.left = self.left.take().or(one.left).or(other.left);
        match (one_committed, other_committed) {
            (true, true) => self.reached = union(one.reached, other.reached),
            (true, false) => self.reached = one.reached,
            (false, true) => self.reached = other.reached,
            (false, false) => {}
        }
    }

    /// Takes over the guardians that were reached.
    pub(crate) fn reach(&mut self, reached: Vec<u32>)
        ensures reached { self.new.reached ≡ reached }
        ensures action { self.new.action ≡ self.old.action }
        ensures home { self.new.home ≡ self.old.home }
        ensures left { self.new.left ≡ self.old.left }
    {
        self.reached = reached;
    }
}

/// The numbers with one more at its place, if it is not there yet.
pub(crate) fn with_number(numbers: &Vec<u32>, number: u32) -> Result<Vec<u32>, AllocError>
    ensures kept { IfOk result (λ more. Includes numbers.now.items more.items) }
    ensures added { IfOk result (λ more. has_number more.items number ≡ true) }
{
    let mut more = numbers.clone()?;
    match numbers.binary_search(&number) {
        Ok(_) => Ok(more),
        Err(place) => {
            more.insert(place, number)?;
            Ok(more)
        }
    }
}

/// The numbers of both lists. Each has room for as many again.
fn union(one: Vec<u32>, other: Vec<u32>) -> Vec<u32>
    requires one_room { HasRoomAgain one }
    requires other_room { HasRoomAgain other }
    ensures one { Includes one.items result.items }
    ensures other { Includes other.items result.items }
{
    if one.len() < other.len() {
        with_all(other, one)
    } else {
        with_all(one, other)
    }
}

/// The numbers of both lists, of which the first has room for those of the second.
fn with_all(numbers: Vec<u32>, more: Vec<u32>) -> Vec<u32>
    requires room { vec_len numbers + vec_len more ≤ vec_capacity numbers }
    ensures numbers { Includes numbers.items result.items }
    ensures more { Includes more.items result.items }
{
    let (mut all, mut more) = (numbers, more);
    if all.append(&mut more).is_err() {
        unreachable!();
    }
    all.sort_unstable();
    all.dedup();
    all
}

/// One number.
pub(crate) fn one_number(alloc: Global, number: u32) -> Result<Vec<u32>, AllocError>
    ensures { IfOk result (λ one. one.items ≡ number ∷ []) }
{
    let mut one = Vec::new(alloc);
    one.push(number)?;
    Ok(one)
}
