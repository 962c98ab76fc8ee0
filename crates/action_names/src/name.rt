//! Names of actions: how they are read, printed, made from one another and compared.
ghost use Rattle.std.specs.Prelude.{◌≡◌, ◌≢◌, ◌↔◌, ◌<◌, ◌≤◌, ◌+◌, ◌-◌, ◌*◌, ◌^◌, ◌++◌, [], ◌∷◌, length, List, ℕ, refl, decimal, Some, IsTrue, IsOk};
ghost use Rattle.std.specs.Prelude.{IsNone, IfSome, IfOk, OnOk, OnErr, IsErrOf, MatchOption, string_bytes};
ghost use Rattle.std.specs.List.{AllByRecursion};
ghost use Rattle.std.specs.Ordering.{as_partial_cmp};
ghost use Rattle.action_names.specs.Fronts.{BeginsWithNumber, BeginsWithName, dotted};
ghost use Rattle.action_names.specs.Names.{IsComponent, IsName, name_text, child_of, parent_of, last_of, same_name, is_ancestor, is_top, meet_of, name_cmp, max_depth};
ghost use Rattle.action_names.specs.Comparison.{same_name-partial_equivalence, same_name-equivalence, name_cmp-total, same_name-ties, name_cmp-partial_order, same_name-fed, fed_name};
ghost use Rattle.action_names.specs.Writing.{IsGrown};
ghost use Rattle.action_names.specs.declared.name.NameFault.TheVariants.{Memory};

use crate::numbers::{FEW, Numbers};
use arrayvec::ArrayVec;
use itoa::Buffer;
use std::alloc::{AllocError, AllocFailed, Global};
use std::cmp::Ordering;
use std::fmt;
use std::hash::{Hash, Hasher};
use std::marker::Model;
use thiserror::Error;

/// How many numbers a name has at most.
pub const MAX_DEPTH: usize = 32;

/// The name of an action: a path of 1 to 32 numbers from 1 to 4294967295, printed with dots between them.
///
/// Names are ordered number by number, and a name stands before those that it begins.
#[derive(Drop)]
pub struct Name {
    parts: Numbers,
}

impl Model for Name {
    ghost use Rattle.std.specs.Prelude.{List, ℕ};
    ghost use Rattle.action_names.specs.Names.{IsName};

    ghost Value = { List ℕ };

    ghost view = { λ a. a.parts };

    ghost invariant = { λ a. IsName a.parts };
}

/// Why there is no such name.
#[derive(Clone, Copy, Debug, PartialEq, Eq, Drop, Error)]
pub enum NameFault {
    #[error("not the name of an action")]
    NotAName,
    #[error("a name has at most 32 numbers")]
    TooDeep,
    #[error("out of memory")]
    Memory,
}

impl From<AllocError> for NameFault {
    ghost from_gives = { λ _ e. e ≡ Memory };

    fn from(_error: AllocError) -> Self {
        NameFault::Memory
    }
}

impl<T: Drop> From<AllocFailed<T>> for NameFault {
    ghost from_gives = { λ _ e. e ≡ Memory };

    fn from(_failed: AllocFailed<T>) -> Self {
        NameFault::Memory
    }
}

impl Name {
    /// The name with this text: 1 to 32 numbers from 1 to 4294967295 without leading zeros, joined by dots.
    /// `NotAName` comes exactly where no name has the text. This takes no memory up to 8 numbers.
    pub fn parse(alloc: Global, text: &str) -> Result<Name, NameFault>
        ensures found { IfOk result (λ a. IsName a × (text.now ≡ name_text a)) }
        ensures refused { IsErrOf result NameFault.NotAName → (a : List ℕ) → IsName a
            → text.now ≢ name_text a }
        ensures never_deep { IsErrOf result NameFault.TooDeep → ⊥ }
        ensures inline { (a : List ℕ) → IsName a → length a ≤ 8
            → text.now ≡ name_text a → IsOk result }
    {
        let (name, rest) = Name::at_front(alloc, text.as_bytes())?;
        if !rest.is_empty() {
            return Err(NameFault::NotAName);
        }
        Ok(name)
    }

    /// The name that the bytes begin with, and the bytes that follow it: it goes on up to a byte that is neither a
    /// digit nor a dot. `NotAName` comes exactly where they begin with none. This takes no memory up to 8 numbers.
    pub fn at_front(alloc: Global, bytes: &[u8]) -> Result<(Name, &[u8]), NameFault>
        ensures found { IfOk result (λ r. BeginsWithName bytes.now r.0 r.1.now) }
        ensures refused { IsErrOf result NameFault.NotAName → (a : List ℕ) (rest : List ℕ)
            → BeginsWithName bytes.now a rest → ⊥ }
        ensures never_deep { IsErrOf result NameFault.TooDeep → ⊥ }
        ensures inline { (a : List ℕ) (rest : List ℕ) → BeginsWithName bytes.now a rest
            → length a ≤ 8 → IsOk result }
    {
        let mut few = [0; FEW];
        let mut left = bytes;
        for at in 0..FEW {
            let Some((number, rest)) = number_at_front(left) else {
                return Err(NameFault::NotAName);
            };
            few[at] = number;
            match rest {
                [b'.', behind @ ..] => left = behind,
                _ => {
                    let parts = Numbers::few(alloc, few, at + 1);
                    return Ok((Name { parts }, rest));
                }
            }
        }
        Name::long_at_front(alloc, bytes, few, left)
    }

    // The same, read on behind the first 8 numbers into an array that has room for all: few names have more.
    fn long_at_front<'a>(
        alloc: Global,
        _bytes: &'a [u8],
        few: [u32; FEW],
        behind_few: &'a [u8],
    ) -> Result<(Name, &'a [u8]), NameFault>
        requires so_far { _bytes.now ≡ dotted few behind_few.now }
        requires components { AllByRecursion IsComponent few }
        ensures found { IfOk result (λ r. BeginsWithName _bytes.now r.0 r.1.now) }
        ensures refused { IsErrOf result NameFault.NotAName → (a : List ℕ) (rest : List ℕ)
            → BeginsWithName _bytes.now a rest → ⊥ }
        ensures never_deep { IsErrOf result NameFault.TooDeep → ⊥ }
    {
        let mut numbers = ArrayVec::<u32, MAX_DEPTH>::new();
        numbers.try_extend_from_slice(&few).unwrap();
        let mut left = behind_few;
        loop {
            let Some((number, rest)) = number_at_front(left) else {
                return Err(NameFault::NotAName);
            };
            if numbers.len() == MAX_DEPTH {
                return Err(NameFault::NotAName);
            }
            numbers.push(number);
            match rest {
                [b'.', behind @ ..] => left = behind,
                _ => {
                    let parts = Numbers::from_slice(alloc, numbers.as_slice())?;
                    return Ok((Name { parts }, rest));
                }
            }
        }
    }

    /// The name of the top action with this number. `NotAName` comes exactly where the number is 0. This takes no
    /// memory.
    pub fn top(alloc: Global, number: u32) -> Result<Name, NameFault>
        ensures ok { IfOk result (λ a. IsName a × (a ≡ number ∷ [])) }
        ensures found { IsOk result ↔ (0 < number) }
        ensures refused { OnErr result (IsErrOf result NameFault.NotAName) }
    {
        if number == 0 {
            return Err(NameFault::NotAName);
        }
        let parts = Numbers::from_slice(alloc, &[number])?;
        Ok(Name { parts })
    }

    /// The name of the child with this number. `NotAName` comes exactly where the number is 0, and otherwise `TooDeep`
    /// exactly where this name has 32 numbers. This takes no memory below 8 numbers.
    pub fn child(&self, number: u32) -> Result<Name, NameFault>
        ensures ok { IfOk result (λ a. IsName a × (a ≡ child_of self.now number)) }
        ensures not_a_name { IsErrOf result NameFault.NotAName ↔ (number ≡ 0) }
        ensures too_deep { IsErrOf result NameFault.TooDeep
            ↔ ((0 < number) × (length self.now ≡ max_depth)) }
        ensures inline { 0 < number → length self.now < 8 → IsOk result }
    {
        if number == 0 {
            return Err(NameFault::NotAName);
        }
        if self.depth() == MAX_DEPTH {
            return Err(NameFault::TooDeep);
        }
        let parts = self.parts.with(number)?;
        Ok(Name { parts })
    }

    /// A copy of the name. This takes no memory: up to 8 numbers are copied in one piece, and more are shared.
    pub fn copy(&self) -> Result<Name, AllocError>
        ensures ok { IfOk result (λ a. IsName a × (a ≡ self.now)) }
        ensures inline { length self.now ≤ 8 → IsOk result }
    {
        let parts = self.parts.copy()?;
        Ok(Name { parts })
    }

    /// The parent of a subaction, and `None` exactly for a top action. This takes no memory.
    pub fn parent(&self) -> Result<Option<Name>, AllocError>
        ensures top { IfOk result (λ p. IsNone p ↔ IsTrue (is_top self.now)) }
        ensures parent { IfOk result (λ p. IfSome p (λ a. IsName a × (a ≡ parent_of self.now))) }
        ensures inline { length self.now ≤ 9 → IsOk result }
    {
        if self.is_top() {
            return Ok(None);
        }
        let parts = self.parts.front(self.depth() - 1)?;
        Ok(Some(Name { parts }))
    }

    /// Whether this is an ancestor of the other name. A name is an ancestor of itself.
    pub fn is_ancestor(&self, of: &Name) -> bool
        ensures { result ≡ is_ancestor self.now of.now }
    {
        of.parts.as_slice().starts_with(self.parts.as_slice())
    }

    /// How many leading numbers the two names share.
    pub fn meet(&self, other: &Name) -> usize
        ensures { result ≡ meet_of self.now other.now }
    {
        let pairs = self.parts.as_slice().iter().zip(other.parts.as_slice());
        pairs.take_while(|(own, others)| own == others).count()
    }

    /// How many numbers the name has.
    pub fn depth(&self) -> usize
        ensures depth { result ≡ length self.now }
        ensures named { IsName self.now }
    {
        self.parts.len()
    }

    /// Whether this is the name of a top action, which has no parent.
    pub fn is_top(&self) -> bool
        ensures { result ≡ is_top self.now }
    {
        self.parts.len() == 1
    }

    /// The numbers of the name, outermost first.
    pub fn components(&self) -> &[u32]
        ensures numbers { result.now ≡ self.now }
        ensures named { IsName self.now }
    {
        self.parts.as_slice()
    }

    /// The last number, which tells the action from its siblings.
    pub fn last(&self) -> u32
        ensures { result ≡ last_of self.now }
    {
        let numbers = self.parts.as_slice();
        numbers[numbers.len() - 1]
    }

    /// Appends the name to the text. Where memory runs out, the text stays as it was.
    pub fn write_to(&self, text: &mut String) -> Result<(), AllocError>
        ensures ok { OnOk result
            (string_bytes text.new ≡ string_bytes text.old ++ name_text self.now) }
        ensures err { OnErr result (string_bytes text.new ≡ string_bytes text.old) }
    {
        let len = text.as_str().len();
        let written = self.append_to(text);
        if written.is_err() {
            text.truncate(len);
        }
        written
    }

    // Where memory runs out, a part of the name may stand at the end.
    #[tactic(auto, using(crate::proofs::Growing::grown_same, crate::proofs::Growing::grown_then))]
    fn append_to(&self, text: &mut String) -> Result<(), AllocError>
        ensures ok { OnOk result
            (string_bytes text.new ≡ string_bytes text.old ++ name_text self.now) }
        ensures err { OnErr result (IsGrown (string_bytes text.old) (string_bytes text.new)) }
    {
        if let [first, rest @ ..] = self.parts.as_slice() {
            append_number(*first, text)?;
            for number in rest {
                text.push('.')?;
                append_number(*number, text)?;
            }
        }
        Ok(())
    }
}

// A number of one digit, as most numbers below the first are, is its digit.
#[inline(always)]
fn append_number(number: u32, text: &mut String) -> Result<(), AllocError>
    ensures ok { OnOk result (string_bytes text.new ≡ string_bytes text.old ++ decimal number) }
    ensures err { OnErr result (string_bytes text.new ≡ string_bytes text.old) }
{
    if number < 10 {
        text.push(char::from(b'0' + number as u8))?;
        return Ok(());
    }
    text.push_str(Buffer::new().format(number))
}

/// The number of a name that the bytes begin with, from 1 to 4294967295 without leading zeros, and the bytes that
/// follow its digits. `None` comes exactly where they begin with none.
pub fn number_at_front(bytes: &[u8]) -> Option<(u32, &[u8])>
    ensures { MatchOption result
        ((n : ℕ) (rest : List ℕ) → BeginsWithNumber bytes.now n rest → ⊥)
        (λ r. BeginsWithNumber bytes.now r.0 r.1.now) }
{
    match bytes {
        [first @ b'1'..=b'9', digits @ ..] => with_digits(u32::from(*first - b'0'), digits),
        _ => None,
    }
}

/// The number with the digits behind it that the bytes begin with.
fn with_digits(mut number: u32, bytes: &[u8]) -> Option<(u32, &[u8])>
    requires { 1 ≤ number }
    ensures { MatchOption result
        ((n : ℕ) (rest : List ℕ) → BeginsWithNumber (decimal number ++ bytes.now) n rest → ⊥)
        (λ r. BeginsWithNumber (decimal number ++ bytes.now) r.0 r.1.now) }
{
    let mut left = bytes;
    while let [digit @ b'0'..=b'9', behind @ ..] = left {
        number = with_digit(number, *digit)?;
        left = behind;
    }
    Some((number, left))
}

/// The number with one digit more, if there is room for it.
fn with_digit(number: u32, digit: u8) -> Option<u32>
    requires low { 48 ≤ digit }
    requires high { digit ≤ 57 }
    ensures { MatchOption result (2 ^ 32 ≤ 10 * number + (digit - 48))
        (λ more. more ≡ 10 * number + (digit - 48)) }
{
    number.checked_mul(10)?.checked_add(u32::from(digit - b'0'))
}

impl fmt::Display for Name {
    ghost output = { λ a. Some (name_text a) };

    fn fmt<W: fmt::Write>(&self, f: &mut fmt::Formatter<W>) -> fmt::Result {
        if let [first, rest @ ..] = self.parts.as_slice() {
            write!(f, "{first}")?;
            for number in rest {
                write!(f, ".{number}")?;
            }
        }
        Ok(())
    }
}

impl fmt::Debug for Name {
    fn fmt<W: fmt::Write>(&self, f: &mut fmt::Formatter<W>) -> fmt::Result {
        fmt::Display::fmt(self, f)
    }
}

impl PartialEq for Name {
    ghost eq = { same_name };

    ghost laws = { same_name-partial_equivalence };

    fn eq(&self, other: &Self) -> bool {
        is_same(self.components(), other.components())
    }
}

impl Eq for Name {
    ghost laws = { same_name-equivalence };
}

impl PartialOrd for Name {
    ghost partial_cmp = { as_partial_cmp name_cmp };

    ghost laws = { name_cmp-partial_order };

    fn partial_cmp(&self, other: &Self) -> Option<Ordering> {
        Some(self.cmp(other))
    }
}

impl Ord for Name {
    ghost cmp = { name_cmp };

    ghost total = { name_cmp-total };

    ghost matches_partial_cmp = { λ _ _. refl };

    ghost matches_eq = { same_name-ties };

    fn cmp(&self, other: &Self) -> Ordering {
        order(self.components(), other.components())
    }
}

/// Whether two lists of numbers are the same. Names that differ mostly have the same first number, so it begins at the
/// last one.
fn is_same(own: &[u32], others: &[u32]) -> bool
    ensures { result ≡ same_name own.now others.now }
{
    let mut left = own.len();
    if left != others.len() {
        return false;
    }
    while left > 0 {
        left -= 1;
        if own[left] != others[left] {
            return false;
        }
    }
    true
}

/// The order of two lists of numbers. Names are short: a plain loop is done before a comparison by groups has begun.
fn order(own: &[u32], others: &[u32]) -> Ordering
    ensures { result ≡ name_cmp own.now others.now }
{
    for i in 0..own.len().min(others.len()) {
        if own[i] != others[i] {
            return own[i].cmp(&others[i]);
        }
    }
    own.len().cmp(&others.len())
}

// Each number is fed and nothing else, so that a short name costs a step or two of the hasher.
impl Hash for Name {
    ghost hash_input = { fed_name };

    ghost respects_eq = { same_name-fed };

    fn hash<H: Hasher>(&self, state: &mut H) {
        u32::hash_slice(self.components(), state);
    }
}
