//! Looking into documents.
ghost use Rattle.std.specs.Prelude.{◌≡◌, ◌≢◌, ℕ, IfOk, IsErrOf, MatchOption};
ghost use Rattle.serde_json.specs.Data.{Data, Items, array, item, no_items};
ghost use Rattle.serde_json.specs.View.{view, items_view};
ghost use Rattle.store_texts.specs.Texts.{IsCount, IsNumber, content_members, number_data};

use serde_json::Value as Json;
use values::ValueFault;

/// The members of a content's document.
#[derive(Clone, Copy, Drop)]
pub(crate) struct Members<'a> {
    pub(crate) base: &'a Json,
    pub(crate) count: &'a Json,
    pub(crate) decided: &'a Json,
    pub(crate) next_top: &'a Json,
    pub(crate) prepared: &'a Json,
}

impl<'a> Members<'a> {
    pub(crate) fn of(json: &'a Json) -> Option<Members<'a>>
        ensures { MatchOption result
            ((b c d n p : Data) → view json.now ≢ content_members b c d n p)
            (λ m. view json.now ≡ content_members (view m.base.now) (view m.count.now)
            (view m.decided.now) (view m.next_top.now) (view m.prepared.now)) }
    {
        let mut members = json.as_object()?.iter();
        let (first, base) = members.next()?;
        let (second, count) = members.next()?;
        let (third, decided) = members.next()?;
        let (fourth, next_top) = members.next()?;
        let (fifth, prepared) = members.next()?;
        if first.as_str() != "base" || second.as_str() != "count" || third.as_str() != "decided" {
            return None;
        }
        if fourth.as_str() != "next_top" || fifth.as_str() != "prepared" {
            return None;
        }
        if members.next().is_some() {
            return None;
        }
        Some(Members {
            base,
            count,
            decided,
            next_top,
            prepared,
        })
    }
}

/// The items of an array.
pub(crate) fn items_of(json: &Json) -> Option<&[Json]>
    ensures { MatchOption result ((items : Items) → view json.now ≢ array items)
        (λ items. view json.now ≡ array (items_view items.now)) }
{
    Some(json.as_array()?.as_slice())
}

/// The items of an array that has two.
pub(crate) fn two_of(json: &Json) -> Option<(&Json, &Json)>
    ensures { MatchOption result
        ((d e : Data) → view json.now ≢ array (item d (item e no_items)))
        (λ p. view json.now ≡ array (item (view p.0.now) (item (view p.1.now) no_items))) }
{
    let mut items = json.as_array()?.iter();
    let first = items.next()?;
    let second = items.next()?;
    if items.next().is_some() {
        return None;
    }
    Some((first, second))
}

/// The items of an array that has three.
pub(crate) fn three_of(json: &Json) -> Option<(&Json, &Json, &Json)>
    ensures { MatchOption result
        ((d e f : Data) → view json.now ≢ array (item d (item e (item f no_items))))
        (λ p. view json.now
        ≡ array (item (view p.0.now) (item (view p.1.now) (item (view p.2.now) no_items)))) }
{
    let mut items = json.as_array()?.iter();
    let first = items.next()?;
    let second = items.next()?;
    let third = items.next()?;
    if items.next().is_some() {
        return None;
    }
    Some((first, second, third))
}

/// A count of 64 bits.
pub(crate) fn count_of(json: &Json) -> Option<u64>
    ensures { MatchOption result ((n : ℕ) → view json.now ≢ number_data n)
        (λ n. IsCount n × (view json.now ≡ number_data n)) }
{
    json.as_u64()
}

/// A number of 32 bits.
pub(crate) fn number_of(json: &Json) -> Result<u32, ValueFault>
    ensures found { IfOk result (λ n. IsNumber n × (view json.now ≡ number_data n)) }
    ensures refused { IsErrOf result ValueFault.Unfit → (n : ℕ) → IsNumber n
        → view json.now ≢ number_data n }
{
    let count = count_of(json).ok_or(ValueFault::Unfit)?;
    u32::try_from(count).map_err(|_| ValueFault::Unfit)
}
