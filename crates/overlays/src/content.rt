ghost use Rattle.std.specs.Prelude.{◌≡◌, true, not, is_some, pos, IsTrue, IsFalse, IfOk, OnOk, OnErr, option_copied};
ghost use Rattle.values.specs.Items.{ArrayContent, item_at};
ghost use Rattle.atomic_types.specs.Operations.{is_read, is_add};
ghost use Rattle.atomic_types.specs.Objects.{knows, reply_of, content_after};
ghost use Rattle.overlays.specs.Overlays.{laid_all, AllFit, Covers, IsNotedIn};
ghost use Rattle.overlays.specs.ArrayOverlays.{AreLimited, AreLimitedWhere, IsAnswered, bounds_of};
ghost use Rattle.overlays.specs.ContentOverlays.{laid_content, ContentFits, is_something, is_whole, are_alike, IsArray, IsArrayUnder, bounds_given, item_given, content_overlays_know, content_fits_stay, content_adds_sum, content_writes_cover, content_always_done};

use crate::array::{ArrayOverlay, array_bounds};
use crate::bounds::Bounds;
use crate::counter::{CounterOverlay, note_number};
use crate::layered::Layered;
use crate::record::{RecordOverlay, note_set};
use crate::seen::Seen;
use crate::variant::{VariantOverlay, note_change};
use atomic_types::{AtomicType, Op, Reply};
use std::alloc::{AllocError, Global};
use values::{Array, Content, Counter, Record, Value, Variant};

/// What an action changed of an object.
#[derive(Drop)]
pub enum ContentOverlay {
    Nothing(Global),
    Record(RecordOverlay),
    Array(ArrayOverlay),
    Variant(VariantOverlay),
    Counter(CounterOverlay),
    /// A content that a store gave back stands in the place of the object's own.
    Replaced(Content),
}

impl Layered for Content {
    type Overlay = ContentOverlay;

    ghost laid = { laid_content };

    ghost fits = { ContentFits };

    fn read(&self, op: &Op) -> Result<Reply, AllocError> {
        match self {
            Content::Record(record) => record.read(op),
            Content::Array(array) => array.read(op),
            Content::Variant(variant) => variant.read(op),
            Content::Counter(counter) => counter.read(op),
        }
    }

    fn nothing(alloc: Global) -> ContentOverlay {
        ContentOverlay::Nothing(alloc)
    }

    fn copy_overlay(overlay: &ContentOverlay) -> Result<ContentOverlay, AllocError> {
        Ok(match overlay {
            ContentOverlay::Nothing(alloc) => ContentOverlay::Nothing(*alloc),
            ContentOverlay::Record(fields) => {
                ContentOverlay::Record(Record::copy_overlay(fields)?)
            }
            ContentOverlay::Array(items) => ContentOverlay::Array(Array::copy_overlay(items)?),
            ContentOverlay::Variant(tag) => ContentOverlay::Variant(Variant::copy_overlay(tag)?),
            ContentOverlay::Counter(number) => {
                ContentOverlay::Counter(Counter::copy_overlay(number)?)
            }
            ContentOverlay::Replaced(content) => ContentOverlay::Replaced(content.copy()?),
        })
    }

    fn peek(overlay: &ContentOverlay, op: &Op) -> Result<Seen, AllocError> {
        match overlay {
            ContentOverlay::Nothing(_) => Ok(Seen::Below),
            ContentOverlay::Record(fields) => Record::peek(fields, op),
            ContentOverlay::Array(items) => Array::peek(items, op),
            ContentOverlay::Variant(tag) => Variant::peek(tag, op),
            ContentOverlay::Counter(number) => Counter::peek(number, op),
            ContentOverlay::Replaced(content) => {
                if !content.knows(op) {
                    return Ok(Seen::Below);
                }
                Ok(Seen::Reply(content.read(op)?))
            }
        }
    }

    fn note(
        base: &Content,
        below: &[ContentOverlay],
        overlay: &mut ContentOverlay,
        op: &Op,
    ) -> Result<Reply, AllocError> {
        if let ContentOverlay::Nothing(alloc) = overlay {
            let alloc = *alloc;
            *overlay = fresh_overlay(base, alloc);
            return match note_in(base, below, overlay, op) {
                Ok(reply) => Ok(reply),
                Err(refused) => {
                    *overlay = ContentOverlay::Nothing(alloc);
                    Err(refused)
                }
            };
        }
        note_in(base, below, overlay, op)
    }

    fn add_in(overlay: &mut ContentOverlay, by: i64) {
        match overlay {
            ContentOverlay::Counter(number) => Counter::add_in(number, by),
            ContentOverlay::Replaced(content) => content.add(by),
            _ => {}
        }
    }

    fn join(lower: &mut ContentOverlay, upper: &ContentOverlay) -> Result<(), AllocError> {
        if lower.is_nothing() || upper.is_whole() {
            *lower = Content::copy_overlay(upper)?;
            return Ok(());
        }
        if let ContentOverlay::Replaced(content) = lower {
            return content.lay(upper);
        }
        match (lower, upper) {
            (_, ContentOverlay::Nothing(_)) => Ok(()),
            (ContentOverlay::Record(below), ContentOverlay::Record(above)) => {
                Record::join(below, above)
            }
            (ContentOverlay::Array(below), ContentOverlay::Array(above)) => {
                Array::join(below, above)
            }
            (ContentOverlay::Variant(below), ContentOverlay::Variant(above)) => {
                Variant::join(below, above)
            }
            (ContentOverlay::Counter(below), ContentOverlay::Counter(above)) => {
                Counter::join(below, above)
            }
            _ => unreachable!(),
        }
    }

    fn lay(&mut self, overlay: &ContentOverlay) -> Result<(), AllocError> {
        match (&mut *self, overlay) {
            (_, ContentOverlay::Nothing(_)) => Ok(()),
            (Content::Record(record), ContentOverlay::Record(fields)) => record.lay(fields),
            (Content::Array(array), ContentOverlay::Array(items)) => array.lay(items),
            (Content::Variant(variant), ContentOverlay::Variant(tag)) => variant.lay(tag),
            (Content::Counter(counter), ContentOverlay::Counter(number)) => counter.lay(number),
            (_, ContentOverlay::Replaced(content)) => {
                *self = content.copy()?;
                Ok(())
            }
            _ => unreachable!(),
        }
    }

    fn add(&mut self, by: i64) {
        if let Content::Counter(counter) = self {
            counter.add(by);
        }
    }

    ghost overlays_know = { content_overlays_know };

    ghost fits_stay = { content_fits_stay };

    ghost adds_sum = { content_adds_sum };

    ghost writes_cover = { content_writes_cover };

    ghost always_done = { content_always_done };
}

impl ContentOverlay {
    /// Whether it changes nothing of whatever object.
    fn is_nothing(&self) -> bool
        ensures { result ≡ not (is_something self.now) }
    {
        matches!(self, ContentOverlay::Nothing(_))
    }

    /// Whether it holds a whole content.
    fn is_whole(&self) -> bool
        ensures { result ≡ is_whole self.now }
    {
        matches!(self, ContentOverlay::Replaced(_))
    }
}

/// The overlay that changes nothing of an object of the base's type.
fn fresh_overlay(base: &Content, alloc: Global) -> ContentOverlay
    ensures something { is_something result ≡ true }
    ensures fits { (c : Content) → are_alike c base.now ≡ true → ContentFits c result }
    ensures laid { (c : Content) → are_alike c base.now ≡ true → laid_content c result ≡ c }
{
    match base {
        Content::Record(_) => ContentOverlay::Record(Record::nothing(alloc)),
        Content::Array(_) => ContentOverlay::Array(Array::nothing(alloc)),
        Content::Variant(_) => ContentOverlay::Variant(Variant::nothing(alloc)),
        Content::Counter(_) => ContentOverlay::Counter(Counter::nothing(alloc)),
    }
}

/// Notes the operation in an overlay of the object's type. If memory runs out, it is as it was.
fn note_in(
    base: &Content,
    below: &[ContentOverlay],
    overlay: &mut ContentOverlay,
    op: &Op,
) -> Result<Reply, AllocError>
    requires below { AllFit laid_content ContentFits base.now below.now }
    requires something { is_something overlay.old ≡ true }
    requires fits { ContentFits (laid_all laid_content base.now below.now) overlay.old }
    requires known { IsTrue (knows (laid_all laid_content base.now below.now) op.now) }
    requires changes { IsFalse (is_read op.now) }
    requires covers { IsTrue (is_add op.now) → Covers content_after laid_content overlay.old }
    ensures noted { IfOk result (λ r. IsNotedIn reply_of content_after laid_content ContentFits
        (laid_all laid_content base.now below.now) overlay.old overlay.new op.now r) }
    ensures covers { OnOk result (Covers content_after laid_content overlay.new) }
    ensures err { OnErr result (overlay.new ≡ overlay.old) }
{
    match overlay {
        ContentOverlay::Record(fields) => note_set(fields, op),
        ContentOverlay::Array(items) => note_items(base, below, items, op),
        ContentOverlay::Variant(tag) => note_change(tag, op),
        ContentOverlay::Counter(number) => note_number(number, op),
        ContentOverlay::Replaced(content) => content.apply(op),
        ContentOverlay::Nothing(_) => unreachable!(),
    }
}

/// Notes the operation in the overlay of an array that lies on these.
fn note_items(
    base: &Content,
    below: &[ContentOverlay],
    overlay: &mut ArrayOverlay,
    op: &Op,
) -> Result<Reply, AllocError>
    requires below { AllFit laid_content ContentFits base.now below.now }
    requires array { IsArrayUnder (laid_all laid_content base.now below.now) overlay.old op.now }
    requires changes { IsFalse (is_read op.now) }
    ensures noted { IfOk result
        (λ r. (a : ArrayContent) → laid_all laid_content base.now below.now ≡ Content.Array a
        → IsAnswered a overlay.old overlay.new op.now r) }
    ensures err { OnErr result (overlay.new ≡ overlay.old) }
{
    let bounds = match overlay.bounds() {
        Some(bounds) => bounds,
        None => bounds_under(base, below),
    };
    let end = match bounds.end_removed_by(op) {
        Some(index) => item_under(base, below, index),
        None => None,
    };
    overlay.note(bounds, end, op)
}

/// The bounds of the array under these overlays.
fn bounds_under(base: &Content, below: &[ContentOverlay]) -> Bounds
    requires below { AllFit laid_content ContentFits base.now below.now }
    requires array { IsArray (laid_all laid_content base.now below.now) }
    ensures bounds { (a : ArrayContent) → laid_all laid_content base.now below.now ≡ Content.Array a
        → result ≡ bounds_of a }
    ensures limited { AreLimited result }
{
    let mut left = below;
    while let Some((top, lower)) = left.split_last() {
        if let Some(bounds) = bounds_given(top) {
            return bounds;
        }
        left = lower;
    }
    match base {
        Content::Array(array) => array_bounds(array),
        _ => unreachable!(),
    }
}

/// What the array under these overlays has at the index, if it has an item there.
fn item_under<'a>(base: &'a Content, below: &'a [ContentOverlay], index: i64) -> Option<&'a Value>
    requires below { AllFit laid_content ContentFits base.now below.now }
    requires array { IsArray (laid_all laid_content base.now below.now) }
    ensures { (a : ArrayContent)
        → laid_all laid_content base.entry.now below.entry.now ≡ Content.Array a
        → is_some (item_at a index) ≡ true → option_copied result ≡ item_at a index }
{
    let mut left = below;
    while let Some((top, lower)) = left.split_last() {
        if let Some(item) = item_given(top, index) {
            return Some(item);
        }
        left = lower;
    }
    match base {
        Content::Array(array) => array.fetch(index),
        _ => unreachable!(),
    }
}

/// The bounds that the overlay gives an array, if it changes them.
fn bounds_given(overlay: &ContentOverlay) -> Option<Bounds>
    ensures bounds { result ≡ bounds_given overlay.now }
    ensures limited { AreLimitedWhere (bounds_given overlay.now) }
{
    match overlay {
        ContentOverlay::Array(items) => items.bounds(),
        ContentOverlay::Replaced(Content::Array(array)) => Some(array_bounds(array)),
        _ => None,
    }
}

/// The item that the overlay gives an array at the index, if it does.
fn item_given(overlay: &ContentOverlay, index: i64) -> Option<&Value>
    ensures { option_copied result ≡ item_given overlay.entry.now index }
{
    match overlay {
        ContentOverlay::Array(items) => items.item(index),
        ContentOverlay::Replaced(Content::Array(array)) => array.fetch(index),
        _ => None,
    }
}
