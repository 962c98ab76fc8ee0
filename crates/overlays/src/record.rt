ghost use Rattle.std.specs.Prelude.{◌≡◌, ◌+◌, ◌≤◌, List, IsTrue, IfOk, OnErr, vec_len, vec_capacity, option_copied};
ghost use Rattle.std.specs.List.{position};
ghost use Rattle.values.specs.declared.record.Field.{Field};
ghost use Rattle.values.specs.Contents.{field_value};
ghost use Rattle.values.specs.Words.{same_bytes};
ghost use Rattle.atomic_types.specs.Records.{record_knows, record_reply, record_after};
ghost use Rattle.overlays.specs.Overlays.{IsNotedIn};
ghost use Rattle.overlays.specs.RecordOverlays.{laid_fields, FieldsFit, is_set, noted_field, noted_fields};
ghost use Rattle.overlays.specs.RecordOverlayLaws.{record_overlays_know, record_fits_stay, record_adds_sum, record_writes_cover, record_always_done};

use crate::layered::Layered;
use crate::seen::Seen;
use atomic_types::{Op, Reply};
use std::alloc::{AllocError, Global};
use std::marker::Model;
use values::{Field, Identifier, Record, Value};

/// The fields of a record that an action changed, with their values.
#[derive(Debug, Drop)]
pub struct RecordOverlay {
    changed: Vec<Field>,
}

impl Model for RecordOverlay {
    ghost use Rattle.std.specs.Prelude.{List};
    ghost use Rattle.values.specs.declared.record.Field.{Field};

    ghost Value = { List Field };

    ghost view = { λ a. a.changed.items };
}

impl Layered for Record {
    type Overlay = RecordOverlay;

    ghost laid = { laid_fields };

    ghost fits = { FieldsFit };

    fn read(&self, op: &Op) -> Result<Reply, AllocError> {
        match op {
            Op::Get(name) => match self.get(name) {
                Some(value) => Ok(Reply::Gives(value.copy()?)),
                None => unreachable!(),
            },
            _ => unreachable!(),
        }
    }

    fn nothing(alloc: Global) -> RecordOverlay {
        RecordOverlay {
            changed: Vec::new(alloc),
        }
    }

    fn copy_overlay(overlay: &RecordOverlay) -> Result<RecordOverlay, AllocError> {
        Ok(RecordOverlay {
            changed: copy_fields(&overlay.changed)?,
        })
    }

    fn peek(overlay: &RecordOverlay, op: &Op) -> Result<Seen, AllocError> {
        let Op::Get(name) = op else {
            return Ok(Seen::Below);
        };
        match changed_value(&overlay.changed, name) {
            Some(value) => Ok(Seen::Reply(Reply::Gives(value.copy()?))),
            None => Ok(Seen::Below),
        }
    }

    #[tactic(auto, using(crate::specs::RecordOverlayLaws::record_sets))]
    fn note(
        _base: &Record,
        _below: &[RecordOverlay],
        overlay: &mut RecordOverlay,
        op: &Op,
    ) -> Result<Reply, AllocError> {
        note_set(overlay, op)
    }

    fn add_in(_overlay: &mut RecordOverlay, _by: i64) {}

    #[tactic(auto, using(crate::specs::RecordOverlayLaws::laid_noted_all, crate::specs::RecordOverlayLaws::fit_noted_all))]
    fn join(lower: &mut RecordOverlay, upper: &RecordOverlay) -> Result<(), AllocError> {
        let upper = copy_fields(&upper.changed)?;
        lower.changed.reserve(upper.len())?;
        note_fields(&mut lower.changed, upper);
        Ok(())
    }

    #[tactic(auto, using(crate::specs::RecordOverlayLaws::laid_last))]
    fn lay(&mut self, overlay: &RecordOverlay) -> Result<(), AllocError> {
        if let [field] = overlay.changed.as_slice() {
            let value = field.value.copy()?;
            self.set(&field.name, value);
            return Ok(());
        }
        let mut changed = copy_fields(&overlay.changed)?;
        while let Some(field) = changed.pop() {
            let Field { name, value } = field;
            self.set(&name, value);
        }
        Ok(())
    }

    fn add(&mut self, _by: i64) {}

    ghost overlays_know = { record_overlays_know };

    ghost fits_stay = { record_fits_stay };

    ghost adds_sum = { record_adds_sum };

    ghost writes_cover = { record_writes_cover };

    ghost always_done = { record_always_done };
}

/// Notes that a field was set. If memory runs out, the overlay is as it was.
#[tactic(auto, using(crate::specs::RecordOverlayLaws::laid_noted, crate::specs::RecordOverlayLaws::fit_known))]
pub(crate) fn note_set(overlay: &mut RecordOverlay, op: &Op) -> Result<Reply, AllocError>
    requires { IsTrue (is_set op.now) }
    ensures noted { IfOk result (λ r. (fields : List Field) → FieldsFit fields overlay.old
        → IsTrue (record_knows (laid_fields fields overlay.old) op.now)
        → IsNotedIn record_reply record_after laid_fields FieldsFit fields overlay.old
        overlay.new op.now r) }
    ensures err { OnErr result (overlay.new ≡ overlay.old) }
{
    let Op::Set(name, value) = op else {
        unreachable!();
    };
    let field = Field {
        name: name.copy()?,
        value: value.copy()?,
    };
    overlay.changed.reserve(1)?;
    note_field(&mut overlay.changed, field);
    Ok(Reply::Done)
}

fn copy_fields(fields: &Vec<Field>) -> Result<Vec<Field>, AllocError>
    ensures { IfOk result (λ copy. copy.items ≡ fields.now.items) }
{
    let mut copy = Vec::with_capacity(*fields.allocator(), fields.len())?;
    for field in fields {
        copy.push(field.copy()?)?;
    }
    Ok(copy)
}

/// What the field of this name holds among the changed ones.
fn changed_value<'a>(changed: &'a [Field], name: &Identifier) -> Option<&'a Value>
    ensures { option_copied result ≡ field_value changed.now name.now }
{
    let at = field_index(changed, name)?;
    Some(&changed[at].value)
}

/// Where the field of this name stands.
fn field_index(fields: &[Field], name: &Identifier) -> Option<usize>
    ensures { result ≡ position (λ f. same_bytes f.name name.now) fields.now }
{
    fields.iter().position(|field| field.name == *name)
}

/// Gives the field its value among the changed ones, where there is room for one more.
fn note_field(changed: &mut Vec<Field>, field: Field)
    requires { vec_len changed.old + 1 ≤ vec_capacity changed.old }
    ensures noted { changed.new.items ≡ noted_field changed.old.items field.name field.value }
    ensures length { vec_len changed.new ≤ vec_len changed.old + 1 }
    ensures capacity { vec_capacity changed.new ≡ vec_capacity changed.old }
{
    match field_index(changed, &field.name) {
        Some(at) => changed[at] = field,
        None => changed.push_reserved(field),
    }
}

/// Gives all these fields their values, where there is room for as many more.
#[tactic(auto, using(crate::specs::RecordOverlayLaws::noted_last))]
fn note_fields(changed: &mut Vec<Field>, mut upper: Vec<Field>)
    requires { vec_len changed.old + vec_len upper ≤ vec_capacity changed.old }
    ensures { changed.new.items ≡ noted_fields changed.old.items upper.items }
{
    while let Some(field) = upper.pop() {
        note_field(changed, field);
    }
}
