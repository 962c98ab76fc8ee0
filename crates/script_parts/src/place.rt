//! Places in a document, and the faults that stand there.
ghost use Rattle.std.specs.Prelude.{◌≡◌, ◌≢◌, ◌++◌, decimal, string_bytes, Option, IfOk, OnOk};
ghost use Rattle.script_model.specs.Reading.{Answers, step, ask, need, fault};
ghost use Rattle.script_parts.specs.Places.{pointer};

use script_model::{FaultKind, Pointer, ScriptFault};
use std::alloc::{AllocError, Global};

/// Where a part stands in the document, from the root on.
#[derive(Clone, Copy)]
pub enum Place<'a> {
    /// The whole document.
    Root,
    /// The part under this name, of what stands at this place.
    Member(&'a Place<'a>, &'a str),
    /// The part at this index, of what stands at this place.
    Item(&'a Place<'a>, usize),
}

impl<'a> Place<'a> {
    /// The place of the part under this name.
    pub fn member(&'a self, name: &'a str) -> Place<'a>
        ensures { pointer result ≡ step (pointer self.now) name.now }
    {
        Place::Member(self, name)
    }

    /// The place of the part at this index.
    pub fn item(&'a self, index: usize) -> Place<'a>
        ensures { pointer result ≡ step (pointer self.now) (decimal index) }
    {
        Place::Item(self, index)
    }

    fn write_to(&self, text: &mut String) -> Result<(), AllocError>
        ensures { OnOk result (string_bytes text.new ≡ string_bytes text.old ++ pointer self.now) }
    {
        match self {
            Place::Root => Ok(()),
            Place::Member(place, name) => {
                place.write_to(text)?;
                text.push_str("/")?;
                text.push_str(name)
            }
            Place::Item(place, index) => {
                place.write_to(text)?;
                text.push_str("/")?;
                write!(text, "{index}")
            }
        }
    }

    fn text(&self, alloc: Global) -> Result<String, AllocError>
        ensures { IfOk result (λ text. string_bytes text ≡ pointer self.now) }
    {
        let mut text = String::new(alloc);
        self.write_to(&mut text)?;
        Ok(text)
    }

    /// The fault of this kind here, or out of memory if its pointer finds none.
    pub fn fault(&self, alloc: Global, kind: FaultKind) -> ScriptFault
        ensures { result ≢ ScriptFault.Memory → result ≡ ScriptFault.Bad kind (pointer self.now) }
    {
        match self.text(alloc) {
            Ok(text) => ScriptFault::Bad(kind, Pointer::new(text)),
            Err(_) => ScriptFault::Memory,
        }
    }

    /// Asks that the test holds. Fails with a fault of this kind here if it does not.
    pub fn ask(&self, alloc: Global, holds: bool, kind: FaultKind) -> Result<(), ScriptFault>
        ensures { Answers (ask holds kind (pointer self.now)) result }
    {
        if holds {
            Ok(())
        } else {
            Err(self.fault(alloc, kind))
        }
    }

    /// What there is. Fails with a fault of this kind here if there is nothing.
    pub fn need<T: Drop>(
        &self,
        alloc: Global,
        found: Option<T>,
        kind: FaultKind,
    ) -> Result<T, ScriptFault>
        ensures { Answers (need found kind (pointer self.now)) result }
    {
        match found {
            Some(value) => Ok(value),
            None => Err(self.fault(alloc, kind)),
        }
    }
}
