ghost use Rattle.std.specs.Prelude.{◌≡◌, IfOk};
ghost use Rattle.atomic_types.specs.Parts.{laid};

use std::alloc::AllocError;
use values::{Content, Counter};

/// What a stable store holds of an object.
#[derive(Debug, Drop)]
pub enum Part {
    /// A value, which stands in the place of what the object held before.
    Value(Content),
    /// How much is added to the counter that the object held before.
    Delta(i64),
}

impl Part {
    /// An equal part. Fails only if memory runs out.
    pub fn copy(&self) -> Result<Part, AllocError>
        ensures { IfOk result (λ copy. copy ≡ self.now) }
    {
        Ok(match self {
            Part::Value(content) => Part::Value(content.copy()?),
            Part::Delta(by) => Part::Delta(*by),
        })
    }

    /// What an object holds under this part that held this content before. A delta changes counters alone. Fails only
    /// if memory runs out.
    #[tactic(auto, using(crate::specs::TypeLaws::wrapped))]
    pub fn laid_on(&self, content: &Content) -> Result<Content, AllocError>
        ensures { IfOk result (λ under. under ≡ laid self.now content.now) }
    {
        match (self, content) {
            (Part::Value(value), _) => value.copy(),
            (Part::Delta(by), Content::Counter(counter)) => {
                Ok(Content::Counter(Counter::new(counter.number().wrapping_add(*by))))
            }
            (Part::Delta(_), other) => other.copy(),
        }
    }
}
