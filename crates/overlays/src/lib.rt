//! Overlays: what actions changed of an object, and nothing else of it.
//!
//! A version of an object is a content with overlays laid on it one above another. So no version is a copy of the
//! content.
#![tactic(auto)]

mod array;
mod array_items;
mod bounds;
mod content;
mod counter;
mod layered;
mod record;
mod seen;
mod through;
mod variant;

pub use array::ArrayOverlay;
pub use bounds::Bounds;
pub use content::ContentOverlay;
pub use counter::CounterOverlay;
pub use layered::Layered;
pub use record::RecordOverlay;
pub use seen::Seen;
pub use through::{content_of, read_through};
pub use variant::VariantOverlay;
