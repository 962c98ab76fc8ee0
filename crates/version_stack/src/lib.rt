//! The versions of one atomic object, and what actions add to a counter of which they own no version.
//!
//! Contracts see a stack of contents. Only one content is kept, and overlays above it, each of them an owner's or the
//! base's. So a version is handed on without memory.
#![tactic(auto)]

mod deltas;
mod layers;
mod rows;
mod versions;
mod view;

pub use deltas::Deltas;
pub use versions::Versions;
pub use view::View;
