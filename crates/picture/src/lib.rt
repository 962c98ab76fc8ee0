//! A picture of a run: a lane for each guardian, a bar for each action, and time from left to right.
//!
//! `lay_out` finds what the picture shows, as numbers of events and guardians, and `svg` draws it.
#![tactic(auto)]

mod bar;
mod bars;
mod document;
mod drawing;
mod escape;
mod gaps;
mod heading;
mod layout;
mod losses;
mod marks;
mod rows;
mod shape;
mod sheet;
mod style;
mod window;

pub use bars::{Bars, Begun};
pub use document::svg;
pub use escape::{append_escaped, escaped_text_is_safe};
pub use gaps::{Gap, Gaps};
pub use layout::{Layout, lay_out};
pub use marks::{Arrow, Message, Tick};
pub use window::{MAX_SHOWN, Span, Window};
