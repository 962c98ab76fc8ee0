//! Steps over a forest and guardians that know their own histories alone, and the flat history of a world of them.
//!
//! A step names one guardian or two, and is lent these and the forest: what it is answered, and what it leaves of
//! them, is proved of whatever keeps to `layer_contracts`. An operation needs its guardian alone. `step` makes one in
//! a world, and answers what the definitions say of the flat history.
#![tactic(auto)]

mod alone;
mod answering;
mod here;
mod keeping;
mod lent;
mod messages;
mod names;
mod stepping;

pub use alone::Alone;
pub use answering::{answer_alone, answer_two};
pub use here::{Here, answer_here};
pub use keeping::{keep_one, keep_two};
pub use lent::Lent;
pub use messages::Messages;
pub use names::{NamedGuardians, named, takes_registry};
pub use stepping::step;
