ghost use Rattle.std.specs.Prelude.{◌≡◌};
ghost use Rattle.overlays.specs.ArrayOverlays.{is_within, end_removed, room_above, room_below, AreLimited};

use atomic_types::Op;
use values::{GREATEST_INDEX, LEAST_INDEX, MAX_ITEMS};

/// The indices of an array: the least, and how many there are.
#[derive(Clone, Copy, Debug, PartialEq, Eq)]
pub struct Bounds {
    pub low: i64,
    pub size: usize,
}

impl Bounds {
    /// Whether the index is one of them.
    pub fn contains(self, index: i64) -> bool
        ensures { result ≡ is_within self index }
    {
        self.low <= index && (index.abs_diff(self.low) as usize) < self.size
    }

    /// The index at which the operation removes an item, if it removes one where there is one.
    pub fn end_removed_by(self, op: &Op) -> Option<i64>
        requires { AreLimited self }
        ensures { result ≡ end_removed self op.now }
    {
        match op {
            Op::RemoveHigh => Some(self.low + self.size as i64 - 1),
            Op::RemoveLow => Some(self.low),
            _ => None,
        }
    }

    /// Whether an item more fits above the last.
    pub fn has_room_above(self) -> bool
        requires { AreLimited self }
        ensures { result ≡ room_above self }
    {
        self.size < MAX_ITEMS && self.low + self.size as i64 - 1 < GREATEST_INDEX
    }

    /// Whether an item more fits below the first.
    pub fn has_room_below(self) -> bool
        ensures { result ≡ room_below self }
    {
        self.size < MAX_ITEMS && LEAST_INDEX < self.low
    }
}
