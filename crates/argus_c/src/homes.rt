//! The homes of top actions, as far as they were seen.

use std::alloc::{AllocError, Global};
use std::collections::BTreeMap;

/// Homes of top actions by their numbers. Mostly a caller ends a top action before it begins the next. So the last one
/// lies beside the map, and takes no memory.
#[derive(Drop)]
pub(crate) struct Homes {
    last: Option<(u32, u32)>,
    others: BTreeMap<u32, u32>,
}

impl Homes {
    pub(crate) fn new(alloc: Global) -> Homes {
        Homes {
            last: None,
            others: BTreeMap::new(alloc),
        }
    }

    pub(crate) fn get(&self, top: u32) -> Option<u32> {
        match self.last {
            Some((last, home)) if last == top => Some(home),
            _ => self.others.get(&top).copied(),
        }
    }

    pub(crate) fn put(&mut self, top: u32, home: u32) -> Result<(), AllocError> {
        if let Some((before, its_home)) = self.last {
            drop(self.others.insert(before, its_home)?);
        }
        self.last = Some((top, home));
        Ok(())
    }

    pub(crate) fn remove(&mut self, top: u32) {
        match self.last {
            Some((last, _)) if last == top => self.last = None,
            _ => {
                self.others.remove(&top);
            }
        }
    }
}
