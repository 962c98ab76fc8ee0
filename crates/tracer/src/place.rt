//! Places in the serial order.
ghost use Rattle.std.specs.Prelude.{◌≡◌};

/// The closing step of an action, as a place counts it: one that has not come is greater than all.
#[derive(Clone, Copy, Debug, PartialEq, Eq, PartialOrd, Ord)]
pub enum ClosingStep {
    /// The number of its event, from 1.
    Came(u64),
    NotCome,
}

/// The place of an operation: the closing steps of its action's ancestors, outermost first, and then the number of
/// its own step. Places compare number by number.
#[derive(Debug, PartialEq, Eq, PartialOrd, Ord, Drop)]
pub struct Place {
    steps: Vec<ClosingStep>,
}

impl Place {
    pub(crate) fn new(steps: Vec<ClosingStep>) -> Place
        ensures { result.steps ≡ steps }
    {
        Place { steps }
    }

    /// The closing steps, and at the end the operation's own.
    pub fn steps(&self) -> &[ClosingStep]
        ensures { result.now ≡ self.now.steps.items }
    {
        self.steps.as_slice()
    }
}
