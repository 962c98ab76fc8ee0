//! Which events of a run a picture shows.
ghost use Rattle.std.specs.Prelude.{◌≡◌, ◌<◌, ◌≤◌, ◌+◌};
ghost use Rattle.picture.specs.Windows.{is_shown, max_shown, span_of};
ghost use Rattle.std.specs.Prelude.{None};

/// How many events a picture shows at most.
pub const MAX_SHOWN: u64 = 2000;

/// Which events are asked for, by their numbers. Events are numbered from 1.
#[derive(Clone, Copy, Debug, PartialEq, Eq)]
pub struct Window {
    pub from: Option<u64>,
    pub to: Option<u64>,
}

/// Which events are shown, from the first to the last. If the last comes before the first, none is.
#[derive(Clone, Copy, Debug, PartialEq, Eq)]
pub struct Span {
    pub first: u64,
    pub last: u64,
}

impl Span {
    /// Which of so many events are shown: at most `MAX_SHOWN`, from the first event asked for, or
    /// else the newest.
    pub fn of(window: Window, count: u64) -> Span
        ensures span { result ≡ span_of window count }
        ensures few { result.last < result.first + max_shown }
        ensures numbered { 1 ≤ result.first }
        ensures within { result.last ≤ count }
        ensures newest { window.from ≡ None → window.to ≡ None → result.last ≡ count }
        ensures whole { window.from ≡ None → count ≤ max_shown → result.first ≡ 1 }
    {
        let end = match window.to {
            Some(to) => to.min(count),
            None => count,
        };
        match window.from {
            Some(from) => {
                let first = from.max(1);
                let last = end.min(first.saturating_add(MAX_SHOWN - 1));
                Span { first, last }
            }
            None => Span {
                first: end.saturating_sub(MAX_SHOWN) + 1,
                last: end,
            },
        }
    }

    /// Whether the event of this number is shown.
    pub fn shows(self, number: u64) -> bool
        ensures { result ≡ is_shown self number }
    {
        self.first <= number && number <= self.last
    }

    /// How many events are shown.
    pub(crate) fn len(self) -> u64 {
        self.last.saturating_add(1).saturating_sub(self.first)
    }
}
