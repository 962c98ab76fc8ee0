//! Where the stamp of an event comes from.
ghost use Rattle.std.specs.Prelude.{ℕ};

/// Draws the stamp of an event: the number that says how many events the world has kept, with this one.
///
/// A layer is lent a drawer with each event that it keeps. It draws once, after the last call that can fail. So a
/// call that answers an error has drawn nothing, and leaves the drawer as it was. The layer does not know where the
/// number comes from. It may lie in the drawer, or be counted by all threads.
///
/// A call that answers a stamp says by `draws` what the drawer was, which stamp it drew, and what it is now. So its
/// caller sees what the draw told: a drawer may hold more than a number, for instance the events that its caller has
/// seen so far.
pub trait Draw {
    /// The drawer may be called. Who lends it to a layer shows this. After a draw it need not hold any more.
    ghost may_draw: { Self → Type 0 };

    /// A drawer that was the first has drawn this stamp, and is the second now.
    ghost draws: { Self → ℕ → Self → Type 0 };

    /// Draws the stamp. This cannot fail, and takes no memory.
    fn draw(&mut self) -> u64
        requires { may_draw self.old }
        ensures { draws self.old result self.new };
}
