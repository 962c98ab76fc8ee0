//! A call in a thread of its own, which the thread that makes it watches.

use std::sync::Wait;
use std::thread::{self, Promise, Threads};

/// Calls `run` in a new thread, and meanwhile `watch` in this one. If no thread can be made, calls `run` in this one and
/// never `watch`. `thread::join` would then call `watch` first, and it would wait for ever.
pub(crate) fn run_beside<
    H: Threads + Wait,
    P: Promise<T> + Drop,
    F: FnOnce() -> T + Send,
    W: FnOnce(),
    T: Send + Drop,
>(rt: &H, promise: P, run: F, watch: W) -> T
    requires run { F.pre run }
    requires watch { W.pre watch }
    requires keeps { (r : T) → F.post run r → P.kept_by promise r }
    ensures { P.kept_by promise result }
{
    thread::scope(
        thread::scope_env(),
        rt,
        move |scope| -> T
            requires run { F.pre run }
            requires watch { W.pre watch }
            requires keeps { (r : T) → F.post run r → P.kept_by promise r }
            ensures { P.kept_by promise result }
        {
            match scope.spawn_with(promise, run) {
                Ok(running) => {
                    watch();
                    running.join(rt)
                }
                Err(refused) => (refused.value)(),
            }
        },
    )
}
