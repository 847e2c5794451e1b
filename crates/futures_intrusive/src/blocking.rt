//! Calls that block their thread. Not in futures-intrusive.
//!
//! Where no executor polls futures, a thread can wait by itself: each thread-safe type has `lock_blocking`, `acquire_blocking`,
//! `send_blocking`, `receive_blocking` or `wait_blocking`, over a runtime that is `Blocking`, as the kit's `HostRuntime`. `wait_for`
//! does the same for any future, and `TimerService::wait_at_most` for at most so long.
//!
//! ```
//! use futures_intrusive::channel::shared::channel;
//!
//! let (sender, receiver) = channel::<u64, HostRuntime>(rt.alloc(), rt, 1).expect(&rt, "memory");
//! assert!(rt; sender.send_blocking(7) == Ok(()));
//! assert!(rt; receiver.receive_blocking() == Ok(Some(7)));
//! drop(sender);
//! assert!(rt; receiver.receive_blocking() == Ok(None));            // no sender is left
//! ```

pub use fi_sync::{Blocking, wait_for};
