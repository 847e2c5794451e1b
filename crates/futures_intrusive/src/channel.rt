//! Channels. Keeps futures-intrusive's `channel`.
//!
//! Take a `Channel` (as many places as its type says), a `GenericChannel` (as many as it is made with) or an `UnbufferedChannel` where
//! each value goes to one receive, in the order sent; a `OneshotChannel` for one value that goes to one receive, a
//! `OneshotBroadcastChannel` for one that goes to all, and a `StateBroadcastChannel` where only the newest of many matters. All are
//! shared by reference; `shared` has the same channels with ends that are owned and counted.
//!
//! ```
//! use futures_intrusive::channel::{Channel, TryReceiveError};
//!
//! let channel = Channel::<u64, 2, HostRuntime>::new(rt.alloc(), rt);
//! assert!(rt; channel.try_send(1).is_ok() && channel.try_send(2).is_ok());
//! assert!(rt; channel.try_send(3).is_err());                       // full: `send(3)` would wait
//! channel.close();
//! assert!(rt; channel.try_receive() == Ok(1) && channel.try_receive() == Ok(2));
//! assert!(rt; channel.try_receive() == Err(TryReceiveError::Closed));
//! ```

pub mod shared;

pub use fi_channels::{
    ChannelReceiveAccess, ChannelSendAccess, ChannelState, ClonesValue, GivesValue, LocalChannel,
    LocalChannelStream, LocalOneshotBroadcastChannel, LocalOneshotChannel, LocalReceiveFuture,
    LocalSendFuture, LocalStateBroadcastChannel, LocalStateReceiveFuture, LocalUnbufferedChannel,
    OneValueState, OneshotBroadcastState, OneshotState, Received, SendFault, Sent,
    StateBroadcastState, TakesValue, TryReceiveError, TrySendError,
};
pub use fi_parts::{ChannelSendError, CloseStatus, StateId};
pub use fi_sync::{
    Channel, ChannelReceiveFuture, ChannelSendFuture, ChannelStream, GenericChannel,
    OneValueChannel, OneshotBroadcastChannel, OneshotChannel, PollWaker, StateBroadcastChannel,
    StateReceiveFuture, UnbufferedChannel,
};
