//! Channels whose senders and receivers are owned and counted, so that their futures borrow nothing. Keeps futures-intrusive's
//! `channel::shared`.
//!
//! A channel closes when the last of its senders or of its receivers is dropped; so a worker that receives until it gets None ends
//! by itself once all who send are gone. Choose these where ends are moved to tasks or threads that outlive the maker, and the
//! channels of `channel` where all users can borrow one value.
//!
//! ```
//! use futures_intrusive::channel::TrySendError;
//! use futures_intrusive::channel::shared::channel;
//!
//! let (sender, receiver) = channel::<u64, HostRuntime>(rt.alloc(), rt, 1).expect(&rt, "memory");
//! let other = receiver.clone().expect(&rt, "memory");
//! drop(receiver);                                                  // one receiver is left
//! assert!(rt; sender.try_send(1).is_ok() && other.try_receive() == Ok(1));
//! drop(other);                                                     // the last one: the channel closes
//! assert!(rt; sender.try_send(2) == Err(TrySendError::Closed(2)));
//! ```

pub use crate::blocking_iter::BlockingIter;
pub use crate::channel_ends::{
    ChannelReceiveFuture, ChannelSendFuture, GenericReceiver, GenericSender, Receiver, Sender,
    SharedChannelState, UnbufferedReceiver, UnbufferedSender, channel, generic_channel,
    unbuffered_channel,
};
pub use crate::closed::ChannelClosedFuture;
pub use crate::counted_ends::{
    ClosesByEnds, CountedEnds, ManyReceivers, ManySenders, ReceivesClosed, SendsClosed,
};
pub use crate::ends::{
    CloneSide, End, EndNames, Receivers, Senders, SharedChannel, SharedFutureOf, Side,
};
pub use crate::one_value_ends::{
    OneValueReceiver, OneValueSender, OneshotBroadcastReceiver, OneshotBroadcastSender,
    OneshotReceiver, OneshotSender, oneshot_broadcast_channel, oneshot_channel,
};
pub use crate::shared_stream::SharedStream;
pub use crate::state_ends::{
    StateReceiveFuture, StateReceiver, StateSender, state_broadcast_channel,
};
pub use crate::state_reader::StateReader;
pub use crate::state_stream::StateStream;
