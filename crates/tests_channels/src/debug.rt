//! The texts of `Debug`, which are those of the Rust crate, and of `Display`.
use fi_channels::{
    ClonesValue, EventState, LocalChannel, LocalOneshotBroadcastChannel, LocalOneshotChannel,
    LocalStateBroadcastChannel, SendFault, TakesValue, TryReceiveError, TrySendError,
};
use fi_parts::{ChannelSendError, Fault, FuturesOf, LocalFuture};
use std::alloc::Global;
use std::io::{self, ErrorKind};
use tests_help::refusals::{no_memory as no_memory_fault, no_room};
use tests_help::texts::{reads, shows};

#[test]
fn an_event_shows_its_name(rt: HostRuntime) {
    let event: EventState<u64> = EventState::new(rt.alloc(), false);
    assert!(rt; shows(rt.alloc(), &event, "ManualResetEvent"));
}

#[test]
fn a_oneshot_shows_its_name(rt: HostRuntime) {
    let channel: LocalOneshotChannel<u32, u64> = LocalOneshotChannel::new(rt.alloc());
    assert!(rt; shows(rt.alloc(), &channel, "GenericOneshotChannel"));
}

#[test]
fn a_oneshot_broadcast_shows_its_name(rt: HostRuntime) {
    let channel: LocalOneshotBroadcastChannel<u32, u64> = LocalOneshotBroadcastChannel::new(
        rt.alloc(),
    );
    assert!(rt; shows(rt.alloc(), &channel, "GenericOneshotBroadcastChannel"));
}

#[test]
fn a_state_broadcast_shows_its_name(rt: HostRuntime) {
    let channel: LocalStateBroadcastChannel<u32, u64> = LocalStateBroadcastChannel::new(rt.alloc());
    assert!(rt; shows(rt.alloc(), &channel, "GenericStateBroadcastChannel"));
}

#[test]
fn a_channel_shows_its_name(rt: HostRuntime) {
    let channel: LocalChannel<u32, 2, u64> = LocalChannel::new(rt.alloc());
    assert!(rt; shows(rt.alloc(), &channel, "Channel"));
}

#[test]
fn ways_of_giving_show_their_names(rt: HostRuntime) {
    assert!(rt;
        shows(rt.alloc(), &TakesValue, "TakesValue")
            && shows(rt.alloc(), &ClonesValue, "ClonesValue")
    );
}

// Whether this is the future's text. It leaves.
fn shows_future<S, K: FuturesOf<S>>(
    alloc: Global,
    future: LocalFuture<K>,
    state: &mut S,
    wanted: &str,
) -> bool
where
    K::Left: Drop,
{
    let is_shown = shows(alloc, &future, wanted);
    let _ = future.leave(state);
    is_shown
}

#[test]
fn a_wait_shows_its_name(rt: HostRuntime) {
    let mut event: EventState<u64> = EventState::new(rt.alloc(), false);
    let wait = event.wait().expect(&rt, "room");
    assert!(rt; shows_future(rt.alloc(), wait, &mut event, "GenericWaitForEventFuture"));
}

#[test]
fn a_receive_shows_its_name(rt: HostRuntime) {
    let mut channel: LocalOneshotChannel<u32, u64> = LocalOneshotChannel::new(rt.alloc());
    let receive = channel.receive().expect(&rt, "room");
    assert!(rt; shows_future(rt.alloc(), receive, &mut channel, "ChannelReceiveFuture"));
}

#[test]
fn a_send_shows_its_name(rt: HostRuntime) {
    let mut channel: LocalChannel<u32, 2, u64> = LocalChannel::new(rt.alloc());
    let send = channel.send(5).expect(&rt, "room");
    assert!(rt; shows_future(rt.alloc(), send, &mut channel, "ChannelSendFuture"));
}

#[test]
fn a_stream_shows_its_name(rt: HostRuntime) {
    let mut channel: LocalChannel<u32, 2, u64> = LocalChannel::new(rt.alloc());
    let stream = channel.stream().expect(&rt, "room");
    assert!(rt; shows_future(rt.alloc(), stream, &mut channel, "ChannelStream"));
}

#[test]
fn refusals_say_what_is_wrong(rt: HostRuntime) {
    assert!(rt;
        reads(rt.alloc(), &SendFault::Closed(3), "the channel is closed")
            && reads(
                rt.alloc(),
                &SendFault::<u8>::Fault(Fault::Full),
                "the channel is full"
            )
            && reads(rt.alloc(), &TrySendError::Full(3), "the channel is full")
            && reads(
                rt.alloc(),
                &TrySendError::Closed(3),
                "the channel is closed"
            )
            && reads(rt.alloc(), &TryReceiveError::Empty, "the channel is empty")
            && reads(
                rt.alloc(),
                &TryReceiveError::Closed,
                "the channel is closed and empty"
            )
    );
}

// A refusal of memory, as a send meets it.
fn no_memory(alloc: Global) -> Option<TrySendError<u8>> {
    Some(TrySendError::NoMemory(no_room(alloc, 3)?))
}

#[test]
fn want_of_memory_says_so(rt: HostRuntime) {
    let refused = no_memory(rt.alloc()).expect(&rt, "refused");
    assert!(rt; reads(rt.alloc(), &refused, "out of memory"));
}

// Answers the refusal as an `io::Error`, by `?`.
fn sends(refused: TrySendError<u8>) -> io::Result<()> {
    Err(refused)?;
    Ok(())
}

#[test]
fn refusals_become_io_errors(rt: HostRuntime) {
    let kind = |refused| sends(refused).err().map(|error| error.kind());
    let refused = no_memory(rt.alloc()).expect(&rt, "refused");
    assert!(rt;
        kind(TrySendError::Full(3)) == Some(ErrorKind::WouldBlock)
            && kind(TrySendError::Closed(3)) == Some(ErrorKind::BrokenPipe)
            && kind(refused) == Some(ErrorKind::OutOfMemory)
    );
    let closed = io::Error::from(SendFault::Closed(3));
    let fault = no_memory_fault(rt.alloc()).expect(&rt, "refused");
    let no_memory = io::Error::from(SendFault::<u8>::Fault(fault));
    assert!(rt;
        closed.kind() == ErrorKind::BrokenPipe
            && no_memory.kind() == ErrorKind::OutOfMemory
            && io::Error::from(ChannelSendError(3)).kind() == ErrorKind::BrokenPipe
            && io::Error::from(TryReceiveError::Empty).kind() == ErrorKind::WouldBlock
            && io::Error::from(TryReceiveError::Closed).kind() == ErrorKind::BrokenPipe
    );
}

// Answers the refusal as a `Fault`, by `?`.
fn fault_of(refused: TrySendError<u8>) -> Result<(), Fault> {
    Err(refused)?;
    Ok(())
}

#[test]
fn refusals_become_faults(rt: HostRuntime) {
    assert!(rt;
        fault_of(TrySendError::Full(3)) == Err(Fault::Full)
            && Fault::from(SendFault::Closed(3)) == Fault::Closed
            && Fault::from(ChannelSendError(3)) == Fault::Closed
            && Fault::from(TryReceiveError::Empty) == Fault::Empty
    );
}
