//! Deliveries of bytes by both broadcasts, whose clone takes memory, and sends into an array without room.
use fi_channels::{ChannelState, OneshotBroadcastState, StateBroadcastState};
use fi_parts::buffer::ArrayBuf;
use fi_parts::{Slot, StateId};
use fi_run::{Answer, ChannelCall, OneshotCall, Primitive, StateCall};
use std::alloc::Global;
use std::test::Fail;
use tests_driver::refusals::scene::{Scene, tries_of};
use tests_help::hoard::Hoard;
use tests_help::refusals::no_memory;

const A: Slot = Slot(0);

fn bytes(alloc: Global) -> Option<Vec<u8>> {
    Vec::from_slice(alloc, b"seven and seventy bytes").ok()
}

/// A poll that delivers a broadcast's bytes, by a waker that was named or not, or a call that receives them at once.
#[derive(Drop)]
struct Delivers {
    at_once: bool,
}

impl Scene for Delivers {
    type P = OneshotBroadcastState<Vec<u8>, u64>;

    fn before(&self, alloc: Global) -> Option<OneshotBroadcastState<Vec<u8>, u64>> {
        let mut channel = OneshotBroadcastState::new(alloc);
        channel.apply(OneshotCall::Receive);
        channel.apply(OneshotCall::Receive);
        channel.apply(OneshotCall::Poll(Slot(1), 6));
        channel.apply(OneshotCall::Poll(A, 7));
        channel.apply(OneshotCall::Send(bytes(alloc)?));
        Some(channel)
    }

    fn call(&self, _alloc: Global) -> Option<OneshotCall<Vec<u8>, u64>> {
        Some(if self.at_once {
            OneshotCall::TryReceive
        } else {
            OneshotCall::Poll(A, 8)
        })
    }

    fn refusal(&self, alloc: Global) -> Option<Answer<Vec<u8>, u64>> {
        Some(Answer::Refused(no_memory(alloc)?))
    }

    fn after(&self, alloc: Global) -> Option<Vec<OneshotCall<Vec<u8>, u64>>> {
        let mut calls = Vec::new(alloc);
        calls.push(OneshotCall::Poll(A, 9)).ok()?;
        calls.push(OneshotCall::Poll(Slot(1), 9)).ok()?;
        calls.push(OneshotCall::TryReceive).ok()?;
        calls.push(OneshotCall::Cancel(A)).ok()?;
        Some(calls)
    }
}

/// A poll that delivers a state's bytes, or a call that receives them at once.
#[derive(Drop)]
struct DeliversState {
    at_once: bool,
}

impl Scene for DeliversState {
    type P = StateBroadcastState<Vec<u8>, u64>;

    fn before(&self, alloc: Global) -> Option<StateBroadcastState<Vec<u8>, u64>> {
        let mut channel = StateBroadcastState::new(alloc);
        channel.apply(StateCall::Receive(StateId::new()));
        channel.apply(StateCall::Poll(A, 7));
        channel.apply(StateCall::Send(bytes(alloc)?));
        Some(channel)
    }

    fn call(&self, _alloc: Global) -> Option<StateCall<Vec<u8>, u64>> {
        Some(if self.at_once {
            StateCall::TryReceive(StateId::new())
        } else {
            StateCall::Poll(A, 8)
        })
    }

    fn refusal(&self, alloc: Global) -> Option<Answer<Vec<u8>, u64>> {
        Some(Answer::Refused(no_memory(alloc)?))
    }

    fn after(&self, alloc: Global) -> Option<Vec<StateCall<Vec<u8>, u64>>> {
        let mut calls = Vec::new(alloc);
        calls.push(StateCall::Poll(A, 9)).ok()?;
        calls.push(StateCall::TryReceive(StateId::new())).ok()?;
        calls.push(StateCall::Send(bytes(alloc)?)).ok()?;
        calls.push(StateCall::Poll(A, 9)).ok()?;
        Some(calls)
    }
}

/// A send into an array made by `new`, at once or by a poll.
#[derive(Drop)]
struct FillsArray {
    at_once: bool,
}

impl Scene for FillsArray {
    type P = ChannelState<u64, ArrayBuf<u64, 3>, u64>;

    fn before(&self, alloc: Global) -> Option<ChannelState<u64, ArrayBuf<u64, 3>, u64>> {
        let mut channel = ChannelState::new(alloc);
        channel.apply(ChannelCall::Receive);
        channel.apply(ChannelCall::PollReceive(A, 1));
        channel.apply(ChannelCall::Send(5));
        Some(channel)
    }

    fn call(&self, _alloc: Global) -> Option<ChannelCall<u64, u64>> {
        Some(if self.at_once {
            ChannelCall::TrySend(6)
        } else {
            ChannelCall::PollSend(A, 8)
        })
    }

    fn refusal(&self, alloc: Global) -> Option<Answer<u64, u64>> {
        Some(if self.at_once {
            Answer::Back(6, no_memory(alloc)?)
        } else {
            Answer::Refused(no_memory(alloc)?)
        })
    }

    fn after(&self, alloc: Global) -> Option<Vec<ChannelCall<u64, u64>>> {
        let mut calls = Vec::new(alloc);
        calls.push(ChannelCall::PollReceive(A, 2)).ok()?;
        calls.push(ChannelCall::CancelSend(A)).ok()?;
        calls.push(ChannelCall::TryReceive).ok()?;
        Some(calls)
    }
}

#[test]
fn deliveries(rt: HostRuntime) -> Result<(), Fail> {
    let alloc = rt.alloc();
    let mut hoard = Hoard::new(alloc)?;
    let mut tried = tries_of(alloc, &mut hoard, &Delivers { at_once: false });
    tried = tried.and(tries_of(alloc, &mut hoard, &Delivers { at_once: true }));
    tried = tried.and(tries_of(alloc, &mut hoard, &DeliversState { at_once: false }));
    tried = tried.and(tries_of(alloc, &mut hoard, &DeliversState { at_once: true }));
    assert!(rt; tried.is_right(1), "{tried:?}");
    Ok(())
}

#[test]
fn first_sends_into_an_array(rt: HostRuntime) -> Result<(), Fail> {
    let alloc = rt.alloc();
    let mut hoard = Hoard::new(alloc)?;
    let polled = tries_of(alloc, &mut hoard, &FillsArray { at_once: false });
    let at_once = tries_of(alloc, &mut hoard, &FillsArray { at_once: true });
    let tried = polled.and(at_once);
    assert!(rt; tried.is_right(1), "{tried:?}");
    Ok(())
}
