//! Pairs of ends, and a receiver that is made into a stream, refused until there is enough memory.
use fi_parts::Fault;
use fi_parts::buffer::FixedHeapBuf;
use futures_intrusive::channel::shared::{
    Receiver, channel, generic_channel, oneshot_broadcast_channel, oneshot_channel,
    state_broadcast_channel, unbuffered_channel,
};
use std::alloc::{AllocGlobal, Global};
use std::sync::Wait;
use std::test::Fail;
use tests_driver::refusals::making::{Making, tries};
use tests_help::hoard::Hoard;

/// Two ends of the kind with this number.
#[derive(Drop)]
struct Ends<R> {
    rt: R,
    alloc: Global,
    kind: u32,
}

impl<R: Wait + Drop + Copy> Making for Ends<R> {
    fn is_refused(&mut self) -> bool {
        let (alloc, rt) = (self.alloc, self.rt);
        match self.kind {
            0 => is_refused(channel::<u64, R>(alloc, rt, 1)),
            1 => is_refused(unbuffered_channel::<u64, R>(alloc, rt)),
            2 => is_refused(oneshot_channel::<u64, R>(alloc, rt)),
            3 => is_refused(oneshot_broadcast_channel::<u64, R>(alloc, rt)),
            4 => is_refused(state_broadcast_channel::<u64, R>(alloc, rt)),
            _ => is_refused(generic_channel::<u64, FixedHeapBuf<u64>, R>(alloc, rt, 40)),
        }
    }
}

// Drops what was made.
fn is_refused<T: Drop>(made: Result<T, Fault>) -> bool {
    made.is_err()
}

#[test]
fn pairs_of_ends(rt: HostRuntime) -> Result<(), Fail> {
    let alloc = rt.alloc();
    let mut hoard = Hoard::new(alloc)?;
    for kind in 0..6u32 {
        let tried = tries(&mut hoard, &mut Ends { rt, alloc, kind });
        assert!(rt; tried.is_right(1), "kind {kind}: {tried:?}");
    }
    Ok(())
}

/// A receiver that is made into a stream. Refused, it comes back.
#[derive(Drop)]
struct Streams<R: Wait + Drop> {
    receiver: Option<Receiver<u64, R>>,
}

impl<R: Wait + Drop> Making for Streams<R> {
    fn is_refused(&mut self) -> bool {
        let Some(receiver) = self.receiver.take() else {
            return false;
        };
        match receiver.into_stream() {
            Ok(_stream) => false,
            Err(failed) => {
                self.receiver = Some(failed.into_parts().0);
                true
            }
        }
    }
}

#[test]
fn a_refused_stream_leaves_its_receiver(rt: HostRuntime) -> Result<(), Fail> {
    let mut hoard = Hoard::new(rt.alloc())?;
    let (sender, receiver) = channel::<u64, HostRuntime>(rt.alloc(), rt, 1)?;
    let mut streams = Streams {
        receiver: Some(receiver),
    };
    let tried = tries(&mut hoard, &mut streams);
    assert!(rt; tried.is_right(1), "{tried:?}");
    // The stream was the only user of the channel, so its drop closed it: no refusal did.
    assert!(rt; streams.receiver.is_none() && sender.try_send(1).is_err());
    Ok(())
}
