//! Sends that block: refused for want of memory they give their value back, and leave nothing in the channel.
use super::making::{Making, tries};
use fi_channels::TrySendError;
use tests_help::hoard::Hoard;

/// A channel, or its sender.
pub trait SendsBlocking {
    fn send_blocking(&self, value: u64) -> Result<(), TrySendError<u64>>;

    /// How many values are buffered.
    fn len(&self) -> usize;
}

/// A channel to which a five is sent, and whether it was accepted, alone.
#[derive(Drop)]
struct Sends<C> {
    channel: C,
    is_accepted: bool,
}

impl<C: SendsBlocking> Making for Sends<C> {
    fn is_refused(&mut self) -> bool {
        let sent = self.channel.send_blocking(5);
        let len = self.channel.len();
        self.is_accepted = sent == Ok(()) && len == 1;
        match sent {
            Err(TrySendError::NoMemory(failed)) => failed.0 == 5 && len == 0,
            _ => false,
        }
    }
}

/// Whether a send to this channel is refused at least once, and then accepted.
pub fn is_refused_at_first<C: SendsBlocking + Drop>(hoard: &mut Hoard, channel: C) -> bool {
    let mut sends = Sends {
        channel,
        is_accepted: false,
    };
    tries(hoard, &mut sends).is_right(1) && sends.is_accepted
}
