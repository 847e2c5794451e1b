//! The event and the timer.

use super::Waited;
use crate::blocking::Shown;
use fi_sync::{AutoResetEvent, Blocking, ManualResetEvent, TimerService};
use std::time::Duration;

impl<R: Blocking> Waited for &ManualResetEvent<R> {
    type Means = ();

    fn hold(&self) -> Option<()> {
        Some(())
    }

    fn blocks(&self) -> bool {
        self.wait_blocking() == Ok(())
    }

    fn bring(&self, _means: ()) {
        self.set();
    }
}

impl<R: Blocking> Waited for &AutoResetEvent<R> {
    type Means = ();

    fn hold(&self) -> Option<()> {
        Some(())
    }

    fn blocks(&self) -> bool {
        self.wait_blocking() == Ok(())
    }

    fn bring(&self, _means: ()) {
        self.set();
    }
}

/// An event that is waited for for a minute at most, by a timer whose time stands still.
#[derive(Clone, Copy)]
pub(crate) struct Limited<'a, 'b, R> {
    pub(crate) timer: &'a TimerService<Shown<'b>, R>,
    pub(crate) event: &'a ManualResetEvent<R>,
}

impl<R: Blocking> Waited for Limited<'_, '_, R> {
    type Means = ();

    fn hold(&self) -> Option<()> {
        Some(())
    }

    fn blocks(&self) -> bool {
        match self.event.wait() {
            Ok(mut wait) => {
                self.timer.wait_at_most(Duration::from_secs(60), &mut wait) == Ok(Some(Ok(())))
            }
            Err(_) => false,
        }
    }

    fn bring(&self, _means: ()) {
        self.event.set();
    }
}
