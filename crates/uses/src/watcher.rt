//! Two parts of a program follow its configuration: each sees the newest settings, and none that were overtaken.

use crate::runtime::Runtime;
use futures_intrusive::Fault;
use futures_intrusive::channel::shared::{StateReceiver, StateSender, state_broadcast_channel};
use std::{io, thread};

/// The settings of a server.
#[derive(Clone, Copy, Drop)]
struct Settings {
    port: u16,
    connections: u32,
}

/// Follows the settings until nobody will change them any more, and answers the last ones.
fn follow<R: Runtime>(
    rt: &R,
    settings: StateReceiver<Settings, R>,
) -> Result<Option<Settings>, Fault> {
    let (mut reader, mut newest) = (settings.into_reader(), None);
    for _ in rt.forever() {
        let Some(settings) = reader.next_blocking()? else {
            break;
        };
        newest = Some(settings);
    }
    Ok(newest)
}

/// Changes the settings ten times, and lets go of them.
fn change<R: Runtime>(settings: StateSender<Settings, R>) {
    for connections in 1..11 {
        let _ = settings.send(Settings {
            port: 8080,
            connections,
        });
    }
}

/// Two who follow the settings, and one who changes them.
pub fn watch<R: Runtime>(rt: R) -> io::Result<()> {
    let (sender, server) = state_broadcast_channel(rt.alloc(), rt)?;
    let log = server.clone()?;
    let follows = || thread::join(&rt, move || follow(&rt, server), move || follow(&rt, log));
    let ((server, log), ()) = thread::join(&rt, follows, move || change(sender));
    if let (Some(server), Some(log)) = (server?, log?) {
        println!(rt;
            "watcher: the server has port {} and {} connections",
            server.port, server.connections
        )?;
        println!(rt;
            "watcher: the log has port {} and {} connections",
            log.port, log.connections
        )?;
    }
    Ok(())
}
