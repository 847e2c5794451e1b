//! Four clients share two connections, which wait in a channel while nobody uses them.

use crate::runtime::Runtime;
use futures_intrusive::channel::Channel;
use std::{io, thread};

/// A connection to a server, and how often it was used.
#[derive(Drop)]
struct Connection {
    uses: u64,
}

/// The connections that nobody uses.
type Pool<R> = Channel<Connection, 2, R>;

/// One request: takes a connection, waits for one if need be, and gives it back.
fn request<R: Runtime>(pool: &Pool<R>) {
    if let Ok(Some(mut connection)) = pool.receive_blocking() {
        connection.uses = connection.uses.wrapping_add(1);
        let _ = pool.try_send(connection);
    }
}

/// Four clients, with 25 requests each.
fn serve_clients<R: Runtime>(rt: &R, pool: &Pool<R>) {
    thread::scope(thread::scope_env(), rt, |scope| {
        for _ in 0..4 {
            let _ = scope.spawn(move || {
                for _ in 0..25 {
                    request(pool);
                }
            });
        }
    });
}

/// Serves all requests, and prints how often the connections were used.
pub fn share<R: Runtime>(rt: R) -> io::Result<()> {
    let pool = Pool::new(rt.alloc(), rt);
    for _ in 0..2 {
        let _ = pool.try_send(Connection { uses: 0 });
    }
    serve_clients(&rt, &pool);
    pool.close();
    let mut uses = 0u64;
    for _ in 0..2 {
        if let Some(connection) = pool.receive_blocking()? {
            uses = uses.wrapping_add(connection.uses);
        }
    }
    println!(rt; "connection pool: two connections were used {uses} times")
}
