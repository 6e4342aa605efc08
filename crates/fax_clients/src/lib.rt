//! Who says control words to a server, and reads its answers and its events: the clients of a control socket, or standard
//! input and output. Nothing here waits but for a readiness of any of them, for a while that is told; a client that reads
//! slowly loses events, in whole lines, and is heard no further until it has read its answer.
#![tactic(auto)]

mod client;
mod clients;
mod inbox;
mod journal;
mod outbox;
mod ready;
mod stream;

pub use clients::{Asker, Clients, MOST_CLIENTS};
