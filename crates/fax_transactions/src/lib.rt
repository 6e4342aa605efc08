//! Transactions of SIP over UDP (RFC 3261, 17), each a machine without a socket and without a clock: what happens and moments go in, and
//! what is to be done comes out. Moments and spans are milliseconds.
//!
//! What is this project's profile: RFC 3261 bounds no transaction in which a provisional answer came, or whose user does not answer. Here each has a
//! limit, which its user tells as it begins, so that each ends by itself. After a 2xx an INVITE's transaction is over (17.1.1.2,
//! 17.2.1), as before RFC 6026: who has the dialog sees to the repeats of a 2xx and of its ACK (13.2.2.4, 13.3.1.4).
#![tactic(auto)]

mod client;
mod client_invite;
mod client_request;
pub mod laws;
mod server;
mod server_invite;
mod server_request;
mod serving;
mod spans;

pub use client::{ClientAction, ClientEvent};
pub use client_invite::ClientInvite;
pub use client_request::ClientRequest;
pub use server::{ServerAction, ServerEvent};
pub use server_invite::ServerInvite;
pub use server_request::ServerRequest;
pub use serving::{Server, Serving};
pub use spans::{T1_MS, T2_MS, T4_MS, TIMEOUT_MS};
