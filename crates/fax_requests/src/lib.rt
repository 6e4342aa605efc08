//! What the messages of a user agent are made of: addresses, branches and tags, bodies, credentials, and the requests outside of dialogs.
#![tactic(auto)]

mod body;
mod challenge;
mod hanging;
mod hop;
mod interval;
mod reason;
mod seconds;
mod target;
mod token;

pub use body::{OurMedia, answer_theirs, describe_ours};
pub use challenge::{Challenge, read_challenge, write_credentials};
pub use hanging::{write_ack, write_cancel};
pub use hop::answer_address;
pub use interval::{Interval, IntervalText, least_told};
pub use reason::reason_of;
pub use seconds::{read_refresher, read_seconds};
pub use target::{address_of, next_hop};
pub use token::{Branch, Token, branch_of, token_of};
