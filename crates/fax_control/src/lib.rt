//! What is said to a running gateway, and what it answers: control words, one a line, and the lines of a client; and what it
//! tells by itself: [`events`].
#![tactic(auto)]

mod answer;
pub mod events;
mod hearing;
mod number;
mod options;
mod reading;
mod refusal;
mod spaces;
mod word;

pub use answer::Answer;
pub use fax_gateway::Leg;
pub use hearing::{ClientLines, HeardLine};
pub use reading::read_word;
pub use refusal::Refusal;
pub use word::{Bounds, CallWord, MOST_OCTETS, MOST_TAG_OCTETS, PeerWord, RingWord, Word};
