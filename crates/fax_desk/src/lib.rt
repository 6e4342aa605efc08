//! The desk of a server: what a control word comes to, what it is answered, and what is told of lines. It reads and writes nothing,
//! and knows no clock: who drives it hands what it orders to the lines, and what they answered back to it, and writes what is told.
#![tactic(auto)]

mod answer;
mod asking;
mod budgets;
mod card;
mod desk;
mod events;
pub mod laws;
mod next;
mod questions;
mod reload;
mod said;
mod shown;
mod spool;
mod stop;
mod tag;
mod telling;
mod told;
mod turning;
mod view;

pub use answer::next_of;
pub use card::{Card, LineCounts, LineLimits, RefusedJob, ReportTexts, TagsOn};
pub use desk::{Desk, LookOutcome, OrderEnd, Waits};
pub use next::{
    Ask, ConnectNote, HangUpAsk, Next, Note, Order, PeerAsk, RefusedWord, Reply, RingAsk, RungOn,
};
pub use questions::{Cause, HeardTime, Question};
pub use reload::Reload;
pub use spool::{Damage, RunEnd, SpoolFailure, SpoolTold, unserved_reply};
pub use stop::Stop;
pub use tag::{Tag, TaggedCall};
pub use telling::{Listener, tell_at, tell_turn};
pub use told::{LineEvent, LineState, Turn, TurnEvents, ending};
pub use view::{AskedView, FirstJob, LegView, LineView, View};
