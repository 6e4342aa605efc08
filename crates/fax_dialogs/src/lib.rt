//! Dialogs and sessions of SIP over UDP (RFC 3261, 12, 13, 14 and 15), each without a socket and without a clock: what happens and moments go
//! in, and what is to be done comes out. Moments and spans are milliseconds.
#![tactic(auto)]

mod agreement;
mod asking;
mod dialog;
mod dialog_fault;
mod ends;
pub mod laws;
mod reading;
mod refresher;
mod role;
mod session;
mod session_action;
mod session_event;
mod session_timer;
mod spans;
mod text;
mod within;

pub use agreement::{Agent, Agreement, MIN_SE, agree_on, longer_interval};
pub use dialog::Dialog;
pub use dialog_fault::DialogFault;
pub use reading::MOST_ROUTES;
pub use refresher::Refresher;
pub use role::Role;
pub use session::{Next, Session, glare_pause};
pub use session_action::SessionAction;
pub use session_event::SessionEvent;
pub use session_timer::{SessionTimer, TimerAction, TimerEvent};
pub use text::MOST_TEXT;
pub use within::Within;
