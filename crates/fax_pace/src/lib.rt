//! What gives the orders to the lines of a server: it reads the clock, and hears clients and SIP, whose words come in at the desk
//! (`RealPace`).
//!
//! What stands beside the desk is a part for itself each (`rounds`, `waking`, `telling`, `visiting`, `retries`), and the lines, SIP, redial
//! lines and what keeps calls are seen by what they offer alone (`SeenLines`, `SipSide`, `RedialSide`, `UndeliveredCalls`): so a proof of one part
//! reads nothing of another.
#![tactic(auto)]

mod answers;
mod aside;
mod calls_on;
mod failures;
mod ladders;
mod pace;
mod redial_side;
mod refusals;
mod retries;
mod rounds;
mod schedule;
mod seen;
mod sip_side;
mod storing;
mod telling;
mod undelivered;
mod undelivered_calls;
mod view;
mod visiting;
mod visits;
mod waking;
mod watch;

pub use pace::RealPace;
pub use redial_side::RedialSide;
pub use seen::SeenLines;
pub use sip_side::{SipNews, SipSide};
pub use view::Seen;
pub use watch::Watch;
