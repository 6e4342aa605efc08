//! Where calls may come from and go to: numbers, the routes that they take, the addresses that may call, how many
//! calls there may be, and registrations with trunks.
//!
//! Nothing here reads a clock or a socket: addresses and moments go in. Moments and spans are milliseconds.
#![tactic(auto)]

mod calls;
mod choice;
mod host;
pub mod laws;
mod network;
mod network_fault;
mod number;
mod number_fault;
mod pauses;
mod registration;
mod registration_event;
mod route;
mod slow_host;
mod slow_hosts;
mod stage;
mod standing;
mod text;

pub use calls::Calls;
pub use choice::choose;
pub use host::{Family, Host};
pub use network::{Network, allows};
pub use network_fault::NetworkFault;
pub use number::{MOST_OCTETS, Number};
pub use number_fault::NumberFault;
pub use pauses::{
    ANSWER_MS, ENDING_MS, FEWEST_SECONDS, FIRST_PAUSE_MS, LEAST_PAUSE_MS, LONGEST_PAUSE_MS,
    MARGIN_MS,
};
pub use registration::Registration;
pub use registration_event::{RegistrationAction, RegistrationEvent};
pub use route::Route;
pub use slow_host::{FIRST_SLOW_MS, LONGEST_SLOW_MS, SlowHost};
pub use slow_hosts::{MOST_SLOW_HOSTS, SlowHosts};
pub use stage::Stage;
pub use standing::Standing;
