//! The configuration of a gateway: what a TOML text tells, read whole before anything is opened.
#![tactic(auto)]

mod config;
mod fault;
mod keys;
mod member;
mod reading;
mod redial;
mod retry;
mod routes;
mod sip;
mod sip_fault;
mod sip_member;
mod sip_reading;
mod trunks;
mod unlike;

pub use config::{Config, LegConfig, LineConfig, RedialConfig, Repeat, RetryConfig};
pub use fault::{ConfigFault, Flaw, LineName, Misfit, Trouble};
pub use reading::read_config;
pub use sip::{CallWith, RouteConfig, SipConfig, TrunkConfig};
pub use sip_fault::SipMisfit;
