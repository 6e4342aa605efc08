//! A gateway: it answers a fax call on one leg, confirms its pages, and sends them on in a call of its own on the other leg.
//!
//! Moments are milliseconds. What comes and what is answered is told in `specs/Events`, the two legs in `CallingLegs` and
//! `CalledLegs`, both over one book and the order within a tick in `BothLegs`, and the answers in `Traces`; what the octets of
//! an answer say, in `TickReport`; what a gateway keeps of a trace, in `Reached`; what is told of ticks and turns, in `Turns`.
#![tactic(auto)]

mod answerer_endpoint;
mod buffer;
mod caller_endpoint;
mod driven;
mod driver;
mod endpoint;
mod engine;
mod fault;
mod gateway;
mod given;
pub mod laws;
mod leg;
mod restored;
mod run;
mod settings;
mod turn_report;
mod wire;

pub use answerer_endpoint::AnswererEndpoint;
pub use buffer::Buffer;
pub use caller_endpoint::CallerEndpoint;
pub use driven::Driven;
pub use driver::Driver;
pub use endpoint::Endpoint;
pub use engine::Engine;
pub use fault::{PlaceFault, RingFault};
pub use gateway::Gateway;
pub use given::{Given, Kept, RefusedPage};
pub use leg::Leg;
pub use restored::RestoredCall;
pub use run::drive;
pub use settings::{LEAST_PREAMBLE_MS, MOST_PREAMBLE_MS, MOST_REDUNDANCY, Settings};
pub use turn_report::TurnReport;
pub use wire::{Wire, WireFault};
