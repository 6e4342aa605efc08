//! A server of many lines in real time, over UDP: what `faxgate serve` runs. It opens what a configuration names, and serves that.
#![tactic(auto)]

mod ending;
mod noticing;
mod promise;
mod redials;
mod run;
mod secrets;
mod sip;
mod supervisor;
mod unserved;

pub use fax_desk::RunEnd;
pub use fax_opening::{NamedFault, ServeFault};
pub use promise::{FolderStore, ServedStore};
pub use run::run_serve;
pub use supervisor::Supervisor;
pub use unserved::answer_unserved;
