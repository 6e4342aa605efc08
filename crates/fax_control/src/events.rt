//! What a running gateway tells: events as lines of JSON, the lines that wait for a reader, and its counts.

mod counters;
mod event;
mod metrics;
mod queue;
mod writing;

pub use counters::Counters;
pub use event::{
    AskedJob, Direction, Ending, Event, PageAside, PageConfirmed, UndeliveredJob, What, WhyAside,
};
pub use metrics::write_metrics;
pub use queue::{Due, EventQueue, MOST_WAITING};
pub use writing::write_event;
