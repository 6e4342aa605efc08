//! HTTP, as an operator's browser and a monitor look at a server (RFC 9110, RFC 9112): requests, read from octets as they come, answers,
//! written as octets, and what they tell: one page, how the server is, and its counts. One request a connection. Nothing of these
//! reads, writes, opens or waits; what does so is [`visitors`].
#![tactic(auto)]

mod answer;
mod cells;
mod connection;
mod health;
mod laws;
mod metrics;
mod page;
mod paths;
mod question;
mod reading;
mod text;
mod undelivered;
mod view;
pub mod visitors;

pub use answer::{Answer, Content, Status, refusal, write_answer};
pub use connection::Connection;
pub use health::{Health, write_health};
pub use laws::text_is_only_text;
pub use metrics::write_open_metrics;
pub use page::write_page;
pub use paths::picture_path;
pub use question::{Question, Refusal, Resource, Wanted};
pub use reading::{MOST_HEAD, read_path, read_question};
pub use view::{CallView, CalledView, CountView, JobView, LineView, PageView, UndeliveredView};
