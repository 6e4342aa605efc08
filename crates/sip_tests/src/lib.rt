//! Tests of SIP messages, of transactions, of dialogs and sessions, of digests, of session descriptions, of the switch and of the user agent, through what their crates show.
#![tactic(auto)]

#[cfg(test)]
mod agent;
#[cfg(test)]
mod dialogs;
#[cfg(test)]
mod digests;
#[cfg(test)]
mod messages;
#[cfg(test)]
mod sdp;
#[cfg(test)]
mod serving;
#[cfg(test)]
mod switch;
#[cfg(test)]
mod transactions;
#[cfg(test)]
mod trunks;
