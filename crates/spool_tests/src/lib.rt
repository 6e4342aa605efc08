//! Processes that put pages into a spool, for `tools/crash`; and spools that are opened again.
#![tactic(auto)]

#[cfg(test)]
mod copied;
#[cfg(test)]
mod crashes;
#[cfg(test)]
mod job;
#[cfg(test)]
mod left_pages;
#[cfg(test)]
mod noted;
#[cfg(test)]
mod read_back;
#[cfg(test)]
mod reopened;
#[cfg(test)]
mod steps;
#[cfg(test)]
mod together;
#[cfg(test)]
mod undelivered;
