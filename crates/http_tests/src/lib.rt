//! Tests of what is told over HTTP, and of pictures of pages, through what their crates show.
#![tactic(auto)]

#[cfg(test)]
mod answers;
#[cfg(test)]
mod pages;
#[cfg(test)]
mod pictures;
#[cfg(test)]
mod requests;
