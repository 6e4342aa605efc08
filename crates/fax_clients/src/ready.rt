//! Which descriptors are ready.
use libc::net::{POLLIN, POLLOUT, poll};
use libc::types::pollfd;
use std::alloc::{AllocError, Global};
use std::os::fd::RawFd;

/// The most descriptors that are waited for: a listener's, and two of each client.
const MOST: usize = 129;

/// What is waited for, and whether it came: descriptors in the order in which they were added.
pub(crate) struct Ready {
    asked: Vec<pollfd>,
}

impl Drop for Ready {
    fn drop(self) {
        let Ready { asked: _asked } = self;
    }
}

impl Ready {
    /// Nothing is waited for.
    pub(crate) fn new(alloc: Global) -> Result<Self, AllocError> {
        Ok(Ready {
            asked: Vec::with_capacity(alloc, MOST)?,
        })
    }

    /// Nothing is waited for any more.
    pub(crate) fn clear(&mut self) {
        self.asked.clear();
    }

    /// Octets that come are waited for, where there is a descriptor.
    pub(crate) fn add_input(&mut self, descriptor: Option<RawFd>) {
        self.add(descriptor, POLLIN);
    }

    /// Room for octets that go is waited for, where there is a descriptor; else the end of the stream over which some may go,
    /// where there is one: that nobody takes octets there any more.
    pub(crate) fn add_output(&mut self, descriptor: Option<RawFd>, end: Option<RawFd>) {
        match descriptor {
            Some(_) => self.add(descriptor, POLLOUT),
            // the system tells the end of a stream whatever is asked
            None => self.add(end, 0),
        }
    }

    fn add(&mut self, descriptor: Option<RawFd>, events: i16) {
        let _ = self.asked.push(pollfd {
            fd: descriptor.unwrap_or(-1),
            events,
            revents: 0,
        });
    }

    /// Waits until one of them is ready, at most so many milliseconds.
    pub(crate) fn wait(&mut self, most_ms: i32) {
        if poll(self.asked.as_mut_slice(), most_ms) <= 0 {
            self.asked.clear();
        }
    }

    /// Whether what was added as number i, from 0 on, is ready.
    pub(crate) fn is_ready(&self, i: usize) -> bool {
        match self.asked.get(i) {
            Some(asked) => asked.revents != 0,
            None => false,
        }
    }
}

/// Whether a descriptor takes octets now.
pub(crate) fn is_writable(descriptor: RawFd) -> bool {
    let mut asked = [pollfd {
        fd: descriptor,
        events: POLLOUT,
        revents: 0,
    }];
    poll(&mut asked, 0) > 0
}
