//! What a gateway counts.

/// What a gateway has counted since it began, over all of its lines.
#[derive(Clone, Copy, PartialEq, Eq, Default)]
pub struct Counters {
    /// Lines of the configuration.
    pub lines: u64,
    /// Calls that were rung.
    pub calls: u64,
    /// Pages that were confirmed.
    pub pages_confirmed: u64,
    /// Pages that were refused (RTN).
    pub pages_refused: u64,
    /// Pages that called machines confirmed.
    pub pages_delivered: u64,
    /// Jobs that were delivered whole.
    pub jobs_delivered: u64,
    /// Jobs that ended otherwise.
    pub jobs_failed: u64,
    /// Jobs that wait or are under way now.
    pub jobs_waiting: u64,
    /// Datagrams that came.
    pub datagrams_received: u64,
    /// Datagrams that were handed to the system, repeats with them.
    pub datagrams_sent: u64,
    /// Receives that failed.
    pub receive_failures: u64,
    /// Sends that failed.
    pub send_failures: u64,
    /// Datagrams that were refused for want of memory, of which each line has only so much.
    pub datagrams_refused: u64,
    /// Turns that came more than 100 ms late.
    pub turns_late: u64,
    /// Moments by which lines were set on, where turns came more than 1 s late, in milliseconds.
    pub skipped_ms: u64,
    /// Puts into the spool: one for all pages of a slot's turn.
    pub puts: u64,
    /// Pages that could not be stored.
    pub put_failures: u64,
    /// How long all puts took, in microseconds.
    pub put_micros: u64,
    /// Pages that wait on the disk now.
    pub pages_stored: u64,
    /// Pages of earlier lives that mean none, records that are damaged, and octets that were passed over since nothing could be read
    /// there, as the start found them.
    pub pages_set_aside: u64,
    pub records_damaged: u64,
    pub octets_passed_over: u64,
    /// How often the spool's disk has failed, in this run and in those before it.
    pub spool_failures: u64,
    /// Jobs that could not be delivered and whose pages were kept: once for each time that one ended so.
    pub jobs_undelivered: u64,
    /// Jobs that could not be delivered and whose pages a word dropped.
    pub jobs_discarded: u64,
    /// Pages that could not be delivered and are kept now.
    pub pages_undelivered: u64,
    /// Lines of events that readers lost.
    pub events_lost: u64,
}
