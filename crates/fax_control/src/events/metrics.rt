//! Counts in the text format of Prometheus.
ghost use Rattle.std.specs.Prelude.{◌≡◌, ◌++◌, IfOk, OnOk, string_bytes};
ghost use Rattle.fax_control.specs.events.Counts.{call_counts, count_text, damage_counts, job_counts, kind_name, metrics_text, spool_counts, undelivered_counts, wire_counts};

use crate::events::counters::Counters;
use fax_bits::NoMemory;
use std::alloc::{AllocError, Global};

/// Whether a count may fall.
#[derive(Clone, Copy, PartialEq, Eq)]
enum Kind {
    Counter,
    Gauge,
}

impl Kind {
    fn name(self) -> &'static str
        ensures { result.now ≡ kind_name self }
    {
        match self {
            Kind::Counter => "counter",
            Kind::Gauge => "gauge",
        }
    }
}

/// The counts as text (Prometheus' text format, version 0.0.4): the type and the value of each, a line each, and `# EOF`
/// at the end.
pub fn write_metrics(alloc: Global, counters: &Counters) -> Result<String, NoMemory>
    ensures { IfOk result (λ text. string_bytes text ≡ metrics_text counters.now) }
{
    let mut text = String::new(alloc);
    put_call_counts(&mut text, counters)?;
    put_job_counts(&mut text, counters)?;
    put_wire_counts(&mut text, counters)?;
    put_spool_counts(&mut text, counters)?;
    put_damage_counts(&mut text, counters)?;
    put_undelivered_counts(&mut text, counters)?;
    text.push_str("# EOF\n")?;
    Ok(text)
}

/// Writes one count.
fn put(text: &mut String, name: &str, kind: Kind, value: u64) -> Result<(), AllocError>
    ensures { OnOk result (string_bytes text.new
        ≡ string_bytes text.old ++ count_text name.now kind value) }
{
    let kind = kind.name();
    write!(text, "# TYPE {name} {kind}\n{name} {value}\n")
}

/// Writes the counts of lines, calls and pages.
fn put_call_counts(text: &mut String, counters: &Counters) -> Result<(), AllocError>
    ensures { OnOk result (string_bytes text.new
        ≡ string_bytes text.old ++ call_counts counters.now) }
{
    put(text, "faxgate_lines", Kind::Gauge, counters.lines)?;
    put(text, "faxgate_calls_total", Kind::Counter, counters.calls)?;
    put(
        text,
        "faxgate_pages_confirmed_total",
        Kind::Counter,
        counters.pages_confirmed,
    )?;
    put(
        text,
        "faxgate_pages_refused_total",
        Kind::Counter,
        counters.pages_refused,
    )?;
    put(
        text,
        "faxgate_pages_delivered_total",
        Kind::Counter,
        counters.pages_delivered,
    )
}

/// Writes the counts of jobs.
fn put_job_counts(text: &mut String, counters: &Counters) -> Result<(), AllocError>
    ensures { OnOk result (string_bytes text.new
        ≡ string_bytes text.old ++ job_counts counters.now) }
{
    put(
        text,
        "faxgate_jobs_delivered_total",
        Kind::Counter,
        counters.jobs_delivered,
    )?;
    put(
        text,
        "faxgate_jobs_failed_total",
        Kind::Counter,
        counters.jobs_failed,
    )?;
    put(
        text,
        "faxgate_jobs_waiting",
        Kind::Gauge,
        counters.jobs_waiting,
    )?;
    put(
        text,
        "faxgate_events_lost_total",
        Kind::Counter,
        counters.events_lost,
    )
}

/// Writes the counts of datagrams and turns.
fn put_wire_counts(text: &mut String, counters: &Counters) -> Result<(), AllocError>
    ensures { OnOk result (string_bytes text.new
        ≡ string_bytes text.old ++ wire_counts counters.now) }
{
    put(
        text,
        "faxgate_datagrams_received_total",
        Kind::Counter,
        counters.datagrams_received,
    )?;
    put(
        text,
        "faxgate_datagrams_sent_total",
        Kind::Counter,
        counters.datagrams_sent,
    )?;
    put(
        text,
        "faxgate_receive_failures_total",
        Kind::Counter,
        counters.receive_failures,
    )?;
    put(
        text,
        "faxgate_send_failures_total",
        Kind::Counter,
        counters.send_failures,
    )?;
    put(
        text,
        "faxgate_datagrams_refused_total",
        Kind::Counter,
        counters.datagrams_refused,
    )?;
    put(
        text,
        "faxgate_turns_late_total",
        Kind::Counter,
        counters.turns_late,
    )?;
    put(
        text,
        "faxgate_skipped_milliseconds_total",
        Kind::Counter,
        counters.skipped_ms,
    )
}

/// Writes the counts of pages that are stored on a disk.
fn put_spool_counts(text: &mut String, counters: &Counters) -> Result<(), AllocError>
    ensures { OnOk result (string_bytes text.new
        ≡ string_bytes text.old ++ spool_counts counters.now) }
{
    put(text, "faxgate_puts_total", Kind::Counter, counters.puts)?;
    put(
        text,
        "faxgate_put_failures_total",
        Kind::Counter,
        counters.put_failures,
    )?;
    put(
        text,
        "faxgate_put_microseconds_total",
        Kind::Counter,
        counters.put_micros,
    )?;
    put(
        text,
        "faxgate_pages_stored",
        Kind::Gauge,
        counters.pages_stored,
    )
}

/// Writes the counts of what a disk did to them.
fn put_damage_counts(text: &mut String, counters: &Counters) -> Result<(), AllocError>
    ensures { OnOk result (string_bytes text.new
        ≡ string_bytes text.old ++ damage_counts counters.now) }
{
    put(
        text,
        "faxgate_pages_set_aside_total",
        Kind::Counter,
        counters.pages_set_aside,
    )?;
    put(
        text,
        "faxgate_records_damaged_total",
        Kind::Counter,
        counters.records_damaged,
    )?;
    put(
        text,
        "faxgate_octets_passed_over_total",
        Kind::Counter,
        counters.octets_passed_over,
    )?;
    put(
        text,
        "faxgate_spool_failures_total",
        Kind::Counter,
        counters.spool_failures,
    )
}

/// Writes the counts of what could not be delivered.
fn put_undelivered_counts(text: &mut String, counters: &Counters) -> Result<(), AllocError>
    ensures { OnOk result (string_bytes text.new
        ≡ string_bytes text.old ++ undelivered_counts counters.now) }
{
    put(
        text,
        "faxgate_jobs_undelivered_total",
        Kind::Counter,
        counters.jobs_undelivered,
    )?;
    put(
        text,
        "faxgate_jobs_discarded_total",
        Kind::Counter,
        counters.jobs_discarded,
    )?;
    put(
        text,
        "faxgate_pages_undelivered",
        Kind::Gauge,
        counters.pages_undelivered,
    )
}
