//! What is counted, as text.
use crate::service::SipService;
use crate::trunk::{CallCounts, SipTrunk};
use fax_user_agent::Count;
use std::alloc::AllocError;

/// How a trunk's registration is told.
fn registration_name(trunk: &SipTrunk) -> &'static str {
    match (trunk.registers, trunk.is_registered) {
        (false, _) => "none",
        (true, true) => "registered",
        (true, false) => "unregistered",
    }
}

/// Writes how a trunk is.
fn put_state(text: &mut String, trunk: &SipTrunk) -> Result<(), AllocError> {
    let name = trunk.name.as_str();
    let state = registration_name(trunk);
    let calls_in = trunk.calls_in.begun;
    let calls_out = trunk.calls_out.begun;
    write!(text, "trunk {name} {state} in {calls_in} out {calls_out}\n")
}

/// Writes a text between quotation marks, as a value of a label (Prometheus' text format, version 0.0.4).
fn put_label(text: &mut String, value: &str) -> Result<(), AllocError> {
    for sign in value.chars() {
        if sign == '"' || sign == '\\' {
            text.push_str("\\")?;
        }
        text.push(sign)?;
    }
    Ok(())
}

/// Writes what is counted of the calls of one direction.
fn put_calls(
    text: &mut String,
    trunk: &str,
    direction: &str,
    counts: CallCounts,
) -> Result<(), AllocError> {
    put_outcome(text, trunk, direction, "begun", counts.begun)?;
    put_outcome(text, trunk, direction, "answered", counts.answered)?;
    put_outcome(text, trunk, direction, "refused", counts.refused)
}

/// Writes how many calls came so far.
fn put_outcome(
    text: &mut String,
    trunk: &str,
    direction: &str,
    state: &str,
    count: u64,
) -> Result<(), AllocError> {
    text.push_str("faxgate_sip_calls_total{trunk=\"")?;
    put_label(text, trunk)?;
    write!(
        text,
        "\",direction=\"{direction}\",state=\"{state}\"}} {count}\n"
    )
}

/// Writes whether a trunk that is to be registered with is.
fn put_registration(text: &mut String, trunk: &SipTrunk) -> Result<(), AllocError> {
    if !trunk.registers {
        return Ok(());
    }
    let is_registered = u8::from(trunk.is_registered);
    text.push_str("faxgate_sip_registered{trunk=\"")?;
    put_label(text, trunk.name.as_str())?;
    write!(text, "\"}} {is_registered}\n")
}

/// Writes how many answers with a status there were.
fn put_answers(text: &mut String, count: &Count) -> Result<(), AllocError> {
    let status = count.status;
    let sent = count.sent;
    let came = count.came;
    write!(
        text,
        "faxgate_sip_answers_total{{status=\"{status}\",way=\"sent\"}} {sent}\n"
    )?;
    write!(
        text,
        "faxgate_sip_answers_total{{status=\"{status}\",way=\"came\"}} {came}\n"
    )
}

impl SipService {
    /// Adds a line for each trunk, to the answer of `status`.
    pub fn put_status(&self, text: &mut String) -> Result<(), AllocError> {
        for trunk in self.trunks.as_slice() {
            put_state(text, trunk)?;
        }
        Ok(())
    }

    /// Adds what is counted of SIP, to the answer of `metrics`.
    pub fn put_counts(&self, text: &mut String) -> Result<(), AllocError> {
        text.push_str("# TYPE faxgate_sip_calls_total counter\n")?;
        for trunk in self.trunks.as_slice() {
            put_calls(text, trunk.name.as_str(), "in", trunk.calls_in)?;
            put_calls(text, trunk.name.as_str(), "out", trunk.calls_out)?;
        }
        text.push_str("# TYPE faxgate_sip_registered gauge\n")?;
        for trunk in self.trunks.as_slice() {
            put_registration(text, trunk)?;
        }
        text.push_str("# TYPE faxgate_sip_answers_total counter\n")?;
        for count in self.counts() {
            put_answers(text, count)?;
        }
        let strangers = self.dropped.strangers;
        let malformed = self.dropped.malformed;
        let lost = self.dropped.lost;
        write!(
            text,
            "# TYPE faxgate_sip_dropped_total counter\nfaxgate_sip_dropped_total{{why=\"stranger\"}} {strangers}\n"
        )?;
        write!(
            text,
            "faxgate_sip_dropped_total{{why=\"malformed\"}} {malformed}\n"
        )?;
        write!(text, "faxgate_sip_dropped_total{{why=\"memory\"}} {lost}\n")
    }
}
