//! Frames and faults in words.
ghost use Rattle.std.specs.Prelude.{◌≡◌, ◌++◌, IfOk, OnOk, slice_index, string_bytes};
ghost use Rattle.fax_jobs.specs.ReportTexts.{resolution_name};
ghost use Rattle.fax_descriptions.specs.Words.{choice_text, coding_name, codings_text, dcs_text, dis_text, field_text, format_text, frame_name, frame_text, kind_name};
ghost use Rattle.fax_descriptions.specs.Words.{modulation_name, modulation_text, numbers_text, offer_text, other_text, rate_text, rates_text, receives_text, recommendation_of, resolutions_text, wholeness_text, widths_text};

use fax_bits::NoMemory;
use fax_frames::{Dcs, Dis, Frame, Rate};
use fax_runcodes::{Format, Width};
use std::alloc::Global;

/// What a frame says (ITU-T T.30, 5.3.6.1), by its octets.
pub fn words_of_frame(alloc: Global, octets: &[u8]) -> Result<String, NoMemory>
    ensures { IfOk result (λ words. string_bytes words ≡ frame_text octets.now) }
{
    match Frame::read(octets) {
        None => Ok(String::from_str(alloc, "octets that are no frame")?),
        Some(Frame::Dis(dis)) => words_of_dis(alloc, &dis),
        Some(Frame::Dcs(dcs)) => words_of_dcs(alloc, &dcs),
        Some(Frame::Other) => words_of_other(alloc, field_of(octets)),
        Some(frame) => Ok(String::from_str(alloc, name_of(frame))?),
    }
}

/// The facsimile control field of a frame.
fn field_of(octets: &[u8]) -> u8
    ensures { result ≡ slice_index octets.now 2 }
{
    if octets.len() > 2 { octets[2] } else { 0 }
}

/// The name of a frame.
fn name_of(frame: Frame) -> &'static str
    ensures { result.now ≡ frame_name frame }
{
    match frame {
        Frame::Dis(_) => "DIS",
        Frame::Csi => "CSI",
        Frame::Nsf => "NSF",
        Frame::Dcs(_) => "DCS",
        Frame::Tsi => "TSI",
        Frame::Cfr => "CFR",
        Frame::Ftt => "FTT",
        Frame::Eom => "EOM",
        Frame::Mps => "MPS",
        Frame::Eop => "EOP",
        Frame::Mcf => "MCF",
        Frame::Rtn => "RTN",
        Frame::Rtp => "RTP",
        Frame::Dcn => "DCN",
        Frame::Crp => "CRP",
        Frame::Other => "another frame",
    }
}

/// What a frame is that this project does not read, by its facsimile control field.
fn words_of_other(alloc: Global, field: u8) -> Result<String, NoMemory>
    ensures { IfOk result (λ words. string_bytes words ≡ other_text field) }
{
    let words = match field {
        0x01 => "DIS that is not read: fewer than three octets",
        0x41 | 0xC1 => "DCS that is not read: error correction, or no rate or width of ours",
        _ => return words_of_field(alloc, field),
    };
    Ok(String::from_str(alloc, words)?)
}

/// What a frame is that is told by its facsimile control field alone.
fn words_of_field(alloc: Global, field: u8) -> Result<String, NoMemory>
    ensures { IfOk result (λ words. string_bytes words ≡ field_text field) }
{
    Ok(format!(in alloc; "a frame that is not read: {field:02x}")?)
}

/// What a DIS offers.
fn words_of_dis(alloc: Global, dis: &Dis) -> Result<String, NoMemory>
    ensures { IfOk result (λ words. string_bytes words ≡ dis_text dis.now.caps.0) }
{
    let mut words = words_of_offer(alloc, dis)?;
    add_rates(alloc, &mut words, dis.rates())?;
    let (standard, fine) = (dis.scan_ms(false), dis.scan_ms(true));
    let times = format!(in alloc; ", {standard} ms a row, fine {fine} ms")?;
    words.push_str(times.as_str())?;
    Ok(words)
}

/// What a DIS offers, but for rates and times.
fn words_of_offer(alloc: Global, dis: &Dis) -> Result<String, NoMemory>
    ensures { IfOk result (λ words. string_bytes words ≡ offer_text dis.now.caps.0) }
{
    let receives = words_of_receiver(dis.is_receiver());
    let widths = words_of_widths(dis.has_width(Width::W2048), dis.has_width(Width::W2432));
    let resolutions = words_of_resolutions(dis.has_fine());
    let codings = words_of_codings(dis.has_two_d());
    Ok(format!(in alloc; "DIS {receives}, {widths}, {resolutions}, {codings}")?)
}

/// Whether a machine receives.
fn words_of_receiver(receives: bool) -> &'static str
    ensures { result.now ≡ receives_text receives }
{
    if receives {
        "receives"
    } else {
        "does not receive"
    }
}

/// The widths of a machine, which has 1728.
fn words_of_widths(has_b4: bool, has_a3: bool) -> &'static str
    ensures { result.now ≡ widths_text has_b4 has_a3 }
{
    if has_a3 {
        "1728 2048 2432"
    } else if has_b4 {
        "1728 2048"
    } else {
        "1728"
    }
}

/// The resolutions of a machine, which has the standard one.
fn words_of_resolutions(has_fine: bool) -> &'static str
    ensures { result.now ≡ resolutions_text has_fine }
{
    if has_fine {
        "standard fine"
    } else {
        "standard"
    }
}

/// The codings of a machine, which has MH.
fn words_of_codings(has_two_d: bool) -> &'static str
    ensures { result.now ≡ codings_text has_two_d }
{
    if has_two_d { "MH MR" } else { "MH" }
}

/// Adds rates, those of a modulation after its name.
fn add_rates(alloc: Global, words: &mut String, rates: &[Rate]) -> Result<(), NoMemory>
    ensures { OnOk result (string_bytes words.new
        ≡ string_bytes words.old ++ rates_text 0 rates.now) }
{
    let mut last = 0;
    for rate in rates {
        add_rate(alloc, words, last, *rate)?;
        last = recommendation_of(*rate);
    }
    Ok(())
}

/// Adds a rate after one of this recommendation.
fn add_rate(alloc: Global, words: &mut String, last: u8, rate: Rate) -> Result<(), NoMemory>
    ensures { OnOk result (string_bytes words.new ≡ string_bytes words.old ++ rate_text last rate) }
{
    let modulation = words_of_modulation(alloc, last, rate)?;
    let bits = rate.bits();
    let more = format!(in alloc; "{modulation} {bits}")?;
    words.push_str(more.as_str())?;
    Ok(())
}

/// The name of a rate's modulation, but after a rate of the same.
fn words_of_modulation(alloc: Global, last: u8, rate: Rate) -> Result<String, NoMemory>
    ensures { IfOk result (λ words. string_bytes words ≡ modulation_text last rate) }
{
    if recommendation_of(rate) == last {
        return Ok(String::new(alloc));
    }
    let name = modulation_of(rate);
    Ok(format!(in alloc; ", {name}")?)
}

/// What a DCS chose.
fn words_of_dcs(alloc: Global, dcs: &Dcs) -> Result<String, NoMemory>
    ensures { IfOk result (λ words. string_bytes words ≡ dcs_text dcs.now) }
{
    let mut words = words_of_choice(alloc, dcs)?;
    let (name, bits, scan) = (modulation_of(dcs.rate), dcs.rate.bits(), dcs.scan_ms);
    let more = format!(in alloc; ", {name} {bits}, {scan} ms a row")?;
    words.push_str(more.as_str())?;
    Ok(words)
}

/// What a DCS chose, but for rate and time.
fn words_of_choice(alloc: Global, dcs: &Dcs) -> Result<String, NoMemory>
    ensures { IfOk result (λ words. string_bytes words ≡ choice_text dcs.now) }
{
    let width = dcs.width.elements();
    let resolution = resolution_of(dcs.fine);
    let coding = coding_of(dcs.two_d);
    Ok(format!(in alloc; "DCS {width}, {resolution}, {coding}")?)
}

/// The name of a resolution.
fn resolution_of(fine: bool) -> &'static str
    ensures { result.now ≡ resolution_name fine }
{
    if fine { "fine" } else { "standard" }
}

/// The name of a coding.
fn coding_of(two_d: bool) -> &'static str
    ensures { result.now ≡ coding_name two_d }
{
    if two_d { "MR" } else { "MH" }
}

/// The modulation of a rate.
fn modulation_of(rate: Rate) -> &'static str
    ensures { result.now ≡ modulation_name rate }
{
    match rate {
        Rate::V27At2400 | Rate::V27At4800 => "V.27ter",
        Rate::V29At7200 | Rate::V29At9600 => "V.29",
        Rate::V17At7200 | Rate::V17At9600 | Rate::V17At12000 | Rate::V17At14400 => "V.17",
    }
}

/// The recommendation of the V series that a rate's modulation has.
fn recommendation_of(rate: Rate) -> u8
    ensures { result ≡ recommendation_of rate }
{
    match rate {
        Rate::V27At2400 | Rate::V27At4800 => 27,
        Rate::V29At7200 | Rate::V29At9600 => 29,
        Rate::V17At7200 | Rate::V17At9600 | Rate::V17At12000 | Rate::V17At14400 => 17,
    }
}

/// A format as a job's line has it: the width, and the resolution.
pub fn words_of_format(alloc: Global, format: Format) -> Result<String, NoMemory>
    ensures { IfOk result (λ words. string_bytes words ≡ format_text format) }
{
    let width = format.width.elements();
    let resolution = resolution_of(format.fine);
    Ok(format!(in alloc; "{width} {resolution}")?)
}

/// The modulation and the rate of a type of data (ITU-T T.38 of 1998, T30_DATA).
pub fn name_of_kind(kind: u8) -> &'static str
    ensures { result.now ≡ kind_name kind }
{
    match kind {
        1 => "V.27ter 2400",
        2 => "V.27ter 4800",
        3 => "V.29 7200",
        4 => "V.29 9600",
        5 => "V.17 7200",
        6 => "V.17 9600",
        7 => "V.17 12000",
        8 => "V.17 14400",
        _ => "no modulation of ours",
    }
}

/// The numbers of datagrams in a row, from the first on; there is one at least.
pub fn words_of_numbers(alloc: Global, first: u16, count: u16) -> Result<String, NoMemory>
    ensures { IfOk result (λ words. string_bytes words ≡ numbers_text first count) }
{
    let last = first.wrapping_add(count.saturating_sub(1));
    if last == first {
        Ok(format!(in alloc; "{first}")?)
    } else {
        Ok(format!(in alloc; "{first}-{last}")?)
    }
}

/// Whether an image is whole, and which datagrams are missing in it if it is not: their numbers, with a space before each.
pub fn words_of_wholeness(alloc: Global, whole: bool, missing: &str) -> Result<String, NoMemory>
    ensures { IfOk result (λ words. string_bytes words ≡ wholeness_text whole missing.now) }
{
    if whole {
        return Ok(String::from_str(alloc, "whole")?);
    }
    if missing.is_empty() {
        return Ok(String::from_str(alloc, "not whole, something else stands in it")?);
    }
    Ok(format!(in alloc; "not whole, missing{missing}")?)
}
