//! What octets are as a frame.
ghost use Rattle.std.specs.Prelude.{◌≡◌};
ghost use Rattle.fax_frames.specs.Capabilities.{rate_of, width_of, time_of};
ghost use Rattle.fax_frames.specs.Frames.{dis_in, dcs_in, dcs_of, frame_by};

use crate::dcs::{Dcs, Length};
use crate::dis::{Caps, Dis};
use crate::field_bits::{bits_of_octets, code_at, has_bit};
use crate::rate::Rate;
use fax_runcodes::Width;

/// A frame, by its facsimile control field (ITU-T T.30, 5.3.6.1).
#[derive(Clone, Copy, PartialEq, Eq)]
pub enum Frame {
    /// Digital identification signal.
    Dis(Dis),
    /// Called subscriber identification.
    Csi,
    /// Non-standard facilities.
    Nsf,
    /// Digital command signal.
    Dcs(Dcs),
    /// Transmitting subscriber identification.
    Tsi,
    /// Confirmation to receive.
    Cfr,
    /// Failure to train.
    Ftt,
    /// End of message.
    Eom,
    /// Multipage signal.
    Mps,
    /// End of procedure.
    Eop,
    /// Message confirmation.
    Mcf,
    /// Retrain negative.
    Rtn,
    /// Retrain positive.
    Rtp,
    /// Disconnect.
    Dcn,
    /// Command repeat.
    Crp,
    /// Any other frame, and a DIS or a DCS that this project does not read: of fewer than three octets; a
    /// DCS whose rate or width has no meaning, or with error correction.
    Other,
}

impl Frame {
    ghost use Rattle.fax_frames.specs.Frames.{frame_of};

    /// The frame that octets are: `FF`, the control `C0` or `C8`, the facsimile control field, and the
    /// information field after it. `None` for fewer than three octets, and for another address or control.
    ///
    /// The first bit of the facsimile control field tells who sends, and is not looked at, but for DIS, CSI
    /// and NSF, whose first bit is 0. Of a DCS its length of a page is not read: it is A4.
    pub fn read(octets: &[u8]) -> Option<Frame>
        ensures { result ≡ frame_of octets.now }
    {
        match octets {
            [0xFF, 0xC0 | 0xC8, field, info @ ..] => Some(frame_by(*field, info)),
            _ => None,
        }
    }
}

// The frame of a facsimile control field and an information field.
fn frame_by(field: u8, info: &[u8]) -> Frame
    ensures { result ≡ frame_by field info.now }
{
    match field {
        0x01 => read_dis(info),
        0x02 => Frame::Csi,
        0x04 => Frame::Nsf,
        _ => match field % 0x80 {
            0x41 => read_dcs(info),
            0x42 => Frame::Tsi,
            0x21 => Frame::Cfr,
            0x22 => Frame::Ftt,
            0x71 => Frame::Eom,
            0x72 => Frame::Mps,
            0x74 => Frame::Eop,
            0x31 => Frame::Mcf,
            0x32 => Frame::Rtn,
            0x33 => Frame::Rtp,
            0x5F => Frame::Dcn,
            0x58 => Frame::Crp,
            _ => Frame::Other,
        },
    }
}

// The DIS that an information field says.
fn read_dis(info: &[u8]) -> Frame
    ensures { result ≡ dis_in info.now }
{
    match info {
        [first, second, third, ..] => {
            let caps = Caps(bits_of_octets(*first, *second, *third));
            Frame::Dis(Dis { caps })
        }
        _ => Frame::Other,
    }
}

// The DCS that an information field says.
fn read_dcs(info: &[u8]) -> Frame
    ensures { result ≡ dcs_in info.now }
{
    match info {
        [_, _, third, fourth, ..] if *third & 0x01 != 0 && *fourth & 0x20 != 0 => Frame::Other,
        [first, second, third, ..] => dcs_of(bits_of_octets(*first, *second, *third)),
        _ => Frame::Other,
    }
}

// The DCS of bits 1 to 24.
fn dcs_of(bits: u32) -> Frame
    ensures { result ≡ dcs_of bits }
{
    let (Some(rate), Some(width)) = (
        rate_of(code_at(bits, 11, 14)),
        width_of(code_at(bits, 17, 18)),
    ) else {
        return Frame::Other;
    };
    Frame::Dcs(Dcs {
        rate,
        fine: has_bit(bits, 15),
        two_d: has_bit(bits, 16),
        width,
        length: Length::A4,
        scan_ms: time_of(code_at(bits, 21, 23)),
    })
}

// The width of a DCS, by bits 17 and 18.
fn width_of(code: u32) -> Option<Width>
    ensures { result ≡ width_of code }
{
    match code {
        0b00 => Some(Width::W1728),
        0b10 => Some(Width::W2048),
        0b01 => Some(Width::W2432),
        _ => None,
    }
}

// The rate of a DCS, by bits 11 to 14.
fn rate_of(code: u32) -> Option<Rate>
    ensures { result ≡ rate_of code }
{
    match code {
        0b0000 => Some(Rate::V27At2400),
        0b0100 => Some(Rate::V27At4800),
        0b1000 => Some(Rate::V29At9600),
        0b1100 => Some(Rate::V29At7200),
        0b0001 => Some(Rate::V17At14400),
        0b0101 => Some(Rate::V17At12000),
        0b1001 => Some(Rate::V17At9600),
        0b1101 => Some(Rate::V17At7200),
        _ => None,
    }
}

// The least time of a line of a DCS, by bits 21 to 23.
fn time_of(code: u32) -> u8
    ensures { result ≡ time_of code }
{
    match code {
        0b000 | 0b110 => 20,
        0b001 | 0b101 => 40,
        0b010 | 0b011 => 10,
        0b100 => 5,
        _ => 0,
    }
}
