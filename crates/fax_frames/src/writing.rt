//! The octets of written frames.
ghost use Rattle.std.specs.Prelude.{◌≡◌, ◌≤◌, length};
ghost use Rattle.fax_frames.specs.Capabilities.{rate_code, width_code, length_code, time_code, IsScanTime};
ghost use Rattle.fax_frames.specs.Written.{field_of, written_plain, written_dis, written_dcs};

use crate::dcs::{Dcs, Length};
use crate::dis::Dis;
use crate::rate::Rate;
use arrayvec::ArrayVec;
use fax_runcodes::Width;

/// The octets of a frame: at most 256.
pub type FrameBytes = ArrayVec<u8, 256>;

/// The frames with no information field that are written (ITU-T T.30, 5.3.6.1).
#[derive(Clone, Copy, PartialEq, Eq)]
pub enum Plain {
    /// Confirmation to receive.
    Cfr,
    /// Failure to train.
    Ftt,
    /// End of message: a page of another format follows.
    Eom,
    /// Multipage signal.
    Mps,
    /// End of procedure.
    Eop,
    /// Message confirmation.
    Mcf,
    /// Retrain negative.
    Rtn,
    /// Disconnect.
    Dcn,
}

/// The octets of a frame with no information field. Only a DCN depends on whether its sender got a DIS:
/// where it did, the first bit of the facsimile control field is 1.
pub fn write_plain(plain: Plain, got_dis: bool) -> FrameBytes
    ensures { result.items ≡ written_plain plain got_dis }
{
    frame_of_octets(&[0xFF, 0xC8, field_of(plain, got_dis)])
}

/// The octets of a DIS: bits 1 to 24 alone.
pub fn write_dis(dis: &Dis) -> FrameBytes
    ensures { result.items ≡ written_dis dis.now }
{
    let [_, first, second, third] = dis.caps.0.to_be_bytes();
    frame_of_octets(&[0xFF, 0xC8, 0x01, first, second, third])
}

/// The octets of a DCS, as the caller writes it. Its least time of a line is 0, 5, 10, 20 or 40
/// milliseconds.
pub fn write_dcs(dcs: &Dcs) -> FrameBytes
    requires { IsScanTime dcs.now.scan_ms }
    ensures { result.items ≡ written_dcs dcs.now }
{
    let second = 0x40
        + (rate_code(dcs.rate) << 2)
        + (u8::from(dcs.fine) << 1)
        + u8::from(dcs.two_d);
    let third = (width_code(dcs.width) << 6)
        + (length_code(dcs.length) << 4)
        + (time_code(dcs.scan_ms) << 1);
    frame_of_octets(&[0xFF, 0xC8, 0xC1, 0x00, second, third])
}

// A frame of these octets.
fn frame_of_octets(octets: &[u8]) -> FrameBytes
    requires { length octets.now ≤ 256 }
    ensures { result.items ≡ octets.now }
{
    let mut frame = FrameBytes::new();
    // At most 256 octets have room.
    let _ = frame.try_extend_from_slice(octets);
    frame
}

// The facsimile control field.
fn field_of(plain: Plain, got_dis: bool) -> u8
    ensures { result ≡ field_of plain got_dis }
{
    match plain {
        Plain::Cfr => 0x21,
        Plain::Ftt => 0x22,
        Plain::Eom => 0xF1,
        Plain::Mps => 0xF2,
        Plain::Eop => 0xF4,
        Plain::Mcf => 0x31,
        Plain::Rtn => 0x32,
        Plain::Dcn if got_dis => 0xDF,
        Plain::Dcn => 0x5F,
    }
}

// Bits 11 to 14 of a DCS.
fn rate_code(rate: Rate) -> u8
    ensures { result ≡ rate_code rate }
{
    match rate {
        Rate::V27At2400 => 0b0000,
        Rate::V27At4800 => 0b0100,
        Rate::V29At9600 => 0b1000,
        Rate::V29At7200 => 0b1100,
        Rate::V17At14400 => 0b0001,
        Rate::V17At12000 => 0b0101,
        Rate::V17At9600 => 0b1001,
        Rate::V17At7200 => 0b1101,
    }
}

// Bits 17 and 18 of a DCS.
fn width_code(width: Width) -> u8
    ensures { result ≡ width_code width }
{
    match width {
        Width::W1728 => 0b00,
        Width::W2048 => 0b10,
        Width::W2432 => 0b01,
    }
}

// Bits 19 and 20 of a DCS.
fn length_code(length: Length) -> u8
    ensures { result ≡ length_code length }
{
    match length {
        Length::A4 => 0b00,
        Length::A4AndB4 => 0b10,
        Length::Unlimited => 0b01,
    }
}

// Bits 21 to 23 of a DCS.
fn time_code(ms: u8) -> u8
    requires { IsScanTime ms }
    ensures { result ≡ time_code ms }
{
    match ms {
        20 => 0b000,
        40 => 0b001,
        10 => 0b010,
        5 => 0b100,
        _ => 0b111,
    }
}
