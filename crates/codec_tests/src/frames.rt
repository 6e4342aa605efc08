//! Frames by hand, with the tables of ITU-T T.30 and T.38.
use fax_frames::{
    Caps, Dcs, Dis, Frame, FrameBytes, Length, OUR_DIS, Plain, Rate, Refusal, choose, write_dcs,
    write_dis, write_plain,
};
use fax_runcodes::{Coding, Format, Width};

/// Standard pages of the usual width.
const STANDARD: Format = Format {
    width: Width::W1728,
    fine: false,
};

/// Fine pages of the usual width.
const FINE: Format = Format {
    width: Width::W1728,
    fine: true,
};

/// Standard pages of 2048 elements.
const WIDER: Format = Format {
    width: Width::W2048,
    fine: false,
};

/// Standard pages of 2432 elements.
const WIDEST: Format = Format {
    width: Width::W2432,
    fine: false,
};

/// Fine pages of 2048 elements.
const WIDER_FINE: Format = Format {
    width: Width::W2048,
    fine: true,
};

/// Fine pages of 2432 elements.
const WIDEST_FINE: Format = Format {
    width: Width::W2432,
    fine: true,
};

/// What a DCS of three zero octets says.
const LEAST_DCS: Dcs = Dcs {
    rate: Rate::V27At2400,
    fine: false,
    two_d: false,
    width: Width::W1728,
    length: Length::A4,
    scan_ms: 20,
};

/// What a DIS of three zero octets says.
const NO_DIS: Dis = Dis { caps: Caps(0) };

/// The facsimile control fields and their frames, with three zero octets of information.
const FIELDS: &[(u8, Frame)] = &[
    (0x01, Frame::Dis(NO_DIS)),
    (0x02, Frame::Csi),
    (0x04, Frame::Nsf),
    (0x41, Frame::Dcs(LEAST_DCS)),
    (0xC1, Frame::Dcs(LEAST_DCS)),
    (0x42, Frame::Tsi),
    (0xC2, Frame::Tsi),
    (0x21, Frame::Cfr),
    (0xA1, Frame::Cfr),
    (0x22, Frame::Ftt),
    (0xA2, Frame::Ftt),
    (0x71, Frame::Eom),
    (0xF1, Frame::Eom),
    (0x72, Frame::Mps),
    (0xF2, Frame::Mps),
    (0x74, Frame::Eop),
    (0xF4, Frame::Eop),
    (0x31, Frame::Mcf),
    (0xB1, Frame::Mcf),
    (0x32, Frame::Rtn),
    (0xB2, Frame::Rtn),
    (0x33, Frame::Rtp),
    (0xB3, Frame::Rtp),
    (0x5F, Frame::Dcn),
    (0xDF, Frame::Dcn),
    (0x58, Frame::Crp),
    (0xD8, Frame::Crp),
];

/// The second and the third octet of a DCS, and its rate and time. Each code of bits 11 to 14, and each of bits 21 to 23.
const DCS: &[(u8, u8, Option<(Rate, u8)>)] = &[
    (0b0000_0000, 0, Some((Rate::V27At2400, 20))),
    (0b0000_0100, 0, Some((Rate::V17At14400, 20))),
    (0b0000_1000, 0, None),
    (0b0000_1100, 0, None),
    (0b0001_0000, 0, Some((Rate::V27At4800, 20))),
    (0b0001_0100, 0, Some((Rate::V17At12000, 20))),
    (0b0001_1000, 0, None),
    (0b0001_1100, 0, None),
    (0b0010_0000, 0, Some((Rate::V29At9600, 20))),
    (0b0010_0100, 0, Some((Rate::V17At9600, 20))),
    (0b0010_1000, 0, None),
    (0b0010_1100, 0, None),
    (0b0011_0000, 0, Some((Rate::V29At7200, 20))),
    (0b0011_0100, 0, Some((Rate::V17At7200, 20))),
    (0b0011_1000, 0, None),
    (0b0011_1100, 0, None),
    (0, 0b0010, Some((Rate::V27At2400, 40))),
    (0, 0b0100, Some((Rate::V27At2400, 10))),
    (0, 0b0110, Some((Rate::V27At2400, 10))),
    (0, 0b1000, Some((Rate::V27At2400, 5))),
    (0, 0b1010, Some((Rate::V27At2400, 40))),
    (0, 0b1100, Some((Rate::V27At2400, 20))),
    (0, 0b1110, Some((Rate::V27At2400, 0))),
];

/// Each rate, its bits a second, the indicators of its short and its long training, its data type.
const RATES: &[(Rate, u16, u8, u8, u8)] = &[
    (Rate::V27At2400, 2400, 4, 4, 1),
    (Rate::V27At4800, 4800, 5, 5, 2),
    (Rate::V29At7200, 7200, 6, 6, 3),
    (Rate::V29At9600, 9600, 7, 7, 4),
    (Rate::V17At7200, 7200, 8, 9, 5),
    (Rate::V17At9600, 9600, 10, 11, 6),
    (Rate::V17At12000, 12_000, 12, 13, 7),
    (Rate::V17At14400, 14_400, 14, 15, 8),
];

/// A DCS of three zero octets but for one thing.
const FINE_DCS: Dcs = Dcs {
    fine: true,
    ..LEAST_DCS
};

const TWO_D_DCS: Dcs = Dcs {
    two_d: true,
    ..LEAST_DCS
};

const WIDER_DCS: Dcs = Dcs {
    width: Width::W2048,
    ..LEAST_DCS
};

const WIDEST_DCS: Dcs = Dcs {
    width: Width::W2432,
    ..LEAST_DCS
};

/// What a DIS says that has a further octet after it.
const LONG_DIS: Dis = Dis {
    caps: Caps(0x00_77_5F),
};

/// Octets, and the frame that they are.
const READINGS: &[(&[u8], Option<Frame>)] = &[
    // no octets
    (b"", None),
    // an address
    (b"\xFF", None),
    // no control field
    (b"\xFF\xC8", None),
    // another address
    (b"\xFE\xC8\x31", None),
    // control C4
    (b"\xFF\xC4\x31", None),
    // control C9
    (b"\xFF\xC9\x31", None),
    // control C0
    (b"\xFF\xC0\x31", Some(Frame::Mcf)),
    // a DIS of no octets
    (b"\xFF\xC8\x01", Some(Frame::Other)),
    // a DIS of one
    (b"\xFF\xC8\x01\x00", Some(Frame::Other)),
    // a DIS of two
    (b"\xFF\xC8\x01\x00\x40", Some(Frame::Other)),
    // a DCS of no octets
    (b"\xFF\xC8\x41", Some(Frame::Other)),
    // a DCS of one
    (b"\xFF\xC8\x41\x00", Some(Frame::Other)),
    // a DCS of two
    (b"\xFF\xC8\x41\x00\x40", Some(Frame::Other)),
    // a sender's DCS of no octets
    (b"\xFF\xC8\xC1", Some(Frame::Other)),
    // a sender's DCS of one
    (b"\xFF\xC8\xC1\x00", Some(Frame::Other)),
    // a sender's DCS of two
    (b"\xFF\xC8\xC1\x00\x40", Some(Frame::Other)),
    // a long DIS
    (
        b"\xFF\xC8\x01\x00\x77\x5F\xFF\xFF",
        Some(Frame::Dis(LONG_DIS)),
    ),
    // error correction
    (b"\xFF\xC8\xC1\x00\x40\x01\x20", Some(Frame::Other)),
    // error correction and more
    (b"\xFF\xC8\xC1\x00\x40\x01\xFF", Some(Frame::Other)),
    // all but error correction
    (b"\xFF\xC8\xC1\x00\x40\x01\xDF", Some(Frame::Dcs(LEAST_DCS))),
    // after no extend bit
    (b"\xFF\xC8\xC1\x00\x40\x00\x20", Some(Frame::Dcs(LEAST_DCS))),
    // nothing after the extend bit
    (b"\xFF\xC8\xC1\x00\x40\x01", Some(Frame::Dcs(LEAST_DCS))),
    // bits that are not read: none
    (b"\xFF\xC8\xC1\x00\x00\x00", Some(Frame::Dcs(LEAST_DCS))),
    // bits 1 to 8
    (b"\xFF\xC8\xC1\xFF\x00\x00", Some(Frame::Dcs(LEAST_DCS))),
    // bit 10
    (b"\xFF\xC8\xC1\x00\x40\x00", Some(Frame::Dcs(LEAST_DCS))),
    // bits 9 and 10
    (b"\xFF\xC8\xC1\x00\xC0\x00", Some(Frame::Dcs(LEAST_DCS))),
    // bit 20
    (b"\xFF\xC8\xC1\x00\x40\x10", Some(Frame::Dcs(LEAST_DCS))),
    // bit 19
    (b"\xFF\xC8\xC1\x00\x40\x20", Some(Frame::Dcs(LEAST_DCS))),
    // bits 19 and 20
    (b"\xFF\xC8\xC1\x00\x40\x30", Some(Frame::Dcs(LEAST_DCS))),
    // bit 15
    (b"\xFF\xC8\xC1\x00\x02\x00", Some(Frame::Dcs(FINE_DCS))),
    // bit 16
    (b"\xFF\xC8\xC1\x00\x01\x00", Some(Frame::Dcs(TWO_D_DCS))),
    // bit 17
    (b"\xFF\xC8\xC1\x00\x00\x80", Some(Frame::Dcs(WIDER_DCS))),
    // bit 18
    (b"\xFF\xC8\xC1\x00\x00\x40", Some(Frame::Dcs(WIDEST_DCS))),
    // bits 17 and 18
    (b"\xFF\xC8\xC1\x00\x00\xC0", Some(Frame::Other)),
];

/// What a DCS is written as, its time for a row, the least bits of one and its coding; or why there is none.
type Choice = Result<(&'static [u8], u8, u32, Coding), Refusal>;

/// A DIS, a format, a step of the rates, and the DCS that is chosen.
const CHOICES: &[(u32, Format, u8, Choice)] = &[
    (
        0x00_77_5E,
        WIDEST_FINE,
        0,
        Ok((b"\xFF\xC8\xC1\x00\x47\x5E", 0, 0, Coding::Mr)),
    ),
    (
        0x00_77_5E,
        STANDARD,
        0,
        Ok((b"\xFF\xC8\xC1\x00\x45\x1E", 0, 0, Coding::Mr)),
    ),
    (
        0x00_77_5E,
        STANDARD,
        1,
        Ok((b"\xFF\xC8\xC1\x00\x55\x1E", 0, 0, Coding::Mr)),
    ),
    (
        0x00_77_5E,
        STANDARD,
        2,
        Ok((b"\xFF\xC8\xC1\x00\x65\x1E", 0, 0, Coding::Mr)),
    ),
    (
        0x00_77_5E,
        STANDARD,
        3,
        Ok((b"\xFF\xC8\xC1\x00\x75\x1E", 0, 0, Coding::Mr)),
    ),
    (
        0x00_77_5E,
        STANDARD,
        4,
        Ok((b"\xFF\xC8\xC1\x00\x51\x1E", 0, 0, Coding::Mr)),
    ),
    (
        0x00_77_5E,
        STANDARD,
        5,
        Ok((b"\xFF\xC8\xC1\x00\x41\x1E", 0, 0, Coding::Mr)),
    ),
    (
        0x00_42_06,
        STANDARD,
        0,
        Ok((b"\xFF\xC8\xC1\x00\x40\x04", 10, 24, Coding::Mh)),
    ),
    (
        0x00_42_06,
        FINE,
        0,
        Ok((b"\xFF\xC8\xC1\x00\x42\x08", 5, 12, Coding::Mh)),
    ),
    (
        0x00_40_A0,
        WIDER,
        0,
        Ok((b"\xFF\xC8\xC1\x00\x40\xA0", 20, 48, Coding::Mh)),
    ),
    (
        0x00_40_F0,
        WIDEST,
        0,
        Ok((b"\xFF\xC8\xC1\x00\x40\x40", 20, 48, Coding::Mh)),
    ),
    (
        0x00_72_A2,
        WIDER_FINE,
        1,
        Ok((b"\xFF\xC8\xC1\x00\x72\xA2", 40, 288, Coding::Mh)),
    ),
    (0, WIDER_FINE, 9, Err(Refusal::NotReceiver)),
    (0x00_40_00, WIDER_FINE, 9, Err(Refusal::WidthLacking)),
    (0x00_40_00, WIDER, 0, Err(Refusal::WidthLacking)),
    (0x00_40_00, WIDEST, 0, Err(Refusal::WidthLacking)),
    (0x00_40_00, FINE, 9, Err(Refusal::FineLacking)),
    (0x00_40_00, FINE, 0, Err(Refusal::FineLacking)),
    (0x00_40_00, STANDARD, 1, Err(Refusal::RatesSpent)),
    (0x00_77_5E, STANDARD, 6, Err(Refusal::RatesSpent)),
    (0x00_77_5E, STANDARD, 255, Err(Refusal::RatesSpent)),
];

/// A frame with no information field, whether its sender got a DIS, its octets, and what is read of them.
const PLAIN_FRAMES: &[(Plain, bool, &[u8], Frame)] = &[
    (Plain::Cfr, false, b"\xFF\xC8\x21", Frame::Cfr),
    (Plain::Ftt, false, b"\xFF\xC8\x22", Frame::Ftt),
    (Plain::Eom, false, b"\xFF\xC8\xF1", Frame::Eom),
    (Plain::Eom, true, b"\xFF\xC8\xF1", Frame::Eom),
    (Plain::Mps, false, b"\xFF\xC8\xF2", Frame::Mps),
    (Plain::Eop, false, b"\xFF\xC8\xF4", Frame::Eop),
    (Plain::Mcf, false, b"\xFF\xC8\x31", Frame::Mcf),
    (Plain::Rtn, false, b"\xFF\xC8\x32", Frame::Rtn),
    (Plain::Dcn, false, b"\xFF\xC8\x5F", Frame::Dcn),
    (Plain::Dcn, true, b"\xFF\xC8\xDF", Frame::Dcn),
    (Plain::Mcf, true, b"\xFF\xC8\x31", Frame::Mcf),
];

const FALLBACK: &[Rate] = &[Rate::V27At2400];

const V27TER: &[Rate] = &[Rate::V27At4800, Rate::V27At2400];

const V29: &[Rate] = &[Rate::V29At9600, Rate::V29At7200];

const V29_AND_V27TER: &[Rate] = &[
    Rate::V29At9600,
    Rate::V29At7200,
    Rate::V27At4800,
    Rate::V27At2400,
];

const ALL_RATES: &[Rate] = &[
    Rate::V17At14400,
    Rate::V17At12000,
    Rate::V17At9600,
    Rate::V17At7200,
    Rate::V27At4800,
    Rate::V27At2400,
];

/// What a DIS says: its rates, whether it has each width, the length of a page, the times at the standard and at the fine
/// resolution, and whether it receives, has fine pages, and two-dimensional lines.
type Said = (&'static [Rate], [bool; 3], Length, [u8; 2], [bool; 3]);

const USUAL: [bool; 3] = [true, false, false];

const UP_TO_2048: [bool; 3] = [true, true, false];

const UP_TO_2432: [bool; 3] = [true, true, true];

const NEITHER: [bool; 3] = [false, false, false];

/// The 24 bits of a DIS, and what it says. Each code of bits 11 to 14, of 17 and 18, of 19 and 20, and of 21 to 23.
const SAID: &[(u32, Said)] = &[
    (0x00_00_00, (FALLBACK, USUAL, Length::A4, [20, 20], NEITHER)),
    (0x00_04_02, (FALLBACK, USUAL, Length::A4, [40, 40], NEITHER)),
    (0x00_08_04, (FALLBACK, USUAL, Length::A4, [10, 10], NEITHER)),
    (0x00_0C_06, (FALLBACK, USUAL, Length::A4, [10, 5], NEITHER)),
    (0x00_10_08, (V27TER, USUAL, Length::A4, [5, 5], NEITHER)),
    (0x00_14_0A, (FALLBACK, USUAL, Length::A4, [40, 20], NEITHER)),
    (0x00_18_0C, (FALLBACK, USUAL, Length::A4, [20, 10], NEITHER)),
    (0x00_1C_0E, (FALLBACK, USUAL, Length::A4, [0, 0], NEITHER)),
    (0x00_20_80, (V29, UP_TO_2048, Length::A4, [20, 20], NEITHER)),
    (
        0x00_24_40,
        (FALLBACK, UP_TO_2432, Length::A4, [20, 20], NEITHER),
    ),
    (
        0x00_28_C0,
        (FALLBACK, UP_TO_2432, Length::A4, [20, 20], NEITHER),
    ),
    (
        0x00_2C_20,
        (FALLBACK, USUAL, Length::A4AndB4, [20, 20], NEITHER),
    ),
    (
        0x00_30_10,
        (V29_AND_V27TER, USUAL, Length::Unlimited, [20, 20], NEITHER),
    ),
    (
        0x00_34_30,
        (ALL_RATES, USUAL, Length::A4, [20, 20], NEITHER),
    ),
    (
        0x00_38_00,
        (V29_AND_V27TER, USUAL, Length::A4, [20, 20], NEITHER),
    ),
    (
        0x00_3C_00,
        (V29_AND_V27TER, USUAL, Length::A4, [20, 20], NEITHER),
    ),
    (
        0x00_40_00,
        (FALLBACK, USUAL, Length::A4, [20, 20], [true, false, false]),
    ),
    (
        0x00_02_00,
        (FALLBACK, USUAL, Length::A4, [20, 20], [false, true, false]),
    ),
    (
        0x00_01_00,
        (FALLBACK, USUAL, Length::A4, [20, 20], [false, false, true]),
    ),
    (
        0x00_BC_00,
        (V29_AND_V27TER, USUAL, Length::A4, [20, 20], NEITHER),
    ),
];

/// Whether octets are this frame.
fn is_frame(octets: &[u8], wanted: Option<Frame>) -> bool {
    Frame::read(octets) == wanted
}

/// The octets of a frame with three octets of information.
fn octets_of(control: u8, field: u8, info: [u8; 3]) -> [u8; 6] {
    let [first, second, third] = info;
    [0xFF, control, field, first, second, third]
}

/// The DIS of these 24 bits.
fn dis_of(bits: u32) -> Dis {
    Dis { caps: Caps(bits) }
}

/// What the DIS of these bits says.
fn said(bits: u32) -> Said {
    let dis = dis_of(bits);
    let widths = [
        dis.has_width(Width::W1728),
        dis.has_width(Width::W2048),
        dis.has_width(Width::W2432),
    ];
    let times = [dis.scan_ms(false), dis.scan_ms(true)];
    let flags = [dis.is_receiver(), dis.has_fine(), dis.has_two_d()];
    (dis.rates(), widths, dis.length(), times, flags)
}

#[test]
fn dis_are_told(rt: HostRuntime) {
    for (bits, wanted) in SAID {
        assert!(rt; said(*bits) == *wanted, "at {bits}");
    }
}

#[test]
fn our_dis_is_written(rt: HostRuntime) {
    let octets = b"\xFF\xC8\x01\x00\x77\x5E".as_slice();
    assert!(rt;
        OUR_DIS == dis_of(0x00_77_5E)
            && write_dis(&OUR_DIS).as_slice() == octets
            && is_frame(octets, Some(Frame::Dis(OUR_DIS)))
    );
}

/// The DCS that is chosen for the DIS of these bits, and its octets.
fn chosen(bits: u32, format: Format, step: u8) -> Result<(Dcs, FrameBytes), Refusal> {
    let dcs = choose(&dis_of(bits), format, step)?;
    Ok((dcs, write_dcs(&dcs)))
}

/// The time for a row of a DCS, its least bits, its format and its coding.
fn shown(dcs: &Dcs) -> (u8, u32, Format, Coding) {
    (dcs.scan_ms, dcs.least_bits(), dcs.format(), dcs.coding())
}

/// Whether octets are a DCS, but for the length of a page, which is not read.
fn is_read(octets: &[u8], dcs: Dcs) -> bool {
    let read = Dcs {
        length: Length::A4,
        ..dcs
    };
    is_frame(octets, Some(Frame::Dcs(read)))
}

/// Whether that is chosen.
fn is_chosen(bits: u32, format: Format, step: u8, wanted: &Choice) -> bool {
    match (chosen(bits, format, step), wanted) {
        (Ok((dcs, written)), Ok((octets, scan_ms, least_bits, coding))) => {
            written.as_slice() == *octets
                && shown(&dcs) == (*scan_ms, *least_bits, format, *coding)
                && is_read(octets, dcs)
        }
        (Err(refusal), Err(wanted)) => refusal == *wanted,
        _ => false,
    }
}

#[test]
fn dcs_are_chosen(rt: HostRuntime) {
    for (bits, format, step, wanted) in CHOICES {
        assert!(rt;
            is_chosen(*bits, *format, *step, wanted),
            "at {bits} {step}"
        );
    }
}

/// The frame of a facsimile control field with three zero octets after it.
fn frame_named(field: u8) -> Frame {
    for (named, frame) in FIELDS {
        if field == *named {
            return *frame;
        }
    }
    Frame::Other
}

#[test]
fn fields_name_frames(rt: HostRuntime) {
    for field in 0..=255 {
        let frame = Some(frame_named(field));
        let is_last = is_frame(&octets_of(0xC8, field, [0, 0, 0]), frame);
        assert!(rt; is_last && is_frame(&octets_of(0xC0, field, [0, 0, 0]), frame));
    }
}

/// Whether a frame with no information field is written so, and read again.
fn is_plain(plain: Plain, got_dis: bool, octets: &[u8], frame: Frame) -> bool {
    write_plain(plain, got_dis).as_slice() == octets && is_frame(octets, Some(frame))
}

#[test]
fn plain_frames_are_written(rt: HostRuntime) {
    for (plain, got_dis, octets, frame) in PLAIN_FRAMES {
        assert!(rt; is_plain(*plain, *got_dis, octets, *frame));
    }
}

#[test]
fn octets_are_read(rt: HostRuntime) {
    for (octets, frame) in READINGS {
        assert!(rt; is_frame(octets, *frame), "{octets:?}");
    }
}

/// Whether a DCS of these octets, its sender's or not, has such a rate and time.
fn is_dcs(second: u8, third: u8, told: Option<(Rate, u8)>) -> bool {
    let frame = match told {
        Some((rate, scan_ms)) => Frame::Dcs(Dcs {
            rate,
            scan_ms,
            ..LEAST_DCS
        }),
        None => Frame::Other,
    };
    is_frame(&octets_of(0xC8, 0x41, [0, second, third]), Some(frame))
        && is_frame(
            &octets_of(0xC8, 0xC1, [0, second | 0x40, third]),
            Some(frame),
        )
}

#[test]
fn dcs_have_their_rates_and_times(rt: HostRuntime) {
    for (second, third, told) in DCS {
        assert!(rt; is_dcs(*second, *third, *told), "at {second} {third}");
    }
}

/// The training indicators of a rate, short and long, its bits a second, and its kind of data.
fn numbers_of(rate: Rate) -> ([u8; 2], u16, u8) {
    (
        [rate.training(false), rate.training(true)],
        rate.bits(),
        rate.kind(),
    )
}

#[test]
fn rates_have_their_numbers(rt: HostRuntime) {
    for (rate, bits, short, long, kind) in RATES {
        assert!(rt; numbers_of(*rate) == ([*short, *long], *bits, *kind));
    }
}
