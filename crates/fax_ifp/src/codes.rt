//! The numbers that packets have for what they tell (ITU-T T.38 of 1998).
ghost use Rattle.std.specs.Prelude.{◌≡◌};

/// What an indicator tells (T30_INDICATOR). Those from 4 on are trainings: each begins an image.
#[derive(Clone, Copy, PartialEq, Eq)]
pub enum Indicator {
    NoSignal = 0,
    Cng = 1,
    Ced = 2,
    V21Preamble = 3,
    V27At2400Training = 4,
    V27At4800Training = 5,
    V29At7200Training = 6,
    V29At9600Training = 7,
    V17At7200ShortTraining = 8,
    V17At7200LongTraining = 9,
    V17At9600ShortTraining = 10,
    V17At9600LongTraining = 11,
    V17At12000ShortTraining = 12,
    V17At12000LongTraining = 13,
    V17At14400ShortTraining = 14,
    V17At14400LongTraining = 15,
}

impl Indicator {
    ghost use Rattle.fax_ifp.specs.Codes.{indicator_code, indicator_at};

    /// Its code, 0 to 15.
    #[inline]
    pub fn code(self) -> u8
        ensures { result ≡ indicator_code self }
    {
        self as u8
    }

    /// The indicator that has a code: none above 15.
    pub fn from_code(code: u8) -> Option<Indicator>
        ensures { result ≡ indicator_at code }
    {
        let indicator = match code {
            0 => Indicator::NoSignal,
            1 => Indicator::Cng,
            2 => Indicator::Ced,
            3 => Indicator::V21Preamble,
            4 => Indicator::V27At2400Training,
            5 => Indicator::V27At4800Training,
            6 => Indicator::V29At7200Training,
            7 => Indicator::V29At9600Training,
            8 => Indicator::V17At7200ShortTraining,
            9 => Indicator::V17At7200LongTraining,
            10 => Indicator::V17At9600ShortTraining,
            11 => Indicator::V17At9600LongTraining,
            12 => Indicator::V17At12000ShortTraining,
            13 => Indicator::V17At12000LongTraining,
            14 => Indicator::V17At14400ShortTraining,
            15 => Indicator::V17At14400LongTraining,
            _ => return None,
        };
        Some(indicator)
    }
}

/// A type of data (T30_DATA): the modulation, and its rate in bits a second.
#[derive(Clone, Copy, PartialEq, Eq)]
pub enum DataType {
    V21 = 0,
    V27At2400 = 1,
    V27At4800 = 2,
    V29At7200 = 3,
    V29At9600 = 4,
    V17At7200 = 5,
    V17At9600 = 6,
    V17At12000 = 7,
    V17At14400 = 8,
}

impl DataType {
    ghost use Rattle.fax_ifp.specs.Codes.{data_type_code, data_type_at};

    /// Its code, 0 to 8.
    #[inline]
    pub fn code(self) -> u8
        ensures { result ≡ data_type_code self }
    {
        self as u8
    }

    /// The type that has a code: none above 8.
    pub fn from_code(code: u8) -> Option<DataType>
        ensures { result ≡ data_type_at code }
    {
        let kind = match code {
            0 => DataType::V21,
            1 => DataType::V27At2400,
            2 => DataType::V27At4800,
            3 => DataType::V29At7200,
            4 => DataType::V29At9600,
            5 => DataType::V17At7200,
            6 => DataType::V17At9600,
            7 => DataType::V17At12000,
            8 => DataType::V17At14400,
            _ => return None,
        };
        Some(kind)
    }
}

/// The type of a field.
#[derive(Clone, Copy, PartialEq, Eq)]
pub enum FieldType {
    /// Octets of a frame.
    HdlcData = 0,
    /// The HDLC signal ends.
    HdlcSigEnd = 1,
    /// A frame ends, and its check sequence is right.
    HdlcFcsOk = 2,
    /// A frame ends, and its check sequence is wrong.
    HdlcFcsBad = 3,
    /// A frame ends rightly, and the signal with it.
    HdlcFcsOkSigEnd = 4,
    /// A frame ends wrongly, and the signal with it.
    HdlcFcsBadSigEnd = 5,
    /// Octets of an image.
    T4NonEcmData = 6,
    /// The last octets of an image; its signal ends.
    T4NonEcmSigEnd = 7,
}

impl FieldType {
    ghost use Rattle.fax_ifp.specs.Codes.{field_type_code, field_type_at};

    /// Its code, 0 to 7.
    #[inline]
    pub fn code(self) -> u8
        ensures { result ≡ field_type_code self }
    {
        self as u8
    }

    /// The type that has a code: none above 7.
    #[inline]
    pub fn from_code(code: u8) -> Option<FieldType>
        ensures { result ≡ field_type_at code }
    {
        let what = match code {
            0 => FieldType::HdlcData,
            1 => FieldType::HdlcSigEnd,
            2 => FieldType::HdlcFcsOk,
            3 => FieldType::HdlcFcsBad,
            4 => FieldType::HdlcFcsOkSigEnd,
            5 => FieldType::HdlcFcsBadSigEnd,
            6 => FieldType::T4NonEcmData,
            7 => FieldType::T4NonEcmSigEnd,
            _ => return None,
        };
        Some(what)
    }
}
