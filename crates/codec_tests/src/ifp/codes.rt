//! The codes of ITU-T T.38, each once.
use fax_ifp::{DataType, FieldType, Indicator};

/// The indicators, as T.38 numbers them.
const INDICATORS: &[(u8, Indicator)] = &[
    (0, Indicator::NoSignal),
    (1, Indicator::Cng),
    (2, Indicator::Ced),
    (3, Indicator::V21Preamble),
    (4, Indicator::V27At2400Training),
    (5, Indicator::V27At4800Training),
    (6, Indicator::V29At7200Training),
    (7, Indicator::V29At9600Training),
    (8, Indicator::V17At7200ShortTraining),
    (9, Indicator::V17At7200LongTraining),
    (10, Indicator::V17At9600ShortTraining),
    (11, Indicator::V17At9600LongTraining),
    (12, Indicator::V17At12000ShortTraining),
    (13, Indicator::V17At12000LongTraining),
    (14, Indicator::V17At14400ShortTraining),
    (15, Indicator::V17At14400LongTraining),
];

/// The types of data, as T.38 numbers them.
const DATA_TYPES: &[(u8, DataType)] = &[
    (0, DataType::V21),
    (1, DataType::V27At2400),
    (2, DataType::V27At4800),
    (3, DataType::V29At7200),
    (4, DataType::V29At9600),
    (5, DataType::V17At7200),
    (6, DataType::V17At9600),
    (7, DataType::V17At12000),
    (8, DataType::V17At14400),
];

/// The types of a field, as T.38 numbers them.
const FIELD_TYPES: &[(u8, FieldType)] = &[
    (0, FieldType::HdlcData),
    (1, FieldType::HdlcSigEnd),
    (2, FieldType::HdlcFcsOk),
    (3, FieldType::HdlcFcsBad),
    (4, FieldType::HdlcFcsOkSigEnd),
    (5, FieldType::HdlcFcsBadSigEnd),
    (6, FieldType::T4NonEcmData),
    (7, FieldType::T4NonEcmSigEnd),
];

#[test]
fn indicators_have_the_codes_of_the_standard(rt: HostRuntime) {
    let is_last = Indicator::from_code(16).is_none();
    for (code, indicator) in INDICATORS {
        let named = Indicator::from_code(*code);
        assert!(rt; is_last && indicator.code() == *code && named == Some(*indicator));
    }
}

#[test]
fn data_types_have_the_codes_of_the_standard(rt: HostRuntime) {
    let is_last = DataType::from_code(9).is_none();
    for (code, kind) in DATA_TYPES {
        let named = DataType::from_code(*code);
        assert!(rt; is_last && kind.code() == *code && named == Some(*kind));
    }
}

#[test]
fn field_types_have_the_codes_of_the_standard(rt: HostRuntime) {
    let is_last = FieldType::from_code(8).is_none();
    for (code, what) in FIELD_TYPES {
        let named = FieldType::from_code(*code);
        assert!(rt; is_last && what.code() == *code && named == Some(*what));
    }
}
