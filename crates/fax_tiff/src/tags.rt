//! The tags of the fields that a page of class F has (RFC 2306; TIFF 6.0).

pub(crate) const NEW_SUBFILE_TYPE: u16 = 254;

pub(crate) const IMAGE_WIDTH: u16 = 256;

pub(crate) const IMAGE_LENGTH: u16 = 257;

pub(crate) const BITS_PER_SAMPLE: u16 = 258;

pub(crate) const COMPRESSION: u16 = 259;

pub(crate) const PHOTOMETRIC_INTERPRETATION: u16 = 262;

pub(crate) const FILL_ORDER: u16 = 266;

pub(crate) const STRIP_OFFSETS: u16 = 273;

pub(crate) const SAMPLES_PER_PIXEL: u16 = 277;

pub(crate) const ROWS_PER_STRIP: u16 = 278;

pub(crate) const STRIP_BYTE_COUNTS: u16 = 279;

pub(crate) const X_RESOLUTION: u16 = 282;

pub(crate) const Y_RESOLUTION: u16 = 283;

pub(crate) const T4_OPTIONS: u16 = 292;

pub(crate) const RESOLUTION_UNIT: u16 = 296;

pub(crate) const PAGE_NUMBER: u16 = 297;
