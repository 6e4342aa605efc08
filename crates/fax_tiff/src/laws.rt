//! Laws of the definitions: functions that do nothing, each of whose contracts is a theorem.
ghost use Rattle.fax_tiff.specs.TiffLaws.{FaultsAreUnique, TiffIsReadBack, TiffsAreUnique, TiffsDontFail};

/// Octets mean at most one list of pages.
pub fn tiffs_are_unique()
    ensures { TiffsAreUnique }
{}

/// Octets that mean pages meet no fault.
pub fn tiffs_dont_fail()
    ensures { TiffsDontFail }
{}

/// Octets meet at most one fault.
pub fn faults_are_unique()
    ensures { FaultsAreUnique }
{}

/// The TIFF that is written of pages means them.
pub fn tiff_is_read_back()
    ensures { TiffIsReadBack }
{}
