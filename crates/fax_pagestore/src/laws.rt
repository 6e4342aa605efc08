//! Laws of the definitions: functions that do nothing, each of whose contracts is a theorem.
ghost use Rattle.fax_pagestore.specs.PageLaws.{PagesAreUnique, PagesDontFail, FaultsAreUnique, PagesAreReadOrFail, WrittenPagesMean, WrittenPagesAreUnique, PagesAreWritten, WrittenOctetsAreUnique, FillIsFree};

/// Octets mean at most one page.
pub fn pages_are_unique()
    ensures { PagesAreUnique }
{}

/// Octets that mean a page meet no fault.
pub fn pages_dont_fail()
    ensures { PagesDontFail }
{}

/// Octets meet at most one fault.
pub fn faults_are_unique()
    ensures { FaultsAreUnique }
{}

/// Octets mean a page, or meet a fault.
pub fn pages_are_read_or_fail()
    ensures { PagesAreReadOrFail }
{}

/// The text in which a page is written means the page.
pub fn written_pages_mean()
    ensures { WrittenPagesMean }
{}

/// A page is written as one text only.
pub fn written_pages_are_unique()
    ensures { WrittenPagesAreUnique }
{}

/// A page is written as some text.
pub fn pages_are_written()
    ensures { PagesAreWritten }
{}

/// Octets that hold the written text of one page, padded, are the same.
pub fn written_octets_are_unique()
    ensures { WrittenOctetsAreUnique }
{}

/// Octets mean the same page, or meet the same fault, with long fill and without it.
pub fn fill_is_free()
    ensures { FillIsFree }
{}
