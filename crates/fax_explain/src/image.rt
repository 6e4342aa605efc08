//! An image signal, as far as it has come.
ghost use Rattle.std.specs.Prelude.{◌≡◌, ◌+◌, ◌-◌, ◌^◌, ◌++◌, ◌∷◌, [], length, min, is_some, IfOk, OnOk, string_bytes};
ghost use Rattle.fax_descriptions.specs.Words.{wholeness_text};

use fax_bits::NoMemory;
use fax_descriptions::words_of_wholeness;
use fax_frames::Dcs;
use fax_pagestore::{PackedRows, Page, PageFault, PageReader};
use std::alloc::Global;

/// An image signal, as far as it has come: a training check or a page (ITU-T T.30, 5.3.6.2).
pub(crate) struct Image {
    alloc: Global,
    octets: u64,
    /// How many zero octets stand at its end, and how many in a row at most.
    run: u64,
    longest: u64,
    /// The numbers of the datagrams that are missing in it, with a space before each.
    missing: String,
    /// What its octets mean as a page, where one is due.
    reader: Option<PageReader<PackedRows>>,
}

impl Drop for Image {
    fn drop(self) {
        let Image {
            alloc: _alloc,
            octets: _octets,
            run: _run,
            longest: _longest,
            missing: _missing,
            reader: _reader,
        } = self;
    }
}

impl Image {
    /// An image of which nothing has come. Where a page is due, it is read under this DCS.
    pub(crate) fn new(alloc: Global, page: Option<Dcs>) -> Self
        ensures octets { result.octets ≡ 0 }
        ensures missing { string_bytes result.missing ≡ [] }
        ensures due { is_some result.reader ≡ is_some page }
    {
        let reader = match page {
            Some(dcs) => Some(PageReader::new(alloc, dcs.format(), dcs.coding())),
            None => None,
        };
        Image {
            alloc,
            octets: 0,
            run: 0,
            longest: 0,
            missing: String::new(alloc),
            reader,
        }
    }

    /// More octets come. An `Err` leaves them counted.
    pub(crate) fn feed(&mut self, octets: &[u8]) -> Result<(), NoMemory>
        ensures octets { self.new.octets ≡ min (self.old.octets + length octets.now) (2 ^ 64 - 1) }
        ensures missing { self.new.missing ≡ self.old.missing }
    {
        for octet in octets {
            self.count(*octet);
        }
        match &mut self.reader {
            Some(reader) => reader.feed(octets).map_err(|_| NoMemory),
            None => Ok(()),
        }
    }

    /// One octet more comes.
    fn count(&mut self, octet: u8)
        ensures octets { self.new.octets ≡ min (self.old.octets + 1) (2 ^ 64 - 1) }
        ensures missing { self.new.missing ≡ self.old.missing }
    {
        self.octets = self.octets.saturating_add(1);
        self.run = if octet == 0 {
            self.run.saturating_add(1)
        } else {
            0
        };
        self.longest = self.longest.max(self.run);
    }

    /// The datagrams of these numbers are missing in it.
    pub(crate) fn miss(&mut self, numbers: &str) -> Result<(), NoMemory>
        ensures missing { OnOk result (string_bytes self.new.missing
            ≡ string_bytes self.old.missing ++ 32 ∷ numbers.now) }
        ensures left { self.new ≡ record self.old { missing = self.new.missing } }
    {
        self.missing.push_str(" ")?;
        self.missing.push_str(numbers)?;
        Ok(())
    }

    /// How many octets it has.
    pub(crate) fn octets(&self) -> u64
        ensures { result ≡ self.now.octets }
    {
        self.octets
    }

    /// How many zero octets it has in a row at most.
    pub(crate) fn longest(&self) -> u64
        ensures { result ≡ self.now.longest }
    {
        self.longest
    }

    /// Whether it is whole, and which datagrams are missing if it is not.
    pub(crate) fn wholeness(&self, whole: bool) -> Result<String, NoMemory>
        ensures { IfOk result
            (λ words. string_bytes words ≡ wholeness_text whole (string_bytes self.now.missing)) }
    {
        words_of_wholeness(self.alloc, whole, self.missing.as_str())
    }

    /// The page that it means, where one was due.
    pub(crate) fn finish(&mut self) -> Option<Result<Page<PackedRows>, PageFault>>
        ensures due { is_some result ≡ is_some self.old.reader }
        ensures left { self.new ≡ record self.old { reader = self.new.reader } }
    {
        match &mut self.reader {
            Some(reader) => Some(reader.finish()),
            None => None,
        }
    }
}
