//! The pages in files, as a job.
ghost use Rattle.std.specs.Prelude.{◌≡◌, ◌⊎◌, ◌<◌, ◌≤◌, ◌++◌, ◌∷◌, [], false, true, ℕ, List, Option, Some, IfErr, IfOk, length, map};
ghost use Rattle.fax_runcodes.specs.declared.format.Format.{Format};
ghost use Rattle.fax_runcodes.specs.declared.format.Coding.{Coding};
ghost use Rattle.fax_jobs.specs.Jobs.{most_pages};
ghost use Rattle.fax_tiff.specs.ReadTiffs.{MeansTiff};
ghost use Rattle.fax_send_receive.specs.declared.run_fault.RunFault.TheVariants as faults;
ghost use Rattle.fax_send_receive.specs.Faults.{IsFileFault, IsJobFault, RefusesOctets};
ghost use Rattle.fax_send_receive.specs.Files.{ArePagesOfFile, HasPage, HasPages, begins_as_tiff};
ghost use Rattle.fax_send_receive.specs.Folders.{AreOctetsOf};
ghost use Rattle.fax_send_receive.specs.Runs.{IsBegun, IsJobOfFiles, pages_of};

use crate::named_files::NamedFiles;
use crate::run_fault::RunFault;
use fax_command::{
    InputError, InputFault, Output, PageOptions, StdSource, page_of_hex, read_input,
};
use fax_jobs::Job;
use fax_pagestore::{Coding, Format, PackedRows, Page};
use fax_pbm::{PbmFault, read_pbm};
use fax_tiff::{TiffFault, read_tiff};
use std::alloc::Global;

/// The most pages of a job.
const MOST_PAGES: u32 = 999;

/// How pages in files are read.
#[derive(Clone, Copy)]
pub(crate) struct Reading {
    /// The width and the resolution of pages in hex text. Of a picture the resolution alone is taken, of a TIFF neither.
    pub format: Format,
    /// How the pages in hex text are coded.
    pub coding: Coding,
}

/// The job of the pages in the files of these names, in their order, as of call 0.
pub(crate) fn read_job<'a, F: NamedFiles>(
    files: &F,
    alloc: Global,
    reading: Reading,
    names: &[&'a str],
) -> Result<Job<PackedRows>, RunFault<'a>>
    ensures ok { IfOk result (IsJobOfFiles (F.holds files.now) reading.format reading.coding (map
        (λ name. name.now) names.now)) }
    ensures fault { IfErr result (IsJobFault (F.holds files.now) reading.format reading.coding (map
        (λ name. name.now) names.now)) }
{
    let mut job = None;
    for name in names {
        let pages = read_file(files, alloc, reading, name)?;
        job = add_pages(alloc, job, pages)?;
    }
    match job {
        Some(job) => Ok(job),
        None => Err(RunFault::PageCount),
    }
}

/// A job with these pages after its own, or of them alone where none was begun.
fn add_pages<'a>(
    alloc: Global,
    job: Option<Job<PackedRows>>,
    pages: Vec<Page<PackedRows>>,
) -> Result<Option<Job<PackedRows>>, RunFault<'a>>
    requires { IsBegun job }
    ensures begun { IfOk result IsBegun }
    ensures ok { IfOk result (λ longer. pages_of longer ≡ pages_of job ++ pages.items) }
    ensures fault { IfErr result (λ fault. (fault ≡ faults.NoMemory)
        ⊎ ((fault ≡ faults.PageCount) × (most_pages < length (pages_of job ++ pages.items)))) }
{
    let mut longer = job;
    for page in pages {
        longer = Some(add_page(alloc, longer, page)?);
    }
    Ok(longer)
}

/// A job with this page after its own, or of it alone where none was begun.
fn add_page<'a>(
    alloc: Global,
    job: Option<Job<PackedRows>>,
    page: Page<PackedRows>,
) -> Result<Job<PackedRows>, RunFault<'a>>
    requires { IsBegun job }
    ensures begun { IfOk result (λ longer. IsBegun (Some longer)) }
    ensures ok { IfOk result (λ longer. longer.pages ≡ pages_of job ++ page ∷ []) }
    ensures fault { IfErr result (λ fault. (fault ≡ faults.NoMemory)
        ⊎ ((fault ≡ faults.PageCount) × (most_pages ≤ length (pages_of job)))) }
{
    let Some(mut job) = job else {
        return match Job::of_page(alloc, 0, page) {
            Ok(job) => Ok(job),
            Err(_) => Err(RunFault::NoMemory),
        };
    };
    if job.page_count() >= MOST_PAGES {
        return Err(RunFault::PageCount);
    }
    match job.add_page(page) {
        Ok(()) => Ok(job),
        Err(_) => Err(RunFault::NoMemory),
    }
}

/// The pages in the file of this name.
fn read_file<'a, F: NamedFiles>(
    files: &F,
    alloc: Global,
    reading: Reading,
    name: &'a str,
) -> Result<Vec<Page<PackedRows>>, RunFault<'a>>
    ensures ok { IfOk result (λ pages. ArePagesOfFile reading.format
        reading.coding (F.holds files.now name.entry.now) pages.items) }
    ensures fault { IfErr result (IsFileFault (F.holds files.now name.entry.now)
        reading.format reading.coding name.entry.now) }
{
    let file = match files.open(name) {
        Ok(file) => file,
        Err(error) => return Err(RunFault::File(name, error)),
    };
    match read_input(alloc, &mut StdSource::new(file)) {
        Ok(octets) => pages_in(alloc, reading, name, octets),
        Err(InputError::NoMemory) => Err(RunFault::NoMemory),
        Err(error) => Err(RunFault::Unread(name, error)),
    }
}

/// The pages that octets of the file of this name mean: those of a TIFF of class F, or one.
fn pages_in<'a>(
    alloc: Global,
    reading: Reading,
    name: &'a str,
    octets: Vec<u8>,
) -> Result<Vec<Page<PackedRows>>, RunFault<'a>>
    ensures ok { IfOk result
        (λ pages. HasPages reading.format reading.coding octets.items pages.items) }
    ensures file { (known : Option (List ℕ)) → AreOctetsOf known octets.items
        → IfErr result (IsFileFault known reading.format reading.coding name.entry.now) }
{
    if is_tiff(octets.as_slice()) {
        return tiff_pages_in(alloc, name, octets.as_slice());
    }
    one_page_in(alloc, reading, name, octets)
}

/// Whether octets begin as a TIFF.
fn is_tiff(octets: &[u8]) -> bool
    ensures { result ≡ begins_as_tiff octets.now }
{
    octets.starts_with(b"II*\0") || octets.starts_with(b"MM\0*")
}

/// The pages of the TIFF in the file of this name, which has these octets.
fn tiff_pages_in<'a>(
    alloc: Global,
    name: &'a str,
    octets: &[u8],
) -> Result<Vec<Page<PackedRows>>, RunFault<'a>>
    requires { begins_as_tiff octets.now ≡ true }
    ensures ok { IfOk result (λ pages. MeansTiff octets.now pages.items) }
    ensures file { (format : Format) (coding : Coding) (known : Option (List ℕ))
        → AreOctetsOf known octets.now
        → IfErr result (IsFileFault known format coding name.entry.now) }
{
    match read_tiff(alloc, octets) {
        Ok(pages) => Ok(pages),
        Err(TiffFault::NoMemory) => Err(RunFault::NoMemory),
        Err(fault) => Err(RunFault::Tiff(name, fault)),
    }
}

/// The one page that octets of the file of this name mean, which is no TIFF.
fn one_page_in<'a>(
    alloc: Global,
    reading: Reading,
    name: &'a str,
    octets: Vec<u8>,
) -> Result<Vec<Page<PackedRows>>, RunFault<'a>>
    requires { begins_as_tiff octets.items ≡ false }
    ensures ok { IfOk result
        (λ pages. HasPages reading.format reading.coding octets.items pages.items) }
    ensures file { (known : Option (List ℕ)) → AreOctetsOf known octets.items
        → IfErr result (IsFileFault known reading.format reading.coding name.entry.now) }
{
    let page = page_in(alloc, reading, name, octets)?;
    let mut pages = Vec::new(alloc);
    match pages.push(page) {
        Ok(()) => Ok(pages),
        Err(_) => Err(RunFault::NoMemory),
    }
}

/// The page that octets of the file of this name mean, which is no TIFF: a P4 picture, or hex text.
fn page_in<'a>(
    alloc: Global,
    reading: Reading,
    name: &'a str,
    octets: Vec<u8>,
) -> Result<Page<PackedRows>, RunFault<'a>>
    requires { begins_as_tiff octets.items ≡ false }
    ensures ok { IfOk result (HasPage reading.format reading.coding octets.items) }
    ensures fault { IfErr result (RefusesOctets reading.format reading.coding octets.items) }
    ensures file { (known : Option (List ℕ)) → AreOctetsOf known octets.items
        → IfErr result (IsFileFault known reading.format reading.coding name.entry.now) }
{
    if octets.as_slice().starts_with(b"P4") {
        return match read_pbm(alloc, octets.as_slice(), reading.format.fine) {
            Ok(page) => Ok(page),
            Err(PbmFault::NoMemory) => Err(RunFault::NoMemory),
            Err(fault) => Err(RunFault::Picture(name, fault)),
        };
    }
    let options = PageOptions {
        format: reading.format,
        coding: reading.coding,
        least_bits: 0,
        output: Output::Runs,
    };
    match page_of_hex(alloc, octets, options) {
        Ok(page) => Ok(page),
        Err(InputFault::NoMemory) => Err(RunFault::NoMemory),
        Err(fault) => Err(RunFault::Text(name, fault)),
    }
}
