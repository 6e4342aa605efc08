//! What is answered to an input.
ghost use Rattle.std.specs.Prelude.{ℕ, ◌≡◌, Bool, List, length, Ok, Err, IfOk, IfErr, OnOk, false};
ghost use Rattle.std.specs.Io.KnownBytes.{Appends};
ghost use Rattle.fax_bits.specs.Writing.{IsPadded};
ghost use Rattle.fax_pagestore.specs.PageRows.{AreRows};
ghost use Rattle.fax_pagestore.specs.PageTexts.{MeansRows};
ghost use Rattle.fax_pagestore.specs.WrittenPages.{WritesPage};
ghost use Rattle.fax_runcodes.specs.Rows.{Elements};
ghost use Rattle.fax_runcodes.specs.Widths.{elements_of};
ghost use Rattle.fax_command.specs.RowLines.{TellRows, lines_of};
ghost use Rattle.fax_command.specs.Answers.{IsHexOf, without_white_space, row_width, RefusesPage, RefusesLines, Allows, Answers};
ghost use Rattle.fax_command.specs.AnswerValues.{status_of_answer, IsTextOf, IsAnswerText};
ghost use Rattle.fax_command.specs.Statuses.{status_code};
ghost use Rattle.fax_command.specs.Streams.{Puts, failed_after_write};

use crate::gathering::{put, write_waiting};
use crate::input_fault::InputFault;
use crate::lines::{first_line, row_of_line};
use crate::options::{Output, PageOptions};
use crate::putting::{put_hex_line, put_lines, put_picture};
use crate::status::Status;
use crate::stream::{Sink, WriteFault};
use fax_bits::{NoMemory, Octets};
use fax_pagestore::{MOST_ROWS, PackedRows, Page, PageFault, RowStore, read_page, write_page};
use fax_runcodes::Width;
use hex::FromHexError;
use std::alloc::Global;

/// The line for want of memory, which takes none.
pub const MEMORY_LINE: &[u8] = b"fault memory\n";

/// What an input comes to where nothing is wrong with it. Its text is made while it is written.
#[derive(Drop)]
pub enum Product {
    /// A page, of which the lines of run lengths are written.
    Lines(Page<PackedRows>),
    /// A page, of which the picture is written.
    Picture(Page<PackedRows>),
    /// Octets, which are written as hex text.
    Hex(Octets),
}

/// What a run answers. What is wrong is known before anything is written.
#[derive(Drop)]
pub enum Answer {
    Done(Product),
    /// The line of what is wrong with the input.
    Fault(Vec<u8>),
    NoMemory,
}

impl Answer {
    /// The exit status.
    pub fn status(&self) -> Status
        ensures { status_code result ≡ status_of_answer self.now }
    {
        match self {
            Answer::Done(_) => Status::Done,
            Answer::Fault(_) => Status::Fault,
            Answer::NoMemory => Status::NoMemory,
        }
    }
}

/// Writes the text of an answer, and hands it on.
pub fn write_answer<O: Sink>(alloc: Global, sink: &mut O, answer: &Answer) -> Result<(), WriteFault>
    ensures text { OnOk result ((text : List ℕ) × IsAnswerText answer.now text
        × Appends (O.contents sink.old) (O.contents sink.new) text) }
    ensures failed { O.failed sink.new ≡ failed_after_write (O.failed sink.old) result }
    ensures handed_on { OnOk result (O.held_back sink.new ≡ false) }
{
    let mut waiting = Vec::new(alloc);
    put_answer(sink, &mut waiting, answer)?;
    write_waiting(sink, &mut waiting)?;
    sink.flush()
}

/// Puts the text of an answer.
fn put_answer<O: Sink>(
    sink: &mut O,
    waiting: &mut Vec<u8>,
    answer: &Answer,
) -> Result<(), WriteFault>
    ensures text { OnOk result ((text : List ℕ)
        × IsAnswerText answer.now text × Puts (O.contents sink.old)
        waiting.old.items (O.contents sink.new) waiting.new.items text) }
    ensures failed { O.failed sink.new ≡ failed_after_write (O.failed sink.old) result }
{
    match answer {
        Answer::Done(product) => put_product(sink, waiting, product),
        Answer::Fault(line) => put(sink, waiting, line.as_slice()),
        Answer::NoMemory => put(sink, waiting, MEMORY_LINE),
    }
}

/// Puts the text of what an input came to.
fn put_product<O: Sink>(
    sink: &mut O,
    waiting: &mut Vec<u8>,
    product: &Product,
) -> Result<(), WriteFault>
    ensures text { OnOk result ((text : List ℕ)
        × IsTextOf product.now text × Puts (O.contents sink.old)
        waiting.old.items (O.contents sink.new) waiting.new.items text) }
    ensures failed { O.failed sink.new ≡ failed_after_write (O.failed sink.old) result }
{
    match product {
        Product::Lines(page) => put_lines(sink, waiting, page.rows()),
        Product::Picture(page) => put_picture(sink, waiting, page),
        Product::Hex(octets) => put_hex_line(sink, waiting, octets.as_slice()),
    }
}

/// The answer to an input.
pub fn answer_to(alloc: Global, input: Vec<u8>, options: PageOptions) -> Answer
    ensures { (text : List ℕ)
        → IsAnswerText result text → Answers options input.items (status_of_answer result) text }
{
    match product_of(alloc, input, options) {
        Ok(product) => Answer::Done(product),
        Err(InputFault::NoMemory) => Answer::NoMemory,
        Err(fault) => match fault.line(alloc) {
            Ok(line) => Answer::Fault(line),
            Err(NoMemory) => Answer::NoMemory,
        },
    }
}

/// What an input comes to, or what is wrong with it.
fn product_of(alloc: Global, input: Vec<u8>, options: PageOptions) -> Result<Product, InputFault>
    ensures product { IfOk result (λ product. (text : List ℕ)
        → IsTextOf product text → Allows options input.items (Ok text)) }
    ensures fault { IfErr result (λ fault. Allows options input.items (Err fault)) }
{
    match options.output {
        Output::Runs => Ok(Product::Lines(page_of_hex(alloc, input, options)?)),
        Output::Picture => Ok(Product::Picture(page_of_hex(alloc, input, options)?)),
        Output::Octets => Ok(Product::Hex(octets_of_lines(alloc, input.as_slice(), options)?)),
    }
}

/// The page whose octets are given as hex text, in which white space is passed over; the format and the coding are those
/// of the options. An `Err` tells what is wrong with the text, or that memory was wanted.
pub fn page_of_hex(
    alloc: Global,
    input: Vec<u8>,
    options: PageOptions,
) -> Result<Page<PackedRows>, InputFault>
    ensures page { IfOk result
        (λ page. (page.format ≡ options.format) × (octets : List ℕ) × IsHexOf input.items octets
        × MeansRows (row_width options) options.coding octets page.rows) }
    ensures fault { IfErr result (λ fault. RefusesPage options input.items fault) }
{
    let octets = octets_of_hex(alloc, input)?;
    let page = read_page(alloc, octets.as_slice(), options.format, options.coding)?;
    Ok(page)
}

/// The octets of hex text, in which white space is passed over.
fn octets_of_hex(alloc: Global, mut input: Vec<u8>) -> Result<Vec<u8>, InputFault>
    ensures ok { IfOk result (λ octets. IsHexOf input.items octets.items) }
    ensures fault { IfErr result
        (λ fault. (options : PageOptions) → RefusesPage options input.items fault) }
{
    drop_white_space(&mut input);
    match hex::decode(alloc, input.as_slice()) {
        Ok(octets) => Ok(octets),
        Err(FromHexError::OutOfMemory) => Err(InputFault::NoMemory),
        Err(_) => Err(InputFault::Hex),
    }
}

/// Drops the white space of a text.
fn drop_white_space(text: &mut Vec<u8>)
    ensures { text.new.items ≡ without_white_space text.old.items }
{
    text.retain(|octet| !octet.is_ascii_whitespace());
}

/// The octets of the page of the rows that lines tell.
fn octets_of_lines(alloc: Global, input: &[u8], options: PageOptions) -> Result<Octets, InputFault>
    ensures octets { IfOk result (λ octets. (rows : List Elements)
        × (bits : List Bool) × AreRows (row_width options) rows × TellRows (lines_of input.now) rows
        × WritesPage options.coding options.format.fine options.least_bits rows bits
        × IsPadded octets bits) }
    ensures fault { IfErr result (λ fault. RefusesLines (row_width options) input.now fault) }
{
    let rows: PackedRows = rows_of_lines(alloc, input, options.format.width)?;
    let page = Page::new(options.format, rows);
    let octets = write_page(alloc, &page, options.coding, options.least_bits)?;
    Ok(octets)
}

/// The rows of a width that lines tell.
fn rows_of_lines<S: RowStore>(alloc: Global, input: &[u8], width: Width) -> Result<S, InputFault>
    ensures rows { IfOk result (λ rows. AreRows (elements_of width) (S.rows rows)) }
    ensures told { IfOk result (λ rows. TellRows (lines_of input.now) (S.rows rows)) }
    ensures fault { IfErr result (λ fault. RefusesLines (elements_of width) input.now fault) }
{
    let mut rows = S::empty(alloc);
    let mut rest = input;
    while let Some((line, after)) = first_line(rest) {
        let number = rows.len();
        if number >= MOST_ROWS {
            return Err(InputFault::Page(PageFault::TooManyRows));
        }
        let Some(row) = row_of_line(alloc, line, width)? else {
            return Err(InputFault::Row(number));
        };
        if rows.push(row).is_err() {
            return Err(InputFault::NoMemory);
        }
        rest = after;
    }
    if rows.len() == 0 {
        return Err(InputFault::Page(PageFault::Empty));
    }
    Ok(rows)
}
