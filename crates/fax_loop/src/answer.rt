//! What is answered to an input.
ghost use Rattle.std.specs.Prelude.{ℕ, ◌≡◌, List, false, OnOk, IfOk};
ghost use Rattle.std.specs.Io.KnownBytes.{Appends};
ghost use Rattle.fax_gateway.specs.Setups.{AreAllowed};
ghost use Rattle.fax_command.specs.RowLines.{TellRows, text_of_lines};
ghost use Rattle.fax_command.specs.Streams.{failed_after_write};
ghost use Rattle.fax_loop.specs.Answers.{EndsOf, EndsSo, IsInput, rows_of};
ghost use Rattle.fax_loop.specs.Opened.{IsSent, told_lines};
ghost use Rattle.fax_loop.specs.Rep.{IsAnswerText, ending_of_answer};

use crate::ending::Ending;
use crate::exchange::{CallEnd, send_page};
use crate::loop_error::LoopError;
use crate::opens_lines::OpensLines;
use fax_bits::NoMemory;
use fax_command::{
    InputFault, MEMORY_LINE, Output, PageOptions, Sink, WriteFault, page_of_hex, write_rows,
    write_text,
};
use fax_gateway::Settings;
use fax_jobs::Outcome;
use fax_pagestore::{Coding, Format, PackedRows, Page};
use fax_runcodes::Width;
use std::alloc::Global;
use std::io;

/// How the page is given: in rows of 1,728 elements, of the standard resolution, in one-dimensional lines.
const GIVEN: PageOptions = PageOptions {
    format: Format {
        width: Width::W1728,
        fine: false,
    },
    coding: Coding::Mh,
    least_bits: 0,
    output: Output::Runs,
};

/// The job was reported: how it ended, the line that tells it, and the pages that the called machine confirmed.
#[derive(Drop)]
pub(crate) struct Reported {
    outcome: Outcome,
    line: String,
    confirmed: Vec<Page<PackedRows>>,
}

/// What a run answers.
#[derive(Drop)]
pub(crate) enum Answer {
    Reported(Reported),
    /// The job was not reported in time, or no more could be received.
    Unreported,
    /// The line of what is wrong with the input.
    Fault(Vec<u8>),
    NoMemory,
}

impl Answer {
    /// Writes the text, and hands it on.
    pub fn write<O: Sink>(&self, alloc: Global, sink: &mut O) -> Result<(), WriteFault>
        ensures text { OnOk result ((text : List ℕ) × IsAnswerText self.now text
            × Appends (O.contents sink.old) (O.contents sink.new) text) }
        ensures failed { O.failed sink.new ≡ failed_after_write (O.failed sink.old) result }
        ensures handed_on { OnOk result (O.held_back sink.new ≡ false) }
    {
        match self {
            Answer::Reported(reported) => {
                sink.write_all(reported.line.as_bytes())?;
                sink.write_all(b"\n")?;
                write_pages(alloc, sink, reported.confirmed.as_slice())?;
                sink.flush()?;
                Ok(())
            }
            Answer::Unreported => sink.flush(),
            Answer::Fault(line) => write_text(sink, line.as_slice()),
            Answer::NoMemory => write_text(sink, MEMORY_LINE),
        }
    }

    /// How a run that writes it ends.
    pub fn ending(&self) -> Ending
        ensures { result ≡ ending_of_answer self.now }
    {
        match self {
            Answer::Reported(reported) => Ending::Reported(reported.outcome),
            Answer::Unreported => Ending::Unreported,
            Answer::Fault(_) => Ending::Fault,
            Answer::NoMemory => Ending::NoMemory,
        }
    }
}

/// The answer to an input, with these settings. An `Err`: no lines could be opened.
pub(crate) fn answer_to<L: OpensLines>(
    opener: &L,
    alloc: Global,
    input: Vec<u8>,
    settings: Settings,
) -> io::Result<Answer>
    requires { AreAllowed settings }
    ensures { IfOk result (λ answer. (text : List ℕ)
        → IsAnswerText answer text → EndsSo (IsSent (told_lines L.End.told L.Wire.known)
        (L.opened opener.now) settings) input.items (ending_of_answer answer) text) }
{
    match page_of_hex(alloc, input, GIVEN) {
        Ok(page) => answer_to_page(opener, alloc, page, settings),
        Err(InputFault::NoMemory) => Ok(Answer::NoMemory),
        Err(fault) => match fault.line(alloc) {
            Ok(line) => Ok(Answer::Fault(line)),
            Err(NoMemory) => Ok(Answer::NoMemory),
        },
    }
}

/// The answer to a page, which is sent.
fn answer_to_page<L: OpensLines>(
    opener: &L,
    alloc: Global,
    page: Page<PackedRows>,
    settings: Settings,
) -> io::Result<Answer>
    requires { AreAllowed settings }
    ensures { IfOk result (λ answer. (input text : List ℕ) → IsInput page input
        → IsAnswerText answer text → EndsSo (IsSent (told_lines L.End.told L.Wire.known)
        (L.opened opener.now) settings) input (ending_of_answer answer) text) }
{
    match send_page(opener, alloc, page, settings) {
        Ok(ended) => Ok(answer_of(alloc, ended)),
        Err(LoopError::NoMemory) => Ok(Answer::NoMemory),
        Err(LoopError::Socket(error)) => Err(error),
    }
}

/// The answer where a call ended so.
fn answer_of(alloc: Global, ended: CallEnd) -> Answer
    ensures { (text : List ℕ) → IsAnswerText result text
        → EndsOf ended.report ended.confirmed.items (ending_of_answer result) text }
{
    let Some(report) = ended.report else {
        return Answer::Unreported;
    };
    match format!(in alloc; "{report}") {
        Ok(line) => Answer::Reported(Reported {
            outcome: report.outcome,
            line,
            confirmed: ended.confirmed,
        }),
        Err(_) => Answer::NoMemory,
    }
}

/// Writes the lines of the rows of pages.
fn write_pages<O: Sink>(
    alloc: Global,
    sink: &mut O,
    pages: &[Page<PackedRows>],
) -> Result<(), WriteFault>
    ensures text { OnOk result ((lines : List (List ℕ)) × TellRows lines (rows_of pages.now)
        × Appends (O.contents sink.old) (O.contents sink.new) (text_of_lines lines)) }
    ensures failed { O.failed sink.new ≡ failed_after_write (O.failed sink.old) result }
{
    for page in pages {
        write_rows(alloc, sink, page.rows())?;
    }
    Ok(())
}
