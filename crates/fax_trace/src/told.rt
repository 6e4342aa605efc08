//! Lines that tell what a gateway answers.
ghost use Rattle.std.specs.Prelude.{ℕ, ◌≡◌, ◌++◌, ◌∷◌, [], List, None, codes, decimal, IfOk, IsOk, OnOk, string_bytes};
ghost use Rattle.fax_command.specs.RowLines.{text_of_lines};
ghost use Rattle.fax_gateway.specs.Due.{nothing_given};
ghost use Rattle.fax_gateway.specs.Reached.{given_shown};
ghost use Rattle.fax_gateway.specs.Turns.{call_if_new};
ghost use Rattle.fax_trace.specs.Told.{asked_lines, datagram_lines, given_lines, job_lines};

use crate::hex_text::push_hex;
use fax_bits::{NoMemory, Octets};
use fax_gateway::Given;
use fax_jobs::Report;
use itoa::{Buffer, Integer};
use std::alloc::Global;

/// A line of words and a number.
pub(crate) fn numbered_line<I: Integer>(
    alloc: Global,
    words: &[u8],
    number: I,
) -> Result<Vec<u8>, NoMemory>
    ensures { IfOk result (λ text. text.items ≡ words.now ++ (I.text number ++ 10 ∷ [])) }
{
    let mut buffer = Buffer::new();
    let mut text = Vec::from_slice(alloc, words)?;
    text.extend_from_slice(buffer.format(number).as_bytes())?;
    text.push(b'\n')?;
    Ok(text)
}

/// Adds the line of the call that is asked for, where none was. Memory is taken for that alone.
pub(crate) fn push_asked(
    alloc: Global,
    text: &mut Vec<u8>,
    was_asked: Option<u32>,
    is_asked: Option<u32>,
) -> Result<(), NoMemory>
    ensures told { OnOk result (text.new.items
        ≡ text.old.items ++ text_of_lines (asked_lines (call_if_new was_asked is_asked))) }
    ensures memory { call_if_new was_asked is_asked ≡ None → IsOk result }
{
    let (None, Some(call)) = (was_asked, is_asked) else {
        return Ok(());
    };
    let line = numbered_line(alloc, b"asks ", call)?;
    text.extend_from_slice(line.as_slice())?;
    Ok(())
}

/// The lines of what a tick gives. Where it gives nothing they take no memory.
pub(crate) fn lines_of_given(alloc: Global, given: &Given) -> Result<Vec<u8>, NoMemory>
    ensures told { IfOk result
        (λ text. text.items ≡ text_of_lines (given_lines (given_shown given.now))) }
    ensures memory { given.now ≡ nothing_given → IsOk result }
{
    let mut text = Vec::new(alloc);
    push_datagram(&mut text, b"a ", &given.calling)?;
    push_datagram(&mut text, b"b ", &given.called)?;
    push_job(alloc, &mut text, &given.report)?;
    Ok(text)
}

/// Adds the line of a datagram, where there is one: a letter and a space, and its octets as hex text, in lower case.
fn push_datagram(
    text: &mut Vec<u8>,
    letter: &[u8],
    datagram: &Option<Octets>,
) -> Result<(), NoMemory>
    ensures told { OnOk result (text.new.items
        ≡ text.old.items ++ text_of_lines (datagram_lines letter.now datagram.now)) }
    ensures memory { datagram.now ≡ None → IsOk result }
{
    if let Some(octets) = datagram {
        let octets = octets.as_slice();
        text.reserve(octets.len().saturating_mul(2).saturating_add(3))?;
        text.extend_from_slice(letter)?;
        push_hex(text, octets)?;
        text.push(b'\n')?;
    }
    Ok(())
}

/// Adds the line of a job that ended, where one did.
fn push_job(alloc: Global, text: &mut Vec<u8>, report: &Option<Report>) -> Result<(), NoMemory>
    ensures told { OnOk result (text.new.items
        ≡ text.old.items ++ text_of_lines (job_lines report.now)) }
    ensures memory { report.now ≡ None → IsOk result }
{
    if let Some(report) = report {
        let line = format!(in alloc; "{report}")?;
        text.extend_from_slice(line.as_bytes())?;
        text.push(b'\n')?;
    }
    Ok(())
}
