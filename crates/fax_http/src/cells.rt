//! The cells of a page's tables.
ghost use Rattle.std.specs.Prelude.{◌≡◌, ◌++◌, OnOk, option_map};
ghost use Rattle.fax_http.specs.Cells.{call_shown, called_cell, calling_cell, name_cell, number_cell, shown_cell, tag_shown, text_cell};

use crate::text::{put, put_number, put_text};
use crate::view::{CallView, CalledView};
use std::alloc::AllocError;

/// Adds the head of a row: a name.
pub(crate) fn put_name(octets: &mut Vec<u8>, name: &str) -> Result<(), AllocError>
    ensures { OnOk result (octets.new.items ≡ octets.old.items ++ name_cell name.now) }
{
    put(octets, b"<th scope=\"row\">")?;
    put_text(octets, name)?;
    put(octets, b"</th>")
}

/// Adds a cell with a text.
pub(crate) fn put_text_cell(octets: &mut Vec<u8>, text: &str) -> Result<(), AllocError>
    ensures { OnOk result (octets.new.items ≡ octets.old.items ++ text_cell text.now) }
{
    put(octets, b"<td>")?;
    put_text(octets, text)?;
    put(octets, b"</td>")
}

/// Adds a cell with a number.
pub(crate) fn put_number_cell(octets: &mut Vec<u8>, number: u64) -> Result<(), AllocError>
    ensures { OnOk result (octets.new.items ≡ octets.old.items ++ number_cell number) }
{
    put(octets, b"<td class=\"number\">")?;
    put_number(octets, number)?;
    put(octets, b"</td>")
}

/// Adds a call: its number, and its tag where it has one.
pub(crate) fn put_call(octets: &mut Vec<u8>, call: &CallView<'_>) -> Result<(), AllocError>
    ensures { OnOk result (octets.new.items ≡ octets.old.items ++ call_shown call.now) }
{
    put(octets, b"call ")?;
    put_number(octets, u64::from(call.call))?;
    put_tag(octets, call.tag)
}

/// Adds a tag, where there is one.
fn put_tag(octets: &mut Vec<u8>, tag: Option<&str>) -> Result<(), AllocError>
    ensures { OnOk result (octets.new.items
        ≡ octets.old.items ++ tag_shown (option_map (λ tag. tag.now) tag.entry)) }
{
    match tag {
        Some(tag) => {
            put(octets, b", ")?;
            put_text(octets, tag)
        }
        None => Ok(()),
    }
}

/// Adds a cell that says what is done with a call.
pub(crate) fn put_call_cell(
    octets: &mut Vec<u8>,
    what: &[u8],
    call: &CallView<'_>,
) -> Result<(), AllocError>
    ensures { OnOk result (octets.new.items ≡ octets.old.items ++ shown_cell what.now call.now) }
{
    put(octets, b"<td>")?;
    put(octets, what)?;
    put_call(octets, call)?;
    put(octets, b"</td>")
}

/// Adds the cell of a calling leg.
pub(crate) fn put_calling(
    octets: &mut Vec<u8>,
    calling: Option<CallView<'_>>,
) -> Result<(), AllocError>
    ensures { OnOk result (octets.new.items ≡ octets.old.items ++ calling_cell calling.entry) }
{
    match calling {
        Some(call) => put_call_cell(octets, b"receives ", &call),
        None => put(octets, b"<td>idle</td>"),
    }
}

/// Adds the cell of a called leg.
pub(crate) fn put_called(octets: &mut Vec<u8>, called: &CalledView<'_>) -> Result<(), AllocError>
    ensures { OnOk result (octets.new.items ≡ octets.old.items ++ called_cell called.now) }
{
    match called {
        CalledView::Idle => put(octets, b"<td>idle</td>"),
        CalledView::Asks(call) => put_call_cell(octets, b"asks for the call of the job of ", call),
        CalledView::Sends(call) => put_call_cell(octets, b"sends the pages of ", call),
    }
}
