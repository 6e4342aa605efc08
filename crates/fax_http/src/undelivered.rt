//! What a page tells of calls of which pages could not be delivered.
ghost use Rattle.std.specs.Prelude.{◌≡◌, ◌++◌, OnOk};
ghost use Rattle.std.specs.List.{flat_map};
ghost use Rattle.fax_http.specs.Undelivered.{call_part, facts_part, heading_part, name_part, picture_part, shown_undelivered, told_part, undelivered_part, why_part, word_part};

use crate::cells::put_call;
use crate::paths::picture_path;
use crate::text::{put, put_number, put_text};
use crate::view::UndeliveredView;
use std::alloc::AllocError;

/// What stands before the calls, and after them.
const UNDELIVERED: &[u8] =
    b"<section aria-labelledby=\"undelivered\">\n<h2 id=\"undelivered\">Undelivered</h2>\n";

const UNDELIVERED_END: &[u8] =
    b"<p>SOCKET is the control socket. <code>faxgate spool FOLDER LINE LIFE CALL --pages PREFIX</code> writes all pages of a call. A picture shows the first of them; at most one is made a second.</p>\n</section>\n";

/// What stands before and after the words that send a call's pages again, and that drop them.
const RETRY: &[u8] = b"<p>To send it again: <code>faxgate say SOCKET retry ";

const DISCARD: &[u8] = b"<p>To drop it: <code>faxgate say SOCKET discard ";

const WORD_END: &[u8] = b"</code></p>\n";

/// Adds the calls of which pages could not be delivered, where there are some.
pub(crate) fn put_undelivered(
    octets: &mut Vec<u8>,
    calls: &[UndeliveredView<'_>],
) -> Result<(), AllocError>
    ensures { OnOk result (octets.new.items ≡ octets.old.items ++ undelivered_part calls.now) }
{
    if calls.is_empty() {
        Ok(())
    } else {
        put_shown_undelivered(octets, calls)
    }
}

/// Adds them.
fn put_shown_undelivered(
    octets: &mut Vec<u8>,
    calls: &[UndeliveredView<'_>],
) -> Result<(), AllocError>
    ensures { OnOk result (octets.new.items ≡ octets.old.items ++ shown_undelivered calls.now) }
{
    put(octets, UNDELIVERED)?;
    put_calls(octets, calls)?;
    put(octets, UNDELIVERED_END)
}

/// Adds each of them.
fn put_calls(octets: &mut Vec<u8>, calls: &[UndeliveredView<'_>]) -> Result<(), AllocError>
    ensures { OnOk result (octets.new.items ≡ octets.old.items ++ flat_map call_part calls.now) }
{
    for call in calls {
        put_one_call(octets, call)?;
    }
    Ok(())
}

/// Adds one of them: its picture, and what is told of it.
fn put_one_call(octets: &mut Vec<u8>, call: &UndeliveredView<'_>) -> Result<(), AllocError>
    ensures { OnOk result (octets.new.items ≡ octets.old.items ++ call_part call.now) }
{
    put(octets, b"<article>\n")?;
    put_picture(octets, call)?;
    put_told(octets, call)?;
    put(octets, b"</article>\n")
}

/// Adds the picture of its first page.
fn put_picture(octets: &mut Vec<u8>, call: &UndeliveredView<'_>) -> Result<(), AllocError>
    ensures { OnOk result (octets.new.items ≡ octets.old.items ++ picture_part call.now) }
{
    let alloc = *octets.allocator();
    let path = picture_path(alloc, call.line.as_bytes(), call.life, call.call.call)?;
    put(octets, b"<img src=\"")?;
    put_text(octets, path.as_str())?;
    put(octets, b"\" alt=\"The first page of ")?;
    put_call(octets, &call.call)?;
    put(octets, b"\" loading=\"lazy\">\n")
}

/// Adds what is told of it.
fn put_told(octets: &mut Vec<u8>, call: &UndeliveredView<'_>) -> Result<(), AllocError>
    ensures { OnOk result (octets.new.items ≡ octets.old.items ++ told_part call.now) }
{
    put(octets, b"<div>\n")?;
    put_heading(octets, call)?;
    put_facts(octets, call)?;
    put_why(octets, call)?;
    put_word(octets, RETRY, call)?;
    put_word(octets, DISCARD, call)?;
    put(octets, b"</div>\n")
}

/// Adds its line, and which call it is.
fn put_heading(octets: &mut Vec<u8>, call: &UndeliveredView<'_>) -> Result<(), AllocError>
    ensures { OnOk result (octets.new.items ≡ octets.old.items ++ heading_part call.now) }
{
    put(octets, b"<h3>")?;
    put_text(octets, call.line)?;
    put(octets, b": ")?;
    put_call(octets, &call.call)?;
    put(octets, b"</h3>\n")
}

/// Adds how many pages it has, how often it was tried, and when last.
fn put_facts(octets: &mut Vec<u8>, call: &UndeliveredView<'_>) -> Result<(), AllocError>
    ensures { OnOk result (octets.new.items ≡ octets.old.items ++ facts_part call.now) }
{
    put(octets, b"<p>Pages: ")?;
    put_number(octets, call.pages)?;
    put(octets, b". Tries: ")?;
    put_number(octets, call.tries)?;
    put(octets, b", the last: ")?;
    put_text(octets, call.at)?;
    put(octets, b".</p>\n")
}

/// Adds how its job ended.
fn put_why(octets: &mut Vec<u8>, call: &UndeliveredView<'_>) -> Result<(), AllocError>
    ensures { OnOk result (octets.new.items ≡ octets.old.items ++ why_part call.now) }
{
    put(octets, b"<p>Why: ")?;
    put_text(octets, call.outcome)?;
    put(octets, b".</p>\n")
}

/// Adds a word for it.
fn put_word(octets: &mut Vec<u8>, word: &[u8], call: &UndeliveredView<'_>) -> Result<(), AllocError>
    ensures { OnOk result (octets.new.items ≡ octets.old.items ++ word_part word.now call.now) }
{
    put(octets, word)?;
    put_call_name(octets, call)?;
    put(octets, WORD_END)
}

/// Adds the names that a word has of it.
fn put_call_name(octets: &mut Vec<u8>, call: &UndeliveredView<'_>) -> Result<(), AllocError>
    ensures { OnOk result (octets.new.items ≡ octets.old.items ++ name_part call.now) }
{
    put_text(octets, call.line)?;
    put(octets, b" ")?;
    put_number(octets, call.life)?;
    put(octets, b" ")?;
    put_number(octets, u64::from(call.call.call))
}
