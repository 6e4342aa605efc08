//! Lines of the ladder.
ghost use Rattle.std.specs.Prelude.{◌≡◌, ◌-◌, ◌++◌, ◌∷◌, [], OnOk, IfOk, map, replicate};
ghost use Rattle.fax_descriptions.specs.Tales.{line_text, moment_text, paragraph_text};
ghost use Rattle.fax_descriptions.specs.Tellings.{telling_of};

use crate::tale::Entry;
use fax_bits::NoMemory;
use itoa::Buffer;
use std::alloc::Global;

/// The lines of what happened at a moment.
pub(crate) fn paragraph_of(
    alloc: Global,
    moment: u64,
    entries: &[Entry],
) -> Result<Vec<u8>, NoMemory>
    ensures { IfOk result
        (λ text. text.items ≡ paragraph_text moment (map telling_of entries.now)) }
{
    let mut text = Vec::new(alloc);
    for entry in entries {
        push_line(&mut text, moment, entry)?;
    }
    Ok(text)
}

/// Adds the line of a thing that happened at a moment.
fn push_line(text: &mut Vec<u8>, moment: u64, entry: &Entry) -> Result<(), NoMemory>
    ensures { OnOk result (text.new.items
        ≡ text.old.items ++ (line_text moment (telling_of entry.now) ++ 10 ∷ [])) }
{
    push_moment(text, moment)?;
    text.extend_from_slice(entry.lane.picture().as_bytes())?;
    text.extend_from_slice(b"  ")?;
    text.extend_from_slice(entry.words.as_str().as_bytes())?;
    text.push(b'\n')?;
    Ok(())
}

/// Adds a moment, and spaces up to the tenth column, one at least.
fn push_moment(text: &mut Vec<u8>, moment: u64) -> Result<(), NoMemory>
    ensures { OnOk result (text.new.items ≡ text.old.items ++ moment_text moment) }
{
    let mut buffer = Buffer::new();
    let digits = buffer.format(moment).as_bytes();
    text.extend_from_slice(digits)?;
    text.extend_from_slice(spaces_after(digits.len()))?;
    text.push(b' ')?;
    Ok(())
}

/// The spaces after so many digits, up to the ninth column.
fn spaces_after(digits: usize) -> &'static [u8]
    ensures { result.now ≡ replicate (9 - digits) 32 }
{
    &b"         "[digits.min(9)..]
}
