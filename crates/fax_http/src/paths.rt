//! The paths of pictures.
ghost use Rattle.std.specs.Prelude.{◌≡◌, IfOk, string_bytes};
ghost use Rattle.fax_http.specs.PicturePaths.{picture_path};

use percent_encoding::{AsciiSet, NON_ALPHANUMERIC, ascii_set, percent_encode};
use std::alloc::{AllocError, Global};

/// What is escaped of a line's name in a path: all but letters, digits, `-`, `.`, `_` and `~`, of ASCII (RFC 3986, 2.3).
const ESCAPED: AsciiSet = ascii_set!(
    NON_ALPHANUMERIC
        .remove(b'-')
        .remove(b'.')
        .remove(b'_')
        .remove(b'~')
);

/// The path of the picture of a call's first page that could not be delivered.
#[tactic(auto, unfolding(crate::specs::PicturePaths::picture_path))]
pub fn picture_path(alloc: Global, line: &[u8], life: u64, call: u32) -> Result<String, AllocError>
    ensures { IfOk result (λ path. string_bytes path ≡ picture_path line.now life call) }
{
    let mut path = String::from_str(alloc, "/undelivered/")?;
    percent_encode(line, ESCAPED).append_to(&mut path)?;
    write!(path, "/{life}/{call}.png")?;
    Ok(path)
}
