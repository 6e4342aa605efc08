//! A page as a TIFF has it: its lines coded.
ghost use Rattle.std.specs.Prelude.{◌≡◌, ◌≤◌, IfOk, length};
ghost use Rattle.fax_tiff.specs.Strips.{IsCodedPage, strip_in};

use fax_bits::NoMemory;
use fax_pagestore::{Coding, Format, Page, RowStore, write_page};
use std::alloc::Global;
use std::marker::Model;

/// How many octets a return to control has in one dimension: six EOLs of twelve bits (ITU-T T.4, 4.1.4).
const RETURN_OCTETS: usize = 9;

/// A page with its lines coded in one dimension (ITU-T T.4, 4.1), as a strip of a TIFF has them (RFC 2306).
pub struct CodedPage {
    pub(crate) format: Format,
    /// How many rows it has.
    pub(crate) height: u32,
    /// An EOL before each line, and none after the last; an even number of octets.
    pub(crate) strip: Vec<u8>,
}

impl Drop for CodedPage {
    fn drop(self) {
        let CodedPage {
            format: _format,
            height: _height,
            strip: _strip,
        } = self;
    }
}

impl Model for CodedPage {
    ghost use Rattle.fax_tiff.specs.Strips.{CodedPage};

    ghost Value = { CodedPage };

    ghost view = { λ page.
        record { format = page.format; height = page.height; strip = page.strip.items } };
}

impl CodedPage {
    /// Codes the lines of a page. It takes memory for the octets of the strip.
    pub fn new<S: RowStore>(alloc: Global, page: &Page<S>) -> Result<Self, NoMemory>
        ensures { IfOk result (IsCodedPage page.now) }
    {
        let text = write_page(alloc, page, Coding::Mh, 0)?;
        Ok(CodedPage {
            format: page.format(),
            height: page.rows().len(),
            strip: strip_of(text.into_vec())?,
        })
    }
}

/// The strip of a page's text: without its return to control, and with a zero octet after an odd number.
#[tactic(auto, unfolding(crate::specs::Strips::strip_in))]
fn strip_of(text: Vec<u8>) -> Result<Vec<u8>, NoMemory>
    requires { 9 ≤ length text.items }
    ensures { IfOk result (λ strip. strip.items ≡ strip_in text.items) }
{
    let mut strip = text;
    strip.truncate(strip.len() - RETURN_OCTETS);
    if strip.len() % 2 == 1 {
        strip.push(0)?;
    }
    Ok(strip)
}
