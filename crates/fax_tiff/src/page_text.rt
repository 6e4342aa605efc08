//! A page as its directory has it, read.
ghost use Rattle.std.specs.Prelude.{◌≡◌, ◌≢◌, ◌*◌, IfErr, IfOk, Err, Ok, length};
ghost use Rattle.fax_tiff.specs.Directories.{Gives};
ghost use Rattle.fax_tiff.specs.ReadTiffs.{head_of, page_at};
ghost use Rattle.fax_tiff.specs.Shown.{directory_shown};

use crate::directory::{Directory, read_directory, read_number};
use crate::fault::TiffFault;
use crate::fields::{check_fax, read_coding, read_format, read_reversed};
use crate::number::{ByteOrder, spend};
use crate::strips::{gather_strips, text_of};
use crate::tags::IMAGE_LENGTH;
use fax_pagestore::{Coding, Format};
use std::alloc::Global;
use std::marker::Model;

/// A page before its text is read.
pub(crate) struct PageText {
    pub format: Format,
    pub coding: Coding,
    /// How many rows it is said to have.
    pub height: u32,
    /// A text of ITU-T T.4, with a return to control.
    pub text: Vec<u8>,
}

impl Drop for PageText {
    fn drop(self) {
        let PageText {
            format: _format,
            coding: _coding,
            height: _height,
            text: _text,
        } = self;
    }
}

impl Model for PageText {
    ghost use Rattle.fax_tiff.specs.ReadTiffs.{PageText};

    ghost Value = { PageText };

    ghost view = { λ page. record {
      format = page.format;
      coding = page.coding;
      height = page.height;
      text = page.text.items;
    } };
}

/// What the fields of a page say, but for its strips.
#[derive(Clone, Copy)]
pub(crate) struct PageHead {
    pub format: Format,
    pub coding: Coding,
    /// Whether the least significant bit of an octet is the first.
    pub reversed: bool,
    pub height: u32,
}

/// Reads what the fields of a page say.
#[tactic(auto, unfolding(crate::specs::ReadTiffs::head_of))]
fn read_page_head(
    order: ByteOrder,
    octets: &[u8],
    directory: &Directory<'_>,
) -> Result<PageHead, TiffFault>
    requires { length directory.now.entries.now ≡ 12 * directory.now.count }
    ensures { Gives
        (λ head. head) result (head_of order octets.now (directory_shown directory.now)) }
{
    check_fax(order, directory)?;
    let format = read_format(order, octets, directory)?;
    let coding = read_coding(order, directory)?;
    let reversed = read_reversed(order, directory)?;
    let height = read_number(order, IMAGE_LENGTH, directory)?;
    Ok(PageHead {
        format,
        coding,
        reversed,
        height,
    })
}

/// A page that was read, where the next directory stands, and how many octets of the file are left.
#[derive(Drop)]
pub(crate) struct PageRead {
    pub page: PageText,
    pub next: u32,
    pub left: usize,
}

impl Model for PageRead {
    ghost use Rattle.fax_tiff.specs.ReadTiffs.{PageRead};

    ghost Value = { PageRead };

    ghost view = { λ read. record { page = read.page; next = read.next; left = read.left } };
}

/// Reads the page whose directory stands at a place, where so many octets of the file are left. It takes memory for its text.
#[tactic(auto, unfolding(crate::specs::ReadTiffs::page_at))]
pub(crate) fn read_page_at(
    alloc: Global,
    order: ByteOrder,
    octets: &[u8],
    place: u32,
    left: usize,
) -> Result<PageRead, TiffFault>
    ensures ok { IfOk result (λ read. page_at order octets.now place left ≡ Ok read) }
    ensures fault { IfErr result
        (λ fault. fault ≢ TiffFault.NoMemory → page_at order octets.now place left ≡ Err fault) }
{
    let directory = read_directory(order, octets, place as usize)?;
    let after = spend(left, 12 * usize::from(directory.count))?;
    let head = read_page_head(order, octets, &directory)?;
    let (strips, left) = gather_strips(alloc, order, octets, &directory, after)?;
    let text = text_of(alloc, head.reversed, head.coding, strips)?;
    Ok(PageRead {
        page: PageText {
            format: head.format,
            coding: head.coding,
            height: head.height,
            text,
        },
        next: directory.next,
        left,
    })
}
