//! One-dimensional lines, written.
ghost use Rattle.std.specs.Prelude.{List, Bool, ◌++◌, ◌≡◌, ◌≤◌, ◌+◌, ◌*◌, length, OnOk, OnErr};
ghost use Rattle.fax_runcodes.specs.Rows.{IsWidth};
ghost use Rattle.fax_runcodes.specs.Painted.{AreRising, painted};
ghost use Rattle.fax_runcodes.specs.declared.Colour.TheVariants.{White};
ghost use Rattle.fax_mhcode.specs.Lines.{WritesLine};

use fax_bits::{BitWriter, NoMemory, RoomyWriter};
use fax_runcodes::{Colour, Row, RowRef, put_run, put_two_runs};

/// Writes the line of a row: its runs, white first, each in its one written form. Only the writer
/// takes memory. An `Err` changes nothing.
pub fn write_line_1d(writer: &mut BitWriter, row: &Row) -> Result<(), NoMemory>
    ensures ok { OnOk result ((text : List Bool)
        × WritesLine row.now text × (writer.new ≡ writer.old ++ text)) }
    ensures err { OnErr result (writer.new ≡ writer.old) }
{
    write_lent_line_1d(writer, &row.lend())
}

/// Writes the line of a row that is lent, as [`write_line_1d`] does. Only the writer takes memory. An
/// `Err` changes nothing.
pub fn write_lent_line_1d(writer: &mut BitWriter, row: &RowRef<'_>) -> Result<(), NoMemory>
    ensures ok { OnOk result ((text : List Bool)
        × WritesLine row.now text × (writer.new ≡ writer.old ++ text)) }
    ensures err { OnErr result (writer.new ≡ writer.old) }
{
    let (changes, width) = (row.changes(), row.width());
    let mut roomy = writer.take_with_room(4 * (changes.len() + 1))?;
    put_runs(&mut roomy, changes, width);
    *writer = roomy.into_writer();
    Ok(())
}

/// Writes the runs of the row of such changing places: each reaches from one of them to the next. No run
/// takes more than 29 bits. It takes no memory.
#[inline(always)]
fn put_runs(writer: &mut RoomyWriter, changes: &[u16], width: u16)
    requires rising { AreRising 0 changes.now width }
    requires is_width { IsWidth width }
    requires room { 29 * (length changes.now + 1) ≤ writer.old.room }
    ensures { (text : List Bool) × WritesLine (painted White 0 changes.now width) text
        × (writer.new.bits ≡ writer.old.bits ++ text) }
{
    let mut rest = changes;
    let mut from = 0;
    while let [black, white, after @ ..] = rest {
        let (black, white) = (*black as u32, *white as u32);
        put_two_runs(writer, 0, 0, Colour::White, black - from, white - black);
        from = white;
        rest = after;
    }
    let width = width as u32;
    let [black, ..] = rest else {
        put_run(writer, Colour::White, width - from);
        return;
    };
    let black = *black as u32;
    put_two_runs(writer, 0, 0, Colour::White, black - from, width - black);
}
