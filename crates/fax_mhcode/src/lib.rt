//! One-dimensional lines (ITU-T T.4, 4.1): a row as the code words of its runs, white and black in
//! turn and white first.
#![tactic(auto)]

ghost use Rattle.std.specs.Prelude.{List, Bool, false, Ok, Err, ◌⊎◌, ◌++◌, ◌≡◌, ◌≢◌, ◌+◌, ◌^◌, ◌<◌, ◌≤◌, [], drop, replicate, IfOk, IfErr, IfSome, OnOk, OnErr, IsOk};
ghost use Rattle.fax_bits.specs.Bits.{word_bits};
ghost use Rattle.fax_bits.specs.Reading.{Passes};
ghost use Rattle.fax_runcodes.specs.Rows.{Elements, IsWidth};
ghost use Rattle.fax_mhcode.specs.declared.fault.LineFault.{LineFault};
ghost use Rattle.fax_runcodes.specs.Widths.{elements_of};
ghost use Rattle.fax_mhcode.specs.Lines.{SpellsLine};
ghost use Rattle.fax_mhcode.specs.LineFaults.{FailsLine};

mod fault;
pub mod laws;
mod pairs;
mod passing;
mod writing;

pub use fault::LineFault;
use fax_bits::BitReader;
use fax_runcodes::{Colour, Row, RowBuilder, Width, read_run};
use pairs::read_pairs;
pub use passing::pass_line_1d;
use std::alloc::Global;
pub use writing::{write_lent_line_1d, write_line_1d};

/// Reads a one-dimensional line, and makes the row of this width that it spells. An `Err` leaves the
/// reader where it stood.
pub fn read_line_1d(alloc: Global, reader: &mut BitReader, width: Width) -> Result<Row, LineFault>
    ensures ok { IfOk result (λ row. (text : List Bool)
        × SpellsLine (elements_of width) text row × Passes reader.old reader.new text) }
    ensures fault { IfErr result (λ fault. fault ≢ LineFault.NoMemory
        → FailsLine (elements_of width) reader.old.left fault) }
    ensures err { OnErr result (reader.new ≡ reader.old) }

    // Memory aside, a line that begins the bits is read, and a fault comes only where it is met.
    ensures reads { (row : Elements) (text rest : List Bool)
        → SpellsLine (elements_of width) text row
        → reader.old.left ≡ text ++ rest → (result ≡ Ok row) ⊎ (result ≡ Err LineFault.NoMemory) }
    ensures fails { (fault : LineFault) → FailsLine (elements_of width) reader.old.left fault
        → (result ≡ Err fault) ⊎ (result ≡ Err LineFault.NoMemory) }
{
    let mut line = RowBuilder::new(alloc)?;
    let mut ahead = reader.copy();
    read_line_1d_into(&mut line, &mut ahead, width)?;
    let row = line.row()?;
    *reader = ahead;
    Ok(row)
}

/// Reads a one-dimensional line of this width into a builder that is empty, whose room is used again
/// from line to line. It takes no memory. An `Err` leaves the reader where it stood, and the builder
/// empty.
pub fn read_line_1d_into(
    line: &mut RowBuilder,
    reader: &mut BitReader,
    width: Width,
) -> Result<(), LineFault>
    requires { line.old ≡ [] }
    ensures ok { OnOk result ((text : List Bool)
        × SpellsLine (elements_of width) text line.new × Passes reader.old reader.new text) }
    ensures fault { IfErr result (λ fault. fault ≢ LineFault.NoMemory
        → FailsLine (elements_of width) reader.old.left fault) }
    ensures err { OnErr result (reader.new ≡ reader.old) }
    ensures empty { OnErr result (line.new ≡ []) }
    ensures memory { result ≢ Err LineFault.NoMemory }

    // Memory aside, a line that begins the bits is read, and a fault comes only where it is met.
    ensures reads { (row : Elements) (text rest : List Bool)
        → SpellsLine (elements_of width) text row → reader.old.left ≡ text ++ rest
        → (IsOk result × (line.new ≡ row)) ⊎ (result ≡ Err LineFault.NoMemory) }
    ensures fails { (fault : LineFault) → FailsLine (elements_of width) reader.old.left fault
        → (result ≡ Err fault) ⊎ (result ≡ Err LineFault.NoMemory) }
{
    let mut ahead = reader.copy();
    let result = read_runs(line, &mut ahead, width.elements());
    if result.is_ok() {
        *reader = ahead;
    } else {
        line.clear();
    }
    result
}

/// Reads the runs of a line of so many elements into a builder that is empty. After an `Err` the
/// reader stands anywhere, and the builder has any elements.
fn read_runs(line: &mut RowBuilder, reader: &mut BitReader, width: u16) -> Result<(), LineFault>
    requires width { IsWidth width }
    requires empty { line.old ≡ [] }
    ensures ok { OnOk result ((text : List Bool)
        × SpellsLine width text line.new × Passes reader.old reader.new text) }
    ensures fault { IfErr result (λ fault. FailsLine width reader.old.left fault) }
{
    let mut left = width;
    while left > 0 {
        left = read_pairs(line, reader, left);
        if left == 0 {
            break;
        }
        let white = read_run(reader, Colour::White)?;
        if white > left {
            return Err(LineFault::PastWidth);
        }
        line.paint(Colour::White, white);
        left -= white;
        if left == 0 {
            break;
        }
        let black = read_run(reader, Colour::Black)?;
        if black > left {
            return Err(LineFault::PastWidth);
        }
        line.paint(Colour::Black, black);
        left -= black;
    }
    Ok(())
}
