//! One-dimensional lines, passed without the rows that they spell.
ghost use Rattle.std.specs.Prelude.{List, Bool, Err, ◌++◌, ◌≡◌, IfErr, IsOk, OnErr, OnOk};
ghost use Rattle.fax_bits.specs.Reading.{Passes};
ghost use Rattle.fax_runcodes.specs.Rows.{Elements};
ghost use Rattle.fax_runcodes.specs.Widths.{elements_of};
ghost use Rattle.fax_mhcode.specs.declared.fault.LineFault.{LineFault};
ghost use Rattle.fax_mhcode.specs.Lines.{SpellsLine};
ghost use Rattle.fax_mhcode.specs.LineFaults.{FailsLine};

use super::LineFault;
use fax_bits::BitReader;
use fax_runcodes::{Colour, Width, read_run};

/// Passes a one-dimensional line of this width, without the row that it spells. It takes no memory. An
/// `Err` leaves the reader where it stood.
pub fn pass_line_1d(reader: &mut BitReader, width: Width) -> Result<(), LineFault>
    ensures ok { OnOk result ((row : Elements) × (text : List Bool)
        × SpellsLine (elements_of width) text row × Passes reader.old reader.new text) }
    ensures fault { IfErr result (λ fault. FailsLine (elements_of width) reader.old.left fault) }
    ensures err { OnErr result (reader.new ≡ reader.old) }

    // A line that begins the bits is passed, and a fault comes only where it is met.
    ensures reads { (row : Elements) (text rest : List Bool)
        → SpellsLine (elements_of width) text row → reader.old.left ≡ text ++ rest → IsOk result }
    ensures fails { (fault : LineFault)
        → FailsLine (elements_of width) reader.old.left fault → result ≡ Err fault }
{
    let mut ahead = reader.copy();
    let mut colour = Colour::White;
    let mut left = width.elements();
    while left > 0 {
        let run = read_run(&mut ahead, colour)?;
        if run > left {
            return Err(LineFault::PastWidth);
        }
        left -= run;
        colour = colour.other();
    }
    *reader = ahead;
    Ok(())
}
