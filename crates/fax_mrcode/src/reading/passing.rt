//! Two-dimensional lines, passed without their rows.
ghost use Rattle.std.specs.Prelude.{List, Bool, ◌≤◌, ◌≡◌, ◌++◌, Err, IfErr, OnOk, IsOk};
ghost use Rattle.fax_bits.specs.Reading.{Passes};
ghost use Rattle.fax_runcodes.specs.Rows.{Elements};
ghost use Rattle.fax_runcodes.specs.Painted.{painted, AreRising};
ghost use Rattle.fax_runcodes.specs.declared.Colour.{Colour};
ghost use Rattle.fax_mhcode.specs.declared.fault.LineFault.{LineFault};
ghost use Rattle.fax_mrcode.specs.Lines.{SpellsLine};
ghost use Rattle.fax_mrcode.specs.LineFaults.{FailsLine};

use super::{Start, take_step};
use fax_bits::BitReader;
use fax_mhcode::LineFault;
use fax_runcodes::RowRef;

/// Passes a two-dimensional line against the row before it, without the row that it spells. It takes
/// no memory. After an `Err` the reader stands at the step that cannot be taken, after those before it.
pub fn pass_line_2d(reader: &mut BitReader, reference: &RowRef<'_>) -> Result<(), LineFault>
    ensures ok { OnOk result ((row : Elements) × (text : List Bool)
        × SpellsLine reference.now text row × Passes reader.old reader.new text) }
    ensures fault { IfErr result (λ fault. (fails : FailsLine reference.now reader.old.left fault)
        × Passes reader.old reader.new fails.text) }

    // A line that begins the bits is passed, and a fault comes only where it is met.
    ensures reads { (row : Elements) (text rest : List Bool) → SpellsLine reference.now text row
        → reader.old.left ≡ text ++ rest → IsOk result }
    ensures fails { (fault : LineFault)
        → FailsLine reference.now reader.old.left fault → result ≡ Err fault }
{
    pass_steps(reader, reference.changes(), reference.width())
}

/// Passes the steps of a line. After an `Err` the reader stands at the step that cannot be taken.
fn pass_steps(reader: &mut BitReader, changes: &[u16], width: u16) -> Result<(), LineFault>
    requires rising { AreRising 0 changes.now width }
    requires few { width ≤ 2432 }
    ensures ok { OnOk result ((row : Elements)
        × (text : List Bool) × SpellsLine (painted Colour.White 0 changes.now width) text row
        × Passes reader.old reader.new text) }
    ensures fault { IfErr result (λ fault.
        (fails : FailsLine (painted Colour.White 0 changes.now width) reader.old.left fault)
        × Passes reader.old reader.new fails.text) }
{
    let mut start = Start::of_line();
    while start.from <= width {
        let mut ahead = reader.copy();
        let taken = take_step(&mut ahead, changes, width, start)?;
        *reader = ahead;
        start = taken.next;
    }
    Ok(())
}
