//! Two-dimensional lines, read (ITU-T T.4, 4.2).
ghost use Rattle.std.specs.Prelude.{List, Bool, true, ℕ, Ok, Err, ◌⊎◌, ◌++◌, ◌+◌, ◌<◌, ◌≤◌, ◌≡◌, ◌≢◌, [], length, replicate, IfOk, IfErr, IfSome, IsNone, OnOk, OnErr, IsOk, IsTrue, ◌^◌, ◌/◌};
ghost use Rattle.fax_bits.specs.Reading.{Place, Passes};
ghost use Rattle.fax_runcodes.specs.Rows.{Elements, other};
ghost use Rattle.fax_runcodes.specs.Painted.{painted, AreRising};
ghost use Rattle.fax_runcodes.specs.Spelling.{SpellsRun};
ghost use Rattle.fax_runcodes.specs.declared.Colour.{Colour};
ghost use Rattle.fax_mhcode.specs.declared.fault.LineFault.{LineFault};
ghost use Rattle.fax_mrcode.specs.declared.mode.Mode.{Mode};
ghost use Rattle.fax_mrcode.specs.Modes.{mode_word};
ghost use Rattle.fax_mrcode.specs.Lines.{SpellsLine};
ghost use Rattle.fax_mrcode.specs.LineFaults.{FailsLine, Stops, StopsIn, StopsAtRun};
ghost use Rattle.fax_mrcode.specs.Starts.{IsCursor, IsIndexOfB1, IsStart, IsStartIn, IsTaken, Completes, StepsAt, TakesStep, left_of_a0};

mod ahead;
mod near;
mod passing;
mod verticals;
mod words;

use crate::places::place_at;
use crate::{Mode, Offset};
use fax_bits::BitReader;
use fax_mhcode::LineFault;
use fax_runcodes::{Colour, Row, RowBuilder, RowRef, read_run};
use near::read_near_steps;
pub use passing::pass_line_2d;
use std::alloc::Global;
use words::read_mode;

/// Reads a two-dimensional line against the row before it. An `Err` leaves the reader where it stood.
pub fn read_line_2d(
    alloc: Global,
    reader: &mut BitReader,
    reference: &Row,
) -> Result<Row, LineFault>
    ensures ok { IfOk result (λ row. (text : List Bool)
        × SpellsLine reference.now text row × Passes reader.old reader.new text) }
    ensures fault { IfErr result
        (λ fault. fault ≢ LineFault.NoMemory → FailsLine reference.now reader.old.left fault) }
    ensures err { OnErr result (reader.new ≡ reader.old) }

    // Memory aside, a line that begins the bits is read, and a fault comes only where it is met.
    ensures reads { (row : Elements) (text rest : List Bool) → SpellsLine reference.now text row
        → reader.old.left ≡ text ++ rest → (result ≡ Ok row) ⊎ (result ≡ Err LineFault.NoMemory) }
    ensures fails { (fault : LineFault) → FailsLine reference.now reader.old.left fault
        → (result ≡ Err fault) ⊎ (result ≡ Err LineFault.NoMemory) }
{
    let mut line = RowBuilder::new(alloc)?;
    let mut ahead = reader.copy();
    read_line_2d_into(&mut line, &mut ahead, &reference.lend())?;
    prove!(line.len() == reference.width());
    let row = line.row()?;
    *reader = ahead;
    Ok(row)
}

/// Reads a two-dimensional line into a builder that is empty, whose room is used again from line to
/// line. It takes no memory. An `Err` leaves the reader where it stood, and the builder empty.
pub fn read_line_2d_into(
    line: &mut RowBuilder,
    reader: &mut BitReader,
    reference: &RowRef<'_>,
) -> Result<(), LineFault>
    requires { line.old ≡ [] }
    ensures ok { OnOk result ((text : List Bool)
        × SpellsLine reference.now text line.new × Passes reader.old reader.new text) }
    ensures fault { IfErr result
        (λ fault. fault ≢ LineFault.NoMemory → FailsLine reference.now reader.old.left fault) }
    ensures err { OnErr result (reader.new ≡ reader.old) }
    ensures empty { OnErr result (line.new ≡ []) }
    ensures memory { result ≢ Err LineFault.NoMemory }

    // A line that begins the bits is read, and a fault comes only where it is met.
    ensures reads { (row : Elements) (text rest : List Bool)
        → SpellsLine reference.now text row → reader.old.left ≡ text ++ rest
        → (IsOk result × (line.new ≡ row)) ⊎ (result ≡ Err LineFault.NoMemory) }
    ensures fails { (fault : LineFault) → FailsLine reference.now reader.old.left fault
        → (result ≡ Err fault) ⊎ (result ≡ Err LineFault.NoMemory) }
{
    let mut ahead = reader.copy();
    let result = read_steps(line, &mut ahead, reference.changes(), reference.width());
    if result.is_ok() {
        *reader = ahead;
    } else {
        line.clear();
    }
    result
}

/// Where a coding step starts.
#[derive(Clone, Copy)]
struct Start {
    /// The place right of a0: 0 for a0 = -1.
    from: u16,
    /// The colour at a0.
    colour: Colour,
    /// From where on b1 is looked for in the changing places of the reference. Those of an even index
    /// change from white to black, the others from black to white.
    index: usize,
}

impl Start {
    ghost use Rattle.std.specs.Prelude.{◌≡◌};
    ghost use Rattle.fax_runcodes.specs.declared.Colour.TheVariants.{White};
    ghost use Rattle.fax_mrcode.specs.Places.{run_start};
    ghost use Rattle.fax_mrcode.specs.declared.reading.Start.{Start};

    /// Where a line starts: at a0 = -1.
    #[inline]
    fn of_line() -> Self
        ensures { result ≡ record { from = 0; colour = White; index = 0 } }
    {
        Start {
            from: 0,
            colour: Colour::White,
            index: 0,
        }
    }

    /// Where the first run of a horizontal step starts: at a0, or at the first element for a0 = -1.
    #[inline]
    fn run_start(self) -> u16
        ensures { result ≡ run_start self.from }
    {
        self.from.saturating_sub(1)
    }
}

/// A step that was taken: how many elements it gives the colour at a0, how many after them the other
/// colour, and where the next one starts.
#[derive(Clone, Copy)]
struct TakenStep {
    first: u16,
    second: u16,
    next: Start,
}

/// Reads the steps of a line into a builder that is empty. After an `Err` the reader stands anywhere,
/// and the builder has any elements.
#[inline(never)]
fn read_steps(
    line: &mut RowBuilder,
    reader: &mut BitReader,
    changes: &[u16],
    width: u16,
) -> Result<(), LineFault>
    requires empty { line.old ≡ [] }
    requires rising { AreRising 0 changes.now width }
    requires few { width ≤ 2432 }
    ensures ok { OnOk result ((text : List Bool)
        × SpellsLine (painted Colour.White 0 changes.now width) text line.new
        × Passes reader.old reader.new text) }
    ensures fault { IfErr result
        (λ fault. FailsLine (painted Colour.White 0 changes.now width) reader.old.left fault) }
{
    let mut start = Start::of_line();
    line.paint(start.colour, width - line.len());
    while start.from <= width {
        let near = read_near_steps(line, reader, changes, width, start);
        start = if near.from > start.from {
            near
        } else {
            // A start of its own: that of the fast way stays in registers.
            let stopped = Start {
                index: near.index,
                ..near
            };
            read_step_in(line, reader, changes, width, stopped)?
        };
    }
    Ok(())
}

/// Reads one step in a line that has its whole width, and answers where the next one starts. After an
/// `Err` the reader stands anywhere, and the builder has any elements.
#[inline(never)]
fn read_step_in(
    line: &mut RowBuilder,
    reader: &mut BitReader,
    changes: &[u16],
    width: u16,
    start: Start,
) -> Result<Start, LineFault>
    requires start { IsStartIn changes.now width line.old start }
    requires at { StepsAt changes.now width start.from }
    ensures next { IfOk result (λ next. IsStartIn changes.now width line.new next) }
    ensures ok { IfOk result (λ next. (mode : Mode)
        × (text : List Bool) × Passes reader.old reader.new (mode_word mode ++ text)
        × TakesStep (painted Colour.White 0 changes.now width)
        width mode text (left_of_a0 line.old start) start (left_of_a0 line.new next) next) }
    ensures fault { IfErr result (λ fault. (row : Elements)
        → Completes width (left_of_a0 line.old start) start.from start.colour row
        → Stops (painted Colour.White 0 changes.now width) row start.from reader.old.left fault) }
{
    line.shorten(start.run_start());
    let next = read_step(line, reader, changes, width, start)?;
    line.paint(next.colour, width - line.len());
    Ok(next)
}

/// Reads one step, and answers where the next one starts. After an `Err` the reader stands anywhere,
/// and the builder has any elements.
#[inline]
fn read_step(
    line: &mut RowBuilder,
    reader: &mut BitReader,
    changes: &[u16],
    width: u16,
    start: Start,
) -> Result<Start, LineFault>
    requires start { IsStart changes.now width line.old start }
    requires at { StepsAt changes.now width start.from }
    ensures next { IfOk result (λ next. IsStart changes.now width line.new next) }
    ensures ok { IfOk result (λ next. (mode : Mode) × (text : List Bool)
        × Passes reader.old reader.new (mode_word mode ++ text) × TakesStep (painted
        Colour.White 0 changes.now width) width mode text line.old start line.new next) }
    ensures fault { IfErr result
        (λ fault. (row : Elements) → Completes width line.old start.from start.colour row
        → Stops (painted Colour.White 0 changes.now width) row start.from reader.old.left fault) }
{
    let taken = take_step(reader, changes, width, start)?;
    line.paint(start.colour, taken.first);
    line.paint(start.colour.other(), taken.second);
    Ok(taken.next)
}

/// Takes the step that the bits begin with. It needs no line: its start says what matters of the
/// elements left of a0. After an `Err` the reader stands anywhere.
#[inline(always)]
fn take_step(
    reader: &mut BitReader,
    changes: &[u16],
    width: u16,
    start: Start,
) -> Result<TakenStep, LineFault>
    requires cursor { IsCursor changes.now start.colour start.from start.index }
    requires at { StepsAt changes.now width start.from }
    ensures ok { IfOk result (λ taken. (mode : Mode)
        × (text : List Bool) × Passes reader.old reader.new (mode_word mode ++ text)
        × IsTaken changes.now width mode text start taken) }
    ensures fault { IfErr result
        (λ fault. (line row : Elements) → Completes width line start.from start.colour row
        → Stops (painted Colour.White 0 changes.now width) row start.from reader.old.left fault) }
{
    let mode = read_mode(reader)?;
    let start = Start {
        index: index_of_b1(changes, start),
        ..start
    };
    match mode {
        Mode::Pass => pass(changes, width, start),
        Mode::Horizontal => horizontal(reader, changes, width, start),
        Mode::Vertical(offset) => vertical(changes, width, start, offset),
    }
}

/// Pass mode: a0 moves to b2.
#[inline]
fn pass(changes: &[u16], width: u16, start: Start) -> Result<TakenStep, LineFault>
    requires b1 { IsIndexOfB1 changes.now start.colour start.from start.index }
    requires at { StepsAt changes.now width start.from }
    ensures ok { IfOk result (λ taken. IsTaken changes.now width Mode.Pass [] start taken) }
    ensures fault { IfErr result (λ fault. (line row : Elements) (bits : List Bool)
        → Completes width line start.from start.colour row
        → StopsIn (painted Colour.White 0 changes.now width) row Mode.Pass start.from bits fault) }
{
    let b2 = place_at(changes, start.index + 1, width);
    if b2 == width {
        return Err(LineFault::BadPlace);
    }
    Ok(TakenStep {
        first: b2 - start.run_start(),
        second: 0,
        next: Start {
            from: b2 + 1,
            ..start
        },
    })
}

/// Vertical mode: a1 lies so far from b1, and a0 moves to it.
#[inline]
fn vertical(
    changes: &[u16],
    width: u16,
    start: Start,
    offset: Offset,
) -> Result<TakenStep, LineFault>
    requires b1 { IsIndexOfB1 changes.now start.colour start.from start.index }
    requires at { StepsAt changes.now width start.from }
    ensures ok { IfOk result
        (λ taken. IsTaken changes.now width (Mode.Vertical offset) [] start taken) }
    ensures fault { IfErr result (λ fault. (line row : Elements) (bits : List Bool)
        → Completes width line start.from start.colour row → StopsIn (painted
        Colour.White 0 changes.now width) row (Mode.Vertical offset) start.from bits fault) }
{
    let b1 = place_at(changes, start.index, width);
    let past_a1 = b1 + offset.right_of_left3();
    if past_a1 < start.from + 3 || past_a1 > width + 3 {
        return Err(LineFault::BadPlace);
    }
    let a1 = past_a1 - 3;
    Ok(TakenStep {
        first: a1 - start.run_start(),
        second: 0,
        next: Start {
            from: a1 + 1,
            colour: start.colour.other(),
            // Left of b1 the changing place before it may be right of a1.
            index: if a1 < b1 && start.index > 0 {
                start.index - 1
            } else {
                start.index + 1
            },
        },
    })
}

/// Horizontal mode: the runs from a0 to a1 and from a1 to a2 follow, and a0 moves to a2.
#[inline]
fn horizontal(
    reader: &mut BitReader,
    changes: &[u16],
    width: u16,
    start: Start,
) -> Result<TakenStep, LineFault>
    requires at { StepsAt changes.now width start.from }
    ensures ok { IfOk result (λ taken. (text : List Bool) × Passes reader.old reader.new text
        × IsTaken changes.now width Mode.Horizontal text start taken) }
    ensures fault { IfErr result (λ fault. (line row : Elements)
        → Completes width line start.from start.colour row → StopsIn (painted
        Colour.White 0 changes.now width) row Mode.Horizontal start.from reader.old.left fault) }
{
    let mut ahead = reader.copy();
    let a0 = start.run_start();
    let first = read_stretch(&mut ahead, a0, width, start.colour, start.from == 0)?;
    let a1 = a0 + first;
    let at_width = a1 == width;
    let second = read_stretch(&mut ahead, a1, width, start.colour.other(), at_width)?;
    *reader = ahead;
    Ok(TakenStep {
        first,
        second,
        next: Start {
            from: a1 + second + 1,
            ..start
        },
    })
}

/// Reads a run of horizontal mode, from a place on. After an `Err` the reader stands anywhere.
#[inline]
fn read_stretch(
    reader: &mut BitReader,
    place: u16,
    width: u16,
    colour: Colour,
    may_be_empty: bool,
) -> Result<u16, LineFault>
    requires within { place ≤ width }
    ensures ok { IfOk result
        (λ run. (text : List Bool) × SpellsRun colour text run × Passes reader.old reader.new text
        × (place + run ≤ width) × ((0 < run) ⊎ IsTrue may_be_empty)) }
    ensures fault { IfErr result
        (λ fault. StopsAtRun width colour place (IsTrue may_be_empty) reader.old.left fault) }
{
    let run = read_run(reader, colour)?;
    if run == 0 && !may_be_empty {
        return Err(LineFault::BadPlace);
    }
    if run > width - place {
        return Err(LineFault::PastWidth);
    }
    Ok(run)
}

/// The index of b1 in the changing places of the reference, or past their end where b1 is the width.
#[inline]
fn index_of_b1(changes: &[u16], start: Start) -> usize
    requires { IsCursor changes.now start.colour start.from start.index }
    ensures { IsIndexOfB1 changes.now start.colour start.from result }
{
    let mut index = start.index;
    while index < changes.len() && changes[index] < start.from {
        index += 2;
    }
    index
}
