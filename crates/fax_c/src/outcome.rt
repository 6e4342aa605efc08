//! What a call answers.
ghost use Rattle.std.specs.Prelude.{◌≡◌, Result, Ok, Err};
ghost use Rattle.fax_c.specs.Outcomes.{told, row_at_fault};

use fax_bits::NoMemory;
use fax_pagestore::PageFault;

/// What a call tells C.
#[repr(C)]
#[derive(Clone, Copy, PartialEq, Eq, Drop)]
pub struct Outcome {
    /// 0: done. 1 to 6: the number of the page's fault (no EOL, a line that cannot be read, no return to
    /// control, no line, too many rows, want of memory). 7: the slice has no room. 8: no width of a row.
    /// 9: no run lengths of a row. 10: the least bits of a line are more than 65,535.
    pub status: u32,
    /// How many rows; with status 2 or 9, how many stand before the one at fault.
    pub rows: u32,
    /// How many elements of the slice were filled, from its start: with a status other than 0, none.
    pub filled: usize,
    /// With status 7, how many elements the slice wants; otherwise 0.
    pub wanted: usize,
}

/// What was filled.
#[derive(Clone, Copy, PartialEq, Eq)]
pub struct FillCounts {
    pub rows: u32,
    pub items: usize,
}

/// What was wrong.
#[derive(Clone, Copy, PartialEq, Eq, Debug)]
pub enum Refusal {
    Page(PageFault),
    /// The slice has no room: it wants so many elements.
    Room(usize),
    /// Rows are 1728, 2048 or 2432 elements wide.
    Width,
    /// After so many rows come no run lengths of a row.
    Runs(u32),
    /// The least bits of a line are more than 65,535.
    LeastBits,
}

impl From<PageFault> for Refusal {
    ghost use Rattle.std.specs.Prelude.{◌≡◌};
    ghost use Rattle.fax_c.specs.declared.outcome.Refusal.TheVariants as refusals;

    ghost from_gives = { λ fault refusal. refusal ≡ refusals.Page fault };

    fn from(fault: PageFault) -> Self {
        Refusal::Page(fault)
    }
}

impl From<NoMemory> for Refusal {
    ghost use Rattle.std.specs.Prelude.{◌≡◌};
    ghost use Rattle.fax_c.specs.declared.outcome.Refusal.TheVariants as refusals;
    ghost use Rattle.fax_pagestore.specs.declared.fault.PageFault.TheVariants as page_faults;

    ghost from_gives = { λ _ refusal. refusal ≡ refusals.Page page_faults.NoMemory };

    fn from(_: NoMemory) -> Self {
        Refusal::Page(PageFault::NoMemory)
    }
}

impl Outcome {
    /// What is told of a result.
    pub fn of(answer: Result<FillCounts, Refusal>) -> Self
        ensures { result ≡ told answer }
    {
        match answer {
            Ok(FillCounts { rows, items }) => Outcome {
                status: 0,
                rows,
                filled: items,
                wanted: 0,
            },
            Err(Refusal::Page(fault)) => Outcome::refused(u32::from(fault.number()), row_of(fault)),
            Err(Refusal::Room(wanted)) => Outcome {
                wanted,
                ..Outcome::refused(7, 0)
            },
            Err(Refusal::Width) => Outcome::refused(8, 0),
            Err(Refusal::Runs(rows)) => Outcome::refused(9, rows),
            Err(Refusal::LeastBits) => Outcome::refused(10, 0),
        }
    }

    fn refused(status: u32, rows: u32) -> Self
        ensures { result ≡ record { status = status; rows = rows; filled = 0; wanted = 0 } }
    {
        Outcome {
            status,
            rows,
            filled: 0,
            wanted: 0,
        }
    }
}

/// The line that cannot be read, and 0 where the fault names none.
fn row_of(fault: PageFault) -> u32
    ensures { result ≡ row_at_fault fault }
{
    match fault {
        PageFault::BadLine(row) => row,
        _ => 0,
    }
}
