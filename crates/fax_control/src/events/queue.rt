//! Lines that wait for a reader.
ghost use Rattle.std.specs.Prelude.{◌≡◌, ◌<◌, None, IfNone, IfSome};

use circular_buffer::HeapCircularBuffer;
use fax_bits::NoMemory;
use std::alloc::Global;

/// The most lines that wait for a reader.
pub const MOST_WAITING: usize = 1024;

/// What a reader is told next.
#[derive(Drop)]
pub struct Due {
    /// So many lines were lost right here.
    pub lost: u64,
    /// The line after them; none where no more wait.
    pub line: Option<Vec<u8>>,
}

/// A line that waits, and how many were lost right before it.
#[derive(Drop)]
pub struct WaitingLine {
    lost: u64,
    line: Vec<u8>,
}

/// The lines that wait for a reader, oldest first: at most 1,024. A line that comes while so many wait is lost, and
/// the reader is told at its place how many were.
pub struct EventQueue {
    waiting: HeapCircularBuffer<WaitingLine>,
    lost: u64,
    ghost room: { waiting.capacity ≡ 1024 },
}

impl Drop for EventQueue {
    fn drop(self) {
        let EventQueue {
            waiting: _waiting,
            lost: _lost,
        } = self;
    }
}

impl EventQueue {
    ghost use Rattle.std.specs.Prelude.{◌≡◌, ◌<◌, [], ◌++◌, length, IfOk, IfNone, IfSome};
    ghost use Rattle.fax_control.specs.events.Queues.{after_line, due_of, tellings_of};

    /// No line waits. It takes the memory for all that may wait, their octets aside.
    pub fn new(alloc: Global) -> Result<Self, NoMemory>
        ensures { IfOk result (λ queue. due_of queue ≡ []) }
    {
        Ok(EventQueue {
            waiting: HeapCircularBuffer::with_capacity(alloc, MOST_WAITING)?,
            lost: 0,
        })
    }

    /// A line comes: it waits after the others, or is lost where 1,024 wait.
    pub fn push(&mut self, line: Vec<u8>)
        ensures { due_of self.new ≡ after_line (due_of self.old) line.items }
    {
        let waiting = WaitingLine {
            lost: self.lost,
            line,
        };
        match self.waiting.try_push_back(waiting) {
            Ok(()) => self.lost = 0,
            Err(_) => self.lost = self.lost.saturating_add(1),
        }
    }

    /// What the reader is told next; none where nothing waits.
    pub fn take(&mut self) -> Option<Due>
        ensures none { IfNone result ((due_of self.old ≡ []) × (due_of self.new ≡ [])) }
        ensures told { IfSome result (λ due. due_of self.old ≡ tellings_of due ++ due_of self.new) }
        ensures some { IfSome result (λ due. 0 < length (tellings_of due)) }
    {
        match self.waiting.pop_front() {
            Some(WaitingLine { lost, line }) => Some(Due {
                lost,
                line: Some(line),
            }),
            None => {
                let lost = self.lost;
                self.lost = 0;
                lost_alone(lost)
            }
        }
    }
}

/// What is told where no line waits.
fn lost_alone(lost: u64) -> Option<Due>
    ensures none { IfNone result (lost ≡ 0) }
    ensures some { IfSome result (λ due. (due.lost ≡ lost) × (due.line ≡ None) × (0 < lost)) }
{
    if lost == 0 {
        None
    } else {
        Some(Due { lost, line: None })
    }
}
