//! What is wrong with an input, and the line that tells it.
ghost use Rattle.std.specs.Prelude.{ℕ, ◌≡◌, ◌++◌, ◌∷◌, [], IfOk, decimal};
ghost use Rattle.fax_command.specs.Answers.{fault_line, page_fault_line};

use fax_bits::NoMemory;
use fax_pagestore::PageFault;
use itoa::Buffer;
use std::alloc::Global;

/// What is wrong with an input, or want of memory.
#[derive(Clone, Copy, PartialEq, Eq, Debug)]
pub enum InputFault {
    /// The input is no hex text.
    Hex,
    /// The octets mean no page, or the lines tell none.
    Page(PageFault),
    /// The line after so many tells no row.
    Row(u32),
    NoMemory,
}

impl InputFault {
    /// The line that tells the fault, and its line feed.
    pub fn line(self, alloc: Global) -> Result<Vec<u8>, NoMemory>
        ensures { IfOk result (λ line. line.items ≡ fault_line self) }
    {
        let words: &[u8] = match self {
            InputFault::Hex => b"fault hex\n",
            InputFault::Page(fault) => return line_of_page_fault(alloc, fault),
            InputFault::Row(number) => return numbered(alloc, b"fault row ", number),
            InputFault::NoMemory => b"fault memory\n",
        };
        Ok(Vec::from_slice(alloc, words)?)
    }
}

/// The line that tells the fault of a page.
fn line_of_page_fault(alloc: Global, fault: PageFault) -> Result<Vec<u8>, NoMemory>
    ensures { IfOk result (λ line. line.items ≡ page_fault_line fault) }
{
    let words: &[u8] = match fault {
        PageFault::NoEol => b"fault 1 NoEol\n",
        PageFault::BadLine(number) => return numbered(alloc, b"fault 2 BadLine ", number),
        PageFault::NoRtc => b"fault 3 NoRtc\n",
        PageFault::Empty => b"fault 4 Empty\n",
        PageFault::TooManyRows => b"fault 5 TooManyRows\n",
        PageFault::NoMemory => b"fault memory\n",
    };
    Ok(Vec::from_slice(alloc, words)?)
}

/// A line of words and a number.
fn numbered(alloc: Global, words: &[u8], number: u32) -> Result<Vec<u8>, NoMemory>
    ensures { IfOk result (λ line. line.items ≡ words.now ++ (decimal number ++ 10 ∷ [])) }
{
    let mut buffer = Buffer::new();
    let mut line = Vec::from_slice(alloc, words)?;
    line.extend_from_slice(buffer.format(number).as_bytes())?;
    line.push(b'\n')?;
    Ok(line)
}

impl From<NoMemory> for InputFault {
    ghost use Rattle.std.specs.Prelude.{◌≡◌};
    ghost use Rattle.fax_command.specs.declared.input_fault.InputFault.TheVariants as input_faults;

    ghost from_gives = { λ _ e. e ≡ input_faults.NoMemory };

    fn from(_: NoMemory) -> Self {
        InputFault::NoMemory
    }
}

impl From<PageFault> for InputFault {
    ghost use Rattle.std.specs.Prelude.{◌≡◌};
    ghost use Rattle.fax_command.specs.AnswerValues.{input_fault_of};

    ghost from_gives = { λ fault e. e ≡ input_fault_of fault };

    fn from(fault: PageFault) -> Self {
        match fault {
            PageFault::NoMemory => InputFault::NoMemory,
            _ => InputFault::Page(fault),
        }
    }
}
