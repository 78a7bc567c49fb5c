//! What is told of a text, and its numbers.

ghost use Rattle.std.specs.Prelude.{◌≡◌};
ghost use Rattle.ref_text_c.specs.GivenTexts.{line_fault_number, of_status, text_numbers};

use ref_text::LineFault;

/// What is told of a text, by numbers that never change. What a status doesn't tell is 0.
#[repr(C)]
#[derive(Clone, Copy, Debug, PartialEq, Eq)]
pub struct RefText {
    /// 0: what the text prints stands in the buffer. 1: it finds no room. 2: a line is faulty. 3: the text is too long.
    /// 4: memory ran out.
    pub status: u32,
    /// The number of the line's fault, from 1 on.
    pub fault: u32,
    /// The first faulty line, counted from 1.
    pub line: u64,
    /// How many bytes the text prints.
    pub length: usize,
}

/// What is told of a text.
#[derive(Clone, Copy, Debug, PartialEq, Eq)]
pub enum TextAnswer {
    /// What the text prints, which is so long, stands in the buffer.
    Printed(usize),
    /// What the text prints is so long, and finds no room.
    NoRoom(usize),
    /// The first faulty line, counted from 1, and its fault.
    Faulty(u64, LineFault),
    /// More than 4,194,304 bytes were given.
    TooLong,
    /// Memory ran out.
    NoMemory,
}

impl TextAnswer {
    /// Its numbers. Takes no memory.
    pub fn numbers(self) -> RefText
        ensures { result ≡ text_numbers self }
    {
        match self {
            TextAnswer::Printed(length) => RefText {
                length,
                ..of_status(0)
            },
            TextAnswer::NoRoom(length) => RefText {
                length,
                ..of_status(1)
            },
            TextAnswer::Faulty(line, fault) => RefText {
                fault: line_fault_number(fault),
                line,
                ..of_status(2)
            },
            TextAnswer::TooLong => of_status(3),
            TextAnswer::NoMemory => of_status(4),
        }
    }
}

// A status alone.
fn of_status(status: u32) -> RefText
    ensures { result ≡ of_status status }
{
    RefText {
        status,
        fault: 0,
        line: 0,
        length: 0,
    }
}

// The number of a line's fault.
fn line_fault_number(fault: LineFault) -> u32
    ensures { result ≡ line_fault_number fault }
{
    match fault {
        LineFault::LineTooLong => 1,
        LineFault::NotAscii => 2,
        LineFault::BadHeader => 3,
        LineFault::BadConfig => 4,
        LineFault::UnknownStep => 5,
        LineFault::UnknownLine => 6,
        LineFault::MissingWord => 7,
        LineFault::BadWord => 8,
        LineFault::ExtraWord => 9,
        LineFault::DoubleObject => 10,
    }
}
