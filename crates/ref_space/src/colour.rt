//! The colours of words.

/// A colour of words. At each time one is good: a word of another is looked up and written again before it is used.
#[derive(Clone, Copy, Debug, PartialEq, Eq)]
pub enum Colour {
    /// Good from the begin of a cycle of odd number on.
    A,
    /// Good from the begin of a cycle of even number on.
    B,
    /// Good in a new heap, and from the begin of a move on.
    R,
}

impl Colour {
    ghost use Rattle.std.specs.Prelude.{◌≡◌};
    ghost use Rattle.ref_space.specs.ColouredWords.{colour_number, colour_of, cycle_colour};

    /// The colour's number: 1 for A, 2 for B, 3 for R. Takes no memory, in constant time.
    pub fn number(self) -> u32
        ensures { result ≡ colour_number self }
    {
        match self {
            Colour::A => 1,
            Colour::B => 2,
            Colour::R => 3,
        }
    }

    /// The colour that the begin of the cycle of this number makes good. Takes no memory, in constant time.
    pub fn of_cycle(cycle: u64) -> Colour
        ensures { result ≡ cycle_colour cycle }
    {
        if cycle % 2 == 1 { Colour::A } else { Colour::B }
    }

    /// The colour of this number, or none.
    pub(crate) fn of(number: u64) -> Option<Colour>
        ensures { result ≡ colour_of number }
    {
        match number {
            1 => Some(Colour::A),
            2 => Some(Colour::B),
            3 => Some(Colour::R),
            _ => None,
        }
    }
}
