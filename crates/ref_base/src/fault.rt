//! Why a call is refused.

use std::alloc::{AllocError, AllocFailed};
use std::fmt;
use thiserror::Error;

/// A refusal. After it the state is as before, and what was handed in comes back. It prints as its name.
#[derive(Clone, Copy, PartialEq, Eq, Error)]
pub enum Fault {
    /// A number is outside its limits.
    BadConfig = 1,
    /// The number isn't in the graph.
    NoSuchObject = 2,
    /// A growth was refused.
    NoMemory = 3,
    /// Every cell is taken.
    NoCell = 4,
    /// No object number, cycle number or count of holds is left.
    NumbersSpent = 5,
    /// A slot that must hold an object is empty.
    EmptySlot = 6,
    /// A field that the object hasn't, or more than 8 fields.
    BadField = 7,
    /// The object isn't a reference.
    NotAReference = 8,
    /// A mutator, worker or slot number outside the configuration.
    NoSuchActor = 9,
    /// A queue number outside the configuration.
    BadQueue = 10,
    /// Another heap's hold, or one that this heap doesn't count.
    ForeignHold = 11,
    /// The call isn't allowed in this phase.
    WrongPhase = 12,
    /// The new time is before the clock.
    ClockBack = 13,
    /// The mark can't end while a grey object is left.
    GreyLeft = 14,
    /// The clearing can't end while a discovered reference is left.
    ClearingLeft = 15,
    /// The sweep can't end while a doomed object is left.
    SweepLeft = 16,
    /// The move can't end while an unmoved object is left.
    MovesLeft = 17,
    /// A move would win no room.
    NoRoom = 18,
    /// Too few new page addresses are left.
    AddressesSpent = 19,
    /// The parcel names another queue.
    WrongQueue = 20,
    /// The number is in the job table now.
    RegisteredTwice = 21,
    /// The job table is closed.
    TableClosed = 22,
    /// The actor's hand holds a notice.
    HandFull = 23,
    /// The actor's hand holds none.
    HandEmpty = 24,
    /// No turn is left.
    TurnsSpent = 25,
}

impl Fault {
    ghost use Rattle.std.specs.Prelude.{◌≡◌};
    ghost use Rattle.ref_base.specs.Faults.{name_of, number_of};

    /// The fault's number, 1 to 25. Takes no memory.
    pub fn number(self) -> u32
        ensures { result ≡ number_of self }
    {
        self as u32
    }

    /// The fault's name, as its variant is spelled. Takes no memory.
    pub fn name(self) -> &'static str
        ensures { result.now ≡ name_of self }
    {
        match self {
            Fault::BadConfig => "BadConfig",
            Fault::NoSuchObject => "NoSuchObject",
            Fault::NoMemory => "NoMemory",
            Fault::NoCell => "NoCell",
            Fault::NumbersSpent => "NumbersSpent",
            Fault::EmptySlot => "EmptySlot",
            Fault::BadField => "BadField",
            Fault::NotAReference => "NotAReference",
            Fault::NoSuchActor => "NoSuchActor",
            Fault::BadQueue => "BadQueue",
            Fault::ForeignHold => "ForeignHold",
            Fault::WrongPhase => "WrongPhase",
            Fault::ClockBack => "ClockBack",
            Fault::GreyLeft => "GreyLeft",
            Fault::ClearingLeft => "ClearingLeft",
            Fault::SweepLeft => "SweepLeft",
            Fault::MovesLeft => "MovesLeft",
            Fault::NoRoom => "NoRoom",
            Fault::AddressesSpent => "AddressesSpent",
            Fault::WrongQueue => "WrongQueue",
            Fault::RegisteredTwice => "RegisteredTwice",
            Fault::TableClosed => "TableClosed",
            Fault::HandFull => "HandFull",
            Fault::HandEmpty => "HandEmpty",
            Fault::TurnsSpent => "TurnsSpent",
        }
    }
}

/// An allocation that was refused is `NoMemory`, so that `?` passes it on.
impl From<AllocError> for Fault {
    ghost use Rattle.std.specs.Prelude.{◌≡◌};
    ghost use Rattle.ref_base.specs.declared.fault.Fault.TheVariants.{NoMemory};

    ghost from_gives = { λ _ fault. fault ≡ NoMemory };

    fn from(_refused: AllocError) -> Fault {
        Fault::NoMemory
    }
}

/// A push that was refused is `NoMemory` too. What could not be stored is dropped.
impl<T: Drop> From<AllocFailed<T>> for Fault {
    ghost use Rattle.std.specs.Prelude.{◌≡◌};
    ghost use Rattle.ref_base.specs.declared.fault.Fault.TheVariants.{NoMemory};

    ghost from_gives = { λ _ fault. fault ≡ NoMemory };

    fn from(_refused: AllocFailed<T>) -> Fault {
        Fault::NoMemory
    }
}

// By hand: what `thiserror` writes for 25 variants is a match of 25 arms, which is dear to prove.
impl fmt::Display for Fault {
    ghost use Rattle.std.specs.Prelude.{Some};
    ghost use Rattle.ref_base.specs.Faults.{name_of};

    ghost output = { λ fault. Some (name_of fault) };

    fn fmt<W: fmt::Write>(&self, f: &mut fmt::Formatter<W>) -> fmt::Result {
        f.write_str(self.name())
    }
}

// `Debug` prints what `Display` prints: the name of the variant.
impl fmt::Debug for Fault {
    fn fmt<W: fmt::Write>(&self, f: &mut fmt::Formatter<W>) -> fmt::Result {
        fmt::Display::fmt(self, f)
    }
}
