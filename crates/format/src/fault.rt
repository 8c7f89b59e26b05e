// Why a sheet is not read to its end, and where.
ghost use Rattle.std.specs.Prelude.{◌≡◌};
ghost use Rattle.format.specs.Stops.{stop_of};
ghost use Rattle.format.specs.declared.fault.RunFault.TheVariants.{Read, Memory};

use std::alloc::{AllocError, AllocFailed};

// A fault of the bytes. A discriminant is the fault's number.
#[derive(Clone, Copy, Debug, PartialEq, Eq)]
pub enum Reason {
    // The sheet ends inside a number or an event.
    Ends = 1,
    // A number begins with 128, goes on after its third byte, or is above 65,535.
    Form = 2,
    // A kind or a field is outside its values, or the sheet is longer than 65,536 bytes.
    Value = 3,
}

#[derive(Clone, Copy, Debug, PartialEq, Eq)]
pub struct ReadFault {
    pub reason: Reason,
    pub offset: usize,
}

// Why a run ends before its sheet does. A reader's fault is kept as it was told.
#[derive(Clone, Copy, Debug, PartialEq, Eq)]
pub enum RunFault {
    Read(ReadFault),
    // The section count is not 1 to 8.
    Sections,
    // There was no memory for what was read.
    Memory,
}

// A fault as it is printed, so that its number is one: an enum here would say once more what `RunFault` says.
#[derive(Clone, Copy, Debug, PartialEq, Eq)]
pub struct Stop {
    pub number: u16,
    pub offset: usize,
}

impl RunFault {
    // The fault's number and offset. Want of memory is no fault of the sheet and has none.
    pub fn stop(self) -> Option<Stop>
        ensures { result ≡ stop_of self }
    {
        match self {
            RunFault::Read(fault) => Some(Stop {
                number: fault.reason as u16,
                offset: fault.offset,
            }),
            RunFault::Sections => Some(Stop {
                number: 4,
                offset: 0,
            }),
            RunFault::Memory => None,
        }
    }
}

impl From<ReadFault> for RunFault {
    ghost from_gives = { λ fault r. r ≡ Read fault };

    fn from(fault: ReadFault) -> RunFault {
        Self::Read(fault)
    }
}

impl<T: Drop> From<AllocFailed<T>> for RunFault {
    ghost from_gives = { λ _ r. r ≡ Memory };

    fn from(_refused: AllocFailed<T>) -> RunFault {
        Self::Memory
    }
}

// Spelled in full, so that this conversion and the one above can each be changed alone in a must-fail edit.
impl From<AllocError> for RunFault {
    ghost from_gives = { λ _ r. r ≡ Memory };

    fn from(_refused: AllocError) -> RunFault {
        RunFault::Memory
    }
}
