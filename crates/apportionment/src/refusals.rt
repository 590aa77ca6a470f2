// Why an operation refuses what it was given, each reason by its number of document 01; specs/Refusals.antt names the numbers.
ghost use Rattle.std.specs.Prelude.{◌≡◌};
ghost use Rattle.apportionment.specs.Refusals.{refusal_number};

#[derive(Clone, Copy, Debug, PartialEq, Eq, Hash)]
pub enum Refusal {
    // Reading a register.
    RegisterTooLong = 1,
    LineIllFormed = 2,
    NumberOutOfLimits = 3,
    MethodUnknown = 4,
    NameUsed = 5,
    RunningSumTooLarge = 6,
    TotalDiffers = 7,
    // Allotting and opening.
    StatesOutOfLimits = 10,
    HouseOutOfLimits = 11,
    PopulationZero = 12,
    SumTooLarge = 13,
    SeatListLength = 14,
    HouseBelowStates = 15,
    // Moving a placing.
    PlacingForeign = 21,
    // Departure, listing, name.
    DepartureOutOfLimits = 30,
    BufferTooShort = 31,
    PlaceOutOfStates = 40,
}

impl Refusal {
    // Its number.
    pub fn number(self) -> u64
        ensures { result ≡ refusal_number self }
    {
        self as u64
    }
}

// A refusal and the line of the register that is at fault, counted from 1; 0 where no line is.
#[derive(Clone, Copy, Debug, PartialEq, Eq, Hash)]
pub struct Refused {
    pub refusal: Refusal,
    pub line: u64,
}

impl From<Refusal> for Refused {
    ghost from_gives = { λ refusal refused. refused ≡ record { refusal = refusal; line = 0 } };

    fn from(refusal: Refusal) -> Refused {
        Refused { refusal, line: 0 }
    }
}

// No refusal, where C is handed a number.
pub const ACCEPTED: u64 = 0;
