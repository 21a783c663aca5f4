// The refusals of documents 01 and 02, by the names of specs/Refusals.antt, each with its number there.
ghost use Rattle.std.specs.Prelude.{◌≡◌};
ghost use Rattle.rules.specs.Outcome.{number_of};
ghost use Rattle.rules.specs.Results.{number, outcome};

#[derive(Clone, Copy, PartialEq, Eq)]
pub enum Refusal {
    NotArchive = 1,
    BadLink = 2,
    WrongKind = 3,
    NoPlant = 4,
    NoMeasure = 5,
    BadPlant = 6,
    BadMeasure = 7,
    BadCount = 8,
    OutOfRange = 9,
    BadCurve = 10,
    TooFewUsable = 11,
    DivisorZero = 12,
    NoRoom = 13,
    BadRecord = 14,
    BadOwner = 15,
    ArchiveFull = 16,
    NotNamedOnce = 17,
    NotInCalendar = 18,
    LastNotNamedOnce = 19,
    BadEnergies = 20,
    BadPrice = 21,
    UnequalLists = 22,
}

impl Refusal {
    pub fn number(self) -> u32
        ensures { result ≡ number self }
    {
        self as u32
    }
}

// What a call returns that gives nothing else: the number of its refusal, or 0.
pub fn number_of(answer: Result<(), Refusal>) -> u32
    ensures { result ≡ number_of (outcome answer) }
{
    match answer {
        Ok(()) => 0,
        Err(refusal) => refusal.number(),
    }
}
