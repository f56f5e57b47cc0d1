// The numbers that a call returns: one refusal for each number of document 01's table and document 02's requests.
#![tactic(auto)]

ghost use Rattle.std.specs.Prelude.{◌≡◌};
ghost use Rattle.answers.specs.Numbers.{number_of, number_of_answer};

// Why a call is refused. Each has its number in the table of documents 01 and 02.
#[derive(Clone, Copy, Debug, PartialEq, Eq)]
pub enum Refusal {
    MemoryLength = 1,
    Waiting = 2,
    Opcode = 3,
    PastEnd = 4,
    PostByte = 5,
    TransferCode = 7,
    StackTooSmall = 8,
    ZeroAtVector = 9,
    JournalFull = 10,
    NoRecord = 11,
    JournalLength = 12,
    DivisionByZero = 13,
    LeftByte = 14,
    NoRoom = 15,
    Malformed = 16,
    OutputShort = 17,
    LineShape = 20,
    Checksum = 21,
    PastTop = 22,
    NoEnd = 23,
    PostByte8F = 24,
    LineShort = 25,
    TooFewRecords = 26,
    ListShort = 27,
    Fenced = 28,
    SalvageShort = 29,
}

impl Refusal {
    pub fn number(self) -> u8
        ensures { result ≡ number_of self }
    {
        self as u8
    }
}

// The number of an answer: 0 where the call is done.
pub fn number<T>(answer: &Result<T, Refusal>) -> u8
    ensures { result ≡ number_of_answer answer.now }
{
    // Two arms show both numbers; a chain of `err` and `map_or` would say no less.
    match answer {
        Ok(_) => 0,
        Err(refusal) => refusal.number(),
    }
}
