// The refusals of the paper, each by what is wrong, and their numbers. What a number means to a host is in the README.
ghost use Rattle.std.specs.Prelude.{◌≡◌};
ghost use Rattle.wire.specs.Numbered.{number_of};

#[derive(Clone, Copy, Debug, PartialEq, Eq)]
pub enum Refusal {
    // An address, a function or a value width that cannot be asked for.
    BadArgument = 1,
    // A Pulsar-M frame.
    TooShort = 2,
    NotBcd = 3,
    BadLength = 4,
    BadCrc = 5,
    OtherAddress = 6,
    OtherFunction = 7,
    OtherId = 8,
    OnItsWay = 9,
    // A body, and room for what is written.
    UnknownFunction = 10,
    BadBody = 11,
    BadMask = 12,
    BadDate = 13,
    BadArchiveType = 14,
    BadStatus = 15,
    NoRoom = 16,
    TooLong = 17,
    // A state that no call has left so.
    Unfit = 20,
    // An SM160 frame by its fields.
    ShortFrame = 21,
    WrongSize = 22,
    BadPart = 23,
    WrongPartCrc = 24,
    BadFlags = 25,
    // A frame where the receiver stands.
    OtherSession = 26,
    NothingUnderWay = 27,
    StartElsewhere = 28,
    BelowCount = 29,
    AboveCount = 30,
    BeyondBuffer = 31,
    // What is to be sent.
    BadFile = 32,
    BadLargest = 33,
    PastEnd = 34,
    // A datagram.
    OtherType = 35,
    BadText = 36,
    BadLengths = 37,
    WrongDatagramCrc = 38,
    Compressed = 39,
    // A Modbus envelope.
    ShortEnvelope = 40,
    LongEnvelope = 41,
    OtherProtocol = 42,
    WrongLengthField = 43,
    WrongCrc = 44,
    // A card; 53 is a clock's time too.
    OtherCardLength = 50,
    SpareSet = 51,
    BadCardAddress = 52,
    BadTime = 53,
    UpperHalfSet = 54,
    BadChannel = 55,
    BadArchiveKind = 56,
    NotCurrent = 57,
    // A line of Modbus ASCII.
    ShortLine = 60,
    LongLine = 61,
    BadMarks = 62,
    BadCharacters = 63,
    WrongLrc = 64,
    // Consumption.
    NothingPresent = 71,
    BelowEarlier = 72,
    NotTaken = 73,
    // Records and descriptors of ADI heat meters.
    BadCount = 80,
    OtherRecordType = 81,
    BadRecord = 82,
    BadRecordLength = 83,
    BadDescriptor = 84,
    // A controller's text file.
    OtherTag = 90,
    OtherAttribute = 91,
    BadQuote = 92,
    NoLineEnd = 93,
    // The table of turns.
    NoAddress = 100,
    NoSlot = 101,
    EmptySlot = 102,
    AddressPresent = 103,
    NoEmptySlot = 104,
    NobodyDue = 105,
}

impl Refusal {
    // The paper's number.
    pub fn number(self) -> u8
        ensures { result ≡ number_of self }
    {
        self as u8
    }
}

impl From<Refusal> for u8 {
    ghost from_gives = { λ refusal n. n ≡ number_of refusal };

    fn from(refusal: Refusal) -> u8 {
        refusal.number()
    }
}
