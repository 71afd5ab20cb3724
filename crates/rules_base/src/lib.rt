// The rules that client and node share: numbers and limits, sets of ids, chunks, maps and rows; the types that they speak of.
#![tactic(auto)]

ghost use Rattle.std.specs.Prelude.{◌≡◌};
ghost use Rattle.rules_base.specs.Refusals.{number};

// Those that belong to the types of client and node.
#[derive(Clone, Copy)]
pub struct Numbers {
    pub members: u64,
    pub chunks: u64,
    pub bytes: u64,
    pub version: u64,
}

// found: the chunk. looked: how many places were looked at.
#[derive(Clone, Copy)]
pub struct Sought {
    pub found: Option<u64>,
    pub looked: u64,
}

// What a POOL_INFO says of its member.
#[derive(Clone, Copy, PartialEq, Eq)]
pub enum Op {
    AddCreate,
    AddAssemble,
    RemoveDelete,
    RemoveDisassemble,
}

// Why an event is refused, in the order of the numbers: 1 to 15 of document 01, 16 to 21 of the requests after it.
#[derive(Clone, Copy, PartialEq, Eq)]
pub enum Refusal {
    BadState,
    BadMap,
    BadId,
    BadChunk,
    OtherPool,
    JobInHand,
    NoSession,
    HasSession,
    NotAllowed,
    BadMembership,
    NotNormal,
    NotSyncable,
    NotAwaited,
    HighVersion,
    NoTransfer,
    BadPart,
    TooLate,
    BadSummary,
    NoFreeId,
    BadStatus,
    BadRecord,
}

impl Refusal {
    pub fn number(self) -> u64
        ensures { result ≡ number self }
    {
        match self {
            Refusal::BadState => 1,
            Refusal::BadMap => 2,
            Refusal::BadId => 3,
            Refusal::BadChunk => 4,
            Refusal::OtherPool => 5,
            Refusal::JobInHand => 6,
            Refusal::NoSession => 7,
            Refusal::HasSession => 8,
            Refusal::NotAllowed => 9,
            Refusal::BadMembership => 10,
            Refusal::NotNormal => 11,
            Refusal::NotSyncable => 12,
            Refusal::NotAwaited => 13,
            Refusal::HighVersion => 14,
            Refusal::NoTransfer => 15,
            Refusal::BadPart => 16,
            Refusal::TooLate => 17,
            Refusal::BadSummary => 18,
            Refusal::NoFreeId => 19,
            Refusal::BadStatus => 20,
            Refusal::BadRecord => 21,
        }
    }
}
