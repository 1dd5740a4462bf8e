// R63: what refuses a call, and its number.
ghost use Rattle.std.specs.Prelude.{◌≡◌};
ghost use Rattle.queue_record.specs.Refusals.{refusal_number, result_number};

#[derive(Clone, Copy, Debug, PartialEq, Eq)]
pub enum Refusal {
    Broken,
    BadNumber,
    NoSlot,
    NotPending,
    NoAttempt,
    NotOut,
    KeptOnDone,
    NoRetry,
    Hollow,
    NoGroup,
    GroupsFull,
    Sealed,
    NotDrained,
    TooManyBindings,
    BadOutcome,
    BadLog,
    LogFull,
    BadText,
    NoId,
    NothingKept,
    NoFurtherAttempt,
}

// The numbers begin at 1: 0 says that a call was done.
impl From<Refusal> for u64 {
    ghost from_gives = { λ refusal number. number ≡ refusal_number refusal };

    fn from(refusal: Refusal) -> u64 {
        refusal as u64 + 1
    }
}

// A result's number: 0 where nothing refused.
pub fn result_number(refusal: Option<Refusal>) -> u64
    ensures { result ≡ result_number refusal }
{
    match refusal {
        None => 0,
        Some(refusal) => refusal.into(),
    }
}
