// R28, R29: the five phases, the four events, and the table of next phases.
ghost use Rattle.std.specs.Prelude.{◌≡◌};
ghost use Rattle.stage.specs.Phases.{phase_after, is_pending, is_settled, is_cancelled, phase_number, event_number, phase_at};

#[derive(Clone, Copy, Debug, PartialEq, Eq, Hash)]
pub enum Phase {
    Idle,
    Pending,
    Ended,
    Stopping,
    Closed,
}

#[derive(Clone, Copy, Debug, PartialEq, Eq, Hash)]
pub enum Event {
    Admit,
    Land,
    End,
    Cancel,
}

// R28: a row for each phase, a column for each event; where the phase stays, the phase itself. The rule keeps it as constant numbers.
const NEXT: [[u64; 4]; 5] = [
    [1, 0, 0, 4],
    [1, 0, 2, 3],
    [2, 2, 2, 4],
    [3, 4, 4, 3],
    [4, 4, 4, 4],
];

// The phase's row of the table.
impl From<Phase> for u64 {
    ghost from_gives = { λ phase number. number ≡ phase_number phase };

    fn from(phase: Phase) -> u64 {
        phase as u64
    }
}

// The event's column of the table.
impl From<Event> for u64 {
    ghost from_gives = { λ event number. number ≡ event_number event };

    fn from(event: Event) -> u64 {
        event as u64
    }
}

// The phase of a row; a number past 4 counts as Closed.
impl From<u64> for Phase {
    ghost from_gives = { λ number phase. phase ≡ phase_at number };

    fn from(number: u64) -> Phase {
        match number {
            0 => Phase::Idle,
            1 => Phase::Pending,
            2 => Phase::Ended,
            3 => Phase::Stopping,
            _ => Phase::Closed,
        }
    }
}

impl Phase {
    pub fn is_pending(self) -> bool
        ensures { result ≡ is_pending self }
    {
        matches!(self, Phase::Pending | Phase::Stopping)
    }

    pub fn is_settled(self) -> bool
        ensures { result ≡ is_settled self }
    {
        matches!(self, Phase::Ended | Phase::Closed)
    }

    pub fn is_cancelled(self) -> bool
        ensures { result ≡ is_cancelled self }
    {
        matches!(self, Phase::Stopping | Phase::Closed)
    }
}

// The phase after an event.
#[tactic(auto, using(crate::proofs::Table::phase_below, crate::proofs::Table::event_below))]
pub fn next_phase(phase: Phase, event: Event) -> Phase
    ensures { result ≡ phase_after phase event }
{
    let row = u64::from(phase) as usize;
    let column = u64::from(event) as usize;
    NEXT[row][column].into()
}
