// What a line answers, from each call's own answer: a refusal's number, a case and its values.
use cleanup_queue::{Completed, Popped, Refusal, RegisteredAll, Retried, Ticket, Told};

#[derive(Clone, Copy)]
pub enum Said {
    // A case and its values.
    Good(u64, [u64; 4]),
    // A refusal, and what comes back with it.
    Refused(Refusal, u64),
    // A line that shows: what it shows is its answer.
    Shown,
    // The line can't be obeyed.
    NoCall,
}

// A case with at most one value.
fn good(case: u64, value: u64) -> Said {
    Said::Good(case, [value, 0, 0, 0])
}

pub fn done() -> Said {
    good(1, 0)
}

fn with_ticket(case: u64, ticket: Ticket, value: u64) -> Said {
    Said::Good(case, [ticket.domain, ticket.token, ticket.attempt, value])
}

pub fn told(answer: Told) -> Said {
    match answer {
        Ok(false) => good(1, 0),
        Ok(true) => good(2, 0),
        Err(refusal) => Said::Refused(refusal, 0),
    }
}

// Of the openings, a cancel, a close or a get.
pub fn passed(answer: Result<(), Refusal>) -> Said {
    match answer {
        Ok(()) => done(),
        Err(refusal) => Said::Refused(refusal, 0),
    }
}

// A domain, an id or a count.
pub fn counted(answer: Result<u64, Refusal>) -> Said {
    match answer {
        Ok(number) => good(1, number),
        Err(refusal) => Said::Refused(refusal, 0),
    }
}

// A birth or a reading: its number, or what comes back.
pub fn numbered(answer: Result<u64, (Refusal, u64)>) -> Said {
    match answer {
        Ok(number) => good(1, number),
        Err((refusal, given)) => Said::Refused(refusal, given),
    }
}

// A list: how many were taken, whether or not one was refused.
pub fn all_born(answer: RegisteredAll) -> Said {
    match answer.refusal {
        None => good(1, answer.taken),
        Some(refusal) => Said::Refused(refusal, answer.taken),
    }
}

pub fn popped(answer: Popped) -> Said {
    match answer {
        Ok(None) => good(1, 0),
        Ok(Some((ticket, undo))) => with_ticket(2, ticket, undo),
        Err(refusal) => Said::Refused(refusal, 0),
    }
}

pub fn completed(answer: Completed) -> Said {
    match answer {
        Ok(()) => done(),
        Err((refusal, given)) => Said::Refused(refusal, given),
    }
}

pub fn retried(answer: Retried) -> Said {
    match answer {
        Ok(ticket) => with_ticket(1, ticket, 0),
        Err(refusal) => Said::Refused(refusal, 0),
    }
}

// The seven decimals of an answer; none where the line has shown. No call answers 18, so that it tells a line that can't be obeyed.
pub fn columns(said: Said, line: u64, used: u64) -> Option<[u64; 7]> {
    match said {
        Said::Good(case, v) => Some([0, case, v[0], v[1], v[2], v[3], used]),
        Said::Refused(refusal, value) => Some([refusal.into(), 0, value, 0, 0, 0, used]),
        Said::Shown => None,
        Said::NoCall => Some([Refusal::BadText.into(), 0, line, 0, 0, 0, used]),
    }
}
