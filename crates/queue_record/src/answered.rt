// What a call on a queue says, beside the queue that it leaves: a refusal leaves it as it was.
use crate::record::Queue;

#[derive(Clone, Copy)]
pub struct Answered<A> {
    pub answer: A,
    pub queue: Queue,
}
