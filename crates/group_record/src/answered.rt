// What a call on a group record says, beside the record that it leaves: a refusal leaves it as it was.
use crate::record::Groups;

#[derive(Clone, Copy)]
pub struct GroupsAnswered<A> {
    pub answer: A,
    pub groups: Groups,
}
