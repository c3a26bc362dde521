// Why a question is refused, and where.
#![tactic(auto)]

// The number of a refusal (§2.1), its line and its column; each of these is 0 where the refusal points at none.
#[derive(Clone, Copy, PartialEq, Eq)]
pub struct Refused(pub u32, pub usize, pub usize);
