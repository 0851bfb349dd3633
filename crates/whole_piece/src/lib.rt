#![tactic(auto)]
// What a whole piece gives back: no code (01, The scan; The text line).
use refusals::Refusal;
use session::Session;

// What came of a piece: so many bytes of lines stand at the front of the buffer, or what refused it; and the session that comes back, the one that was
// given where the piece is refused.
#[derive(Clone, Copy)]
pub struct Batch {
    pub answer: Result<usize, Refusal>,
    pub session: Session,
}
