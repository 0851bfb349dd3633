#![tactic(auto)]
// What feeding a session gives back: no code (01, The scan; Status, doubles, gaps; Totals; 02, 2.3, 2.5).
use doubles::{GroupValues, TotalDoubles};
use doubt::GyroMarks;
use gaps::Gap;
use motion::{Judgements, Totals};
use refusals::Refusal;
use session::Session;
use wire::Fields;

// A datagram as it comes back.
#[derive(Clone, Copy)]
pub struct Datagram {
    // readings X, Y, Z of each group
    pub gyro: [i32; 3],
    pub accelerometer: [i32; 3],
    pub inclinometer: [i32; 3],
    // statuses, temperatures, AUX, counter and latency
    pub fields: Fields,
    // how many channels the status byte of each group flags
    pub flagged: [u32; 3],
    // how each axis is judged by its group's status byte
    pub judgements: Judgements,
    pub values: GroupValues,
    pub gap: Gap,
    pub totals: Totals,
    pub doubles: TotalDoubles,
    // whether the total of each gyro axis is doubtful
    pub doubtful: GyroMarks,
}

// What happened: a datagram was handed out, the piece ended, the call was refused (01, The scan). It is no Result: 01 tells of three kinds beside the session.
#[derive(Clone, Copy)]
pub enum Answer {
    Datagram,
    Waiting,
    Refused(Refusal),
}

// What a call tells: which happened, how many bytes it took, the new session, and the datagram, zeros, every axis fit and no mark where none is handed out.
#[derive(Clone, Copy)]
pub struct Reply {
    pub answer: Answer,
    pub taken: usize,
    pub session: Session,
    pub datagram: Datagram,
}
