#![tactic(auto)]
// Feeding a session: which datagrams a piece completes, and what comes back with each (01, The scan; Status, doubles, gaps; Totals).
ghost use Rattle.std.specs.Prelude.{◌≡◌, [], ◌++◌, ◌+◌, ◌≤◌, length, drop, Ok};
ghost use Rattle.integers.specs.Buffers.{padded};
ghost use Rattle.setup.specs.Sensor.{sensor_of};
ghost use Rattle.scan.specs.Scan.{first, later, ends, finds};
ghost use Rattle.search.specs.Search.{verdict_of};
ghost use Rattle.session.specs.Session.{session_with};
ghost use Rattle.admission.specs.Admission.{held_bytes, piece_ruling};
ghost use Rattle.feeding.specs.Feed.{refusal, feed_of};
ghost use Rattle.feeding.specs.CallParts.{reply_after, reply_at_once};

use feeding::{Answer, Reply};
use history::History;
use refusals::Refusal;
use search::Place;
use session::Session;
use setup::Sensor;

// A call that nothing refuses: a session, what its setup says of the sensor, and the piece that is fed.
#[derive(Drop)]
struct Call<'a> {
    session: Session,
    sensor: Sensor,
    piece: &'a [u8],
    ghost admitted: { piece_ruling session (length piece.now) ≡ Ok tt },
    ghost described: { sensor ≡ sensor_of session.setup },
}

// The bytes held, 64 at most, and then those of a piece, with zeros behind them.
fn join(held: &[u8], piece: &[u8]) -> [u8; 128]
    requires { (length held.now ≤ 64) × (length held.now + length piece.now ≤ 128) }
    ensures { result ≡ padded 128 (held.now ++ piece.now) }
{
    let mut joined = [0u8; 128];
    let count = byte_slices::copy(held, &mut joined);
    byte_slices::copy(piece, &mut joined[count..]);
    joined
}

// The call is refused: the session comes back as given, and no byte is taken.
fn refuse(session: Session, refused: Refusal) -> Reply
    ensures { result ≡ refusal session refused }
{
    let datagram = answers::no_datagram();
    Reply {
        answer: Answer::Refused(refused),
        taken: 0,
        session: session,
        datagram: datagram,
    }
}

impl<'a> Call<'a> {
    // The session behind so many bytes passed over and taken, with the undecided ones held. So few, here and below, leave room for them in its counts; a type
    // of their own would be taken apart at each sum.
    fn session_behind(
        &self,
        history: History,
        passed: usize,
        taken: usize,
        undecided: &[u8],
    ) -> Session
        requires { (passed ≤ 8192) × (taken ≤ 8192) × (length undecided.now ≤ 64) }
        ensures { result ≡ session_with self.now.session.setup history (self.now.session.passed + passed) (self.now.session.fed + taken) undecided.now }
    {
        let setup = self.session.setup;
        session::session_with(
            setup,
            history,
            self.session.passed + (passed as u64),
            self.session.fed + (taken as u64),
            undecided,
        )
    }

    // The call ends with a datagram d, so many bytes having been passed over before it: it moves the history on and comes back.
    fn hand_out(&self, passed: usize, taken: usize, d: &[u8]) -> Reply
        requires { (passed ≤ 8192) × (taken ≤ 8192) }
        ensures { result ≡ reply_after self.now.session taken (finds passed d.now []) }
    {
        let sensor = self.sensor;
        let row = sensor.row;
        let rate = sensor.rate;
        let units = sensor.units;
        let before = self.session.history;
        let readings = wire::readings(row, d);
        let fields = wire::fields_of(row, d);
        let statuses = fields.statuses;
        let counter = fields.counter;
        let gap = history::gap_before(rate, before, counter);
        let kept = motion::kept_groups(row, units);
        let history = history::advance(rate, kept, before, readings, statuses, counter);
        let datagram = answers::datagram_of(sensor, gap, readings, fields, history);
        let after = self.session_behind(history, passed, taken, &[]);
        Reply {
            answer: Answer::Datagram,
            taken: taken,
            session: after,
            datagram: datagram,
        }
    }

    // The call ends with the piece, so many bytes having been passed over: the undecided ones are held.
    #[tactic(auto, using(crate::proofs::Calls::short), unfolding(feeding::specs::CallParts::reply_after))]
    fn hold(&self, passed: usize, undecided: &[u8]) -> Reply
        requires { (passed ≤ 8192) × (length undecided.now ≤ 64) }
        ensures { result ≡ reply_after self.now.session (length self.now.piece.now) (ends passed undecided.now) }
    {
        let taken = self.piece.len();
        let history = self.session.history;
        let next = self.session_behind(history, passed, taken, undecided);
        let datagram = answers::no_datagram();
        Reply {
            answer: Answer::Waiting,
            taken: taken,
            session: next,
            datagram: datagram,
        }
    }

    // The scan of the piece from a place on, so many bytes having been passed over before it.
    fn scan_on(&self, passed: usize, from: usize) -> Reply
        requires { (passed ≤ 128) × (from ≤ length self.now.piece.now) }
        ensures { result ≡ reply_at_once self.now.session self.now.piece.now (later passed (first (verdict_of self.now.session.setup) (drop from self.now.piece.now))) }
    {
        let rest = &self.piece[from..];
        match search::find(self.sensor, rest) {
            Place::Complete(at, size) => {
                let end = at + size;
                self.hand_out(passed + at, from + end, &rest[at..end])
            }
            Place::Undecided(at) => self.hold(passed + at, &rest[at..]),
        }
    }

    // The scan of the bytes held and then of the piece: of both where they meet, and from there on of the piece alone.
    fn scan_held(&self) -> Reply
        ensures { result ≡ reply_at_once self.now.session self.now.piece.now (first (verdict_of self.now.session.setup) (held_bytes self.now.session ++ self.now.piece.now)) }
    {
        let sensor = self.sensor;
        let row = sensor.row;
        let piece = self.piece;
        let held = self.session.held;
        let count = self.session.count;
        let longest = wire::length_of(row, sensor.terminated);
        let front = piece.len().min(longest - 1);
        let joined = join(&held[..count], &piece[..front]);
        let window = &joined[..count + front];
        match search::find(sensor, window) {
            Place::Complete(at, size) => {
                let end = at + size;
                self.hand_out(at, end - count, &window[at..end])
            }
            Place::Undecided(at) => {
                if front == piece.len() {
                    self.hold(at, &window[at..])
                } else {
                    self.scan_on(at, at - count)
                }
            }
        }
    }

    // The scan of the call.
    #[tactic(auto, using(crate::proofs::Calls::at_once, crate::proofs::Calls::at_once_alone))]
    fn scan(&self) -> Reply
        ensures { result ≡ feed_of self.now.session self.now.piece.now }
    {
        let count = self.session.count;
        if count == 0 {
            return self.scan_on(0, 0);
        }
        self.scan_held()
    }
}

// A call: 10, 11 or 12 refuses it, or it takes bytes of the piece until a datagram is complete or the piece ends (01, The scan).
pub fn feed(session: Session, piece: &[u8]) -> Reply
    ensures { result ≡ feed_of session piece.now }
{
    match admission::admit(session, piece.len()) {
        Ok(sensor) => {
            let call = Call {
                session: session,
                sensor: sensor,
                piece: piece,
            };
            call.scan()
        }
        Err(refused) => refuse(session, refused),
    }
}
