#![tactic(auto)]
// A whole piece at once: the text lines of all datagrams that it completes, into a lent buffer.
ghost use Rattle.std.specs.Prelude.{◌≡◌, true, false, [], ◌∷◌, ◌+◌, ◌-◌, ◌≤◌, length, Ok};
ghost use Rattle.std.proofs.lemmas.List.Edits.{sets};
ghost use Rattle.setup.specs.Setup.{ruling_on};
ghost use Rattle.setup.specs.Sensor.{sensor_of};
ghost use Rattle.text.specs.TextLine.{shown_by};
ghost use Rattle.shown_line.specs.ShownLine.{shown_text, outside};
ghost use Rattle.integers.specs.Buffers.{Put};
ghost use Rattle.scan.specs.Scan.{first};
ghost use Rattle.search.specs.Search.{is_datagram, limits_of, verdict_of, place_of};
ghost use Rattle.admission.specs.Admission.{piece_ruling};
ghost use Rattle.history.specs.History.{greatest_count};
ghost use Rattle.whole_piece.specs.Lines.{line_by, found_in, room_for, enough, refusing, batch_of, batch_buffer};
ghost use Rattle.whole_piece.specs.NextLines.{next_line};
ghost use Rattle.lines.specs.PieceParts.{start_of, next_of, stopped, scan_at, Ready, Finished, Answered, Permitted};

use feeding::{Answer, Datagram};
use gaps::Datagrams;
use history::History;
use refusals::Refusal;
use search::Place;
use session::Session;
use setup::Sensor;
use shown_line::Shown;
use text_line::LineValues;
use whole_piece::Batch;

// A buffer of so many bytes is long enough for the lines of any piece.
const ENOUGH: usize = 72000;

// A session of an accepted setup, with what is looked up once for a piece: what the setup says of its sensor, and which fields of a line it shows.
#[derive(Drop)]
struct Receiving {
    session: Session,
    sensor: Sensor,
    shown: Shown,
    ghost accepted: { ruling_on session.setup ≡ Ok tt },
    ghost described: { sensor ≡ sensor_of session.setup },
    ghost shows: { shown ≡ shown_by session.setup },
}

// What a datagram of the piece moves on. That it may go on (`Ready`) is no ghost field: it speaks of the piece's end and of the lent buffer's room.
#[derive(Clone, Copy)]
struct Progress {
    history: History,
    // how many bytes were passed over
    passed: u64,
    // the place in the piece, and how many bytes of the buffer are written
    at: usize,
    used: usize,
}

// The piece is refused: the session comes back as given.
fn refuse(session: Session, refused: Refusal) -> Batch
    ensures { result ≡ refusing session refused }
{
    Batch {
        answer: Err(refused),
        session: session,
    }
}

// A line behind those that are written. Nothing refuses it.
fn put_behind(buffer: &mut [u8], used: usize, shown: Shown, values: LineValues) -> usize
    requires inside { outside values.ordinal.0 values.readings values.totals ≡ false }
    requires room { used + length (shown_text shown values.ordinal.0 values.counter values.latency values.gap values.readings values.statuses values.totals) ≤ length buffer.old }
    ensures { Put buffer.old used (shown_text shown values.ordinal.0 values.counter values.latency values.gap values.readings values.statuses values.totals) buffer.new result }
{
    let written = text_line::write_shown(&mut buffer[used..], shown, values).unwrap_or(0);
    used + written
}

impl Progress {
    // So many bytes are passed over, and no datagram follows.
    fn stop(self, skipped: usize) -> Progress
        requires { (self.passed + skipped ≤ greatest_count) × (self.at + skipped ≤ greatest_count) }
        ensures { result ≡ stopped self skipped }
    {
        Progress {
            history: self.history,
            passed: self.passed + (skipped as u64),
            at: self.at + skipped,
            used: self.used,
        }
    }
}

// The line of a datagram that came back, at the front of the buffer.
fn first_line(shown: Shown, ordinal: Datagrams, datagram: Datagram, buffer: &mut [u8]) -> usize
    requires inside { outside ordinal.0 (datagram.gyro ∷ datagram.accelerometer ∷ datagram.inclinometer ∷ []) datagram.totals ≡ false }
    requires room { length (line_by shown ordinal.0 datagram) ≤ length buffer.old }
    ensures { Put buffer.old 0 (line_by shown ordinal.0 datagram) buffer.new result }
{
    let gyro = datagram.gyro;
    let accelerometer = datagram.accelerometer;
    let inclinometer = datagram.inclinometer;
    let fields = datagram.fields;
    let readings = [gyro, accelerometer, inclinometer];
    let statuses = fields.statuses;
    let gap = datagram.gap;
    let totals = datagram.totals;
    let values = LineValues {
        ordinal: ordinal,
        counter: fields.counter,
        latency: fields.latency,
        gap: gap,
        readings: readings,
        statuses: statuses,
        totals: totals,
    };
    put_behind(buffer, 0, shown, values)
}

// A buffer of so many bytes is long enough for the lines of a piece of so many.
fn room_for(length: usize) -> usize
    requires { room_for length ≤ enough }
    ensures { result ≡ room_for length }
{
    (length + 64) / 18 * text_line::longest_line()
}

impl Receiving {
    // The next datagram d, behind so many bytes passed over: it moves the totals on, and its line is written.
    fn one_line(&self, progress: Progress, skipped: usize, d: &[u8], buffer: &mut [u8]) -> Progress
        requires ready { Ready self.now.session.setup progress (progress.at + (skipped + length d.now)) (length buffer.old) }
        requires whole { is_datagram self.now.session.setup d.now ≡ true }
        ensures answer { result ≡ next_of self.now.session.setup progress skipped d.now }
        ensures written { buffer.new ≡ sets buffer.old progress.used (next_line self.now.session.setup progress.history d.now) }
    {
        let sensor = self.sensor;
        let shown = self.shown;
        let row = sensor.row;
        let rate = sensor.rate;
        let kept = shown.kept;
        let before = progress.history;
        let readings = wire::readings(row, d);
        let statuses = wire::statuses(row, d);
        let counter = wire::counter(row, d);
        let latency = wire::latency(row, d);
        let gap = history::gap_before(rate, before, counter);
        let history = history::advance(rate, kept, before, readings, statuses, counter);
        let ordinal = history.datagrams;
        let axes = history.axes;
        let totals = motion::totals_of(axes);
        let values = LineValues {
            ordinal: ordinal,
            counter: counter,
            latency: latency,
            gap: gap,
            readings: readings,
            statuses: statuses,
            totals: totals,
        };
        let used = put_behind(buffer, progress.used, shown, values);
        Progress {
            history: history,
            passed: progress.passed + (skipped as u64),
            at: progress.at + (skipped + d.len()),
            used: used,
        }
    }

    // Where the first datagram of the setup lies in bytes.
    #[tactic(auto, using(feeding::proofs::BySetup::sensor_verdict))]
    fn find(&self, bytes: &[u8]) -> Place
        ensures { result ≡ place_of (first (verdict_of self.now.session.setup) bytes.now) }
    {
        let sensor = self.sensor;
        search::find(sensor, bytes)
    }

    // The lines of the piece from a place on.
    fn lines_from(&self, start: Progress, piece: &[u8], buffer: &mut [u8]) -> Progress
        requires { Ready self.now.session.setup start (length piece.now) (length buffer.old) }
        ensures { Finished self.now.session.setup start piece.now buffer.old buffer.new result }
    {
        let len = piece.len();
        let mut going = start;
        // No `for`: the next place is where the datagram ends.
        while going.at < len {
            let at = going.at;
            let rest = &piece[at..];
            match self.find(rest) {
                Place::Complete(skipped, size) => {
                    let end = skipped + size;
                    going = self.one_line(going, skipped, &rest[skipped..end], buffer);
                }
                Place::Undecided(skipped) => {
                    return going.stop(skipped);
                }
            }
        }
        going
    }

    // The same for a session that holds nothing, with the session behind the piece.
    fn lines_of(&self, piece: &[u8], at: usize, used: usize, buffer: &mut [u8]) -> Batch
        requires ready { Ready self.now.session.setup (start_of self.now.session at used) (length piece.now) (length buffer.old) }
        requires within { self.now.session.fed + (length piece.now - at) ≤ (limits_of self.now.session.setup).session }
        ensures { Answered self.now.session used (scan_at self.now.session.setup piece.now at) (length piece.now - at) buffer.old buffer.new result }
    {
        let setup = self.session.setup;
        let history = self.session.history;
        let start = Progress {
            history: history,
            passed: self.session.passed,
            at: at,
            used: used,
        };
        let end = self.lines_from(start, piece, buffer);
        let place = end.at;
        let last = end.history;
        let after = session::session_with(
            setup,
            last,
            end.passed,
            self.session.fed + ((piece.len() - at) as u64),
            &piece[place..],
        );
        Batch {
            answer: Ok(end.used),
            session: after,
        }
    }

    // The lines of a piece behind bytes that are held.
    fn lines_behind(&self, piece: &[u8], buffer: &mut [u8]) -> Batch
        requires { Permitted self.now.session (length piece.now) (length buffer.old) }
        ensures { Answered self.now.session 0 (found_in self.now.session piece.now) (length piece.now) buffer.old buffer.new result }
    {
        let reply = receiver::feed(self.session, piece);
        let answer = reply.answer;
        let taken = reply.taken;
        let next = reply.session;
        match answer {
            Answer::Datagram => {
                let datagram = reply.datagram;
                let history = next.history;
                let used = first_line(self.shown, history.datagrams, datagram, buffer);
                let rest = Receiving {
                    session: next,
                    sensor: self.sensor,
                    shown: self.shown,
                };
                rest.lines_of(piece, taken, used, buffer)
            }
            Answer::Waiting => Batch {
                answer: Ok(0),
                session: next,
            },
            Answer::Refused(refused) => refuse(self.session, refused),
        }
    }

    // The lines of a piece that nothing refuses.
    #[tactic(auto, using(crate::proofs::Answered::answered_none, admission::proofs::PieceRulings::admitted))]
    fn all_lines(&self, piece: &[u8], buffer: &mut [u8]) -> Batch
        requires { Permitted self.now.session (length piece.now) (length buffer.old) }
        ensures { Answered self.now.session 0 (found_in self.now.session piece.now) (length piece.now) buffer.old buffer.new result }
    {
        let count = self.session.count;
        if count == 0 {
            return self.lines_of(piece, 0, 0, buffer);
        }
        self.lines_behind(piece, buffer)
    }

    // A buffer that may be shorter than the lines of the piece: they are made apart from it, in an array, since nothing here has a
    // heap, and copied to its front unless 14 refuses them.
    fn lines_apart(&self, piece: &[u8], buffer: &mut [u8]) -> Batch
        requires { piece_ruling self.now.session (length piece.now) ≡ Ok tt }
        ensures answer { result ≡ batch_of self.now.session piece.now (length buffer.old) }
        ensures written { buffer.new ≡ batch_buffer self.now.session piece.now buffer.old }
    {
        let mut apart = [0u8; ENOUGH];
        let batch = self.all_lines(piece, &mut apart);
        let answer = batch.answer;
        let after = batch.session;
        match answer {
            Ok(used) => {
                if buffer.len() < used {
                    return refuse(self.session, Refusal::LineRoom);
                }
                Batch {
                    answer: Ok(byte_slices::copy(&apart[..used], buffer)),
                    session: after,
                }
            }
            Err(refused) => refuse(self.session, refused),
        }
    }
}

// A piece fed to its end, and the line of each datagram that it completes; or 10, 11, 12 or 14 refuses it and writes nothing.
pub fn receive_lines(session: Session, piece: &[u8], buffer: &mut [u8]) -> Batch
    ensures answer { result ≡ batch_of session piece.now (length buffer.old) }
    ensures written { buffer.new ≡ batch_buffer session piece.now buffer.old }
{
    match admission::admit(session, piece.len()) {
        Err(refused) => refuse(session, refused),
        Ok(sensor) => {
            let row = sensor.row;
            let units = sensor.units;
            let receiving = Receiving {
                session: session,
                sensor: sensor,
                shown: text::shown_of(row, units),
            };
            if buffer.len() < room_for(piece.len()) {
                return receiving.lines_apart(piece, buffer);
            }
            receiving.all_lines(piece, buffer)
        }
    }
}
