// The frames that an endpoint writes: the data of setup requests, the width of values, and the fields of each frame.
ghost use Rattle.std.specs.Prelude.{◌≡◌, false, ◌++◌, ◌&&◌, ◌*◌, ◌≤◌, cond, leb, length, replicate, take};
ghost use Rattle.endpoint.specs.Due.{request_due};
ghost use Rattle.endpoint.specs.Endpoint.{bare};
ghost use Rattle.steps.specs.Frames.{words_bytes, setup_data, padded_of, width_of};
ghost use Rattle.steps.specs.Frames.{due_data, send_width, show_width, session_of, session_with, sent_fields, baseline_of};
ghost use Rattle.steps.specs.Frames.{reply_fields};
ghost use Rattle.steps.specs.Frames.{is_performed, is_busy, has_record, reply_data};
ghost use Rattle.steps.specs.Says.{bytes_in, DataSays};
ghost use Rattle.steps.specs.Values.{with_handed};
ghost use Rattle.frame.specs.Writing.{HeadSays};
ghost use Rattle.transitions.specs.ByCall.{measurement_after};

use super::queue::padded;
use super::{Body, HandedOver};
use endpoint::{Core, Settings};
use frame::control::is_joined;
use frame::write::write_head;
use frame::{Command, Fields, Head, TIMESTAMP_MODULUS};
use transitions::by_call::measurement_after;
use words::put_word;

impl Body {
    #[tactic(auto, using(crate::proofs::Words::put_turn))]
    fn of_words(words: &[u32]) -> Body
        requires { length words.now ≤ 25 }
        ensures { DataSays (words_bytes words.now) result }
    {
        let mut bytes = [0; 100];
        for (k, word) in words.iter().enumerate() {
            put_word(&mut bytes, 4 * k, *word);
        }
        Body {
            bytes,
            length: 4 * words.len(),
        }
    }

    pub(crate) fn bytes(&self) -> &[u8]
        ensures { result.now ≡ bytes_in self.now }
    {
        &self.bytes[..self.length.min(100)]
    }
}

// The words that a setup request carries.
#[tactic(auto, unfolding(crate::specs::Frames::setup_data))]
pub(crate) fn setup_data(s: Settings, k: Command) -> Body
    ensures { DataSays (setup_data s k) result }
{
    let sizes = 32 * u32::from(s.masterwords) + u32::from(s.slavewords);
    match k {
        Command::Connect => Body::of_words(&[1]),
        Command::ConfirmNetwork => Body::of_words(&[s.interval, s.roundtrip, s.age, sizes]),
        Command::VerifyStation => Body::of_words(&[s.station]),
        _ => Body::of_words(&[0]),
    }
}

// How many words a user's S-Data has, or an error record. A count outside, which none has that was taken, counts as the
// least.
#[derive(Clone, Copy)]
struct Counts {
    least: u8,
    most: u8,
}

const WORDS: Counts = Counts { least: 1, most: 25 };

const RECORD: Counts = Counts { least: 4, most: 14 };

impl Counts {
    fn contains(self, words: u8) -> bool
        ensures { result ≡ leb self.least words && leb words self.most }
    {
        (self.least..=self.most).contains(&words)
    }

    // Bytes of so many words.
    fn width(self, words: u8) -> usize
        ensures { result ≡ 4 * cond (leb self.least words && leb words self.most) words self.least }
    {
        let counted = if self.contains(words) {
            words
        } else {
            self.least
        };
        4 * usize::from(counted)
    }

    // So many words of what is held, and zeros past its end.
    fn front(self, words: u8, held: &[u8]) -> Body
        requires { (self.least ≤ 25) × (self.most ≤ 25) }
        ensures { DataSays
            (take (4 * cond (leb self.least words && leb words self.most) words self.least) (padded_of held.now)) result }
    {
        Body {
            bytes: padded(held),
            length: self.width(words),
        }
    }
}

// Bytes of the value that one end sends: the slave, or the master.
fn value_width(s: Settings, slave: bool) -> usize
    ensures { result ≡ width_of (cond slave s.slavewords s.masterwords) }
{
    WORDS.width(if slave { s.slavewords } else { s.masterwords })
}

pub(crate) fn send_width(s: Settings) -> usize
    ensures { result ≡ send_width s }
{
    value_width(s, s.slave)
}

pub(crate) fn show_width(s: Settings) -> usize
    ensures { (result ≡ show_width s) × (result ≤ 100) }
{
    value_width(s, !s.slave)
}

// The session number that the endpoint's frames carry, if it has one: a u16 has the 16 bits that are carried.
pub(crate) fn session_of(e: Core) -> Option<u16>
    ensures { result ≡ session_of (bare e) }
{
    e.session
}

// An S-Connect request carries none.
fn session_with(e: Core, k: Command) -> Option<u16>
    ensures { result ≡ session_with (bare e) k }
{
    if k == Command::Connect {
        return None;
    }
    session_of(e)
}

// A frame of a master that is no S-Connect, and no part of a measurement.
pub(crate) fn sent_fields(e: Core, command: Command, timestamp: u64) -> Fields
    ensures { result ≡ sent_fields command false false (session_of (bare e)) e.settings.connection timestamp 0 }
{
    Fields {
        command,
        ack: false,
        busy: false,
        error: false,
        sequence: false,
        application: false,
        subconnection: session_of(e),
        connection: e.settings.connection,
        timestamp,
        baseline: 0,
    }
}

// OBL of a request.
fn baseline_of(k: Command, clock: u64, measured: u64) -> u16
    ensures { result ≡ baseline_of k clock measured }
{
    if k == Command::RefreshGo {
        return (clock.saturating_sub(measured) % 65536) as u16;
    }
    0
}

// The request due, with this timestamp.
pub(crate) fn request_fields(e: Core, clock: u64, stamp: u64) -> Fields
    ensures { result ≡ sent_fields (request_due (bare e)) false false (session_with (bare e) (request_due (bare e)))
        e.settings.connection stamp (baseline_of (request_due (bare e)) clock e.setup.measured) }
{
    let k = e.request_due();
    Fields {
        subconnection: session_with(e, k),
        baseline: baseline_of(k, clock, e.setup.measured),
        ..sent_fields(e, k, stamp)
    }
}

// S-RefreshMO or S-RefreshGO in Refresh, with this timestamp and the measurement that it leaves.
pub(crate) fn measurement_fields(e: Core, k: Command, clock: u64, stamp: u64) -> Fields
    ensures { result ≡ sent_fields k (measurement_after k clock e.measurement).sequence false (session_of (bare e))
        e.settings.connection stamp (baseline_of k clock e.setup.measured) }
{
    Fields {
        sequence: measurement_after(k, clock, e.measurement).sequence,
        baseline: baseline_of(k, clock, e.setup.measured),
        ..sent_fields(e, k, stamp)
    }
}

pub(crate) fn reply_fields(e: Core, f: Fields, busy: bool, error: bool) -> Fields
    ensures { result ≡ reply_fields (bare e) f busy error }
{
    Fields {
        ack: true,
        busy,
        error,
        sequence: is_joined(f.command) && f.sequence,
        application: true,
        ..sent_fields(e, f.command, f.timestamp % TIMESTAMP_MODULUS)
    }
}

// What the request due carries: its user's words, its user's error record, or those of a setup request.
#[tactic(auto, unfolding(crate::specs::Frames::handed_over, crate::specs::Frames::record_in))]
pub(crate) fn due_data(e: Core, handed: HandedOver<'_>) -> Body
    ensures { DataSays (due_data (with_handed handed.entry.words.now handed.entry.errorinfo.now (bare e))) result }
{
    match e.request_due() {
        Command::InvokeFunc => WORDS.front(e.words, handed.words),
        Command::WriteErrorInfo => RECORD.front(e.errorinfo, handed.errorinfo),
        k => setup_data(e.settings, k),
    }
}

// ---- a reply

// Whether S-InvokeFunc with so many bytes has its result.
fn is_performed(e: Core, k: Command, n: usize) -> bool
    ensures { result ≡ is_performed (bare e) k n }
{
    k == Command::InvokeFunc && WORDS.contains(e.words) && n == WORDS.width(e.words)
}

pub(crate) fn is_busy(e: Core, k: Command, n: usize) -> bool
    ensures { result ≡ is_busy (bare e) k n }
{
    e.is_held_back(k) || k == Command::InvokeFunc && !is_performed(e, k, n)
}

// Whether the station's error record is set.
pub(crate) fn has_record(e: Core) -> bool
    ensures { result ≡ has_record (bare e) }
{
    RECORD.contains(e.errorinfo)
}

// Writes a reply to a request with this body: the result or the error record that was handed over, or the body. The count
// is write_head's, which HeadSays fixes.
#[tactic(auto, unfolding(crate::specs::Frames::handed_over, crate::specs::Frames::record_in))]
pub(crate) fn write_reply(
    e: Core,
    handed: HandedOver<'_>,
    k: Command,
    done: bool,
    head: Head,
    body: &[u8],
    out: &mut [u8],
) -> usize
    ensures { HeadSays head
        (reply_data (with_handed handed.entry.words.now handed.entry.errorinfo.now (bare e)) k done body.now)
        out.old out.new result }
{
    if is_performed(e, k, body.len()) {
        let result = WORDS.front(e.words, handed.words);
        return write_head(head, result.bytes(), out);
    }
    if k == Command::ReadErrorInfo && done {
        let record = RECORD.front(e.errorinfo, handed.errorinfo);
        return write_head(head, record.bytes(), out);
    }
    write_head(head, body, out)
}
