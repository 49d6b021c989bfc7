// A line of a call list, without its newline: which call it is.
ghost use Rattle.std.specs.Prelude.{◌≡◌, map};
ghost use Rattle.text.specs.Calls.{name_in, name_of, head_of, is_data, most_of, head_in, timed_in, data_in, invoke_in};
ghost use Rattle.text.specs.Calls.{deliver_in, check_in, set_in, call_of, line_of, entry_of};
ghost use Rattle.text.specs.Reading.{number_of, rest_of};

use super::hex::{is_frame, is_hex, is_load, is_word, word_at};
use super::number::number_of;
use super::word::split_word;
use super::{Act, Head, Kind, Line, Parameter};

// What the first word of a line names.
#[derive(Clone, Copy, Debug, PartialEq, Eq)]
pub(crate) enum Name {
    Load,
    Timed(Act),
    Data(Kind),
    Invoke,
    Deliver,
    Check,
    Set(Parameter),
}

// A word that begins a call, and what it names.
type Verb = (&'static [u8], Name);

const VERBS: [Verb; 20] = [
    (b"load", Name::Load),
    (b"deliver", Name::Deliver),
    (b"check", Name::Check),
    (b"room", Name::Set(Parameter::Room)),
    (b"records", Name::Set(Parameter::Records)),
    (b"session", Name::Set(Parameter::Session)),
    (b"send", Name::Data(Kind::Value)),
    (b"invoke", Name::Invoke),
    (b"result", Name::Data(Kind::Result)),
    (b"record", Name::Data(Kind::Record)),
    (b"writeerr", Name::Data(Kind::WriteError)),
    (b"start", Name::Timed(Act::Start)),
    (b"stop", Name::Timed(Act::Stop)),
    (b"restart", Name::Timed(Act::Restart)),
    (b"show", Name::Timed(Act::Show)),
    (b"notready", Name::Timed(Act::NotReady)),
    (b"ready", Name::Timed(Act::Ready)),
    (b"noresult", Name::Timed(Act::NoResult)),
    (b"norecord", Name::Timed(Act::NoRecord)),
    (b"readerr", Name::Timed(Act::ReadError)),
];

// The name that a table has for a word: by the first entry that the word is. (A table and no map: no heap, and `name_in` has it.)
#[tactic(auto, unfolding(crate::specs::Calls::name_in))]
fn name_in(verbs: &[Verb], word: &[u8]) -> Option<Name>
    ensures { result ≡ name_in (map entry_of verbs.now) word.now }
{
    for (verb, name) in verbs {
        if word == *verb {
            return Some(*name);
        }
    }
    None
}

// The name that a word is.
fn name_of(word: &[u8]) -> Option<Name>
    ensures { result ≡ name_of word.now }
{
    name_in(&VERBS, word)
}

// CLOCK, and ENTRY where it is below 2^32.
fn head_of(clock: &[u8], entry: &[u8]) -> Option<Head>
    ensures { result ≡ head_of (number_of clock.now) (number_of entry.now) }
{
    let clock = number_of(clock)?;
    let entry = u32::try_from(number_of(entry)?).ok()?;
    Some(Head { clock, entry })
}

// Whether a text is bytes of a kind: a value has any count, the others at most 512.
fn is_data(kind: Kind, s: &[u8]) -> bool
    ensures { result ≡ is_data kind s.now }
{
    match kind {
        Kind::Value => is_hex(s),
        Kind::Result | Kind::Record | Kind::WriteError => is_frame(s),
    }
}

fn most(parameter: Parameter) -> u64
    ensures { result ≡ most_of parameter }
{
    match parameter {
        Parameter::Room => 256,
        Parameter::Records => 70,
        Parameter::Session => 65535,
    }
}

// CLOCK ENTRY, after the name.
#[tactic(auto, unfolding(crate::specs::Calls::timed_in))]
fn timed_in(act: Act, line: &[u8]) -> Option<Line>
    ensures { result ≡ timed_in act (rest_of line.now) }
{
    let (_, words) = split_word(line);
    let (clock, entry) = split_word(words);
    let head = head_of(clock, entry)?;
    Some(Line::Timed { act, head })
}

// CLOCK ENTRY HEX.
#[tactic(auto, unfolding(crate::specs::Calls::head_in, crate::specs::Calls::data_in))]
fn data_in(kind: Kind, line: &[u8]) -> Option<Line>
    ensures { result ≡ data_in kind line.now (rest_of line.now) }
{
    let (_, words) = split_word(line);
    let (clock, words) = split_word(words);
    let (entry, digits) = split_word(words);
    let head = head_of(clock, entry)?;
    if !is_data(kind, digits) {
        return None;
    }
    let start = line.len() - digits.len();
    Some(Line::Data { kind, head, start })
}

// CLOCK ENTRY WORD HEX.
#[tactic(auto, unfolding(crate::specs::Calls::head_in, crate::specs::Calls::invoke_in, crate::specs::Reading::is_word))]
fn invoke_in(line: &[u8]) -> Option<Line>
    ensures { result ≡ invoke_in line.now (rest_of line.now) }
{
    let (_, words) = split_word(line);
    let (clock, words) = split_word(words);
    let (entry, words) = split_word(words);
    let (word, digits) = split_word(words);
    let head = head_of(clock, entry)?;
    if !is_word(word) || !is_frame(digits) {
        return None;
    }
    let word = word_at(line, line.len() - words.len());
    let start = line.len() - digits.len();
    Some(Line::Invoke { head, word, start })
}

// CLOCK HEX.
#[tactic(auto, unfolding(crate::specs::Calls::deliver_in))]
fn deliver_in(line: &[u8]) -> Option<Line>
    ensures { result ≡ deliver_in line.now (rest_of line.now) }
{
    let (_, words) = split_word(line);
    let (clock, digits) = split_word(words);
    let clock = number_of(clock)?;
    if !is_frame(digits) {
        return None;
    }
    let start = line.len() - digits.len();
    Some(Line::Deliver { clock, start })
}

// HEX.
#[tactic(auto, unfolding(crate::specs::Calls::check_in))]
fn check_in(line: &[u8]) -> Option<Line>
    ensures { result ≡ check_in line.now (rest_of line.now) }
{
    let (_, digits) = split_word(line);
    if !is_frame(digits) {
        return None;
    }
    let start = line.len() - digits.len();
    Some(Line::Check { start })
}

// N, at most what the parameter may be.
#[tactic(auto, unfolding(crate::specs::Calls::set_in))]
fn set_in(parameter: Parameter, line: &[u8]) -> Option<Line>
    ensures { result ≡ set_in parameter (rest_of line.now) }
{
    let (_, number) = split_word(line);
    let n = number_of(number)?;
    if n > most(parameter) {
        return None;
    }
    let n = n as usize;
    Some(Line::Set { parameter, n })
}

// The call of a name, by the line that begins with it.
fn call_of(line: &[u8], name: Name) -> Option<Line>
    ensures { result ≡ call_of line.now name }
{
    match name {
        Name::Load => is_load(line).then_some(Line::Load),
        Name::Timed(act) => timed_in(act, line),
        Name::Data(kind) => data_in(kind, line),
        Name::Invoke => invoke_in(line),
        Name::Deliver => deliver_in(line),
        Name::Check => check_in(line),
        Name::Set(parameter) => set_in(parameter, line),
    }
}

// What a line is, without its newline; `None` where it has none of these forms.
#[tactic(auto, unfolding(crate::specs::Calls::line_of))]
pub fn parse(line: &[u8]) -> Option<Line>
    ensures { result ≡ line_of line.now }
{
    if line.len() > 4096 {
        return None;
    }
    if line.is_empty() || line[0] == b'#' {
        return Some(Line::Nothing);
    }
    let (word, _) = split_word(line);
    call_of(line, name_of(word)?)
}
