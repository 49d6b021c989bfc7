// Answers: their numbers, and the first refusal that applies.
ghost use Rattle.std.specs.Prelude.{◌≡◌, Err};
ghost use Rattle.endpoint.specs.Answers.{reason_number, number_of, call_faults, record_faults, setup_faults};
ghost use Rattle.endpoint.specs.Answers.{value_faults, first_of};

use super::{Answer, Faults, Reason, Refusal};

// Document 01's number of a reason.
impl From<Reason> for u8 {
    ghost from_gives = { λ reason number. number ≡ reason_number reason };

    fn from(reason: Reason) -> u8 {
        reason as u8
    }
}

// The number of its reason, whether or not it ends the connection.
impl From<Refusal> for u8 {
    ghost from_gives = { λ refusal number. number ≡ number_of (Err refusal) };

    fn from(refusal: Refusal) -> u8 {
        match refusal {
            Refusal::Dropped(reason) | Refusal::Ended(reason) => reason.into(),
        }
    }
}

// Document 01's number of an answer, 0 for done. (A number: document 01 has it, and C is told it.)
pub fn number(answer: Answer) -> u8
    ensures { result ≡ number_of answer }
{
    answer.map_or_else(u8::from, |()| 0)
}

// What can refuse a user's call: 11, 12, 19 and 17.
pub fn call_faults(turn: bool, width: bool, exhausted: bool, soon: bool) -> Faults
    ensures { result ≡ call_faults turn width exhausted soon }
{
    Faults {
        turn,
        width,
        exhausted,
        soon,
        ..Faults::default()
    }
}

// What can refuse a user's call that hands over an error record: 11 and 20.
pub fn record_faults(turn: bool, norecord: bool) -> Faults
    ensures { result ≡ record_faults turn norecord }
{
    Faults {
        turn,
        norecord,
        ..Faults::default()
    }
}

// What can refuse a setup frame: 11, 21, 20, 12, 13 and 16.
pub fn setup_faults(
    turn: bool,
    session: bool,
    norecord: bool,
    width: bool,
    repeat: bool,
    unequal: bool,
) -> Faults
    ensures { result ≡ setup_faults turn session norecord width repeat unequal }
{
    Faults {
        turn,
        session,
        norecord,
        width,
        repeat,
        unequal,
        ..Faults::default()
    }
}

// What can refuse an S-Refresh: 11, 21 and 12 to 15.
pub fn value_faults(
    turn: bool,
    session: bool,
    width: bool,
    repeat: bool,
    ahead: bool,
    late: bool,
) -> Faults
    ensures { result ≡ value_faults turn session width repeat ahead late }
{
    Faults {
        turn,
        session,
        width,
        repeat,
        ahead,
        late,
        ..Faults::default()
    }
}

// The first that applies, in the order of the numbers, but for 21 and 20, which come before 12, and 19, which comes
// after it.
pub fn first_of(f: Faults) -> Answer
    ensures { result ≡ first_of f }
{
    if f.turn {
        return Err(Refusal::Dropped(Reason::Turn));
    }
    if f.session {
        return Err(Refusal::Dropped(Reason::Session));
    }
    if f.norecord {
        return Err(Refusal::Dropped(Reason::Record));
    }
    if f.width {
        return Err(Refusal::Dropped(Reason::Width));
    }
    if f.exhausted {
        return Err(Refusal::Ended(Reason::Exhausted));
    }
    if f.repeat {
        return Err(Refusal::Dropped(Reason::Repeat));
    }
    if f.ahead {
        return Err(Refusal::Dropped(Reason::Ahead));
    }
    if f.late {
        return Err(Refusal::Ended(Reason::Late));
    }
    if f.unequal {
        return Err(Refusal::Ended(Reason::Unequal));
    }
    if f.soon {
        return Err(Refusal::Dropped(Reason::TooSoon));
    }
    Ok(())
}
