// What a call comes to, of what was picked: the refusals before a connection's own step, and what is to be stored.
ghost use Rattle.std.specs.Prelude.{◌≡◌, ◌&&◌, true, false, Err, None, Ok};
ghost use Rattle.records.specs.Records.{bare_of};
ghost use Rattle.endpoint.specs.Endpoint.{core_of};
ghost use Rattle.endpoint.specs.Answers.{is_done};
ghost use Rattle.gateway.specs.Tables.{is_reading, at_clock};
ghost use Rattle.gateway.specs.Calls.{admit_entry, timely, called_by};
ghost use Rattle.gateway.specs.Parts.{admitted, admitted_entry, before, refused_move, acted_move, shown_move, moved};

use super::{Called, Gateway, Moved, Picked};
use endpoint::time::LAST_READING;
use endpoint::{Answer, Core, Reason, Refusal};
use records::Stored;
use steps::{Shown, Stepped};

impl Gateway {
    // At most 2^48 - 131,073, and not below the last reading: else number 1.
    fn accepts(&self, clock: u64) -> bool
        ensures { result ≡ is_reading self.now clock }
    {
        self.last <= clock && clock <= LAST_READING
    }
}

impl Called {
    // Nothing is written, and nothing shown.
    pub(crate) fn of(gateway: Gateway, answer: Answer, entry: Option<usize>) -> Called
        ensures { result ≡ called_by gateway answer entry 0 false None }
    {
        Called {
            gateway,
            answer,
            entry,
            count: 0,
            failsafe: false,
            age: None,
        }
    }
}

impl Picked {
    // The connection's own.
    pub(crate) fn core(self) -> Core
        ensures { result ≡ core_of (bare_of self.stored) }
    {
        Core::from(self.stored)
    }

    // Numbers 1 and 2; `short`: an output was lent and is under 248 bytes.
    pub(crate) fn admitted(self, short: bool) -> Answer
        ensures { result ≡ admitted self short (Ok tt) }
    {
        if !self.call.gateway.accepts(self.call.clock) {
            return Err(Refusal::Dropped(Reason::Clock));
        }
        if self.room < self.call.gateway.count || short {
            return Err(Refusal::Dropped(Reason::Buffer));
        }
        Ok(())
    }

    // Then number 3, or 8 for a frame.
    pub(crate) fn admitted_entry(self, short: bool, absent: Reason) -> Answer
        ensures { result ≡ admitted_entry self short absent (Ok tt) }
    {
        self.admitted(short)?;
        if self.spot >= self.call.gateway.count {
            return Err(Refusal::Dropped(absent));
        }
        Ok(())
    }

    // Then number 9.
    pub(crate) fn before(self, short: bool, absent: Reason) -> Answer
        ensures { result ≡ before self short absent }
    {
        self.admitted_entry(short, absent)?;
        if self.stored.is_over(self.call.clock) {
            return Err(Refusal::Ended(Reason::Expired));
        }
        Ok(())
    }

    // The clock step, and nothing of the connection's own.
    fn ticks(self, told: Called) -> Moved
        ensures { result ≡ moved self self.stored told true self.room self.room self.room }
    {
        Moved {
            stored: self.stored,
            told,
            steps: self.call.gateway.count,
            clock: self.call.clock,
            spot: self.room,
            wipe: self.room,
            keep: self.room,
        }
    }

    // The gateway once the clock step is taken.
    fn gateway(self) -> Gateway
        ensures { result ≡ at_clock self.call.clock self.call.gateway }
    {
        Gateway {
            last: self.call.clock,
            ..self.call.gateway
        }
    }

    // Refused before the connection's own step; or the clock step alone.
    pub(crate) fn refused(self, answer: Answer) -> Moved
        ensures { result ≡ refused_move self answer }
    {
        let entry = matches!(answer, Err(Refusal::Ended(_))).then_some(self.spot);
        let shorter = self.room < self.call.gateway.count;
        if self.call.gateway.accepts(self.call.clock) && !shorter {
            return self.ticks(Called::of(self.gateway(), answer, entry));
        }
        Moved {
            steps: 0,
            ..self.ticks(Called::of(self.call.gateway, answer, entry))
        }
    }

    // The connection's own step. `keeps`: where it is done, a value, words or an error record are kept.
    pub(crate) fn acted(self, step: Stepped, keeps: bool) -> Moved
        ensures { result ≡ acted_move self step (is_done step.answer && keeps) }
    {
        let told = Called {
            count: step.count,
            ..Called::of(self.gateway(), step.answer, Some(self.spot))
        };
        Moved {
            stored: Stored::from(step.core),
            spot: self.spot,
            wipe: if step.core.taken {
                self.room
            } else {
                self.spot
            },
            keep: if step.answer.is_ok() && keeps {
                self.spot
            } else {
                self.room
            },
            ..self.ticks(told)
        }
    }

    pub(crate) fn shown(self, shown: Shown) -> Moved
        ensures { result ≡ shown_move self shown.count shown.failsafe shown.age }
    {
        self.ticks(Called {
            count: shown.count,
            failsafe: shown.failsafe,
            age: shown.age,
            ..Called::of(self.gateway(), Ok(()), Some(self.spot))
        })
    }
}
