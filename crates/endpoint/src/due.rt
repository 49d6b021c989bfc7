// The request due from a master, what can hold it back, whether a command may be queued, and what holds a station's
// reply back; in Refresh the measurement that is due, or under way.
ghost use Rattle.std.specs.Prelude.{◌≡◌};
ghost use Rattle.std.specs.Bool.{then_some};
ghost use Rattle.endpoint.specs.Endpoint.{bare};
ghost use Rattle.endpoint.specs.Due.{is_waiting, queued_in, is_command_due, request_due, may_request, is_exhausted};
ghost use Rattle.endpoint.specs.Due.{may_queue, may_queue_read, is_held_back, refresh_due, is_late, is_open, awaited_in};
ghost use Rattle.endpoint.specs.Due.{sequence_of, is_measuring};

use super::{Core, Queue, State};
use frame::Command;
use frame::control::waits_for_station;

// A start writes at most so many requests.
const REQUEST_LIMIT: u8 = 45;

// A master measures again so many ticks after its last S-RefreshMO, or after entry into Refresh.
const MEASUREMENT_INTERVAL: u64 = 10000;

impl Queue {
    // The command that waits.
    fn waiting(self) -> Option<Command>
        ensures { result ≡ then_some (is_waiting self) (queued_in self) }
    {
        match self {
            Queue::InvokeFunc => Some(Command::InvokeFunc),
            Queue::ReadErrorInfo => Some(Command::ReadErrorInfo),
            Queue::WriteErrorInfo => Some(Command::WriteErrorInfo),
            Queue::Empty | Queue::Closed => None,
        }
    }
}

impl Core {
    // Whether the queued command stands in S-RefreshReady's place.
    pub fn is_command_due(&self) -> bool
        ensures { result ≡ is_command_due (bare self.now) }
    {
        self.setup.queue.waiting().is_some() && self.state.request() == Command::RefreshReady
    }

    // The request that a master sends next, or that is pending.
    pub fn request_due(&self) -> Command
        ensures { result ≡ request_due (bare self.now) }
    {
        match (self.state.request(), self.setup.queue.waiting()) {
            (Command::RefreshReady, Some(command)) => command,
            (request, _) => request,
        }
    }

    // Whether a master may send the request due.
    pub fn may_request(&self) -> bool
        ensures { result ≡ may_request (bare self.now) }
    {
        !self.settings.slave && self.state.is_setup() && self.setup.pending.is_none()
    }

    // Whether a further request would be one too many.
    pub fn is_exhausted(&self) -> bool
        ensures { result ≡ is_exhausted (bare self.now) }
    {
        REQUEST_LIMIT <= self.setup.requests
    }

    // Whether a master's user may queue a command.
    pub fn may_queue(&self) -> bool
        ensures { result ≡ may_queue (bare self.now) }
    {
        !self.settings.slave && self.state.is_setup() && self.setup.queue == Queue::Empty
    }

    // Whether it may queue S-ReadErrorInfo.
    pub fn may_queue_read(&self) -> bool
        ensures { result ≡ may_queue_read (bare self.now) }
    {
        self.may_queue() && !self.setup.invoked
    }

    // Whether a slave's reply to a command has Busy 1 because the station is not ready.
    pub fn is_held_back(&self, k: Command) -> bool
        ensures { result ≡ is_held_back (bare self.now) k }
    {
        self.station.notready && waits_for_station(k)
    }

    // Whether the next step of a measurement is late, so that it is none. Its last step was taken at the stamp of the
    // pending request, else where s2 or m2 was.
    pub fn is_late(&self, clock: u64) -> bool
        ensures { result ≡ is_late (bare self.now) clock }
    {
        let last = self.setup.pending.unwrap_or(self.setup.measured);
        u64::from(self.settings.roundtrip) < clock.saturating_sub(last)
    }

    // Whether a master has a measurement open.
    fn is_open(&self, clock: u64) -> bool
        ensures { result ≡ is_open (bare self.now) clock }
    {
        (self.setup.pending.is_some() || self.measurement.answered) && !self.is_late(clock)
    }

    // What a send in Refresh writes.
    pub fn refresh_due(&self, clock: u64) -> Command
        ensures { result ≡ refresh_due (bare self.now) clock }
    {
        if self.settings.slave {
            return Command::Refresh;
        }
        if self.is_open(clock) {
            return match self.setup.pending {
                Some(_) => Command::Refresh,
                None => Command::RefreshGo,
            };
        }
        if MEASUREMENT_INTERVAL <= clock.saturating_sub(self.measurement.reference) {
            return Command::RefreshMo;
        }
        Command::Refresh
    }

    // Whose reply a master awaits in Refresh, if any is pending.
    pub fn awaited_in(&self) -> Command
        ensures { result ≡ awaited_in (bare self.now) }
    {
        if self.measurement.answered {
            Command::RefreshGo
        } else {
            Command::RefreshMo
        }
    }

    // Offset op seq of the measurement under way.
    pub fn sequence_of(&self) -> bool
        ensures { result ≡ sequence_of (bare self.now) }
    {
        self.state == State::Refresh && self.measurement.sequence
    }

    // Whether a slave that may take S-RefreshGO has a measurement under way.
    pub fn is_measuring(&self, clock: u64) -> bool
        ensures { result ≡ is_measuring (bare self.now) clock }
    {
        self.state != State::Refresh || (self.measurement.answered && !self.is_late(clock))
    }
}
