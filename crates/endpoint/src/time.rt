// Clocks, timestamps and ages, and the clock step.
ghost use Rattle.std.specs.Prelude.{◌≡◌};
ghost use Rattle.endpoint.specs.Endpoint.{bare, core_of};
ghost use Rattle.endpoint.specs.Time.{minus, is_above, is_too_far_ahead, allowance_of, is_too_late};
ghost use Rattle.endpoint.specs.Time.{offset_from, is_over, is_outdated, is_expired, ended_of, after_tick, time_of, age_of};
ghost use Rattle.endpoint.specs.Time.{counted_age, held_age, bound_of};

use super::t_code::slave_time;
use super::{Core, Queue, Settings, Setup, State};
use frame::TIMESTAMP_MODULUS;

// The highest clock reading: 2^48 - 131,073.
pub const LAST_READING: u64 = 281474976579583;

// An age from 2^47 on means that the timestamp is ahead.
const AHEAD: u64 = 140737488355328;

// A slave's ts_offset serves for so many ticks from the s2 that it was reckoned with.
pub const OFFSET_LIFE: u64 = 30000;

// a less b, modulo 2^48, which divides 2^64.
pub fn minus(a: u64, b: u64) -> u64
    ensures { result ≡ minus a b }
{
    a.wrapping_sub(b) % TIMESTAMP_MODULUS
}

pub fn is_above(last: Option<u64>, stamp: u64) -> bool
    ensures { result ≡ is_above last stamp }
{
    last.is_none_or(|x| x < stamp)
}

// Ahead by more than the allowance.
pub fn is_too_far_ahead(age: u64, allowance: u64) -> bool
    ensures { result ≡ is_too_far_ahead age allowance }
{
    AHEAD <= age && allowance < TIMESTAMP_MODULUS.saturating_sub(age)
}

// The ticks that an age comes to.
pub fn counted_age(age: u64) -> u64
    ensures { result ≡ counted_age age }
{
    if AHEAD <= age { 0 } else { age }
}

pub fn is_too_late(age: u64, limit: u32) -> bool
    ensures { result ≡ is_too_late age limit }
{
    u64::from(limit) < counted_age(age)
}

// ts_offset from an S-RefreshGO.
pub fn offset_from(stamp: u64, baseline: u16, measured: u64) -> u64
    ensures { result ≡ offset_from stamp baseline measured }
{
    minus(minus(stamp, u64::from(baseline)), measured)
}

impl Settings {
    pub fn allowance(self) -> u64
        ensures { result ≡ allowance_of self }
    {
        if self.slave {
            3
        } else {
            u64::from(self.roundtrip) + 3
        }
    }

    // How old a shown value can be at an end.
    pub fn bound(self) -> u64
        ensures { result ≡ bound_of self }
    {
        let held = u64::from(self.age) + u64::from(self.interval) + 10;
        if self.slave {
            held
        } else {
            held + u64::from(self.roundtrip)
        }
    }
}

impl Core {
    // An endpoint's clock in the master's: what it stamps with, and what it reckons ages by.
    pub fn time_of(&self, clock: u64) -> u64
        ensures { result ≡ time_of (bare self.now) clock }
    {
        if self.settings.slave {
            slave_time(clock, self.setup.offset)
        } else {
            clock % TIMESTAMP_MODULUS
        }
    }

    // A timestamp's age at an endpoint.
    pub fn age_of(&self, clock: u64, stamp: u64) -> u64
        ensures { result ≡ age_of (bare self.now) clock stamp }
    {
        minus(self.time_of(clock), stamp)
    }

    // How old the value held is.
    pub fn held_age(&self, clock: u64) -> u64
        ensures { result ≡ held_age (bare self.now) clock }
    {
        self.valueage.wrapping_add(clock.saturating_sub(self.since))
    }

    // Whether more ticks have passed than the state's timer has. This, is_outdated, ended and tick stand in records too, on a
    // record's numbers, where no core is made of each record that a call passes: for speed.
    fn is_over(&self, passed: u64) -> bool
        ensures { result ≡ is_over self.now.state self.now.settings.roundtrip self.now.settings.interval passed }
    {
        (self.state.is_setup() && u64::from(self.settings.roundtrip) < passed)
            || (self.state == State::Refresh && u64::from(self.settings.interval) < passed)
    }

    // Whether a slave's ts_offset is too old.
    fn is_outdated(&self, clock: u64) -> bool
        ensures { result ≡ is_outdated (bare self.now) clock }
    {
        self.settings.slave
            && self.state == State::Refresh
            && OFFSET_LIFE < clock.saturating_sub(self.measurement.reference)
    }

    // Whether a clock reading ends the connection: its timer has expired, or its ts_offset is too old.
    pub fn expired(&self, clock: u64) -> bool
        ensures { result ≡ is_expired (bare self.now) clock }
    {
        self.is_over(clock.saturating_sub(self.since)) || self.is_outdated(clock)
    }

    // The endpoint in Terminate, with no value held and no command waiting.
    pub fn ended(self) -> Core
        ensures { result ≡ core_of (ended_of (bare self)) }
    {
        Core {
            state: State::Terminate,
            setup: Setup {
                queue: Queue::Empty,
                ..self.setup
            },
            taken: false,
            valueage: 0,
            ..self
        }
    }

    // The clock step: the endpoint ended where its timer has expired or its ts_offset is too old, else as it was.
    pub fn tick(self, clock: u64) -> Core
        ensures { result ≡ core_of (after_tick (bare self) clock) }
    {
        if self.expired(clock) {
            self.ended()
        } else {
            self
        }
    }
}
