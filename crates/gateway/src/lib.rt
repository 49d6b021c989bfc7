// A gateway: the calls on a table of 1 to 64 connections whose records the caller lends: calls, deliver and load for
// Rattle, and what gateway_c exports for C (include/folderpink.h). All else is by value. (Types that derive Clone and Copy alone
// are compared and printed nowhere.)
#![tactic(auto)]

pub mod calls;
pub mod deliver;
pub mod exports;
pub mod load;
mod moves;
mod slice;

use endpoint::Answer;
use records::Stored;

// By value beside the records: the last accepted clock reading, 0 before the first, and the size of the table.
#[repr(C)]
#[derive(Clone, Copy)]
pub struct Gateway {
    pub last: u64,
    pub count: usize,
}

// What a call is asked with; notready is set_not_ready's alone, the session number load's and restart's, and the
// command word invoke's. C lends it, so that notready is a number, and each call keeps the gateway in it.
#[repr(C)]
#[derive(Clone, Copy)]
pub struct Call {
    pub gateway: Gateway,
    pub clock: u64,
    pub entry: usize,
    pub notready: u8,
    pub session: u16,
    pub word: u32,
}

// What a call answers, with the gateway for the next call.
#[derive(Clone, Copy)]
pub struct Called {
    pub gateway: Gateway,
    pub answer: Answer,
    // the entry that the answer names, if any
    pub entry: Option<usize>,
    // the bytes written to the lent output
    pub count: usize,
    // of a show: the mark 'fail-safe', and else the value's age in ticks (both: `called_of` has both)
    pub failsafe: bool,
    pub age: Option<u64>,
}

// What C is told: all of Called but the gateway, as numbers; `entry` counts where `named` is set, `age` where `aged` is.
#[repr(C)]
#[derive(Clone, Copy)]
pub struct Told {
    pub count: usize,
    pub entry: usize,
    pub age: u64,
    pub named: u8,
    pub number: u8,
    pub failsafe: u8,
    pub aged: u8,
}

// What a call's own step starts from: all of the record but the bytes of its value, of its words and of its error
// record, as it was, the length of the slice, and the record's place in it. No Option: a place past the slice is refused as
// an entry past the table is, by the tests that are made anyhow.
#[derive(Clone, Copy)]
pub struct Picked {
    pub stored: Stored,
    pub call: Call,
    pub room: usize,
    pub spot: usize,
}

// What a call comes to: the first `steps` records take the clock step, then `stored` is put at `spot`, the value at
// `wipe` is the fail-safe one, and a new value, new words or a new error record stand at `keep`. No Option: past the slice
// nothing is stored, by the tests that the stores need anyhow.
#[derive(Clone, Copy)]
pub struct Moved {
    pub stored: Stored,
    pub told: Called,
    pub steps: usize,
    pub clock: u64,
    pub spot: usize,
    pub wipe: usize,
    pub keep: usize,
}
