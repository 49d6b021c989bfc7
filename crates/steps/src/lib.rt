// The calls on one endpoint, by value: what it sends, takes and shows. They know fields and no offsets of bytes, and
// nothing of the table that holds the endpoint. (Functions on a Core and no methods: its type is another crate's.)
#![tactic(auto)]

pub mod deliver;
mod frames;
pub mod lifecycle;
mod outcome;
pub mod queue;
pub mod send;
pub mod show;
pub mod station;

use endpoint::{Answer, Core};

// What an endpoint's user handed over, as it is held: S-Data, and an error record.
#[derive(Clone, Copy, Debug, PartialEq, Eq)]
pub struct HandedOver<'a> {
    pub words: &'a [u8],
    pub errorinfo: &'a [u8],
}

// A call's answer, the core of the endpoint it leaves, and how many bytes it wrote to the lent output, as C is told.
#[derive(Clone, Copy, Debug, PartialEq, Eq)]
pub struct Stepped {
    pub answer: Answer,
    pub core: Core,
    pub count: usize,
}

// A show's count of bytes, the mark 'fail-safe', and the age of the value. The mark stays beside the age, which tells it
// too: ShowSays and C name both.
#[derive(Clone, Copy, Debug, PartialEq, Eq)]
pub struct Shown {
    pub count: usize,
    pub failsafe: bool,
    pub age: Option<u64>,
}

// S-Data: the first length bytes. Fixed memory, so an array and a length.
#[derive(Clone, Copy, Debug, PartialEq, Eq)]
pub struct Body {
    pub bytes: [u8; 100],
    pub length: usize,
}
