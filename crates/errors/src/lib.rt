// A station's error records (document 02, note 6): a date and time, up to ten details, and whether more follow. What
// bytes are a record, reading and writing. Nothing here knows in what frame a record travels.
#![tactic(auto)]

mod bcd;
mod calendar;
pub mod read;
pub mod write;

#[derive(Clone, Copy, Debug, PartialEq, Eq)]
pub struct Date {
    // of four digits
    pub year: u16,
    pub month: u8,
    pub day: u8,
}

#[derive(Clone, Copy, Debug, PartialEq, Eq)]
pub struct Time {
    pub hour: u8,
    pub minute: u8,
    pub second: u8,
}

// What a record carries. Details past the count are 0, so that a record has one form.
#[derive(Clone, Copy, Debug, PartialEq, Eq)]
pub struct ErrorRecord {
    pub date: Date,
    pub time: Time,
    // day of week, 0 to 6
    pub weekday: u8,
    // how many details there are, 0 to 10; a count beside ten places, since no crate has a heap
    pub count: u8,
    pub details: [u32; 10],
    // more follows
    pub more: bool,
}
