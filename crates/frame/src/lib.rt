// Frames of FSCP 8/2: the fields that a frame carries, the frame check, reading and writing. Nothing above this crate
// knows where in the bytes a field stands.
#![tactic(auto)]

pub mod control;
pub mod read;
pub mod write;

// The longest frame in bytes, and so the least output that is lent where a frame may be written.
pub const LONGEST_FRAME: usize = 248;

// 2^48: a timestamp is below it.
pub const TIMESTAMP_MODULUS: u64 = 281474976710656;

// Cmd, bits 31 to 24 of CTRL, with its code.
#[derive(Clone, Copy, Debug, PartialEq, Eq)]
pub enum Command {
    // S-Connect, 0x00
    Connect,
    // S-InitConfirmNetPrm, 0x01
    ConfirmNetwork,
    // S-InitVerifyStnPrm, 0x02
    VerifyStation,
    // S-InvokeFunc, 0x03 (document 02)
    InvokeFunc,
    // S-Disconnect, 0xF9
    Disconnect,
    // S-ReadErrorInfo, 0xFA (document 02)
    ReadErrorInfo,
    // S-WriteErrorInfo, 0xFB (document 02)
    WriteErrorInfo,
    // S-RefreshReady, 0xFC
    RefreshReady,
    // S-RefreshMO, 0xFD (document 02)
    RefreshMo,
    // S-RefreshGO, 0xFE
    RefreshGo,
    // S-Refresh, 0xFF
    Refresh,
}

// A code that is no command's.
#[derive(Clone, Copy, Debug, PartialEq, Eq)]
pub struct UnlistedCode(pub u32);

// What a frame carries beside its body (S-Data).
#[derive(Clone, Copy, Debug, PartialEq, Eq)]
pub struct Fields {
    pub command: Command,
    pub ack: bool,
    pub busy: bool,
    pub error: bool,
    // Offset op seq: joins the frames of one measurement of the clocks
    pub sequence: bool,
    // Application: 0 from a master, 1 from a slave
    pub application: bool,
    // Sub CID, bits 15 to 0 of CTRL, where Sub CID active, bit 16, is 1
    pub subconnection: Option<u16>,
    // CID
    pub connection: u32,
    // 48 bits: CC the upper 32, T code the lower 16
    pub timestamp: u64,
    // OBL
    pub baseline: u16,
}

// The words of a SubPDU before RSV.
#[derive(Clone, Copy, Debug, PartialEq, Eq)]
pub struct Head {
    // CTRL
    pub control: u32,
    // CID
    pub connection: u32,
    // T code, the upper half, and OBL
    pub time: u32,
    // CC
    pub carry: u32,
}

// Where a part of some bytes lies. (No Range, which is not Copy: who was told a place may look at it twice.)
#[derive(Clone, Copy, Debug, PartialEq, Eq)]
pub struct Span {
    pub start: usize,
    pub end: usize,
}

// Why bytes are no frame. Document 01's number and trade word stand beside each.
#[derive(Clone, Copy, Debug, PartialEq, Eq)]
pub enum Fault {
    // 4, length
    Length,
    // 5, copies
    Copies,
    // 6, check word
    CheckWord,
    // 7, form
    Form,
}

// A frame that was read: its fields, and its body at bytes start up to end. (Not the body's slice: RoundTrip.there, .back
// and .within speak of these places.)
#[derive(Clone, Copy, Debug, PartialEq, Eq)]
pub struct Frame {
    pub fields: Fields,
    pub start: usize,
    pub end: usize,
}
