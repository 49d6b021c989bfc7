// Runs RFC 3720's vectors (appendix B.4) and document 01's cases that are not proved; what it writes is held to the
// file stdout.
#![tactic(auto)]

mod readying;

use frame::read::folderpink_check_frame;
use frame::write::write_frame;
use frame::{Command, Fields};
use std::io;

// A line: the name, and the check word of the bytes, top byte first.
fn crc_line(rt: &impl Print, name: &str, bytes: &[u8]) -> io::Result<()> {
    println!(rt; "{name}{:08x}", crc::crc32c(bytes))
}

fn crc_vectors(rt: &impl Print) -> io::Result<()> {
    crc_line(rt, "crc of 32 bytes of zeroes: ", &[0; 32])?;
    crc_line(rt, "crc of 32 bytes of ones: ", &[255; 32])?;
    let incrementing = [
        0u8, 1, 2, 3, 4, 5, 6, 7, 8, 9, 10, 11, 12, 13, 14, 15, 16, 17, 18, 19, 20, 21, 22, 23, 24,
        25, 26, 27, 28, 29, 30, 31,
    ];
    crc_line(rt, "crc of 32 incrementing bytes: ", &incrementing)?;
    let decrementing = [
        31u8, 30, 29, 28, 27, 26, 25, 24, 23, 22, 21, 20, 19, 18, 17, 16, 15, 14, 13, 12, 11, 10,
        9, 8, 7, 6, 5, 4, 3, 2, 1, 0,
    ];
    crc_line(rt, "crc of 32 decrementing bytes: ", &decrementing)?;
    let read10 = [
        0x01u8, 0xC0, 0x00, 0x00, 0x00, 0x00, 0x00, 0x00, 0x00, 0x00, 0x00, 0x00, 0x00, 0x00, 0x00,
        0x00, 0x14, 0x00, 0x00, 0x00, 0x00, 0x00, 0x04, 0x00, 0x00, 0x00, 0x00, 0x14, 0x00, 0x00,
        0x00, 0x18, 0x28, 0x00, 0x00, 0x00, 0x00, 0x00, 0x00, 0x00, 0x02, 0x00, 0x00, 0x00, 0x00,
        0x00, 0x00, 0x00,
    ];
    crc_line(rt, "crc of an iSCSI SCSI Read (10) command PDU: ", &read10)
}

// An S-Connect request of master 1/2 to slave 1/3, and an S-Refresh of that slave in session 7.
fn connect() -> Fields {
    Fields {
        command: Command::Connect,
        ack: false,
        busy: false,
        error: false,
        sequence: false,
        application: false,
        subconnection: None,
        connection: 0x01020103,
        timestamp: 1000,
        baseline: 0,
    }
}

fn refresh() -> Fields {
    Fields {
        command: Command::Refresh,
        application: true,
        subconnection: Some(7),
        timestamp: 65540,
        ..connect()
    }
}

fn byte_line(rt: &impl Print, name: &str, bytes: &[u8]) -> io::Result<()> {
    print!(rt; "{name}")?;
    for b in bytes {
        print!(rt; "{b:02x}")?;
    }
    println!(rt)
}

// What the frame check says.
fn check_line(rt: &impl Print, bytes: &[u8]) -> io::Result<()> {
    println!(rt;
        "check of {} bytes: {}",
        bytes.len(),
        folderpink_check_frame(bytes)
    )
}

#[tactic(auto, unfolding(words::specs::Output::over))]
fn main(rt: HostRuntime) -> io::Result<()> {
    crc_vectors(&rt)?;
    let mut out = [0; 256];
    let n = write_frame(connect(), &[0, 0, 0, 1], &mut out);
    byte_line(&rt, "S-Connect request: ", &out[..n])?;
    for length in [56, 48, 60] {
        check_line(&rt, &out[..length])?;
    }
    let n = write_frame(refresh(), &[0xA5; 100], &mut out);
    byte_line(&rt, "S-Refresh of a slave in session 7: ", &out[..n])?;
    for length in [248, 256, 0] {
        check_line(&rt, &out[..length])?;
    }
    readying::readying(&mut out);
    byte_line(
        &rt,
        "S-RefreshGO at 1,040, T code 1,040, OBL 10 and Sub CID 7: ",
        &out[0..56],
    )
}
