// Writes a small stream message by message, each from the position that the one before it gave, has the
// reader check it, and shows what the views of its records are.
#![tactic(auto)]

mod views;

use mrd_format::{Kind, Layout, Profile, Rules};
use mrd_stream::StreamRefusal;
use mrd_writer::Message;
use std::io;

// Where elements of an acquisition's header start.
const VERSION: usize = 0;

const NUMBER_OF_SAMPLES: usize = 34;

const AVAILABLE_CHANNELS: usize = 36;

const ACTIVE_CHANNELS: usize = 38;

// What is written here has no waveforms, so that either layout would do, and texts of ASCII alone, so that either
// profile would.
fn rules() -> Rules {
    Rules {
        layout: Layout::Packed,
        profile: Profile::Strict,
    }
}

fn main(rt: HostRuntime) -> io::Result<()> {
    let mut out = [0u8; 2048];
    let name = Message {
        name: b"default.xml",
        ..Message::default()
    };
    let header = Message {
        text: b"<ismrmrdHeader/>",
        ..Message::default()
    };
    let named = put(&rt, Kind::CONFIGURATION_NAME, &name, &mut out, 0)?;
    let headed = put(&rt, Kind::HEADER_TEXT, &header, &mut out, named)?;
    let measured = put_readout(&rt, &mut out, headed)?;
    let end = put(&rt, Kind::CLOSE, &Message::default(), &mut out, measured)?;
    read_back(&rt, &out, end)
}

// Puts a message into out. The position after it is printed and handed out; where the message was refused, its
// number is printed and the position stays.
fn put(
    rt: &impl Print,
    id: u16,
    message: &Message<'_>,
    out: &mut [u8],
    position: usize,
) -> io::Result<usize> {
    match mrd_writer::write(rules(), id, message, out, position) {
        Ok(next) => {
            println!(rt; "written to {next}")?;
            Ok(next)
        }
        Err(refusal) => {
            println!(rt; "{refusal}")?;
            Ok(position)
        }
    }
}

// An acquisition of four samples in one of two channels, with no trajectory. Its samples, 8 bytes each, are words
// here, so that they can be read where they are shown.
fn put_readout(rt: &impl Print, out: &mut [u8], position: usize) -> io::Result<usize> {
    let mut header = [0u8; Kind::ACQUISITION_FIXED];
    header[VERSION] = 1;
    header[NUMBER_OF_SAMPLES] = 4;
    header[AVAILABLE_CHANNELS] = 2;
    header[ACTIVE_CHANNELS] = 1;
    let readout = Message {
        header: &header,
        samples: b"sample 0sample 1sample 2sample 3",
        ..Message::default()
    };
    put(rt, Kind::ACQUISITION, &readout, out, position)
}

// What the reader finds in out up to `end`.
fn read_back(rt: &impl Print, out: &[u8], end: usize) -> io::Result<()> {
    if out.len() < end {
        return Ok(());
    }
    match mrd_stream::check(rules(), &out[0..end]) {
        Ok(count) => println!(rt; "accepted, records {count}")?,
        Err(StreamRefusal { why, .. }) => println!(rt; "{why}")?,
    }
    views::show(rt, rules(), &out[0..end])
}
