// Lists the records of the stream on standard input: a line for each with its number, id, start and
// size, and ` mask` with the count of ones where a channel mask differs from the active channels; or one
// line with the refusal. Waveform headers are packed, and texts may be any bytes. At most 65,536 bytes are listed; of
// more, nothing is, and what comes after the first byte too many is not read.
#![tactic(auto)]

ghost use Rattle.std.specs.Prelude.{◌≤◌, length, IfOk};

use mrd_cursor::Cursor;
use mrd_format::{Layout, Mask, Profile, Rules, Shape};
use mrd_stream::{PlacedRecord, Step};
use std::io::{self, Read};

const LIMIT: usize = 65536;

fn main(rt: HostRuntime) -> io::Result<()> {
    // One byte more than the limit tells whether there is more.
    let mut input = [0u8; LIMIT + 1];
    let got = read_full(&mut rt.reader(), &mut input)?;
    if LIMIT < got {
        println!(rt; "input over 65536 bytes")?;
        return Ok(());
    }
    list(&rt, &input[..got])
}

// How many bytes were read to the front of out: as many as there are, or as it holds. Each read is offered all that is
// left of out: an input that keeps the bounds of what was sent, as a socket of packets, loses what a read has no room for.
fn read_full<R: Read>(input: &mut R, out: &mut [u8]) -> io::Result<usize>
    ensures { IfOk result (λ n. n ≤ length out.old) }
{
    let mut got: usize = 0;
    for _ in 0..u64::MAX {
        if out.len() <= got {
            break;
        }
        match input.read(&mut out[got..]) {
            Ok(0) => break,
            Ok(n) => got += n,
            // A signal came before any byte.
            Err(error) if error.kind() == io::ErrorKind::Interrupted => {}
            Err(error) => return Err(error),
        }
    }
    Ok(got)
}

// The whole listing of s: nothing of a refused stream but its refusal.
fn list(rt: &impl Print, s: &[u8]) -> io::Result<()> {
    let rules = Rules {
        layout: Layout::Packed,
        profile: Profile::Plain,
    };
    match mrd_stream::check(rules, s) {
        Ok(count) => {
            println!(rt; "record id start bytes")?;
            list_records(rt, rules, s)?;
            let bytes = s.len();
            println!(rt; "ok {count} records {bytes} bytes")?;
        }
        Err(refusal) => println!(rt; "{refusal}")?,
    }
    Ok(())
}

// A line for each record.
fn list_records(rt: &impl Print, rules: Rules, s: &[u8]) -> io::Result<()> {
    let mut c = Cursor::beginning();
    while let Step::Message(record, next) = mrd_stream::next(rules, c, s) {
        list_record(rt, record)?;
        c = next;
    }
    Ok(())
}

fn list_record(rt: &impl Print, record: PlacedRecord) -> io::Result<()> {
    let place = record.place;
    let id = record.shape.kind().id();
    let (number, start, size) = (place.number, place.start, place.size);
    print!(rt; "{number} {id} {start} {size}")?;
    list_mask(rt, record.shape)?;
    println!(rt)?;
    Ok(())
}

// Of an acquisition whose mask differs from its active channels: the ones that the mask has.
fn list_mask(rt: &impl Print, shape: Shape) -> io::Result<()> {
    if let Shape::Acquisition(acquisition) = shape
        && let Mask::Differs(ones) = acquisition.mask
    {
        print!(rt; " mask {ones}")?;
    }
    Ok(())
}
