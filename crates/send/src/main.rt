// Reads messages of 28 bytes each from standard input and writes, for each, the 255 samples of its encoding under code 2.
// A record that is no message is passed over, and a last one that is cut short is not used.
#![tactic(auto)]

use bch::PLACES;
use std::io;
use std::io::{BufReader, BufWriter, Read, Write};
use wire::{RECORD_BYTES, send_record};

// The next record of the input, or `None` where no whole one is left.
// By `read`: `read_exact` would try an interrupted read again, where every other failed read ends the program.
fn next_record<R: Read>(input: &mut R) -> io::Result<Option<[u8; RECORD_BYTES]>> {
    let mut record = [0; RECORD_BYTES];
    let mut at = 0;
    while at < RECORD_BYTES {
        let n = input.read(&mut record[at..])?;
        if n == 0 {
            return Ok(None);
        }
        at += n;
    }
    Ok(Some(record))
}

// One record after the other, in constant memory. Nothing says that an input ends, so the records are counted.
fn send_all<R: Read, W: Write>(input: &mut R, output: &mut W) -> io::Result<()> {
    let mut samples = [0; PLACES];
    for _ in 0..u64::MAX {
        let Some(record) = next_record(input)? else {
            break;
        };
        if send_record(&record, &mut samples).is_ok() {
            output.write_all(&samples)?;
        }
    }
    output.flush()
}

fn main(rt: HostRuntime) -> io::Result<()> {
    let mut input = BufReader::new(rt.alloc(), rt.stdin())?;
    let mut output = BufWriter::new(rt.alloc(), rt.stdout())?;
    send_all(&mut input, &mut output)
}
