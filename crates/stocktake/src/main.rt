// Replays a script of calls, one a line, and prints what each answers.
#![tactic(auto)]

ghost use Rattle.stocktake.specs.Lines.{WithoutNewline};

use session::Session;
use std::alloc::Global;
use std::io;
use std::io::{BufRead, BufReader, BufWriter, Stdin, Stdout, Write};

const NEWLINE: u8 = b'\n';

// A line without the newline at its end; the last one of a script may lack it.
// One expression; line_fields has it for the carriage return, with a clause of another form.
fn without_newline(line: &[u8]) -> &[u8]
    ensures { WithoutNewline line.now result.now }
{
    line.strip_suffix(&[NEWLINE]).unwrap_or(line)
}

// Answers each line of the input. The memory grows with the longest line, and not with the script.
// Not an iterator of lines, which would borrow the input: its buffer is looked at before each line. Nothing says that an input
// ends, so the lines are counted.
fn replay(
    heap: Global,
    session: &mut Session,
    input: &mut BufReader<Stdin>,
    output: &mut BufWriter<Stdout>,
) -> io::Result<()> {
    let mut line = Vec::new(heap);
    let mut text = Vec::new(heap);
    for _ in 0..u64::MAX {
        // Whoever types the script sees an answer before the next line is waited for.
        if input.buffer().is_empty() {
            output.flush()?;
        }
        line.clear();
        if input.read_until(NEWLINE, &mut line)? == 0 {
            break;
        }
        text.clear();
        session.answer(without_newline(&line), &mut text)?;
        output.write_all(&text)?;
    }
    Ok(())
}

fn main(rt: HostRuntime) -> io::Result<()> {
    let mut session = Session::new();
    let mut input = BufReader::new(rt.alloc(), rt.stdin())?;
    let mut output = BufWriter::new(rt.alloc(), rt.stdout())?;
    replay(rt.alloc(), &mut session, &mut input, &mut output)?;
    let mut end = Vec::new(rt.alloc());
    session.summary(&mut end)?;
    output.write_all(&end)?;
    output.flush()
}
