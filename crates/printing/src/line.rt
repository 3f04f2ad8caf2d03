// Lines that are put after what a program has to print.
ghost use Rattle.std.specs.Prelude.{◌≡◌, ◌++◌, OnOk, IfSome};
ghost use Rattle.printing.specs.Texts.{printed};

use std::alloc::AllocError;
use std::fmt;
use std::fmt::Formatter;

// The bytes of the longest line that `stocktake` prints: three numbers of twenty digits, and the words between them.
const LINE_ROOM: usize = 88;

// Bytes that text is put after. A writer of our own: std's for a Vec goes through `write_all`, which costs more for each piece of a line.
struct After<'a> {
    bytes: &'a mut Vec<u8>,
}

impl fmt::Write for After<'_> {
    ghost write_str_gives = { λ s text t. (t.bytes.ghost_name ≡ s.bytes.ghost_name)
        × (t.bytes.now.items ≡ s.bytes.now.items ++ text) };

    fn write_str(&mut self, text: &str) -> fmt::Result {
        Ok(self.bytes.extend_from_slice(text.as_bytes())?)
    }
}

// Puts a text and a newline after `out`, with no String between. Room for a line is made first, so one that fits it wants memory once at most.
// The clause is written out, as in the two of `session` that put a line: what is put differs, and a word for ++ would be no plainer.
pub fn put_line<T: fmt::Display>(line: &T, out: &mut Vec<u8>) -> Result<(), AllocError>
    ensures { IfSome (T.output line.now) (λ text. OnOk result (out.new.items ≡ out.old.items ++ printed text)) }
{
    out.reserve(LINE_ROOM)?;
    let mut f = Formatter::new(After { bytes: out });
    let result = f.write(line);
    let After { bytes } = f.into_inner();
    match result {
        Ok(()) => Ok(bytes.push(b'\n')?),
        Err(fmt::Error) => Err(AllocError),
    }
}
