// The program's output handed to a writer, which is standard output, part after part.
//
// What a writer does with its bytes no contract here says. So an `Output`, which tells how many bytes were handed over, is made here
// alone: by `start`, and by `hand`, which takes nothing but the part that comes next. A `Failure` is made where a write failed.
#![tactic(auto)]

ghost use Rattle.std.specs.Prelude.{◌≡◌, length};
ghost use Rattle.output.specs.Handing.{NextPart, Hands};

use std::io::{self, ErrorKind, Write};

#[derive(Clone, Copy)]
pub struct Output {
    handed: u64,
}

#[derive(Clone, Copy)]
pub struct Failure {
    handed: u64,
}

pub fn start() -> Output
    ensures { result.handed ≡ 0 }
{
    Output { handed: 0 }
}

// Writes all bytes, or stops at the first write that takes none or fails. Without a byte nothing is called. A write that a signal
// interrupts has failed here, where std's write_all writes again.
pub fn write_all<W: Write>(writer: &mut W, bytes: &[u8]) -> io::Result<()> {
    let mut left = bytes;
    while !left.is_empty() {
        let n = writer.write(left)?;
        if n == 0 {
            return Err(ErrorKind::WriteZero.into());
        }
        left = &left[n..];
    }
    Ok(())
}

// The part of an input's output that comes next.
pub fn hand<W: Write>(
    writer: &mut W,
    input: &[u8],
    output: Output,
    part: &[u8],
) -> Result<Output, Failure>
    requires { NextPart input.now output.handed part.now }
    ensures { Hands output.handed (length part.now) result }
{
    write_all(writer, part).map_err(|_| Failure {
        handed: output.handed,
    })?;
    let handed = output.handed + part.len() as u64;
    Ok(Output { handed })
}
