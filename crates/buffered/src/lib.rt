// A writer that hands its bytes on in pieces of 64 KiB: as std's `BufWriter`, but its buffer is on no heap.
#![tactic(auto)]

ghost use Rattle.std.specs.Prelude.{◌≡◌, ◌+◌, ◌≤◌, [], drop, length, IfOk};
ghost use Rattle.std.specs.Io.KnownBytes.{Keeps};
ghost use Rattle.arrayvec.specs.ArrayVec.{array_vec_len};
ghost use Rattle.buffered.specs.Buffered.{inner, waiting, held};

use arrayvec::ArrayVec;
use std::io::{self, ErrorKind, Write};

#[cfg(test)]
mod tests;

// Gathers up to 65,536 bytes for the writer behind it. What waits goes when it is dropped: `finish` hands it on.
#[derive(Drop)]
pub struct Buffered<W: Write> {
    out: W,
    bytes: ArrayVec<u8, 65536>,
}

impl<W: Write> Buffered<W> {
    // Nothing waits at first. It cannot fail.
    pub fn new(out: W) -> Buffered<W>
        ensures out { inner result ≡ out }
        ensures bytes { waiting result ≡ [] }
    {
        Buffered {
            out,
            bytes: ArrayVec::new(),
        }
    }

    // Hands on as many of the first bytes as the writer takes at once, and answers how many.
    fn hand_on(&mut self) -> io::Result<usize>
        ensures bytes { Keeps (held W.contents self.old) (held W.contents self.new) }
        ensures count { IfOk result (λ n. length (waiting self.new) + n ≡ length (waiting self.old)) }
    {
        let n = self.out.write(self.bytes.as_slice())?;
        remove_front(&mut self.bytes, n);
        Ok(n)
    }

    // Hands on all that waits, and hands the writer back. Where a write fails, its error is the answer, and what is left and the writer are let go.
    pub fn finish(self) -> io::Result<W>
    where
        W: Drop,
        ensures { IfOk result (λ w. Keeps (held W.contents self) (W.contents w)) }
    {
        let Buffered { mut out, bytes } = self;
        out.write_all(bytes.as_slice())?;
        Ok(out)
    }
}

impl<W: Write> Write for Buffered<W> {
    ghost contents = { held W.contents };

    // Takes as many of the bytes as there is room for. A full buffer is handed on first, in part; where that fails, nothing is taken and all still waits.
    fn write(&mut self, buf: &[u8]) -> io::Result<usize> {
        if self.bytes.is_full() {
            self.hand_on()?;
        }
        self.bytes.write(buf)
    }

    // Hands on all that waits. Where a write fails, or takes nothing (`WriteZero`), the rest still waits.
    fn flush(&mut self) -> io::Result<()> {
        while !self.bytes.is_empty() {
            if self.hand_on()? == 0 {
                return Err(io::Error::from(ErrorKind::WriteZero));
            }
        }
        self.out.flush()
    }
}

fn remove_front(bytes: &mut ArrayVec<u8, 65536>, n: usize)
    requires { n ≤ array_vec_len bytes.old }
    ensures { bytes.new.items ≡ drop n bytes.old.items }
{
    let len = bytes.len();
    bytes.as_mut_slice().copy_within(n..len, 0);
    bytes.truncate(len - n);
}
