// What no clause says: that the calls succeed, when bytes are handed on, that the writer behind is flushed, and what is told where it fails or takes none.
use crate::Buffered;
use arrayvec::ArrayVec;
use std::io::{self, ErrorKind, Write};
use std::test::Fail;

// A writer that takes three bytes at a time at most, after it has failed as often as it is told.
#[derive(Drop)]
struct Slow {
    failures: usize,
    flushes: usize,
    taken: ArrayVec<u8, 32>,
}

impl Write for Slow {
    fn write(&mut self, buf: &[u8]) -> io::Result<usize> {
        if self.failures > 0 {
            self.failures -= 1;
            return Err(io::Error::from(ErrorKind::TimedOut));
        }
        let piece = buf.len().min(3);
        self.taken.write(&buf[..piece])
    }

    fn flush(&mut self) -> io::Result<()> {
        self.flushes = self.flushes.wrapping_add(1);
        Ok(())
    }
}

fn to_slow(failures: usize) -> Buffered<Slow> {
    Buffered::new(Slow {
        failures,
        flushes: 0,
        taken: ArrayVec::new(),
    })
}

#[test]
fn what_waits_is_handed_on_at_a_flush_and_at_the_end(rt: HostRuntime) -> Result<(), Fail> {
    let mut writer = to_slow(0);
    assert_eq!(rt; writer.write(b"plan ok 1")?, 9);
    assert!(rt; writer.out.taken.is_empty());
    writer.flush()?;
    assert_eq!(rt; writer.out.flushes, 1);
    assert_eq!(rt; writer.out.taken.as_slice(), b"plan ok 1".as_slice());
    assert_eq!(rt; writer.write(b" 2 ")?, 3);
    assert_eq!(rt; writer.write(b"3\n")?, 2);
    assert_eq!(rt; writer.out.taken.as_slice(), b"plan ok 1".as_slice());
    let Slow { taken, .. } = writer.finish()?;
    assert_eq!(rt; taken.as_slice(), b"plan ok 1 2 3\n".as_slice());
    Ok(())
}

#[test]
fn a_write_that_fails_loses_nothing(rt: HostRuntime) -> Result<(), Fail> {
    let mut writer = to_slow(2);
    assert_eq!(rt; writer.write(b"tick 0\n")?, 7);
    assert!(rt;
        writer
            .flush()
            .is_err_and(|e| e.kind() == ErrorKind::TimedOut)
    );
    assert!(rt; writer.flush().is_err());
    assert!(rt; writer.out.taken.is_empty());
    writer.flush()?;
    assert_eq!(rt; writer.finish()?.taken.as_slice(), b"tick 0\n".as_slice());
    Ok(())
}

#[test]
fn the_end_says_when_its_write_fails(rt: HostRuntime) -> Result<(), Fail> {
    let mut writer = to_slow(1);
    assert_eq!(rt; writer.write(b"tick 0\n")?, 7);
    assert!(rt; writer.finish().is_err());
    // nothing waits, so nothing is written
    assert!(rt; to_slow(1).finish().is_ok());
    Ok(())
}

#[test]
fn a_full_buffer_is_handed_on_before_more_is_taken(rt: HostRuntime) -> Result<(), Fail> {
    let mut writer = to_slow(0);
    assert_eq!(rt; writer.write([b'x'; 65536].as_slice())?, 65536);
    assert_eq!(rt; writer.write(b"yes")?, 3);
    assert_eq!(rt; writer.out.taken.as_slice(), b"xxx".as_slice());
    assert_eq!(rt; writer.write(b"more")?, 3);
    assert_eq!(rt; writer.out.taken.as_slice(), b"xxxxxx".as_slice());
    Ok(())
}

#[test]
fn a_writer_that_takes_no_more_is_told(rt: HostRuntime) -> Result<(), Fail> {
    let mut writer = to_slow(0);
    assert_eq!(rt; writer.write([b'x'; 33].as_slice())?, 33);
    assert!(rt;
        writer
            .flush()
            .is_err_and(|e| e.kind() == ErrorKind::WriteZero)
    );
    assert_eq!(rt; writer.out.taken.len(), 32);
    assert!(rt; writer.finish().is_err());
    Ok(())
}
