//! A reader and a writer that are interrupted.

use std::io::{self, ErrorKind, Read, Write};

/// So many calls are interrupted. Then a read gives `ab` and a write takes all.
#[derive(Drop)]
pub struct Unsure {
    pub interrupts: u32,
}

impl Unsure {
    fn count_call(&mut self) -> io::Result<()> {
        if self.interrupts > 0 {
            self.interrupts -= 1;
            return Err(ErrorKind::Interrupted.into());
        }
        Ok(())
    }
}

impl Read for Unsure {
    fn read(&mut self, buf: &mut [u8]) -> io::Result<usize> {
        self.count_call()?;
        let count = buf.len().min(2);
        buf[..count].copy_from_slice(&b"ab"[..count]);
        Ok(count)
    }
}

impl Write for Unsure {
    fn write(&mut self, buf: &[u8]) -> io::Result<usize> {
        self.count_call()?;
        Ok(buf.len())
    }

    fn flush(&mut self) -> io::Result<()> {
        Ok(())
    }
}
