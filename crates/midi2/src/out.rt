// Bytes on their way to standard output, through a buffer that is written when it is full.
ghost use Rattle.std.specs.Prelude.{◌≡◌, ◌≤◌};

use crate::Failure;
use std::io::{Stdout, Write};

// Where the bytes go, and those that wait in the buffer.
// They stand in an array with their count beside: a BufWriter asks for memory, and no run is to end for want of it.
// The buffer of `replay` is another: after a failed write that one goes on, and says so where it is asked; this one stops there, by its Result.
#[derive(Drop)]
pub(crate) struct Out {
    to: Stdout,
    buffer: [u8; 4096],
    waiting: usize,
    ghost in_buffer: { waiting ≤ 4096 },
}

impl Out {
    pub(crate) fn new(to: Stdout) -> Out {
        Out {
            to,
            buffer: [0; 4096],
            waiting: 0,
        }
    }

    // Writes what waits, and empties the buffer, also where it cannot be written.
    pub(crate) fn flush(&mut self) -> Result<(), Failure>
        ensures { self.new.waiting ≡ 0 }
    {
        let mut to = self.to;
        let written = to.write_all(&self.buffer[..self.waiting]);
        self.waiting = 0;
        written.map_err(|_| Failure::Write)
    }

    // One byte more.
    fn byte(&mut self, b: u8) -> Result<(), Failure> {
        if self.waiting == 4096 {
            self.flush()?;
        }
        self.buffer[self.waiting] = b;
        self.waiting += 1;
        Ok(())
    }

    // The bytes of `text`.
    pub(crate) fn text(&mut self, text: &[u8]) -> Result<(), Failure> {
        for b in text {
            self.byte(*b)?;
        }
        Ok(())
    }
}
