// Text on its way to standard output, through a buffer that is written when it is full.
ghost use Rattle.std.specs.Prelude.{◌≡◌, ◌≤◌};

use std::fmt;
use std::io::{Stdout, Write};

// Where the text goes, the bytes that wait in the buffer, and whether every write so far succeeded.
// A flag and no Result: after a failed write the rest of what was read is still answered, and the run asks then. The buffer of `midi2` differs: it stops there.
// The bytes stand in an array with their count beside: a BufWriter writes again what a failed write left, and asks for memory.
#[derive(Drop)]
pub(crate) struct Out {
    to: Stdout,
    buffer: [u8; 4096],
    waiting: usize,
    is_well: bool,
    ghost in_buffer: { waiting ≤ 4096 },
}

impl Out {
    pub(crate) fn new(to: Stdout) -> Out {
        Out {
            to,
            buffer: [0; 4096],
            waiting: 0,
            is_well: true,
        }
    }

    // Every write so far succeeded.
    pub(crate) fn is_well(&self) -> bool {
        self.is_well
    }

    // Writes what waits.
    pub(crate) fn flush(&mut self)
        ensures { self.new.waiting ≡ 0 }
    {
        let mut to = self.to;
        self.is_well &= to.write_all(&self.buffer[..self.waiting]).is_ok();
        self.waiting = 0;
    }

    // One byte more.
    pub(crate) fn byte(&mut self, b: u8) {
        if self.waiting == 4096 {
            self.flush();
        }
        self.buffer[self.waiting] = b;
        self.waiting += 1;
    }

    // The bytes of `text`.
    pub(crate) fn text(&mut self, text: &[u8]) {
        for b in text {
            self.byte(*b);
        }
    }
}

impl fmt::Write for Out {
    fn write_str(&mut self, s: &str) -> fmt::Result {
        self.text(s.as_bytes());
        Ok(())
    }
}
