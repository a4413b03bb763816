//! What is said on standard error, held back until it is known whether anybody is to read it.

use std::alloc::Global;
use std::io;
use std::io::Write;

/// A writer that holds back what is written to it, as long as there is memory for that.
#[derive(Drop)]
pub struct Held<E> {
    inner: E,
    /// What is held back.
    text: Vec<u8>,
    /// Whether nothing is held back any more.
    is_open: bool,
}

impl<E: Write> Held<E> {
    /// One that holds back all from now on.
    pub fn new(alloc: Global, inner: E) -> Held<E> {
        Held {
            inner,
            text: Vec::new(alloc),
            is_open: false,
        }
    }

    /// Writes what was held back, and holds back nothing from now on.
    pub fn let_go(&mut self) {
        if !self.is_open {
            self.is_open = true;
            let _ = self.inner.write_all(self.text.as_slice());
        }
    }
}

impl<E: Write> Write for Held<E> {
    fn write(&mut self, buf: &[u8]) -> io::Result<usize> {
        if !self.is_open && self.text.extend_from_slice(buf).is_ok() {
            return Ok(buf.len());
        }
        self.let_go();
        self.inner.write(buf)
    }

    fn flush(&mut self) -> io::Result<()> {
        Ok(())
    }
}
