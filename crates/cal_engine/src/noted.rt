//! A reader or a writer with what the system said of it.

use std::io;
use std::io::{ErrorKind, Read, Write};

/// A reader or a writer that remembers the error of the last call that failed.
#[derive(Drop)]
pub struct Noted<T> {
    inner: T,
    said: Option<io::Error>,
}

impl<T> Noted<T> {
    /// One that no call has failed on.
    pub fn new(inner: T) -> Noted<T> {
        Noted { inner, said: None }
    }

    /// The reader or the writer.
    pub fn inner(&self) -> &T {
        &self.inner
    }

    /// What the system said of the last call that failed.
    pub fn said(&self) -> Option<io::Error> {
        self.said
    }

    /// Whether whoever was to read what is written has gone: the last call failed on a closed pipe.
    pub fn is_reader_gone(&self) -> bool {
        match self.said {
            Some(said) => said.kind() == ErrorKind::BrokenPipe,
            None => false,
        }
    }
}

impl<T: Read> Read for Noted<T> {
    fn read(&mut self, buf: &mut [u8]) -> io::Result<usize> {
        match self.inner.read(buf) {
            Ok(count) => Ok(count),
            Err(error) => {
                self.said = Some(error);
                Err(error)
            }
        }
    }
}

impl<T: Write> Write for Noted<T> {
    fn write(&mut self, buf: &[u8]) -> io::Result<usize> {
        match self.inner.write(buf) {
            Ok(count) => Ok(count),
            Err(error) => {
                self.said = Some(error);
                Err(error)
            }
        }
    }

    fn flush(&mut self) -> io::Result<()> {
        match self.inner.flush() {
            Ok(()) => Ok(()),
            Err(error) => {
                self.said = Some(error);
                Err(error)
            }
        }
    }
}
