//! The script that the host reads, one byte at a time.
use std::alloc::{AllocError, Global};
use std::io;
use std::io::{BufRead, BufReader, ErrorKind, Read};

/// A stream with a buffer. Once it has ended, it stays at its end.
#[derive(Drop)]
pub(crate) struct Script<I: Read + Drop> {
    reader: BufReader<I>,
    is_ended: bool,
}

impl<I: Read + Drop> Script<I> {
    /// A script at its start. It allocates a buffer.
    pub(crate) fn new(alloc: Global, stream: I) -> Result<Script<I>, AllocError> {
        match BufReader::new(alloc, stream) {
            Ok(reader) => Ok(Script {
                reader,
                is_ended: false,
            }),
            Err(_) => Err(AllocError),
        }
    }

    /// The next byte, or None at the end.
    ///
    /// # Errors
    ///
    /// The stream failed.
    pub(crate) fn next_byte(&mut self) -> io::Result<Option<u8>> {
        if self.reader.buffer().is_empty() {
            self.fill()?;
        }
        let Some(byte) = self.reader.buffer().first().copied() else {
            return Ok(None);
        };
        self.reader.consume(1);
        Ok(Some(byte))
    }

    // Fills the buffer with more bytes, unless the stream has ended.
    fn fill(&mut self) -> io::Result<()> {
        if self.is_ended {
            return Ok(());
        }
        for _ in 0..u64::MAX {
            match self.reader.fill_buf() {
                Ok(bytes) => {
                    self.is_ended = bytes.is_empty();
                    return Ok(());
                }
                Err(error) if error.kind() == ErrorKind::Interrupted => {}
                Err(error) => return Err(error),
            }
        }
        self.is_ended = true;
        Ok(())
    }
}
