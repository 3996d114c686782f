//! Standard output and standard error, written as far as the system lets a file get.

use crate::most_bytes::{is_full, most_bytes};
use std::io::{ErrorKind, Write};
use std::{io, rt};

/// A stream that this process was given open. Where it is a file of the disk, and as long as a file may be, a write
/// to it fails, where else the system would end the process by a signal.
#[derive(Drop)]
pub struct Stream<'a, R: rt::Files, W: Write + Drop> {
    rt: &'a R,
    to: W,
    path: &'static str,
    most: u64,
}

impl<'a, R: rt::Files, W: Write + Drop> Stream<'a, R, W> {
    /// Standard output, which `to` writes.
    pub fn output(rt: &'a R, to: W) -> Stream<'a, R, W> {
        Stream::output_within(rt, to, most_bytes(rt))
    }

    /// Standard output, where a file may have so many bytes.
    pub(crate) fn output_within(rt: &'a R, to: W, most: u64) -> Stream<'a, R, W> {
        Stream {
            rt,
            to,
            path: "/dev/stdout",
            most,
        }
    }

    /// Standard error, which `to` writes.
    pub fn errors(rt: &'a R, to: W) -> Stream<'a, R, W> {
        Stream {
            rt,
            to,
            path: "/dev/stderr",
            most: most_bytes(rt),
        }
    }
}

impl<R: rt::Files, W: Write + Drop> Write for Stream<'_, R, W> {
    fn write(&mut self, piece: &[u8]) -> io::Result<usize> {
        if self.most < u64::MAX {
            match self.rt.metadata(self.path) {
                Ok(found) if is_full(&found, self.most) => {
                    return Err(io::Error::from(ErrorKind::FileTooLarge))
                }
                _ => {}
            }
        }
        self.to.write(piece)
    }

    fn flush(&mut self) -> io::Result<()> {
        self.to.flush()
    }
}
