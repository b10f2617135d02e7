ghost use Rattle.std.specs.Prelude.{◌≡◌, ◌<◌, ◌≤◌, length, IfSome};

use std::io::{ErrorKind, Write};
use std::marker::Model;
use vx_base::{Put, Sink};

/// A sink over a writer. It tells nothing of what was written, and counts the writes that failed or took nothing.
#[derive(Drop)]
pub struct OutSink<W: Write> {
    writer: W,
    faults: u64,
}

impl<W: Write> Model for OutSink<W> {
    ghost use Rattle.std.specs.Prelude.{ℕ};

    ghost Value = { ℕ };

    ghost view = { λ s. s.faults };
}

/// One write; where it is interrupted it is tried again. `None` where it fails or takes nothing.
fn write_some<W: Write>(writer: &mut W, piece: &[u8]) -> Option<usize>
    ensures { IfSome result (λ count. (0 < count) × (count ≤ length piece.now)) }
{
    for _ in 0..u64::MAX {
        match writer.write(piece) {
            Ok(0) => return None,
            Ok(count) => return Some(count),
            Err(error) if error.kind() == ErrorKind::Interrupted => {}
            Err(_) => return None,
        }
    }
    None
}

impl<W: Write> OutSink<W> {
    /// A sink over the writer, without a fault so far.
    pub fn new(writer: W) -> OutSink<W>
        ensures { result ≡ 0 }
    {
        OutSink { writer, faults: 0 }
    }
}

impl<W: Write> Sink for OutSink<W> {
    ghost use Rattle.vx_files.specs.Adapters.{out_sink_told};

    ghost state = { out_sink_told };

    fn put(&mut self, piece: &[u8]) -> Put {
        match write_some(&mut self.writer, piece) {
            Some(count) => Put::Took(count),
            None => {
                self.faults = self.faults.saturating_add(1);
                Put::Failed
            }
        }
    }
}

#[cfg(test)]
mod tests {
    use super::*;
    use std::io;

    /// A writer that is interrupted first, takes three bytes then, and nothing after that.
    #[derive(Drop)]
    struct Narrow<'a> {
        writes: &'a mut usize,
    }

    impl Write for Narrow<'_> {
        fn write(&mut self, buf: &[u8]) -> io::Result<usize> {
            *self.writes = self.writes.saturating_add(1);
            match *self.writes {
                1 => Err(io::Error::from(ErrorKind::Interrupted)),
                2 => Ok(buf.len().min(3)),
                3 => Ok(0),
                _ => Err(io::Error::from(ErrorKind::BrokenPipe)),
            }
        }

        fn flush(&mut self) -> io::Result<()> {
            Ok(())
        }
    }

    #[test]
    fn a_writer_takes_its_bytes(rt: HostRuntime) {
        let mut sink = OutSink::new(Vec::new(rt.alloc()));
        assert_eq!(rt; sink.put(b"issue"), Put::Took(5));
        assert_eq!(rt; sink.put(b" bank"), Put::Took(5));
        assert_eq!(rt; sink.writer.as_slice(), b"issue bank".as_slice());
        let mut writes = 0;
        let mut narrow = OutSink::new(Narrow {
            writes: &mut writes,
        });
        assert_eq!(rt; narrow.put(b"issue"), Put::Took(3));
        assert_eq!(rt; narrow.put(b"ue"), Put::Failed);
        assert_eq!(rt; narrow.put(b"ue"), Put::Failed);
        assert_eq!(rt; narrow.faults, 2);
    }
}
