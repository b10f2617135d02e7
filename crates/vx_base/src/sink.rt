ghost use Rattle.std.specs.Prelude.{◌<◌, length, OnOk, OnErr};
ghost use Rattle.vx_base.specs.Sink.{SinkState, Puts, IsWritten, IsCutOff};

/// What a put answers.
#[derive(Clone, Copy, PartialEq, Eq, Debug)]
pub enum Put {
    /// The first so many bytes of the piece were put, one or more.
    Took(usize),
    /// A fault came, and nothing was put.
    Failed,
}

/// A sink failed in the middle of a text. A prefix of it was written.
#[derive(Clone, Copy, PartialEq, Eq, Debug)]
pub struct WriteFault;

/// Where text goes.
pub trait Sink {
    /// What it tells of the bytes put so far, and of its faults.
    ghost state: { Self → SinkState };

    /// Puts bytes from the front of the piece behind those that were put before.
    fn put(&mut self, piece: &[u8]) -> Put
        requires { 0 < length piece.now }
        ensures { Puts (state self.old) (state self.new) piece.now result };
}

/// Writes the whole text. `Err` comes only where the sink's count of faults rose; a prefix was written then.
pub fn write_text<K: Sink>(out: &mut K, text: &[u8]) -> Result<(), WriteFault>
    ensures written { OnOk result (IsWritten (K.state out.old) (K.state out.new) text.now) }
    ensures cut_off { OnErr result (IsCutOff (K.state out.old) (K.state out.new) text.now) }
{
    let mut done = 0;
    while done < text.len() {
        match out.put(&text[done..]) {
            Put::Took(count) => done += count,
            Put::Failed => return Err(WriteFault),
        }
    }
    Ok(())
}
