ghost use Rattle.std.specs.Prelude.{◌≡◌, ℕ, ◌+◌, ◌≤◌, [], None, IsOk, OnOk, OnErr, length, take};
ghost use Rattle.std.specs.Io.KnownBytes as known;
ghost use Rattle.lfg_io.specs.Counts.{Rose};
ghost use Rattle.lfg_io.specs.Sink.{Appends, AppendsPrefix};

use crate::counts::raise;
use crate::sink::{Sink, SinkFault};
use std::io::Write;

/// A sink over a stream, as standard output. It tells no content, and is sure of no room.
#[derive(Drop)]
pub struct StdSink<W: Write> {
    stream: W,
    faults: u64,
}

impl<W: Write> StdSink<W> {
    ghost use Rattle.lfg_io.specs.StdSink.{stream_of};

    /// A sink over the stream that has counted no fault.
    pub fn new(stream: W) -> StdSink<W>
        ensures stream { stream_of result ≡ stream }
        ensures faults { ⟦<StdSink<W> as Sink>⟧.faults result ≡ 0 }
    {
        StdSink { stream, faults: 0 }
    }
}

/// Writes until the stream has taken all bytes. A write that takes nothing is a fault.
fn write_whole<W: Write>(stream: &mut W, bytes: &[u8]) -> Result<(), SinkFault>
    ensures written { OnOk result (known.Appends (W.contents stream.old) (W.contents stream.new) bytes.now) }
    ensures cut { OnErr result ((count : ℕ) × (count ≤ length bytes.now) × known.Appends (W.contents stream.old) (W.contents stream.new) (take count bytes.now)) }
    ensures nothing { bytes.now ≡ [] → IsOk result × (stream.new ≡ stream.old) }
{
    let mut taken = 0;
    while taken < bytes.len() {
        match stream.write(&bytes[taken..]) {
            Ok(count) if count > 0 => taken += count,
            _ => return Err(SinkFault::Failed),
        }
    }
    Ok(())
}

impl<W: Write> Sink for StdSink<W> {
    ghost written = { λ _. None };

    ghost room = { λ _. 0 };

    ghost use Rattle.lfg_io.specs.StdSink.{stream_of, faults_of};

    ghost faults = { faults_of };

    /// Writes until the stream has taken all bytes. A write that takes nothing of some bytes is a fault.
    fn put(&mut self, bytes: &[u8]) -> Result<(), SinkFault>
        ensures appended { OnOk result (Appends None None bytes.now) }
        ensures cut { OnErr result (AppendsPrefix None None bytes.now) }
        ensures later { faults_of self.old ≤ faults_of self.new }
        ensures rose { OnErr result (Rose (faults_of self.old) (faults_of self.new)) }
        ensures sure { length bytes.now ≤ 0 → IsOk result }
        ensures room_left { length bytes.now ≤ 0 → 0 + length bytes.now ≡ 0 }
        ensures nothing { bytes.now ≡ [] → IsOk result × (self.new ≡ self.old) }

        // Where the stream itself tells what it holds, it has taken all bytes.
        ensures taken { OnOk result (known.Appends (W.contents (stream_of self.old)) (W.contents (stream_of self.new)) bytes.now) }
        ensures faults_kept { OnOk result (faults_of self.new ≡ faults_of self.old) }
    {
        let answer = write_whole(&mut self.stream, bytes);
        if answer.is_err() {
            self.faults = raise(self.faults);
        }
        answer
    }
}

#[cfg(test)]
mod tests {
    use super::*;
    use std::fs;
    use std::test::Fail;

    #[test]
    fn writes_until_the_stream_takes_nothing(rt: HostRuntime) -> Result<(), Fail> {
        let path = "lfg_io_std_sink_test";
        let mut file = StdSink::new(fs::create(&rt, path)?);
        for piece in ["the ", "", "man"] {
            assert_eq!(rt; file.put(piece.as_bytes()), Ok(()), "putting {piece}");
        }
        assert_eq!(rt; fs::read(&rt, path)?.as_slice(), b"the man".as_slice());
        fs::remove_file(&rt, path)?;

        let mut room = [0u8; 4];
        let mut full = StdSink::new(room.as_mut_slice());
        assert_eq!(rt; full.put(b"the"), Ok(()));
        assert_eq!(rt; full.put(b" man"), Err(SinkFault::Failed));
        assert_eq!(rt; full.faults, 1);
        assert_eq!(rt; room, *b"the ");
        Ok(())
    }
}
