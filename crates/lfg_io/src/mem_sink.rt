ghost use Rattle.std.specs.Prelude.{◌≡◌, ◌≢◌, ◌+◌, ◌≤◌, ◌↔◌, ◌++◌, [], Some, None, IsOk, IsErr, IfOk, IsSome, OnOk, OnErr, length, take};
ghost use Rattle.lfg_io.specs.Counts.{raised, Rose};
ghost use Rattle.lfg_io.specs.MemSink.{sure_room, stated, taken};
ghost use Rattle.lfg_io.specs.Sink.{Appends, AppendsPrefix};

use crate::counts::raise;
use crate::sink::{Sink, SinkFault};
use std::alloc::{AllocError, Global};
use std::marker::Model;

/// A sink in memory, which fails the listed calls and never grows.
///
/// Contracts see what it has written, the list of failing calls, the counts of calls and of faults,
/// and how much of the reserved room is left.
#[derive(Drop)]
pub struct MemSink {
    written: Vec<u8>,
    fails: Vec<(u64, usize)>,
    calls: u64,
    faults: u64,
    left: usize,
}

impl Model for MemSink {
    ghost use Rattle.std.specs.Prelude.{◌+◌, ◌≤◌, vec_len, vec_capacity};
    ghost use Rattle.lfg_io.specs.MemSink.{MemSinkState};

    ghost Value = { MemSinkState };

    ghost view = { λ s. record { written = s.written.items; fails = s.fails.items; calls = s.calls; faults = s.faults; left = s.left } };

    ghost invariant = { λ s. vec_len s.written + s.left ≤ vec_capacity s.written };
}

impl MemSink {
    /// A sink that has reserved the room. Each entry of the list has the number of a call that fails,
    /// counted from 1, and after how many bytes it fails. Of two entries for one call the first counts.
    ///
    /// # Errors
    ///
    /// Only for want of memory.
    pub fn new(alloc: Global, fails: Vec<(u64, usize)>, room: usize) -> Result<MemSink, AllocError>
        ensures made { IfOk result (λ sink. sink ≡ record { written = []; fails = fails.items; calls = 0; faults = 0; left = room }) }
        ensures told { IfOk result (λ sink. ⟦<MemSink as Sink>⟧.written sink ≡ Some []) }
        ensures sure { fails.items ≡ [] → IfOk result (λ sink. ⟦<MemSink as Sink>⟧.room sink ≡ room) }
        ensures unsure { fails.items ≢ [] → IfOk result (λ sink. ⟦<MemSink as Sink>⟧.room sink ≡ 0) }
    {
        Ok(MemSink {
            written: Vec::with_capacity(alloc, room)?,
            fails,
            calls: 0,
            faults: 0,
            left: room,
        })
    }

    /// All bytes that were written, in order. Takes no memory.
    pub fn written(&self) -> &[u8]
        ensures { result.now ≡ self.now.written }
    {
        self.written.as_slice()
    }

    /// How many calls have failed. Takes no memory.
    pub fn faults(&self) -> u64
        ensures { result ≡ self.now.faults }
    {
        self.faults
    }

    /// After how many bytes the next call fails, if it is listed.
    fn stated(&self) -> Option<usize>
        ensures { result ≡ stated self.now }
    {
        let call = raise(self.calls);
        let entry = self.fails.iter().find(|entry| entry.0 == call)?;
        Some(entry.1)
    }

    /// Appends bytes that the room has place for.
    fn append(&mut self, bytes: &[u8])
        requires { length bytes.now ≤ self.old.left }
        ensures written { self.new.written ≡ self.old.written ++ bytes.now }
        ensures left { self.new.left + length bytes.now ≡ self.old.left }
        ensures fails { self.new.fails ≡ self.old.fails }
        ensures calls { self.new.calls ≡ self.old.calls }
        ensures faults { self.new.faults ≡ self.old.faults }
    {
        match self.written.extend_from_slice(bytes) {
            Ok(()) => {}
            Err(_) => unreachable!(),
        }
        self.left -= bytes.len();
    }
}

impl Sink for MemSink {
    ghost written = { λ sink. Some sink.written };

    ghost room = { λ sink. sure_room sink.fails sink.left };

    ghost faults = { λ sink. sink.faults };

    /// Appends the bytes, up to the end of the room or to the stated number of a listed call.
    fn put(&mut self, bytes: &[u8]) -> Result<(), SinkFault>
        ensures appended { OnOk result (Appends (Some self.old.written) (Some self.new.written) bytes.now) }
        ensures cut { OnErr result (AppendsPrefix (Some self.old.written) (Some self.new.written) bytes.now) }
        ensures later { self.old.faults ≤ self.new.faults }
        ensures rose { OnErr result (Rose self.old.faults self.new.faults) }
        ensures sure { length bytes.now ≤ sure_room self.old.fails self.old.left → IsOk result }
        ensures room_left { length bytes.now ≤ sure_room self.old.fails self.old.left → sure_room self.new.fails self.new.left + length bytes.now ≡ sure_room self.old.fails self.old.left }
        ensures nothing { bytes.now ≡ [] → IsOk result × (self.new ≡ self.old) }

        // A listed call fails, and any other call exactly where the piece does not fit.
        ensures listed { bytes.now ≢ [] → IsSome (stated self.old) → IsErr result }
        ensures unlisted { stated self.old ≡ None → (IsOk result ↔ (length bytes.now ≤ self.old.left)) }

        ensures written { self.new.written ≡ self.old.written ++ take (taken self.old bytes.now) bytes.now }
        ensures left { self.new.left + taken self.old bytes.now ≡ self.old.left }
        ensures calls { bytes.now ≢ [] → self.new.calls ≡ raised self.old.calls }
        ensures faults { OnErr result (self.new.faults ≡ raised self.old.faults) }
        ensures faults_kept { OnOk result (self.new.faults ≡ self.old.faults) }
        ensures fails_kept { self.new.fails ≡ self.old.fails }
    {
        if bytes.is_empty() {
            return Ok(());
        }
        let stated = self.stated();
        let size = bytes.len();
        let count = stated.unwrap_or(size).min(size.min(self.left));
        self.calls = raise(self.calls);
        self.append(&bytes[..count]);
        if stated.is_none() && count == size {
            return Ok(());
        }
        self.faults = raise(self.faults);
        Err(SinkFault::Failed)
    }
}

#[cfg(test)]
mod tests {
    use super::*;
    use crate::sink::put_pieces;
    use std::test::Fail;

    #[test]
    fn fails_at_the_listed_calls_and_at_the_end_of_the_room(rt: HostRuntime) -> Result<(), Fail> {
        let fails = vec![in rt.alloc(); (2, 1), (2, 2), (3, 9)]?;
        let mut sink = MemSink::new(rt.alloc(), fails, 7)?;
        let failed = Err(SinkFault::Failed);
        let calls = [
            ("ab", Ok(()), "ab"),
            ("", Ok(()), "ab"),
            ("cd", failed, "abc"),
            ("ef", failed, "abcef"),
            ("g", Ok(()), "abcefg"),
            ("hi", failed, "abcefgh"),
        ];
        for (piece, answer, written) in calls {
            assert_eq!(rt; sink.put(piece.as_bytes()), answer, "putting {piece}");
            assert_eq!(rt; sink.written(), written.as_bytes(), "after {piece}");
        }
        assert_eq!(rt; sink.faults(), 3);
        Ok(())
    }

    #[test]
    fn puts_pieces_up_to_the_first_fault(rt: HostRuntime) -> Result<(), Fail> {
        let mut sink = MemSink::new(rt.alloc(), Vec::new(rt.alloc()), 14)?;
        let name = "a.lfg";
        let line = [b"xle: ".as_slice(), name.as_bytes(), b"\n".as_slice()];
        assert_eq!(rt; put_pieces(&mut sink, &line), Ok(()));
        assert_eq!(rt; put_pieces(&mut sink, &line), Err(SinkFault::Failed));
        assert_eq!(rt; sink.written(), b"xle: a.lfg\nxle".as_slice());
        Ok(())
    }
}
