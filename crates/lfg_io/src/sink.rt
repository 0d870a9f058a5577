ghost use Rattle.std.specs.Prelude.{◌≡◌, ℕ, ◌+◌, ◌≤◌, List, [], length, Option, OnOk, OnErr, IsOk};
ghost use Rattle.std.specs.List.{flat_map};
ghost use Rattle.lfg_io.specs.Counts.{Rose};
ghost use Rattle.lfg_io.specs.Sink.{Appends, AppendsPrefix};

use thiserror::Error;

/// Why a sink did not take all bytes.
#[derive(Clone, Copy, Debug, Drop, PartialEq, Eq, Error)]
pub enum SinkFault {
    /// The sink counted a fault, and took a prefix of the bytes at most.
    #[error("cannot write")]
    Failed,
}

/// What takes bytes: a file, a stream or a buffer.
pub trait Sink {
    /// All bytes that were written, in order, where they are told.
    ghost written: { Self → Option (List ℕ) };
    /// How many more bytes it is sure to take.
    ghost room: { Self → ℕ };
    /// How many calls have failed. The count never falls, and stands still at 2^64 - 1.
    ghost faults: { Self → ℕ };

    /// Appends the bytes. Takes no memory.
    ///
    /// # Errors
    ///
    /// Only where the count of faults rose in this call; a prefix of the bytes was then appended.
    fn put(&mut self, bytes: &[u8]) -> Result<(), SinkFault>
        ensures appended { OnOk result (Appends (written self.old) (written self.new) bytes.now) }
        ensures cut { OnErr result (AppendsPrefix (written self.old) (written self.new) bytes.now) }

        ensures later { faults self.old ≤ faults self.new }
        ensures rose { OnErr result (Rose (faults self.old) (faults self.new)) }

        // Bytes that the room has place for are taken.
        ensures sure { length bytes.now ≤ room self.old → IsOk result }
        ensures room_left { length bytes.now ≤ room self.old → room self.new + length bytes.now ≡ room self.old }

        // To put no byte is no call at all.
        ensures nothing { bytes.now ≡ [] → IsOk result × (self.new ≡ self.old) };
}

/// Puts the pieces one after another, up to the first fault. Takes no memory.
///
/// # Errors
///
/// That of the first `put` that failed; the pieces before it and a prefix of its own were appended.
pub fn put_pieces<O: Sink>(out: &mut O, pieces: &[&[u8]]) -> Result<(), SinkFault>
    ensures appended { OnOk result (Appends (O.written out.old) (O.written out.new) (flat_map (λ piece. piece.now) pieces.now)) }
    ensures cut { OnErr result (AppendsPrefix (O.written out.old) (O.written out.new) (flat_map (λ piece. piece.now) pieces.now)) }

    ensures later { O.faults out.old ≤ O.faults out.new }
    ensures rose { OnErr result (Rose (O.faults out.old) (O.faults out.new)) }

    // Pieces that the room has place for are taken.
    ensures sure { length (flat_map (λ piece. piece.now) pieces.now) ≤ O.room out.old → IsOk result }
    ensures room_left { length (flat_map (λ piece. piece.now) pieces.now) ≤ O.room out.old → O.room out.new + length (flat_map (λ piece. piece.now) pieces.now) ≡ O.room out.old }
{
    for piece in pieces {
        out.put(piece)?;
    }
    Ok(())
}
