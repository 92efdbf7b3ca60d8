//! What is done with bytes that wait.
ghost use Rattle.std.specs.Prelude.{ℕ, List, ◌++◌, ◌+◌, ◌-◌, ◌<◌, ◌≡◌, ◌≤◌, ◌↔◌, IfOk, IsTrue, None, OnErr, [], drop, length, take};
ghost use Rattle.std.specs.Io.KnownBytes.{Keeps};
ghost use Rattle.capnp_packed.specs.Sources.{held};
ghost use Rattle.capnp_packed.specs.Steps.Windows.{HasRead, held_end};
ghost use Rattle.capnp_packed.specs.Steps.Seen.{piece_seen, run_seen};
ghost use Rattle.capnp_packed.specs.Unpacking.{piece_of, unpacked_bytes};

use crate::received::put_piece;
use crate::unpack::{WordRun, next_piece};
use crate::window::Window;
use capnp_device::device::{DeviceFault, Source};

#[tactic(auto, unfolding(crate::specs::Sources::held, crate::specs::Steps::Windows::held_end))]
impl Window {
    /// A window in which no byte waits.
    pub(crate) fn new() -> Self
        ensures { held result ≡ [] }
    {
        Window {
            bytes: [0; 4096],
            start: 0,
            end: 0,
        }
    }

    /// The bytes that wait.
    fn as_slice(&self) -> &[u8]
        ensures { result.now ≡ held self.now }
    {
        &self.bytes[self.start..self.end]
    }

    /// Whether no byte waits.
    pub(crate) fn is_empty(&self) -> bool
        ensures { IsTrue result ↔ held self.now ≡ [] }
    {
        self.start == self.end
    }

    /// Gives the first bytes, as many as wait and as the buffer has room for, and answers how many.
    pub(crate) fn give(&mut self, buffer: &mut [u8]) -> usize
        ensures inside { result ≤ length buffer.new }
        ensures bytes { held self.old ≡ take result buffer.new ++ held self.new }
        ensures some { result ≡ 0 → 0 < length buffer.new → held self.old ≡ [] }
    {
        let waiting = self.end - self.start;
        let count = if waiting < buffer.len() {
            waiting
        } else {
            buffer.len()
        };
        buffer[..count].copy_from_slice(&self.bytes[self.start..self.start + count]);
        self.start += count;
        count
    }

    /// Keeps so many of the bytes that wait, the last ones.
    fn keep_last(&mut self, count: usize)
        requires { count ≤ length (held self.old) }
        ensures { held self.new ≡ drop (length (held self.old) - count) (held self.old) }
    {
        self.start = self.end - count;
    }

    /// Moves the bytes that wait to the front of the array.
    fn move_to_front(&mut self)
        ensures same { held self.new ≡ held self.old }
        ensures end { held_end self.new ≡ length (held self.old) }
    {
        let count = self.end - self.start;
        self.bytes.copy_within(self.start..self.end, 0);
        self.start = 0;
        self.end = count;
    }

    /// Puts the bytes of a piece behind those that wait.
    fn append(&mut self, piece: WordRun<'_>)
        requires room { held_end self.old ≤ 2048 }
        requires short { length (run_seen piece.run) ≤ 2040 }
        ensures bytes { held self.new ≡ held self.old ++ (piece_seen piece.entry).0 }
        ensures some { 0 < length (held self.new) }
        ensures end { held_end self.old ≡ length (held self.old) → held_end self.new ≡ length (held self.new) }
    {
        self.end = put_piece(&mut self.bytes, self.end, piece);
    }

    /// Unpacks the first pieces of packed bytes, as many as there is room for. No byte waits here before.
    pub(crate) fn unpack(&mut self, packed: &mut Window)
        requires { held self.old ≡ [] }
        ensures same { (more : List ℕ) → held self.new ++ unpacked_bytes (held packed.new ++ more)
            ≡ unpacked_bytes (held packed.old ++ more) }
        ensures stays { held self.new ≡ [] → held packed.new ≡ held packed.old }
        ensures none { held self.new ≡ [] → piece_of (held packed.new) ≡ None }
        ensures short { held self.new ≡ [] → length (held packed.new) < 2050 }
    {
        self.move_to_front();
        'pieces: while self.end <= 2048 {
            let Some(piece) = next_piece(packed.as_slice()) else {
                return;
            };
            let left = piece.rest.len();
            self.append(piece);
            packed.keep_last(left);
        }
    }

    /// Reads more behind the bytes that wait, and answers how many.
    pub(crate) fn read_more<S: Source>(&mut self, source: &mut S) -> Result<usize, DeviceFault>
        requires { length (held self.old) < 4096 }
        ensures read { IfOk result (λ n. HasRead (held self.old) (held self.new) (S.left source.old) (S.left source.new) n) }
        ensures few { length (held self.new) ≤ 4096 }
        ensures kept { OnErr result (held self.new ≡ held self.old) }
        ensures left { OnErr result (Keeps (S.left source.old) (S.left source.new)) }
    {
        self.move_to_front();
        let end = self.end;
        let Ok(count) = source.read_some(&mut self.bytes[end..]) else {
            return Err(DeviceFault);
        };
        self.end = end + count;
        Ok(count)
    }
}
