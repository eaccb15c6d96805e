//! Fixed records, which stand at the front of a payload: the calls that all have, and their bytes.

ghost use Rattle.std.proofs.Common.{rules};
ghost use Rattle.std.specs.Prelude.{◌≡◌, ℕ, ◌+◌, ◌<◌, ◌≤◌, List, length, MatchOption};
ghost use Rattle.nla_wire.specs.Sizes.{most_payload};
ghost use Rattle.nla_wire.specs.Frames.{missing};
ghost use Rattle.nla_wire.specs.Payloads.{sized, filled};
ghost use Rattle.nla_wire.specs.Canon.{canon, Filled, Writes, Weighs, WeighsBySize};
ghost use Rattle.nla_wire.specs.Records.{Parses, RecordLaws, WritesFilled, buffer_bytes};
ghost use Rattle.nla_wire.specs.Buffers.{TakesFront};

use crate::buffer::NLA_HEADER_SIZE;
use crate::error::DecodeError;
use crate::exact::Exact;
use crate::fields::too_short;
use crate::payload::write_filled_payload;
use crate::write::finish;
use std::marker::PhantomData;

/// `size`, where so many bytes are there: the length of what is written of a payload that is read exactly then.
#[inline(always)]
pub fn measure_by_size(payload: &[u8], size: usize) -> Option<usize>
    ensures { MatchOption result (length payload.now < size)
        (λ n. (n ≡ size) × (size ≤ length payload.now)) }
{
    if payload.len() < size {
        None
    } else {
        Some(size)
    }
}

/// A record of `SIZE` bytes.
///
/// A type says how it is read and written; what is done with a longer or a shorter payload follows from these, and is
/// said once.
pub trait Record<const SIZE: usize>: Sized {
    ghost of: { List ℕ → Self };

    ghost bytes: { Self → List ℕ };

    /// Reads a record from the front of a payload, as if zeros followed it. No payload is copied.
    fn read(payload: &[u8]) -> Self
        ensures { result ≡ of payload.now };

    /// Writes a record to exactly `SIZE` bytes.
    fn write(&self, buffer: &mut [u8])
        requires { length buffer.old ≡ SIZE }
        ensures { buffer.new ≡ bytes self.now };

    ghost laws: { RecordLaws SIZE of bytes };

    /// Reads a record from a payload that has it whole: what is read is cut to `SIZE` bytes, so that no field is tested
    /// by itself.
    #[inline(always)]
    final fn read_front(payload: &[u8]) -> Self
        requires { SIZE ≤ length payload.now }
        ensures { result ≡ of payload.now }
    {
        Self::read(&payload[..SIZE])
    }

    /// Reads a record from the front of a payload, as if zeros followed it. It never fails.
    #[inline(always)]
    final fn parse_filled(payload: &[u8]) -> Result<Self, DecodeError>
        ensures { Parses (filled of) payload.now result }
    {
        Ok(Self::read(payload))
    }

    /// Reads a record from the front of a payload. One of fewer than `SIZE` bytes is refused with `TooShort`.
    #[inline(always)]
    #[tactic(auto, unfolding(crate::specs::Payloads::read_sized))]
    final fn parse_sized(payload: &[u8]) -> Result<Self, DecodeError>
        ensures { Parses (sized SIZE of) payload.now result }
    {
        if payload.len() < SIZE {
            return Err(too_short(payload.len(), SIZE));
        }
        Ok(Self::read_front(payload))
    }

    /// The length of the encoding of the record that a payload means as if zeros followed it: `SIZE`, whatever it
    /// holds; for the proof: the clause names the payload.
    #[inline(always)]
    final fn measure_filled(_payload: &[u8]) -> Option<usize>
        requires { SIZE ≤ most_payload }
        ensures { Weighs bytes (λ r. length (bytes r) ≤ most_payload)
            ((filled of).reads _payload.now) result }
    {
        Some(SIZE)
    }

    /// The bytes that a payload has to have, by which alone it is measured; for the proof: the clause names the
    /// payload.
    #[inline(always)]
    final fn size_for(_payload: &[u8]) -> usize
        requires { SIZE ≤ most_payload }
        ensures { WeighsBySize bytes (λ r. length (bytes r) ≤ most_payload)
            ((sized SIZE of).reads _payload.now) (length _payload.now) result }
    {
        SIZE
    }

    /// The length of the encoding of the record that a payload means: `None` where it has fewer than `SIZE` bytes.
    #[inline(always)]
    final fn measure_sized(payload: &[u8]) -> Option<usize>
        requires { SIZE ≤ most_payload }
        ensures { Weighs bytes (λ r. length (bytes r) ≤ most_payload)
            ((sized SIZE of).reads payload.now) result }
    {
        measure_by_size(payload, Self::size_for(payload))
    }

    /// Writes a record to the end of a buffer of at least `SIZE` bytes, keeps the bytes before it, and returns where it
    /// starts.
    final fn fill_back(&self, buffer: &mut [u8]) -> usize
        requires { SIZE ≤ length buffer.old }
        ensures { Filled buffer.old buffer.new (bytes self.now) result }
    {
        let start = buffer.len() - SIZE;
        self.write(&mut buffer[start..]);
        start
    }

    /// Writes the attribute of this kind whose value is the record to the front of the buffer, and returns its length
    /// with padding. The rest of the buffer is kept.
    #[inline(always)]
    final fn write_attribute(&self, kind: u16, out: &mut [u8]) -> usize
        requires small { SIZE ≤ most_payload }
        requires room { 4 + SIZE + missing SIZE ≤ length out.old }
        ensures { Writes (canon (record { kind = kind; payload = bytes self.now })) out.old
            out.new result }
    {
        self.write(&mut out[NLA_HEADER_SIZE..NLA_HEADER_SIZE + SIZE]);
        finish(out, SIZE, kind)
    }

    /// Writes the attribute of this kind whose value is the record that a payload of `SIZE` bytes or more means to the
    /// front of the buffer, and returns its length with padding. The rest of the buffer is kept.
    #[inline(always)]
    final fn write_sized(kind: u16, payload: &[u8], out: &mut [u8]) -> usize
    where
        Self: Drop,
        requires small { SIZE ≤ most_payload }
        requires whole { SIZE ≤ length payload.now }
        requires room { length (canon (record { kind = kind; payload = bytes (of payload.now) }))
            ≤ length out.old }
        ensures { Writes (canon (record { kind = kind; payload = bytes (of payload.now) })) out.old
            out.new result }
    {
        let value = Self::read_front(payload);
        value.write_attribute(kind, out)
    }
}

/// A record of which each byte is a field's.
pub trait PlainRecord<const SIZE: usize>: Record<SIZE> {
    ghost written: { WritesFilled SIZE Self.of Self.bytes };

    /// Writes the attribute of this kind whose value is the record that a payload means, the payload cut to `SIZE`
    /// bytes or filled up with zeros, to the front of the buffer, and returns its length with padding. The rest of the
    /// buffer is kept.
    #[inline(always)]
    #[tactic(auto, using(crate::proofs::Front::all_bytes))]
    final fn write_filled(kind: u16, payload: &[u8], out: &mut [u8]) -> usize
        requires small { SIZE ≤ most_payload }
        requires room { length (canon
            (record { kind = kind; payload = Self.bytes (Self.of payload.now) })) ≤ length out.old }
        ensures { Writes
            (canon (record { kind = kind; payload = Self.bytes (Self.of payload.now) })) out.old
            out.new result }
    {
        write_filled_payload(kind, SIZE, payload, out)
    }
}

/// The bytes of a record.
#[derive(Clone, Copy, Debug, PartialEq, Eq)]
pub struct RecordBuffer<R, const SIZE: usize> {
    bytes: [u8; SIZE],
    marker: PhantomData<R>,
}

impl<R: Record<SIZE>, const SIZE: usize> From<&R> for RecordBuffer<R, SIZE> {
    ghost from_gives = { λ v b. buffer_bytes b ≡ R.bytes v.now };

    fn from(value: &R) -> RecordBuffer<R, SIZE> {
        let mut bytes = [0; SIZE];
        value.write(&mut bytes);
        RecordBuffer {
            bytes,
            marker: PhantomData,
        }
    }
}

impl<R, const SIZE: usize> RecordBuffer<R, SIZE> {
    /// All of the bytes.
    pub fn as_bytes(&self) -> &[u8]
        ensures { result.now ≡ buffer_bytes self.now }
    {
        &self.bytes
    }

    /// The first `SIZE` bytes as they are, padding too, and the rest, which is the part of `bytes` that begins after
    /// them. Fewer bytes are refused with `TooShort`.
    pub fn read_from_prefix(bytes: &[u8]) -> Result<(RecordBuffer<R, SIZE>, &[u8]), DecodeError>
        ensures { TakesFront SIZE bytes.entry result }
    {
        if bytes.len() < SIZE {
            return Err(too_short(bytes.len(), SIZE));
        }
        let mut front = [0; SIZE];
        front.copy_from_slice(&bytes[..SIZE]);
        Ok((
            RecordBuffer {
                bytes: front,
                marker: PhantomData,
            },
            &bytes[SIZE..],
        ))
    }
}

impl<R: Exact, const SIZE: usize> Exact for RecordBuffer<R, SIZE> {
    ghost decides = { Prim.search rules };
}
