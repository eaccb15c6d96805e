//! What is written as an attribute: `Nla`, and slices of attributes.

ghost use Rattle.std.specs.Prelude.{◌≡◌, ◌+◌, ◌-◌, ◌<◌, ◌≤◌, ◌++◌, ◌↔◌, length, drop, IsTrue};
ghost use Rattle.nla_wire.specs.Sizes.{most_payload};
ghost use Rattle.nla_wire.specs.Frames.{Frame};
ghost use Rattle.nla_wire.specs.Canon.{canon, canons, AllFit, Measures, Filled, Writes};

use crate::buffer::NLA_HEADER_SIZE;
use crate::fill::close_frame;
use crate::write::{add_len, at_most_value, finish, padded_len};

/// A value that is written as an attribute.
///
/// The encoding of the value is the payload of its frame. The encoding of the attribute is the frame with its padding,
/// which is zeros: length and kind of two bytes each, the value, and zeros up to a multiple of four (rtnetlink(7)).
pub trait Nla {
    ghost frame: { Self → Frame };

    ghost fits: { Self → Type 0 };

    /// The kind: the number and both flag bits.
    fn kind(&self) -> u16
        ensures { result ≡ (frame self.now).kind };

    /// Whether the value's encoding has at most 65531 bytes, and all that is inside it fits.
    fn fits(&self) -> bool
        ensures { IsTrue result ↔ fits self.now };

    /// The length of the value's encoding, without header and padding.
    fn value_len(&self) -> usize
        requires { fits self.now }
        ensures { result ≡ length (frame self.now).payload };

    /// Fills the last bytes of the buffer with the value's encoding, and returns the place of its first byte. Earlier
    /// bytes are kept.
    fn fill_value(&self, buffer: &mut [u8]) -> usize
        requires fits { fits self.now }
        requires room { length (frame self.now).payload ≤ length buffer.old }
        ensures { Filled buffer.old buffer.new (frame self.now).payload result };

    /// The length of the value's encoding, as `value_len` returns it; `None` where the value does not fit. A type
    /// overrides it where one walk returns both.
    fn measure(&self) -> Option<usize>
        ensures { Measures (fits self.now) (length (frame self.now).payload) result }
    {
        if !self.fits() {
            return None;
        }
        Some(self.value_len())
    }

    /// Writes the attribute's encoding to the front of the buffer, and returns its length. The rest of the buffer is
    /// kept. A type overrides it where it writes front to back.
    fn write(&self, buffer: &mut [u8]) -> usize
        requires fits { fits self.now }
        requires room { length (canon (frame self.now)) ≤ length buffer.old }
        ensures { Writes (canon (frame self.now)) buffer.old buffer.new result }
    {
        let len = self.value_len();
        let _start = self.fill_value(&mut buffer[NLA_HEADER_SIZE..NLA_HEADER_SIZE + len]);
        finish(buffer, len, self.kind())
    }

    ghost is_small: { (x : Self) → fits x → length (frame x).payload ≤ most_payload };

    /// Writes the value's encoding into a buffer of exactly its length.
    final fn emit_value(&self, buffer: &mut [u8])
        requires fits { fits self.now }
        requires exact { length buffer.old ≡ length (frame self.now).payload }
        ensures { buffer.new ≡ (frame self.now).payload }
    {
        let _start = self.fill_value(buffer);
    }

    /// The length of the attribute's encoding, with header and padding.
    final fn buffer_len(&self) -> usize
        requires { fits self.now }
        ensures { result ≡ length (canon (frame self.now)) }
    {
        padded_len(self.value_len())
    }

    /// Fills the last bytes of the buffer with the attribute's encoding, and returns the place of its first byte.
    /// Earlier bytes are kept.
    final fn fill(&self, buffer: &mut [u8]) -> usize
        requires fits { fits self.now }
        requires room { length (canon (frame self.now)) ≤ length buffer.old }
        ensures { Filled buffer.old buffer.new (canon (frame self.now)) result }
    {
        let start = self.fill_value(buffer);
        close_frame(buffer, start, self.kind())
    }

    /// Writes the attribute's encoding to the front of the buffer, and keeps the rest.
    final fn emit(&self, buffer: &mut [u8])
        requires fits { fits self.now }
        requires room { length (canon (frame self.now)) ≤ length buffer.old }
        ensures { buffer.new
            ≡ canon (frame self.now) ++ drop (length (canon (frame self.now))) buffer.old }
    {
        let _len = self.write(buffer);
    }
}

/// The length of the encoding of the attributes, one after the other; `None` where one does not fit, or the length is
/// no `usize`. It is a function of its own for each type, whose loop has the registers.
#[inline(never)]
pub fn nlas_measure<N: Nla>(nlas: &[N]) -> Option<usize>
    ensures { Measures (AllFit N.fits N.frame nlas.now) (length (canons N.frame nlas.now)) result }
{
    let mut len: usize = 0;
    for nla in nlas {
        let Some(value) = nla.measure() else {
            return None;
        };
        let Some(more) = add_len(len, padded_len(value)) else {
            return None;
        };
        len = more;
    }
    Some(len)
}

/// The same where the encoding is to be the value of an attribute: `None` too where it has more than 65531 bytes.
pub fn list_measure<N: Nla>(nlas: &[N]) -> Option<usize>
    ensures { Measures ((length (canons N.frame nlas.now) ≤ most_payload)
        × AllFit N.fits N.frame nlas.now) (length (canons N.frame nlas.now)) result }
{
    let Some(len) = nlas_measure(nlas) else {
        return None;
    };
    at_most_value(len)
}

/// Whether each attribute fits, and the length of their encoding is a `usize`.
pub fn nlas_fit<N: Nla>(nlas: &[N]) -> bool
    ensures { IsTrue result ↔ AllFit N.fits N.frame nlas.now }
{
    nlas_measure(nlas).is_some()
}

/// The length of the encoding of the attributes, one after the other.
pub fn nlas_buffer_len<N: Nla>(nlas: &[N]) -> usize
    requires { AllFit N.fits N.frame nlas.now }
    ensures { result ≡ length (canons N.frame nlas.now) }
{
    let mut len = 0;
    for nla in nlas {
        len += nla.buffer_len();
    }
    len
}

/// Whether each attribute fits, and their encoding is one that the value of an attribute may have.
pub fn list_fits<N: Nla>(nlas: &[N]) -> bool
    ensures { IsTrue result
        ↔ ((length (canons N.frame nlas.now) ≤ most_payload) × AllFit N.fits N.frame nlas.now) }
{
    list_measure(nlas).is_some()
}

/// Writes the encodings of the attributes at the end of the buffer, the last attribute first, and returns where they
/// start. The bytes before are kept.
pub fn nlas_fill<N: Nla>(nlas: &[N], buffer: &mut [u8]) -> usize
    requires fit { AllFit N.fits N.frame nlas.now }
    requires room { length (canons N.frame nlas.now) ≤ length buffer.old }
    ensures { Filled buffer.old buffer.new (canons N.frame nlas.now) result }
{
    let mut start = buffer.len();
    let mut left = nlas.len();
    while left > 0 {
        left -= 1;
        start = nlas[left].fill(&mut buffer[..start]);
    }
    start
}

/// Writes the encodings of the attributes to the front of the buffer, one after the other, and returns their length.
/// The rest of the buffer is kept.
#[inline(never)]
pub fn nlas_write<N: Nla>(nlas: &[N], buffer: &mut [u8]) -> usize
    requires fit { AllFit N.fits N.frame nlas.now }
    requires room { length (canons N.frame nlas.now) ≤ length buffer.old }
    ensures { Writes (canons N.frame nlas.now) buffer.old buffer.new result }
{
    let mut at = 0;
    for nla in nlas {
        at += nla.write(&mut buffer[at..]);
    }
    at
}

/// Writes the attribute of this kind whose value is the encoding of the attributes to the front of the buffer, and
/// returns its length. The rest of the buffer is kept.
pub fn write_list<N: Nla>(kind: u16, nlas: &[N], buffer: &mut [u8]) -> usize
    requires small { length (canons N.frame nlas.now) ≤ most_payload }
    requires fit { AllFit N.fits N.frame nlas.now }
    requires room { length (canon (record { kind = kind; payload = canons N.frame nlas.now }))
        ≤ length buffer.old }
    ensures { Writes (canon (record { kind = kind; payload = canons N.frame nlas.now })) buffer.old
        buffer.new result }
{
    let len = nlas_write(nlas, &mut buffer[NLA_HEADER_SIZE..]);
    finish(buffer, len, kind)
}

/// Writes the encodings of the attributes to the front of the buffer, and keeps the rest.
pub fn emit_nlas<N: Nla>(nlas: &[N], buffer: &mut [u8])
    requires fit { AllFit N.fits N.frame nlas.now }
    requires room { length (canons N.frame nlas.now) ≤ length buffer.old }
    ensures { buffer.new
        ≡ canons N.frame nlas.now ++ drop (length (canons N.frame nlas.now)) buffer.old }
{
    let _len = nlas_write(nlas, buffer);
}
