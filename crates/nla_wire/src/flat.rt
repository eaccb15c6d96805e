//! Enums of attributes whose values hold no others: one `view` of a value, and `Nla` from it.

ghost use Rattle.std.specs.Prelude.{◌≡◌, ◌≤◌, length};
ghost use Rattle.nla_wire.specs.Sizes.{most_payload};
ghost use Rattle.nla_wire.specs.Frames.{Frame};
ghost use Rattle.nla_wire.specs.Canon.{canon, Filled, Writes};
ghost use Rattle.nla_wire.specs.FlatViews.{flat_bytes};

use crate::fill::{fill_bytes, fill_text};
use crate::nla::Nla;
use crate::write::{
    MOST_VALUE_LEN, at_most_value, write_i32, write_text, write_u8, write_u16, write_u32,
    write_u64, write_value,
};

/// What the value of an attribute is written from. Numbers are written lowest byte first.
#[derive(Clone, Copy)]
pub enum FlatView<'a> {
    /// Bytes, written as they are.
    Bytes(&'a [u8]),
    /// A text, written with one NUL after it.
    Text(&'a str),
    /// A number of one byte.
    U8(u8),
    /// A number of two bytes.
    U16(u16),
    /// A number of four bytes.
    U32(u32),
    /// A number of eight bytes.
    U64(u64),
    /// A signed number of four bytes, in two's complement.
    I32(i32),
}

impl FlatView<'_> {
    /// The length of the encoding: of a `Text` with its NUL.
    #[inline]
    pub fn len(&self) -> usize
        ensures { result ≡ length (flat_bytes self.now) }
    {
        match self {
            FlatView::Bytes(bytes) => bytes.len(),
            FlatView::Text(text) => text.len() + 1,
            FlatView::U8(_) => 1,
            FlatView::U16(_) => 2,
            FlatView::U32(_) => 4,
            FlatView::U64(_) => 8,
            FlatView::I32(_) => 4,
        }
    }

    /// Fills the last bytes of the buffer with the encoding, and returns the place of its first byte. Earlier bytes are
    /// kept.
    #[inline]
    pub fn fill(&self, buffer: &mut [u8]) -> usize
        requires { length (flat_bytes self.now) ≤ length buffer.old }
        ensures { Filled buffer.old buffer.new (flat_bytes self.now) result }
    {
        match self {
            FlatView::Bytes(bytes) => fill_bytes(buffer, bytes),
            FlatView::Text(text) => fill_text(buffer, text),
            FlatView::U8(n) => fill_bytes(buffer, &[*n]),
            FlatView::U16(n) => fill_bytes(buffer, &n.to_le_bytes()),
            FlatView::U32(n) => fill_bytes(buffer, &n.to_le_bytes()),
            FlatView::U64(n) => fill_bytes(buffer, &n.to_le_bytes()),
            FlatView::I32(n) => fill_bytes(buffer, &n.to_le_bytes()),
        }
    }

    /// Writes the attribute of this kind with the encoding as its value to the front of the buffer, and returns its
    /// length. The rest of the buffer is kept.
    #[inline(always)]
    pub fn write(&self, kind: u16, buffer: &mut [u8]) -> usize
        requires small { length (flat_bytes self.now) ≤ most_payload }
        requires room { length (canon (record { kind = kind; payload = flat_bytes self.now }))
            ≤ length buffer.old }
        ensures { Writes (canon (record { kind = kind; payload = flat_bytes self.now }))
            buffer.old buffer.new result }
    {
        match self {
            FlatView::Bytes(bytes) => write_value(kind, bytes, buffer),
            FlatView::Text(text) => write_text(kind, text.as_bytes(), buffer),
            FlatView::U8(n) => write_u8(kind, *n, buffer),
            FlatView::U16(n) => write_u16(kind, *n, buffer),
            FlatView::U32(n) => write_u32(kind, *n, buffer),
            FlatView::U64(n) => write_u64(kind, *n, buffer),
            FlatView::I32(n) => write_i32(kind, *n, buffer),
        }
    }
}

/// A value that is written as an attribute, and holds no others. Such a value is an `Nla`.
pub trait Flat {
    ghost frame: { Self → Frame };

    ghost fits: { Self → Type 0 };

    /// The kind, which is the number and both flag bits, and what the value is written from.
    fn view(&self) -> (u16, FlatView<'_>)
        ensures kind { result.0 ≡ (frame self.now).kind }
        ensures payload { flat_bytes result.1 ≡ (frame self.now).payload };

    ghost is_small: { (x : Self) → fits x → length (frame x).payload ≤ most_payload };

    ghost when_small: { (x : Self) → length (frame x).payload ≤ most_payload → fits x };
}

impl<T: Flat> Nla for T {
    ghost frame = { T.frame };

    ghost fits = { T.fits };

    ghost is_small = { T.is_small };

    #[inline]
    fn kind(&self) -> u16 {
        self.view().0
    }

    #[inline]
    fn fits(&self) -> bool {
        self.view().1.len() <= MOST_VALUE_LEN
    }

    #[inline]
    fn value_len(&self) -> usize {
        self.view().1.len()
    }

    #[inline]
    fn fill_value(&self, buffer: &mut [u8]) -> usize {
        self.view().1.fill(buffer)
    }

    #[inline(always)]
    fn measure(&self) -> Option<usize> {
        at_most_value(self.view().1.len())
    }

    #[inline(always)]
    fn write(&self, buffer: &mut [u8]) -> usize {
        let (kind, view) = self.view();
        view.write(kind, buffer)
    }
}
