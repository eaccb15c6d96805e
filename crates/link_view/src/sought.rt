//! Several numbers at once: of each the last frame in a list, found in one pass.

ghost use Rattle.std.specs.Prelude.{◌≡◌, None, drop, map, IfOk};
ghost use Rattle.nla_wire.specs.Frames.{number};
ghost use Rattle.nla_wire.specs.Gives.{without_place};
ghost use Rattle.nla_wire.specs.Items.{items};
ghost use Rattle.nla_wire.specs.Reading.{front, step};
ghost use Rattle.link_view.specs.Views.{latest, HasNumber};
ghost use Rattle.link_view.specs.Search.{found_at, cleared, kept, IsFound, AreFound};

use nla_wire::{DecodeError, NlaBuffer, nla_align};

/// A number that is looked for in a list, and how many bytes the list has from the start of the number's last frame on;
/// none where it has no frame of it.
#[derive(Clone, Copy, Debug)]
pub struct Sought {
    pub(crate) number: u16,
    left: usize,
}

impl Sought {
    /// A number that is not found yet.
    #[inline(always)]
    pub fn new(number: u16) -> Sought
        ensures { result ≡ record { number = number; left = 0 } }
    {
        Sought { number, left: 0 }
    }
}

/// Its number, found nowhere.
#[inline(always)]
fn cleared(sought: &Sought) -> Sought
    ensures { result ≡ cleared sought.now }
{
    Sought { left: 0, ..*sought }
}

/// Found where so many bytes are left, if the frame there has its number.
#[inline(always)]
fn kept(number: u16, left: usize, sought: &Sought) -> Sought
    ensures { result ≡ kept number left sought.now }
{
    if number != sought.number {
        return *sought;
    }
    Sought { left, ..*sought }
}

#[inline(always)]
fn clear(sought: &mut [Sought])
    ensures { sought.new ≡ map cleared sought.old }
{
    for place in sought.iter_mut() {
        *place = cleared(place);
    }
}

#[inline(always)]
fn keep(sought: &mut [Sought], number: u16, left: usize)
    ensures { sought.new ≡ map (kept number left) sought.old }
{
    for place in sought.iter_mut() {
        *place = kept(number, left, place);
    }
}

/// The bytes after so many.
#[inline(always)]
fn after(bytes: &[u8], len: usize) -> &[u8]
    ensures { result.now ≡ drop len bytes.now }
{
    if len < bytes.len() {
        &bytes[len..]
    } else {
        &[]
    }
}

/// The frame that bytes begin with, or why they begin with none.
#[inline(always)]
fn front_of(bytes: &[u8]) -> Result<NlaBuffer<'_>, DecodeError>
    ensures { without_place result ≡ front (step bytes.now) }
{
    NlaBuffer::new_checked(bytes)
}

/// The frame at which so many bytes are left, if any are.
#[inline(always)]
fn frame_at(list: &[u8], left: usize) -> Result<Option<NlaBuffer<'_>>, DecodeError>
    ensures { without_place result ≡ found_at list.now left }
{
    if left == 0 {
        return Ok(None);
    }
    match front_of(&list[list.len().saturating_sub(left)..]) {
        Ok(frame) => Ok(Some(frame)),
        Err(fault) => Err(fault),
    }
}

/// Finds the last frame of each of these numbers in a list of attributes; or the fault that ends the frames, wherever
/// that is. One number may be looked for several times.
#[inline(always)]
pub fn last_each(list: &[u8], sought: &mut [Sought]) -> Result<(), DecodeError>
    ensures { AreFound list.now sought.old sought.new result }
{
    clear(sought);
    let mut rest = list;
    while !rest.is_empty() {
        match front_of(rest) {
            Ok(frame) => {
                keep(sought, frame.kind(), rest.len());
                rest = after(rest, nla_align(frame.length() as usize));
            }
            Err(fault) => return Err(fault),
        }
    }
    Ok(())
}

/// The frame that `last_each` found: what `last_in` gives of its number.
#[inline(always)]
pub fn frame_of(list: &[u8], sought: Sought) -> Result<Option<NlaBuffer<'_>>, DecodeError>
    requires { IsFound list.now sought }
    ensures found { without_place result ≡ latest sought.number None (items list.now) }
    ensures numbered { IfOk result (λ found. HasNumber sought.number found) }
{
    frame_at(list, sought.left)
}
