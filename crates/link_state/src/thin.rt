//! Settings by family without those of which nothing moves by itself.

ghost use Rattle.std.specs.Prelude.{◌≡◌, ◌+◌, ◌≤◌, ◌<◌, ◌^◌, ◌++◌, length, take, drop};
ghost use Rattle.link_state.specs.Table.{action_of};
ghost use Rattle.link_state.specs.Thinned.{wrapped, left_of, thinned};
ghost use Rattle.link_state.specs.declared.level.Level.{Level};
ghost use Rattle.link_state.specs.declared.level.Level.TheVariants.{Families, Inet6};

use crate::walk::after;
use link_afspec::numbers::{
    AF_INET6, IFLA_INET6_CACHEINFO, IFLA_INET6_ICMP6STATS, IFLA_INET6_STATS,
};
use nla_wire::fields::put_u16;
use nla_wire::number::to_u16;
use nla_wire::{NLA_HEADER_SIZE, NlaBuffer};

/// What a list is of: it says what is left of its attributes.
trait Thinned {
    ghost level: { Level };

    /// Moves what is left of an attribute of this number, with a payload of this length, to the front of its bytes, and
    /// returns how many bytes it takes up.
    fn thin_frame(number: u16, len: usize, frame: &mut [u8]) -> usize
        requires inside { 4 + len ≤ length frame.old }
        requires small { 4 + len < 2 ^ 16 }
        ensures within { result ≤ length frame.old }
        ensures left { take result frame.new
            ≡ left_of thinned (action_of level number) (take len (drop 4 frame.old)) frame.old };
}

/// `Level::Families`.
struct OfFamilies;

impl Thinned for OfFamilies {
    ghost level = { Families };

    #[inline(always)]
    fn thin_frame(number: u16, len: usize, frame: &mut [u8]) -> usize {
        match number {
            AF_INET6 => thin_wrapped::<OfInet6>(len, frame),
            _ => 0,
        }
    }
}

/// `Level::Inet6`.
struct OfInet6;

impl Thinned for OfInet6 {
    ghost level = { Inet6 };

    #[inline(always)]
    fn thin_frame(number: u16, _len: usize, frame: &mut [u8]) -> usize {
        match number {
            IFLA_INET6_STATS => frame.len(),
            IFLA_INET6_CACHEINFO => frame.len(),
            IFLA_INET6_ICMP6STATS => frame.len(),
            _ => 0,
        }
    }
}

/// Thins the list that a frame holds, and moves the frame's end to it; nothing is left of an empty one.
fn thin_wrapped<L: Thinned>(len: usize, frame: &mut [u8]) -> usize
    requires inside { 4 + len ≤ length frame.old }
    requires small { 4 + len < 2 ^ 16 }
    ensures within { result ≤ length frame.old }
    ensures left { take result frame.new
        ≡ wrapped (take 2 (drop 2 frame.old)) (thinned L.level (take len (drop 4 frame.old))) }
{
    let left = thin_list::<L>(&mut frame[NLA_HEADER_SIZE..NLA_HEADER_SIZE + len]);
    if left == 0 {
        return 0;
    }
    put_u16(frame, 0, to_u16(NLA_HEADER_SIZE + left));
    NLA_HEADER_SIZE + left
}

/// Moves what is left of the attribute at this place to another place in front of it, and returns where the next
/// attribute starts and how many bytes were moved.
fn thin_at<L: Thinned>(list: &mut [u8], at: usize, to: usize) -> (usize, usize)
    requires inside { at < length list.old }
    requires front { to ≤ at }
    ensures further { at < result.0 }
    ensures within { result.0 ≤ length list.old }
    ensures behind { to + result.1 ≤ result.0 }
    ensures so_far { take (to + result.1) list.new ++ thinned L.level (drop result.0 list.new)
        ≡ take to list.old ++ thinned L.level (drop at list.old) }
{
    let Ok(frame) = NlaBuffer::new_checked(&list[at..]) else {
        let left = list.len() - at;
        list.copy_within(at.., to);
        return (list.len(), left);
    };
    let len = frame.value().len();
    let number = frame.kind();
    let next = after(list.len(), at, len);
    let left = L::thin_frame(number, len, &mut list[at..next]);
    list.copy_within(at..at + left, to);
    (next, left)
}

/// Moves what is left of a list to its front, and returns how many bytes that takes up.
fn thin_list<L: Thinned>(list: &mut [u8]) -> usize
    ensures within { result ≤ length list.old }
    ensures left { take result list.new ≡ thinned L.level list.old }
{
    let mut at = 0;
    let mut to = 0;
    while at < list.len() {
        let (next, left) = thin_at::<L>(list, at, to);
        at = next;
        to += left;
    }
    to
}

/// Leaves out of a list at `Level::Families` all attributes but those of `AF_INET6`, in these all of which the state
/// encoding clears nothing, and each in which nothing is left. Returns how many bytes are left: they stand in front.
///
/// What stands after a fault of the frames is left as it is.
pub fn thin_families(list: &mut [u8]) -> usize
    ensures within { result ≤ length list.old }
    ensures left { take result list.new ≡ thinned Families list.old }
{
    thin_list::<OfFamilies>(list)
}

/// Leaves out of a list at `Level::Inet6` all attributes of which the state encoding clears nothing. Returns how many
/// bytes are left: they stand in front.
///
/// What stands after a fault of the frames is left as it is.
pub fn thin_inet6(list: &mut [u8]) -> usize
    ensures within { result ≤ length list.old }
    ensures left { take result list.new ≡ thinned Inet6 list.old }
{
    thin_list::<OfInet6>(list)
}
