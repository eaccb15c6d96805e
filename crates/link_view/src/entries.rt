//! Lists of entries over borrowed bytes: IFLA_VFINFO_LIST and IFLA_VF_PORTS. An entry is a list of attributes itself.

ghost use Rattle.std.specs.Prelude.{◌≡◌, List, Ok, Err};
ghost use Rattle.nla_wire.specs.Frames.{number};
ghost use Rattle.nla_wire.specs.Grammar.{picked, some_if_picked};
ghost use Rattle.nla_wire.specs.Items.{items};
ghost use Rattle.nla_wire.specs.declared.error.Cause.{Cause};
ghost use Rattle.link_view.specs.Told.{told, told_found, each_read, all_read, IsNext};
ghost use Rattle.link_view.specs.Entries.{owned_entry, picked_items, FaultAfter};

use link_vf::Entry;
use nla_wire::{DecodeError, NlaBuffer, NlasIterator, empty_list};

/// The payload of an entry, a list of attributes that is not looked at. Refuses the empty payload with `EmptyList`.
#[inline(always)]
fn read_entry<'a, E: Entry>(frame: NlaBuffer<'a>) -> Result<&'a [u8], DecodeError>
    ensures { told (λ p. owned_entry E.Entry.of E.Member.grammar p.now) result
        ≡ E.Entry.grammar.reads frame.entry }
{
    let payload = frame.value();
    if payload.is_empty() {
        return Err(empty_list().within(E::NAME));
    }
    Ok(payload)
}

/// Reads a frame of IFLA_VFINFO_LIST or IFLA_VF_PORTS (linux/if_link.h), whose number is given beside it: the payload
/// of an entry, a list of attributes; `None` where the number is another, which `parse` drops unread. Refuses the empty
/// payload with `EmptyList`. The attributes are not looked at: `parse` may refuse one.
#[inline(always)]
pub fn borrow_entry<'a, E: Entry>(
    kind: u16,
    frame: NlaBuffer<'a>,
) -> Result<Option<&'a [u8]>, DecodeError>
    requires { kind ≡ number frame }
    ensures { told_found (λ p. owned_entry E.Entry.of E.Member.grammar p.now) result
        ≡ (some_if_picked E.Entry.grammar).reads frame.entry }
{
    if kind != E::NUMBER {
        return Ok(None);
    }
    match read_entry::<E>(frame) {
        Ok(entry) => Ok(Some(entry)),
        Err(fault) => Err(fault),
    }
}

/// The frames of IFLA_VFINFO_LIST or IFLA_VF_PORTS (linux/if_link.h), for `next_entry`, which goes over exactly the
/// entries that `parse` gives, in order. Where `parse` refuses the list, its fault stands after the entries in front of
/// it: in the place of an entry, or in the attributes of one.
#[inline(always)]
pub fn entries_in<'a, E: Entry>(list: &'a [u8]) -> NlasIterator<'a>
    ensures frames { result ≡ items list.now }
    ensures parsed { (vs : List E) → (picked E.Entry.grammar).reads list.now ≡ Ok vs
        → each_read E.Entry.grammar.reads (picked_items result) ≡ all_read vs }
    ensures fault { (c : Cause) → (picked E.Entry.grammar).reads list.now ≡ Err c
        → FaultAfter c (each_read E.Entry.grammar.reads (picked_items result)) }
{
    NlasIterator::new(list)
}

/// The next entry of IFLA_VFINFO_LIST or IFLA_VF_PORTS (linux/if_link.h), front to back: its payload, a list of
/// attributes. Frames with another number are dropped unread; `None` after the last entry. Where a frame is damaged its
/// fault comes in its place, and that of an empty entry is `EmptyList`.
#[inline(always)]
pub fn next_entry<'a, E: Entry>(
    left: &mut NlasIterator<'a>,
) -> Option<Result<&'a [u8], DecodeError>>
    ensures { IsNext (λ p. owned_entry E.Entry.of E.Member.grammar p.now) E.Entry.grammar.reads
        (picked_items left.old) result (picked_items left.new) }
{
    while let Some(item) = left.next() {
        match item {
            Ok(frame) => {
                if frame.kind() == E::NUMBER {
                    return Some(read_entry::<E>(frame));
                }
            }
            Err(fault) => return Some(Err(fault)),
        }
    }
    None
}
