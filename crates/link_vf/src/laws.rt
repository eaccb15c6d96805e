//! Laws of the lists of virtual functions and ports, each the contract of a function that does nothing.
//!
//! Of each place: what was read from some frame there, if it fits, is read again from its canonical frame; so are the
//! values of a list. A list's payload has at least four bytes for each value, those inside of others
//! among them. Its canonical encoding has at most `plain_growth` bytes for each whole four bytes of the
//! payload. A frame that no line of the table reads is kept: its kind, both flag bits and its payload come back.
//! The only frames that are not kept are those with other numbers in IFLA_VFINFO_LIST and in IFLA_VF_PORTS, which are
//! dropped.

ghost use Rattle.std.specs.Prelude.{◌≡◌, ◌*◌, [], ◌∷◌, length, true};
ghost use Rattle.nla_wire.specs.Sizes.{plain_growth, growth_per_byte};
ghost use Rattle.nla_wire.specs.Grammar.{picked};
ghost use Rattle.nla_wire.specs.Canon.{canon, canons, AllFit, RoomWhereFit};
ghost use Rattle.nla_wire.specs.PlaceLaws.{ReadsBack, ListReadsBack, ListsBounded};
ghost use Rattle.nla_wire.proofs.Codec.{IsLawful};
ghost use Rattle.link_vf.specs.Tables.{vf_stats_place, vf_vlan_place, vf_info_place, vf_port_place};
ghost use Rattle.link_vf.specs.Entries.{entry};
ghost use Rattle.link_vf.specs.Dropped.{OthersDropped};
ghost use Rattle.link_vf.specs.declared.stats.VfStats.TheVariants as stats;
ghost use Rattle.link_vf.specs.declared.vf_info.VfInfo.TheVariants as info;

use crate::entry::{Entry, EntryPlace};
use nla_wire::laws::{law_members_room, law_some_room};

/// `VfStats`, members of IFLA_VF_STATS.
pub fn law_vf_stats()
    ensures { IsLawful plain_growth 0 vf_stats_place }
{}

/// `VfVlan`, members of IFLA_VF_VLAN_LIST.
pub fn law_vf_vlan()
    ensures { IsLawful plain_growth 0 vf_vlan_place }
{}

/// `VfInfo`, members of IFLA_VF_INFO.
pub fn law_vf_info()
    ensures { IsLawful plain_growth 0 vf_info_place }
{}

/// `VfPort`, members of IFLA_VF_PORT and of IFLA_PORT_SELF.
pub fn law_vf_port()
    ensures { IsLawful plain_growth 0 vf_port_place }
{}

/// `LinkVfInfo`, entries of IFLA_VFINFO_LIST, and `LinkVfPort`, entries of IFLA_VF_PORTS, which have the number of
/// IFLA_VF_INFO and of IFLA_VF_PORT. Frames of other numbers are dropped: they can be anywhere in the list, and it
/// means the same. All other places keep what no line reads.
pub fn law_entries<E: Entry>()
    ensures member { ReadsBack E.Entry.grammar.means E.frame E.fits }
    ensures again { ListReadsBack (picked E.Entry.grammar).means E.frame E.fits }
    ensures bounds { ListsBounded plain_growth 0 (picked E.Entry.grammar).means E.Entry.count
        E.frame }
    ensures dropped { OthersDropped (picked E.Entry.grammar) }
{}

/// `growth_per_byte` bytes of buffer for each byte of an entry's payload, and of a list of entries, are room for the
/// canonical encoding.
pub fn law_entries_room<E: Entry>(payload: &[u8])
    ensures entry { RoomWhereFit (λ v. canons E.Member.frame (E.Entry.members v))
        (λ v. AllFit E.Member.fits E.Member.frame (E.Entry.members v))
        ((entry E.Entry.of E.Member.grammar).reads payload.now)
        (growth_per_byte * length payload.now) }
    ensures entries { RoomWhereFit (canons E.frame) (AllFit E.fits E.frame)
        ((picked E.Entry.grammar).reads payload.now) (growth_per_byte * length payload.now) }
{
    law_some_room::<E::Member>(payload);
    law_members_room::<E, EntryPlace>(&EntryPlace, payload);
}

/// One packet received is written as the length 12, the number 0, and eight bytes, lowest first.
#[tactic(auto, unfolding(crate::specs::Tables::vf_stats_place))]
pub fn law_rx_packets_in_bytes()
    ensures { canon (vf_stats_place.frame (stats.RxPackets 1))
        ≡ 0x0c ∷ 0x00 ∷ 0x00 ∷ 0x00 ∷ 0x01 ∷ 0x00 ∷ 0x00 ∷ 0x00 ∷ 0x00 ∷ 0x00 ∷ 0x00 ∷ 0x00 ∷ [] }
{}

/// That function 2 is trusted is written as the length 12, the number 9, and the function and the setting, four bytes
/// each, lowest first.
#[tactic(auto, unfolding(crate::specs::Tables::vf_info_place, link_vfrec::specs::Records::vf_info_trust_bytes))]
pub fn law_trust_in_bytes()
    ensures { canon (vf_info_place.frame (info.Trust (record { vf_id = 2; enabled = true })))
        ≡ 0x0c ∷ 0x00 ∷ 0x09 ∷ 0x00 ∷ 0x02 ∷ 0x00 ∷ 0x00 ∷ 0x00 ∷ 0x01 ∷ 0x00 ∷ 0x00 ∷ 0x00 ∷ [] }
{}
