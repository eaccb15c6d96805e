//! Laws of the variants `VfInfoList` and `VfPorts`, whose entries `next_entry` goes over: each is the contract of a
//! function that does nothing.

ghost use Rattle.std.specs.Prelude.{◌≡◌, ◌<◌, List, Ok, Err, length};
ghost use Rattle.nla_wire.specs.Items.{items};
ghost use Rattle.nla_wire.specs.declared.error.Cause.{Cause};
ghost use Rattle.link_vf.specs.Tables.{link_vf_info_place, link_vf_port_place};
ghost use Rattle.link_vf.specs.declared.vf_list.LinkVfInfo.{LinkVfInfo};
ghost use Rattle.link_vf.specs.declared.port_list.LinkVfPort.{LinkVfPort};
ghost use Rattle.link_msg.specs.declared.attribute.LinkAttribute.TheVariants as Attributes;
ghost use Rattle.link_view.specs.Told.{each_read, all_read};
ghost use Rattle.link_view.specs.Entries.{picked_items, FaultAfter};
ghost use Rattle.link_view.specs.Borrowed.{owned};
ghost use Rattle.link_view.specs.declared.borrowed.BorrowedAttribute.TheVariants as Borrowed;

/// The entries of a list of virtual functions are exactly those of the variant that `parse` gives, in order; where it
/// refuses the list, its fault stands after the entries in front of it.
pub fn law_functions(list: &[u8])
    ensures parsed { (vs : List LinkVfInfo)
        → owned (Borrowed.VfInfoList list.entry) ≡ Ok (Attributes.VfInfoList vs)
        → each_read link_vf_info_place.grammar.reads (picked_items (items list.now)) ≡ all_read vs }
    ensures fault { (c : Cause) → owned (Borrowed.VfInfoList list.entry) ≡ Err c
        → FaultAfter c
        (each_read link_vf_info_place.grammar.reads (picked_items (items list.now))) }
{}

/// The same of a list of ports; the empty list is refused before it has entries.
pub fn law_ports(list: &[u8])
    ensures parsed { (vs : List LinkVfPort)
        → owned (Borrowed.VfPorts list.entry) ≡ Ok (Attributes.VfPorts vs)
        → each_read link_vf_port_place.grammar.reads (picked_items (items list.now)) ≡ all_read vs }
    ensures fault { (c : Cause) → 0 < length list.now → owned (Borrowed.VfPorts list.entry) ≡ Err c
        → FaultAfter c
        (each_read link_vf_port_place.grammar.reads (picked_items (items list.now))) }
{}
