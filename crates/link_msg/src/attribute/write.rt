//! How an attribute is written: its kind, its length, and its bytes.

ghost use Rattle.std.specs.Prelude.{◌≡◌, length};

use crate::attribute::LinkAttribute;
use crate::view::View;
use link_vals::LinkExtentMask;
use nla_wire::{Nla, fill_bytes, nlas_buffer_len, nlas_fill};

impl Nla for LinkAttribute {
    ghost use Rattle.link_msg.specs.Tables.{attribute_frame, AttributeFits};

    ghost frame = { attribute_frame };

    ghost fits = { AttributeFits };

    ghost is_small = { λ x h. h.0 };

    fn kind(&self) -> u16 {
        self.view().0
    }

    fn fits(&self) -> bool {
        self.view().1.measure().is_some()
    }

    fn value_len(&self) -> usize {
        self.len()
    }

    #[tactic(auto, using(crate::proofs::Lengths::record_lengths))]
    fn fill_value(&self, buffer: &mut [u8]) -> usize {
        match self.view().1 {
            View::Flat(flat) => flat.fill(buffer),
            View::Id(id) => fill_bytes(buffer, &id.id[..id.len]),
            View::Stats(stats) => stats.fill(buffer),
            View::Stats64(stats) => stats.fill(buffer),
            View::Map(map) => map.fill(buffer),
            View::Mask(flags) => { fill_bytes(buffer, &LinkExtentMask::sum(flags).to_le_bytes()) }
            View::Event(event) => event.fill(buffer),
            View::Port(members) => nlas_fill(members, buffer),
            View::Infos(members) => nlas_fill(members, buffer),
            View::Functions(members) => nlas_fill(members, buffer),
            View::Ports(members) => nlas_fill(members, buffer),
            View::Xdps(members) => nlas_fill(members, buffer),
            View::Props(members) => nlas_fill(members, buffer),
            View::Reasons(members) => nlas_fill(members, buffer),
            View::DevlinkPorts(members) => nlas_fill(members, buffer),
            View::DpllPins(members) => nlas_fill(members, buffer),
            View::BridgeInfos(members) => nlas_fill(members, buffer),
            View::Inet6Infos(members) => nlas_fill(members, buffer),
            View::Bridges(members) => nlas_fill(members, buffer),
            View::Unspecs(members) => nlas_fill(members, buffer),
        }
    }

    #[inline(always)]
    fn measure(&self) -> Option<usize> {
        self.view().1.measure()
    }

    #[inline(always)]
    fn write(&self, buffer: &mut [u8]) -> usize {
        let (kind, view) = self.view();
        view.write(kind, buffer)
    }
}

impl LinkAttribute {
    ghost use Rattle.link_msg.specs.Tables.{attribute_frame, InsideFits};

    /// The length of its value.
    #[tactic(auto, using(crate::proofs::Lengths::record_lengths))]
    fn len(&self) -> usize
        requires { InsideFits self.now }
        ensures { result ≡ length (attribute_frame self.now).payload }
    {
        match self.view().1 {
            View::Flat(flat) => flat.len(),
            View::Mask(_) => 4,
            // for the proof: the length of the slice that is written, where `id.len` would do
            View::Id(id) => id.id[..id.len].len(),
            View::Stats(stats) => stats.buffer_len(),
            View::Stats64(stats) => stats.buffer_len(),
            View::Map(map) => map.buffer_len(),
            View::Event(event) => event.buffer_len(),
            View::Port(members) => nlas_buffer_len(members),
            View::Infos(members) => nlas_buffer_len(members),
            View::Functions(members) => nlas_buffer_len(members),
            View::Ports(members) => nlas_buffer_len(members),
            View::Xdps(members) => nlas_buffer_len(members),
            View::Props(members) => nlas_buffer_len(members),
            View::Reasons(members) => nlas_buffer_len(members),
            View::DevlinkPorts(members) => nlas_buffer_len(members),
            View::DpllPins(members) => nlas_buffer_len(members),
            View::BridgeInfos(members) => nlas_buffer_len(members),
            View::Inet6Infos(members) => nlas_buffer_len(members),
            View::Bridges(members) => nlas_buffer_len(members),
            View::Unspecs(members) => nlas_buffer_len(members),
        }
    }
}
