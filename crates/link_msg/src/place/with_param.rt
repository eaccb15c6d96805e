//! The calls that take the header's family: for an attribute, and for a list of attributes.

ghost use Rattle.std.specs.Prelude.{◌≡◌, ◌≢◌, ◌*◌, ◌≤◌, length, IfOk, IfErr, MatchResult};
ghost use Rattle.nla_wire.specs.Grammar.{list};
ghost use Rattle.nla_wire.specs.Canon.{canon, canons, AllFit, RoomWhereFit, Canonical, MeansEncoding};
ghost use Rattle.nla_wire.specs.Gives.{Fails, Gives, Checks};
ghost use Rattle.nla_wire.specs.declared.error.Cause.TheVariants.{OutOfMemory};

use crate::attribute::LinkAttribute;
use crate::place::{AttributePlace, is_empty_ports};
use crate::prefix::copied_prefix;
use link_vals::AddressFamily;
use nla_wire::{
    DecodeError, NlaBuffer, NlasIterator, add_len, check_members, check_one, measure_members,
    padded_len, parse_members, parse_one, write_members,
};
use std::alloc::Global;

impl LinkAttribute {
    ghost use Rattle.link_msg.specs.Tables.{attribute_place, attribute_frame, AttributeFits, Values};
    ghost use Rattle.link_msg.specs.Canonical.{ListWeighs, ListMeasures};

    /// Reads a frame under the header's family: the number selects the variant, whatever the flag bits of the kind.
    ///
    /// Refuses with the cause of the first fault of the payload; or with `OutOfMemory`, which says nothing of the
    /// bytes.
    pub fn parse_with_param(
        alloc: Global,
        buffer: &NlaBuffer<'_>,
        family: AddressFamily,
    ) -> Result<LinkAttribute, DecodeError>
        ensures found { IfOk result ((attribute_place family).means buffer.now) }
        ensures fault { IfErr result
            (λ e. e.cause ≢ OutOfMemory → (attribute_place family).bad buffer.now e.cause) }
        ensures refused { IfErr result (λ e. e.cause ≢ OutOfMemory → (v : LinkAttribute)
            → (attribute_place family).means buffer.now v → ⊥) }
        ensures reads { Gives result ((attribute_place family).reads buffer.now) }
    {
        buffer.is_frame();
        parse_one(&AttributePlace { family }, alloc, buffer)
    }

    /// Whether a frame is read under the header's family: refuses what `parse_with_param` refuses, with the same cause.
    /// It takes no memory, and so never returns `OutOfMemory`.
    pub fn check_with_param(
        buffer: &NlaBuffer<'_>,
        family: AddressFamily,
    ) -> Result<(), DecodeError>
        ensures found { IfOk result
            (λ _. (v : LinkAttribute) × (attribute_place family).means buffer.now v) }
        ensures fault { IfErr result (λ e. (attribute_place family).bad buffer.now e.cause) }
        ensures refused { IfErr result
            (λ e. (v : LinkAttribute) → (attribute_place family).means buffer.now v → ⊥) }
        ensures memory { IfErr result (λ e. e.cause ≢ OutOfMemory) }
        ensures reads { Checks result ((attribute_place family).reads buffer.now) }
    {
        buffer.is_frame();
        check_one(&AttributePlace { family }, buffer)
    }

    /// Writes the canonical encoding of the value that a frame has under the header's family to the front of the
    /// buffer, with no memory, and returns its length. The rest of the buffer is kept.
    ///
    /// There is room for that encoding: `growth_per_byte` bytes for each byte of header and payload are enough. Returns
    /// `None` where the value does not fit or the frame is refused, and changes nothing then.
    pub fn canon_with_param(
        buffer: &NlaBuffer<'_>,
        family: AddressFamily,
        out: &mut [u8],
    ) -> Option<usize>
        requires room { RoomWhereFit (λ v. canon (attribute_frame v)) AttributeFits
            ((attribute_place family).reads buffer.now) (length out.old) }
        ensures means { MeansEncoding ((attribute_place family).means buffer.now)
            (λ v. canon (attribute_frame v)) AttributeFits out.old out.new result }
        ensures reads { Canonical (λ v. canon (attribute_frame v)) AttributeFits
            ((attribute_place family).reads buffer.now) out.old out.new result }
    {
        buffer.is_frame();
        let Some(_len) = LinkAttribute::measure_frame(buffer, family) else {
            return None;
        };
        Some(LinkAttribute::write_frame(buffer, family, out))
    }

    /// Reads a list of attributes under the header's family. The empty payload is the empty list.
    ///
    /// Refuses with the cause of the fault that is met first, front to back, each value before the next frame; or with
    /// `OutOfMemory`.
    pub fn parse_list_with_param(
        alloc: Global,
        bytes: &[u8],
        family: AddressFamily,
    ) -> Result<Vec<LinkAttribute>, DecodeError>
        ensures found { IfOk result (λ v. (list (attribute_place family)).means bytes.now v.items) }
        ensures fault { IfErr result
            (λ e. e.cause ≢ OutOfMemory → (list (attribute_place family)).bad bytes.now e.cause) }
        ensures refused { IfErr result (λ e. e.cause ≢ OutOfMemory → (vs : Values)
            → (list (attribute_place family)).means bytes.now vs → ⊥) }
        ensures reads { MatchResult result (λ v. (list (attribute_place family)).reads bytes.now
            ≡ Ok v.items) (λ e. Fails e.cause ((list (attribute_place family)).reads bytes.now)) }
        ensures few { IfOk result (λ v. 4 * length v.items ≤ length bytes.now) }
    {
        parse_members(&AttributePlace { family }, alloc, bytes)
    }

    /// Whether the bytes are a list of attributes under the header's family, and the first fault if not. It takes no
    /// memory.
    pub fn check_list_with_param(bytes: &[u8], family: AddressFamily) -> Result<(), DecodeError>
        ensures found { IfOk result
            (λ _. (vs : Values) × (list (attribute_place family)).means bytes.now vs) }
        ensures fault { IfErr result (λ e. (list (attribute_place family)).bad bytes.now e.cause) }
        ensures refused { IfErr result
            (λ e. (vs : Values) → (list (attribute_place family)).means bytes.now vs → ⊥) }
        ensures memory { IfErr result (λ e. e.cause ≢ OutOfMemory) }
        ensures reads { Checks result ((list (attribute_place family)).reads bytes.now) }
    {
        check_members(&AttributePlace { family }, bytes)
    }

    /// Writes the canonical encoding of a list of attributes under the header's family to the front of the buffer, with
    /// no memory, and returns its length. The rest of the buffer is kept.
    ///
    /// There is room for that encoding: `growth_per_byte` bytes for each byte of the list are enough. Returns `None`
    /// where an attribute does not fit or the list is refused, and changes nothing then.
    pub fn canon_list_with_param(
        bytes: &[u8],
        family: AddressFamily,
        out: &mut [u8],
    ) -> Option<usize>
        requires room { RoomWhereFit (canons attribute_frame) (AllFit AttributeFits attribute_frame)
            ((list (attribute_place family)).reads bytes.now) (length out.old) }
        ensures means { MeansEncoding ((list (attribute_place family)).means bytes.now)
            (canons attribute_frame) (AllFit AttributeFits attribute_frame)
            out.old out.new result }
        ensures reads { Canonical (canons attribute_frame) (AllFit AttributeFits attribute_frame)
            ((list (attribute_place family)).reads bytes.now) out.old out.new result }
    {
        let Some(_len) = measure_members(&AttributePlace { family }, bytes) else {
            return None;
        };
        Some(write_members(&AttributePlace { family }, bytes, out))
    }

    /// The length of the canonical encoding of a list of attributes under the header's family, and whether an empty
    /// list of ports is among them, with no memory; `None` where one does not fit, or the list is refused.
    ///
    /// A list of ports has an encoding of no bytes exactly where it is empty, so that the same walk tells it.
    fn measure_with_ports(bytes: &[u8], family: AddressFamily) -> Option<(usize, bool)>
        ensures { ListWeighs ((list (attribute_place family)).reads bytes.now) result }
    {
        let mut len: usize = 0;
        let mut empty = false;
        for item in NlasIterator::new(bytes) {
            let Ok(frame) = item else {
                return None;
            };
            let Some(value) = LinkAttribute::measure_frame(&frame, family) else {
                return None;
            };
            let Some(more) = add_len(len, padded_len(value)) else {
                return None;
            };
            if is_empty_ports(&frame, value) {
                empty = true;
            }
            len = more;
        }
        Some((len, empty))
    }

    /// The same of a whole list, and how many bytes in front are canonical as they are spelled: these are looked at
    /// first, and only what stands after them is measured.
    pub(crate) fn measure_list_with_param(
        bytes: &[u8],
        family: AddressFamily,
    ) -> Option<(usize, bool, usize)>
        ensures { ListMeasures family bytes.now result }
    {
        let prefix = copied_prefix(bytes, family);
        let Some((after, empty)) = LinkAttribute::measure_with_ports(&bytes[prefix..], family)
        else {
            return None;
        };
        let Some(len) = add_len(prefix, after) else {
            return None;
        };
        Some((len, empty, prefix))
    }
}
