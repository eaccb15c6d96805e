//! Runs of VLANs of which the same is said.

ghost use Rattle.std.specs.Prelude.{◌≡◌, IfOk, option_map};
ghost use Rattle.nla_wire.specs.Items.{items};
ghost use Rattle.link_info.specs.Tables.{frames_in};
ghost use Rattle.link_vlans.specs.Runs.{id_at, is_range, runs_in, said};
ghost use Rattle.link_vlans.specs.Reading.{AreSmall, add, add_first, add_run, read_next};

use crate::vlan::{Vlan, vlan_by};
use nla_wire::{NlaBuffer, NlasIterator};
use std::alloc::{AllocError, Global};

/// What is said of a VLAN.
#[derive(Clone, Copy, Debug, PartialEq, Eq)]
pub struct Said {
    /// Its flags (`BRIDGE_VLAN_INFO_*`), without those of the ends of a range.
    pub flags: u16,
    /// How far the id of its tunnel is ahead of it, and 65,536 more, if it is a tunnel: the ids of a range go along
    /// with its VLANs.
    pub ahead: Option<u64>,
}

impl Said {
    /// The id of the tunnel of this VLAN, if it is one.
    pub fn id(self, vid: u16) -> Option<u64>
        ensures { result ≡ id_at vid self.ahead }
    {
        let ahead = self.ahead?;
        Some(ahead.saturating_add(vid.into()).saturating_sub(65536))
    }
}

/// VLANs of which the same is said, one behind the other.
#[derive(Clone, Copy, Drop)]
pub struct Run {
    /// The first VLAN.
    pub first: u16,
    /// The last VLAN.
    pub last: u16,
    /// What is said of each.
    pub said: Said,
}

/// The flag of the first VLAN of a range (`BRIDGE_VLAN_INFO_RANGE_BEGIN`).
const BEGIN: u16 = 8;

/// The flag of its last one (`BRIDGE_VLAN_INFO_RANGE_END`).
const END: u16 = 16;

/// What is said of a VLAN.
fn said_by(vlan: Vlan) -> Said
    ensures { result ≡ said vlan }
{
    let ahead = match vlan.id {
        Some(id) => Some(u64::from(id) + 65536 - u64::from(vlan.vid)),
        None => None,
    };
    Said {
        flags: vlan.flags & !(BEGIN | END),
        ahead,
    }
}

/// Whether a VLAN begins a range that another one ends, so that the same is said of both.
fn is_range(begin: Vlan, end: Vlan) -> bool
    ensures { result ≡ is_range begin end }
{
    end.flags & (BEGIN | END) == END && begin.vid < end.vid && said_by(begin) == said_by(end)
}

/// How far a list is read.
#[derive(Clone, Copy, Drop)]
pub(crate) struct Reader {
    /// The VLAN that begins a range whose end is still to come.
    pub begun: Option<Vlan>,
    /// The last VLAN before it.
    pub last: Option<u16>,
}

/// Reads a run that comes next, if it is above those before it: how far the list is read then, and the run.
fn add_run(last: Option<u16>, begin: Vlan, end: Vlan) -> Option<(Reader, Option<Run>)>
    ensures { result ≡ add_run last begin end }
{
    if let Some(last) = last {
        if begin.vid <= last {
            return None;
        }
    }
    let reader = Reader {
        begun: None,
        last: Some(end.vid),
    };
    let run = Run {
        first: begin.vid,
        last: end.vid,
        said: said_by(begin),
    };
    Some((reader, Some(run)))
}

/// Reads a VLAN where no range is begun: it stands alone, or begins one.
fn add_first(last: Option<u16>, vlan: Vlan) -> Option<(Reader, Option<Run>)>
    ensures { result ≡ add_first last vlan }
{
    match vlan.flags & (BEGIN | END) {
        0 => add_run(last, vlan, vlan),
        BEGIN => Some((
            Reader {
                begun: Some(vlan),
                last,
            },
            None,
        )),
        _ => None,
    }
}

/// Reads one more VLAN: how far the list is read then, and the run that ends with it. No kernel writes a list of which
/// there is none.
fn add(reader: Reader, vlan: Vlan) -> Option<(Reader, Option<Run>)>
    ensures { result ≡ add reader vlan }
{
    let Some(begin) = reader.begun else {
        return add_first(reader.last, vlan);
    };
    if !is_range(begin, vlan) {
        return None;
    }
    add_run(reader.last, begin, vlan)
}

/// Reads one more attribute of a list of the VLANs of a number, and keeps the run that ends with it.
fn read_next(
    runs: &mut Vec<Run>,
    reader: Reader,
    number: u16,
    frame: &NlaBuffer<'_>,
) -> Result<Option<Reader>, AllocError>
    ensures read { IfOk result (λ next.
        (next, runs.new.items) ≡ read_next runs.old.items reader number frame.now) }
    ensures small { IfOk result (λ next. AreSmall runs.old.items → AreSmall runs.new.items) }
{
    if frame.kind() != number {
        return Ok(Some(reader));
    }
    let Some(vlan) = vlan_by(number, frame.value()) else {
        return Ok(None);
    };
    match add(reader, vlan) {
        Some((next, Some(run))) => {
            runs.push(run)?;
            Ok(Some(next))
        }
        Some((next, None)) => Ok(Some(next)),
        None => Ok(None),
    }
}

/// The runs of the VLANs that the attributes of a number say, 2 for VLANs and 3 for tunnels, in the payload of
/// `IFLA_AF_SPEC` of a bridge port. None where no kernel writes such a list: VLANs ascend, and each that begins a range
/// is followed by its end, of which the same is said.
pub fn runs_in(alloc: Global, number: u16, bytes: &[u8]) -> Result<Option<Vec<Run>>, AllocError>
    ensures { IfOk result (λ runs. option_map (λ r. r.items) runs
        ≡ runs_in number (frames_in (items bytes.now))) }
{
    let mut runs = Vec::new(alloc);
    let mut reader = Reader {
        begun: None,
        last: None,
    };
    for item in NlasIterator::new(bytes) {
        let Ok(frame) = item else {
            break;
        };
        match read_next(&mut runs, reader, number, &frame)? {
            Some(next) => reader = next,
            None => return Ok(None),
        }
    }
    if reader.begun.is_some() {
        return Ok(None);
    }
    Ok(Some(runs))
}
