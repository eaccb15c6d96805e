//! Physical bindings of MCTP links.

ghost use Rattle.std.specs.Prelude.{◌≡◌, Some};
ghost use Rattle.link_vals.specs.MctpPhysBindingTable.{mctp_phys_binding_of, mctp_phys_binding_number};
ghost use Rattle.link_vals.specs.MctpPhysBindingTable.{mctp_phys_binding_text};

use nla_wire::Exact;
use std::fmt;

/// The physical binding of an MCTP link, one byte: the numbers that DSP0239 of DMTF assigns, as
/// `IFLA_MCTP_PHYS_BINDING` of linux/if_link.h carries them.
#[derive(Clone, Copy, Debug, PartialEq, Eq)]
pub enum MctpPhysBinding {
    /// SMBus, 1.
    Smbus,
    /// PCIe messages of a vendor, 2.
    PcieVdm,
    /// USB, 3.
    Usb,
    /// KCS, 4.
    Kcs,
    /// A serial line, 5.
    Serial,
    /// I3C, 6.
    I3c,
    /// MMBI, 7.
    Mmbi,
    /// PCC, 8.
    Pcc,
    /// UCIe, 9.
    Ucie,
    /// A vendor's own, 255.
    Vendor,
    /// A number without a name.
    Other(u8),
}

impl From<u8> for MctpPhysBinding {
    ghost from_gives = { λ n v. v ≡ mctp_phys_binding_of n };

    #[tactic(auto, unfolding(crate::proofs::Opened::mctp_phys_binding))]
    fn from(number: u8) -> MctpPhysBinding {
        match number {
            1 => MctpPhysBinding::Smbus,
            2 => MctpPhysBinding::PcieVdm,
            3 => MctpPhysBinding::Usb,
            4 => MctpPhysBinding::Kcs,
            5 => MctpPhysBinding::Serial,
            6 => MctpPhysBinding::I3c,
            7 => MctpPhysBinding::Mmbi,
            8 => MctpPhysBinding::Pcc,
            9 => MctpPhysBinding::Ucie,
            255 => MctpPhysBinding::Vendor,
            n => MctpPhysBinding::Other(n),
        }
    }
}

impl From<&MctpPhysBinding> for u8 {
    ghost from_gives = { λ v n. n ≡ mctp_phys_binding_number v.now };

    #[tactic(auto, unfolding(crate::specs::MctpPhysBindingTable::mctp_phys_binding_number))]
    fn from(value: &MctpPhysBinding) -> u8 {
        match value {
            MctpPhysBinding::Smbus => 1,
            MctpPhysBinding::PcieVdm => 2,
            MctpPhysBinding::Usb => 3,
            MctpPhysBinding::Kcs => 4,
            MctpPhysBinding::Serial => 5,
            MctpPhysBinding::I3c => 6,
            MctpPhysBinding::Mmbi => 7,
            MctpPhysBinding::Pcc => 8,
            MctpPhysBinding::Ucie => 9,
            MctpPhysBinding::Vendor => 255,
            MctpPhysBinding::Other(n) => *n,
        }
    }
}

impl fmt::Display for MctpPhysBinding {
    ghost output = { λ v. Some (mctp_phys_binding_text v) };

    #[tactic(auto, unfolding(crate::specs::MctpPhysBindingTable::mctp_phys_binding_text))]
    fn fmt<W: fmt::Write>(&self, f: &mut fmt::Formatter<W>) -> fmt::Result {
        match self {
            MctpPhysBinding::Smbus => f.write_str("SMBus"),
            MctpPhysBinding::PcieVdm => f.write_str("PCIe VDM"),
            MctpPhysBinding::Usb => f.write_str("USB"),
            MctpPhysBinding::Kcs => f.write_str("KCS"),
            MctpPhysBinding::Serial => f.write_str("Serial"),
            MctpPhysBinding::I3c => f.write_str("I3C"),
            MctpPhysBinding::Mmbi => f.write_str("MMBI"),
            MctpPhysBinding::Pcc => f.write_str("PCC"),
            MctpPhysBinding::Ucie => f.write_str("UCIE"),
            MctpPhysBinding::Vendor => f.write_str("Vendor"),
            MctpPhysBinding::Other(n) => write!(f, "other({n})"),
        }
    }
}

impl Exact for MctpPhysBinding {
    ghost use Rattle.std.proofs.Common.{rules};

    ghost decides = { Prim.search rules };
}
