//! The names of hardware types of links.

ghost use Rattle.std.specs.Prelude.{◌≡◌, Some};
ghost use Rattle.link_vals.specs.LinkLayerTypeTable.{layer_type_text};

use super::LinkLayerType;
use std::fmt;

impl LinkLayerType {
    #[tactic(auto, unfolding(crate::specs::LinkLayerTypeTable::layer_type_text))]
    fn name(self) -> &'static str
        ensures { result.now ≡ layer_type_text self }
    {
        match self {
            LinkLayerType::Netrom => "NETROM",
            LinkLayerType::Ether => "ETHER",
            LinkLayerType::Eether => "EETHER",
            LinkLayerType::Ax25 => "AX25",
            LinkLayerType::Pronet => "PRONET",
            LinkLayerType::Chaos => "CHAOS",
            LinkLayerType::Ieee802 => "IEEE802",
            LinkLayerType::Arcnet => "ARCNET",
            LinkLayerType::Appletlk => "APPLETLK",
            LinkLayerType::Dlci => "DLCI",
            LinkLayerType::Atm => "ATM",
            LinkLayerType::Metricom => "METRICOM",
            LinkLayerType::Ieee1394 => "IEEE1394",
            LinkLayerType::Eui64 => "EUI64",
            LinkLayerType::Infiniband => "INFINIBAND",
            LinkLayerType::Slip => "SLIP",
            LinkLayerType::Cslip => "CSLIP",
            LinkLayerType::Slip6 => "SLIP6",
            LinkLayerType::Cslip6 => "CSLIP6",
            LinkLayerType::Rsrvd => "RSRVD",
            LinkLayerType::Adapt => "ADAPT",
            LinkLayerType::Rose => "ROSE",
            LinkLayerType::X25 => "X25",
            LinkLayerType::Hwx25 => "HWX25",
            LinkLayerType::Can => "CAN",
            LinkLayerType::Mctp => "MCTP",
            LinkLayerType::Ppp => "PPP",
            LinkLayerType::Hdlc => "HDLC",
            LinkLayerType::Lapb => "LAPB",
            LinkLayerType::Ddcmp => "DDCMP",
            LinkLayerType::Rawhdlc => "RAWHDLC",
            LinkLayerType::Rawip => "RAWIP",
            LinkLayerType::Tunnel => "TUNNEL",
            LinkLayerType::Tunnel6 => "TUNNEL6",
            LinkLayerType::Frad => "FRAD",
            LinkLayerType::Skip => "SKIP",
            LinkLayerType::Loopback => "LOOPBACK",
            LinkLayerType::Localtlk => "LOCALTLK",
            LinkLayerType::Fddi => "FDDI",
            LinkLayerType::Bif => "BIF",
            LinkLayerType::Sit => "SIT",
            LinkLayerType::Ipddp => "IPDDP",
            LinkLayerType::Ipgre => "IPGRE",
            LinkLayerType::Pimreg => "PIMREG",
            LinkLayerType::Hippi => "HIPPI",
            LinkLayerType::Ash => "ASH",
            LinkLayerType::Econet => "ECONET",
            LinkLayerType::Irda => "IRDA",
            LinkLayerType::Fcpp => "FCPP",
            LinkLayerType::Fcal => "FCAL",
            LinkLayerType::Fcpl => "FCPL",
            LinkLayerType::Fcfabric => "FCFABRIC",
            LinkLayerType::Ieee802Tr => "IEEE802_TR",
            LinkLayerType::Ieee80211 => "IEEE80211",
            LinkLayerType::Ieee80211Prism => "IEEE80211_PRISM",
            LinkLayerType::Ieee80211Radiotap => "IEEE80211_RADIOTAP",
            LinkLayerType::Ieee802154 => "IEEE802154",
            LinkLayerType::Ieee802154Monitor => "IEEE802154_MONITOR",
            LinkLayerType::Phonet => "PHONET",
            LinkLayerType::PhonetPipe => "PHONET_PIPE",
            LinkLayerType::Caif => "CAIF",
            LinkLayerType::Ip6gre => "IP6GRE",
            LinkLayerType::Netlink => "NETLINK",
            LinkLayerType::Sixlowpan => "6LOWPAN",
            LinkLayerType::Vsockmon => "VSOCKMON",
            LinkLayerType::None => "NONE",
            LinkLayerType::Void => "VOID",
        }
    }
}

impl fmt::Display for LinkLayerType {
    ghost output = { λ v. Some (layer_type_text v) };

    fn fmt<W: fmt::Write>(&self, f: &mut fmt::Formatter<W>) -> fmt::Result {
        f.write_str(self.name())
    }
}
