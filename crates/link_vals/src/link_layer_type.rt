//! Hardware types of links.

ghost use Rattle.std.specs.Prelude.{◌≡◌};
ghost use Rattle.link_vals.specs.Table.{value_of};
ghost use Rattle.link_vals.specs.declared.link_layer_type.LinkLayerType.TheVariants.{Void};
ghost use Rattle.link_vals.specs.LinkLayerTypeTable.{layer_type_of, layer_type_number};
ghost use Rattle.link_vals.specs.LinkLayerTypeTable.{layer_type_listed_high};

mod names;

use nla_wire::Exact;

/// The hardware type of a link: the numbers `ARPHRD_..` of linux/if_arp.h, two bytes in host order.
///
/// A number that is not listed becomes `Void`.
#[derive(Clone, Copy, Debug, Default, PartialEq, Eq)]
pub enum LinkLayerType {
    /// `ARPHRD_NETROM`.
    #[default]
    Netrom,
    /// `ARPHRD_ETHER`.
    Ether,
    /// `ARPHRD_EETHER`.
    Eether,
    /// `ARPHRD_AX25`.
    Ax25,
    /// `ARPHRD_PRONET`.
    Pronet,
    /// `ARPHRD_CHAOS`.
    Chaos,
    /// `ARPHRD_IEEE802`.
    Ieee802,
    /// `ARPHRD_ARCNET`.
    Arcnet,
    /// `ARPHRD_APPLETLK`.
    Appletlk,
    /// `ARPHRD_DLCI`.
    Dlci,
    /// `ARPHRD_ATM`.
    Atm,
    /// `ARPHRD_METRICOM`.
    Metricom,
    /// `ARPHRD_IEEE1394`.
    Ieee1394,
    /// `ARPHRD_EUI64`.
    Eui64,
    /// `ARPHRD_INFINIBAND`.
    Infiniband,
    /// `ARPHRD_SLIP`.
    Slip,
    /// `ARPHRD_CSLIP`.
    Cslip,
    /// `ARPHRD_SLIP6`.
    Slip6,
    /// `ARPHRD_CSLIP6`.
    Cslip6,
    /// `ARPHRD_RSRVD`.
    Rsrvd,
    /// `ARPHRD_ADAPT`.
    Adapt,
    /// `ARPHRD_ROSE`.
    Rose,
    /// `ARPHRD_X25`.
    X25,
    /// `ARPHRD_HWX25`.
    Hwx25,
    /// `ARPHRD_CAN`.
    Can,
    /// `ARPHRD_MCTP`.
    Mctp,
    /// `ARPHRD_PPP`.
    Ppp,
    /// `ARPHRD_HDLC`.
    Hdlc,
    /// `ARPHRD_LAPB`.
    Lapb,
    /// `ARPHRD_DDCMP`.
    Ddcmp,
    /// `ARPHRD_RAWHDLC`.
    Rawhdlc,
    /// `ARPHRD_RAWIP`.
    Rawip,
    /// `ARPHRD_TUNNEL`.
    Tunnel,
    /// `ARPHRD_TUNNEL6`.
    Tunnel6,
    /// `ARPHRD_FRAD`.
    Frad,
    /// `ARPHRD_SKIP`.
    Skip,
    /// `ARPHRD_LOOPBACK`.
    Loopback,
    /// `ARPHRD_LOCALTLK`.
    Localtlk,
    /// `ARPHRD_FDDI`.
    Fddi,
    /// `ARPHRD_BIF`.
    Bif,
    /// `ARPHRD_SIT`.
    Sit,
    /// `ARPHRD_IPDDP`.
    Ipddp,
    /// `ARPHRD_IPGRE`.
    Ipgre,
    /// `ARPHRD_PIMREG`.
    Pimreg,
    /// `ARPHRD_HIPPI`.
    Hippi,
    /// `ARPHRD_ASH`.
    Ash,
    /// `ARPHRD_ECONET`.
    Econet,
    /// `ARPHRD_IRDA`.
    Irda,
    /// `ARPHRD_FCPP`.
    Fcpp,
    /// `ARPHRD_FCAL`.
    Fcal,
    /// `ARPHRD_FCPL`.
    Fcpl,
    /// `ARPHRD_FCFABRIC`.
    Fcfabric,
    /// `ARPHRD_IEEE802_TR`.
    Ieee802Tr,
    /// `ARPHRD_IEEE80211`.
    Ieee80211,
    /// `ARPHRD_IEEE80211_PRISM`.
    Ieee80211Prism,
    /// `ARPHRD_IEEE80211_RADIOTAP`.
    Ieee80211Radiotap,
    /// `ARPHRD_IEEE802154`.
    Ieee802154,
    /// `ARPHRD_IEEE802154_MONITOR`.
    Ieee802154Monitor,
    /// `ARPHRD_PHONET`.
    Phonet,
    /// `ARPHRD_PHONET_PIPE`.
    PhonetPipe,
    /// `ARPHRD_CAIF`.
    Caif,
    /// `ARPHRD_IP6GRE`.
    Ip6gre,
    /// `ARPHRD_NETLINK`.
    Netlink,
    /// `ARPHRD_6LOWPAN`.
    Sixlowpan,
    /// `ARPHRD_VSOCKMON`.
    Vsockmon,
    /// `ARPHRD_NONE`.
    None,
    /// `ARPHRD_VOID`.
    Void,
}

/// The value of a number from 512 on.
#[tactic(auto, unfolding(crate::proofs::Opened::layer_type))]
fn high(number: u16) -> LinkLayerType
    ensures { result ≡ value_of layer_type_number layer_type_listed_high Void number }
{
    match number {
        512 => LinkLayerType::Ppp,
        513 => LinkLayerType::Hdlc,
        516 => LinkLayerType::Lapb,
        517 => LinkLayerType::Ddcmp,
        518 => LinkLayerType::Rawhdlc,
        519 => LinkLayerType::Rawip,
        768 => LinkLayerType::Tunnel,
        769 => LinkLayerType::Tunnel6,
        770 => LinkLayerType::Frad,
        771 => LinkLayerType::Skip,
        772 => LinkLayerType::Loopback,
        773 => LinkLayerType::Localtlk,
        774 => LinkLayerType::Fddi,
        775 => LinkLayerType::Bif,
        776 => LinkLayerType::Sit,
        777 => LinkLayerType::Ipddp,
        778 => LinkLayerType::Ipgre,
        779 => LinkLayerType::Pimreg,
        780 => LinkLayerType::Hippi,
        781 => LinkLayerType::Ash,
        782 => LinkLayerType::Econet,
        783 => LinkLayerType::Irda,
        784 => LinkLayerType::Fcpp,
        785 => LinkLayerType::Fcal,
        786 => LinkLayerType::Fcpl,
        787 => LinkLayerType::Fcfabric,
        800 => LinkLayerType::Ieee802Tr,
        801 => LinkLayerType::Ieee80211,
        802 => LinkLayerType::Ieee80211Prism,
        803 => LinkLayerType::Ieee80211Radiotap,
        804 => LinkLayerType::Ieee802154,
        805 => LinkLayerType::Ieee802154Monitor,
        820 => LinkLayerType::Phonet,
        821 => LinkLayerType::PhonetPipe,
        822 => LinkLayerType::Caif,
        823 => LinkLayerType::Ip6gre,
        824 => LinkLayerType::Netlink,
        825 => LinkLayerType::Sixlowpan,
        826 => LinkLayerType::Vsockmon,
        65534 => LinkLayerType::None,
        65535 => LinkLayerType::Void,
        _ => LinkLayerType::Void,
    }
}

impl From<u16> for LinkLayerType {
    ghost from_gives = { λ n v. v ≡ layer_type_of n };

    #[tactic(auto, unfolding(crate::proofs::Opened::layer_type))]
    #[inline(always)]
    fn from(number: u16) -> LinkLayerType {
        match number {
            0 => LinkLayerType::Netrom,
            1 => LinkLayerType::Ether,
            2 => LinkLayerType::Eether,
            3 => LinkLayerType::Ax25,
            4 => LinkLayerType::Pronet,
            5 => LinkLayerType::Chaos,
            6 => LinkLayerType::Ieee802,
            7 => LinkLayerType::Arcnet,
            8 => LinkLayerType::Appletlk,
            15 => LinkLayerType::Dlci,
            19 => LinkLayerType::Atm,
            23 => LinkLayerType::Metricom,
            24 => LinkLayerType::Ieee1394,
            27 => LinkLayerType::Eui64,
            32 => LinkLayerType::Infiniband,
            256 => LinkLayerType::Slip,
            257 => LinkLayerType::Cslip,
            258 => LinkLayerType::Slip6,
            259 => LinkLayerType::Cslip6,
            260 => LinkLayerType::Rsrvd,
            264 => LinkLayerType::Adapt,
            270 => LinkLayerType::Rose,
            271 => LinkLayerType::X25,
            272 => LinkLayerType::Hwx25,
            280 => LinkLayerType::Can,
            290 => LinkLayerType::Mctp,
            n => high(n),
        }
    }
}

impl From<LinkLayerType> for u16 {
    ghost from_gives = { λ v n. n ≡ layer_type_number v };

    #[tactic(auto, unfolding(crate::specs::LinkLayerTypeTable::layer_type_number))]
    #[inline(always)]
    fn from(value: LinkLayerType) -> u16 {
        match value {
            LinkLayerType::Netrom => 0,
            LinkLayerType::Ether => 1,
            LinkLayerType::Eether => 2,
            LinkLayerType::Ax25 => 3,
            LinkLayerType::Pronet => 4,
            LinkLayerType::Chaos => 5,
            LinkLayerType::Ieee802 => 6,
            LinkLayerType::Arcnet => 7,
            LinkLayerType::Appletlk => 8,
            LinkLayerType::Dlci => 15,
            LinkLayerType::Atm => 19,
            LinkLayerType::Metricom => 23,
            LinkLayerType::Ieee1394 => 24,
            LinkLayerType::Eui64 => 27,
            LinkLayerType::Infiniband => 32,
            LinkLayerType::Slip => 256,
            LinkLayerType::Cslip => 257,
            LinkLayerType::Slip6 => 258,
            LinkLayerType::Cslip6 => 259,
            LinkLayerType::Rsrvd => 260,
            LinkLayerType::Adapt => 264,
            LinkLayerType::Rose => 270,
            LinkLayerType::X25 => 271,
            LinkLayerType::Hwx25 => 272,
            LinkLayerType::Can => 280,
            LinkLayerType::Mctp => 290,
            LinkLayerType::Ppp => 512,
            LinkLayerType::Hdlc => 513,
            LinkLayerType::Lapb => 516,
            LinkLayerType::Ddcmp => 517,
            LinkLayerType::Rawhdlc => 518,
            LinkLayerType::Rawip => 519,
            LinkLayerType::Tunnel => 768,
            LinkLayerType::Tunnel6 => 769,
            LinkLayerType::Frad => 770,
            LinkLayerType::Skip => 771,
            LinkLayerType::Loopback => 772,
            LinkLayerType::Localtlk => 773,
            LinkLayerType::Fddi => 774,
            LinkLayerType::Bif => 775,
            LinkLayerType::Sit => 776,
            LinkLayerType::Ipddp => 777,
            LinkLayerType::Ipgre => 778,
            LinkLayerType::Pimreg => 779,
            LinkLayerType::Hippi => 780,
            LinkLayerType::Ash => 781,
            LinkLayerType::Econet => 782,
            LinkLayerType::Irda => 783,
            LinkLayerType::Fcpp => 784,
            LinkLayerType::Fcal => 785,
            LinkLayerType::Fcpl => 786,
            LinkLayerType::Fcfabric => 787,
            LinkLayerType::Ieee802Tr => 800,
            LinkLayerType::Ieee80211 => 801,
            LinkLayerType::Ieee80211Prism => 802,
            LinkLayerType::Ieee80211Radiotap => 803,
            LinkLayerType::Ieee802154 => 804,
            LinkLayerType::Ieee802154Monitor => 805,
            LinkLayerType::Phonet => 820,
            LinkLayerType::PhonetPipe => 821,
            LinkLayerType::Caif => 822,
            LinkLayerType::Ip6gre => 823,
            LinkLayerType::Netlink => 824,
            LinkLayerType::Sixlowpan => 825,
            LinkLayerType::Vsockmon => 826,
            LinkLayerType::None => 65534,
            LinkLayerType::Void => 65535,
        }
    }
}

impl LinkLayerType {
    /// Cisco's HDLC, another name of `Hdlc`.
    pub const Cisco: LinkLayerType = LinkLayerType::Hdlc;
}

impl Exact for LinkLayerType {
    ghost use Rattle.std.proofs.Common.{rules};
    ghost use denote.Enum.Bare.{same_true, true_same};
    ghost use Rattle.link_vals.specs.contracts.link_layer_type.LinkLayerType.{the_type};

    ghost decides = { λ x y. (
      λ h. same_true the_type (Prim.search rules) x y h,
      λ e. true_same the_type x y e,
    ) };
}
