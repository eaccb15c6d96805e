//! Forms: how payloads and lists are shown.

ghost use Rattle.std.specs.Prelude.{◌≡◌};
ghost use Rattle.link_info.specs.Rows.{AreAllRows};
ghost use Rattle.frame_shown.specs.Plain.{IsPlain};
ghost use Rattle.frame_shown.specs.Tables.{entry_list, group_name, manner_way};

pub use crate::apart::{is_kept, is_listed};
pub use crate::row::{data_rows, name_in, row_in};
use link_info::tables::can::CAN_STATS;
use link_info::{Member, Place, Row as PlaceRow, Size, Style};

/// How the payload of an attribute is shown.
#[derive(Clone, Copy, Drop)]
pub enum Form {
    /// As it is, among the others: nothing is known of it but, where it has one, its name.
    Kept,
    /// The same, and the flags of its frame are not shown.
    Unflagged,
    /// A number; missing bytes are zeros.
    Number(Size),
    /// A number that has just this size; a payload of another size is kept as it is.
    Exact(Size),
    /// One byte: 0 is shown as 0, and any other number as 1.
    Truth,
    /// A number of four bytes that may be below zero.
    Signed,
    /// A text, with or without one NUL at its end. Bytes that are none are shown as digits.
    Text,
    /// Bytes, of which the first 32 are shown.
    Id,
    /// A hardware address of any length.
    Address,
    /// One byte that has a name.
    Choice(Choice),
    /// Four bytes whose bits have names.
    Flags(Bits),
    /// Counters, numbers of one size; missing ones are zeros.
    Counters(Words),
    /// The counters of IPv6: with names where their order is known.
    Ipv6Counters,
    /// Settings, numbers of four bytes that may be below zero; missing ones are zeros.
    Settings(Settings),
    /// An IPv6 address.
    Ipv6,
    /// A record.
    Record(Record),
    /// A field of a record that stands alone.
    Field(Field),
    /// A wireless event.
    Wireless,
    /// A list of attributes.
    List(List),
    /// The kind of a link, and its data by that kind.
    Info,
}

/// Numbers that have names, of one byte where nothing else is said.
#[derive(Clone, Copy, Drop)]
pub enum Choice {
    /// `IFLA_OPERSTATE`.
    OperState,
    /// `IFLA_LINKMODE`.
    LinkMode,
    /// `IFLA_INET6_ADDR_GEN_MODE`.
    GenMode,
    /// `IFLA_XDP_ATTACHED`.
    Attached,
    /// `IFLA_EVENT`, of four bytes.
    Event,
    /// `IFLA_MCTP_PHYS_BINDING`.
    Binding,
}

/// A field of a record.
#[derive(Clone, Copy, Drop)]
pub enum Field {
    /// A number.
    Number(Size),
    /// A setting of four bytes: 0 where it is off or a driver does not say, and else 1.
    Setting,
    /// The state of a function's link, of four bytes.
    LinkState,
    /// The protocol of a vlan, of two bytes, the highest first.
    Protocol,
    /// A hardware address in 32 bytes.
    Address,
}

/// Bits that have names.
#[derive(Clone, Copy, Drop)]
pub enum Bits {
    /// `IFLA_EXT_MASK`.
    ExtMask,
    /// `IFLA_INET6_FLAGS`.
    Inet6,
}

/// Counters that have names.
#[derive(Clone, Copy, Drop)]
pub enum Words {
    /// `IFLA_STATS`, of four bytes.
    Stats,
    /// `IFLA_STATS64`, of eight bytes.
    Stats64,
    /// `IFLA_INET6_ICMP6STATS`, of eight bytes.
    Icmp6,
}

/// Settings that have names.
#[derive(Clone, Copy, Drop)]
pub enum Settings {
    /// `IFLA_INET_CONF`.
    Inet,
    /// `IFLA_INET6_CONF`.
    Inet6,
    /// `IFLA_INET6_CACHEINFO`.
    Cache,
}

/// Records.
#[derive(Clone, Copy, Drop)]
pub enum Record {
    /// `IFLA_MAP`.
    Map,
    /// `IFLA_VF_MAC`.
    VfMac,
    /// `IFLA_VF_VLAN`.
    VfVlan,
    /// `IFLA_VF_TX_RATE`.
    VfTxRate,
    /// A function and a setting.
    VfSetting,
    /// `IFLA_VF_LINK_STATE`.
    VfLinkState,
    /// `IFLA_VF_RATE`.
    VfRate,
    /// `IFLA_VF_IB_NODE_GUID` and `IFLA_VF_IB_PORT_GUID`.
    VfGuid,
    /// `IFLA_VF_VLAN_INFO`.
    VfVlanInfo,
}

/// How a list of attributes is shown.
#[derive(Clone, Copy, Drop)]
pub enum List {
    /// The attributes of a link, by the header's family.
    Message(u8),
    /// An object: each by its row, whose place is its number.
    Own(Table),
    /// An object in which all that have a row stand in one list under a name.
    Listed(Group, Table),
    /// A list under a name of the objects in the attributes of number 1; others are left out.
    Entries(Group),
    /// An object, by the rows of a place of link data.
    Of(Place),
    /// `IFLA_PROTINFO` of IPv6: by the rows of its place, but for three records.
    ProtoInet6,
    /// The kind of a link, and its data: by the places of both kinds.
    Info(Option<Place>, Option<Place>),
    /// Attributes of a link that are refused: the bytes of each under the kernel's name.
    Refused,
}

/// The names of lists.
#[derive(Clone, Copy, Drop)]
pub enum Group {
    /// `alt-ifname`.
    AltIfname,
    /// `info`.
    Info,
    /// `port`.
    Port,
}

impl Group {
    /// The name.
    pub fn name(self) -> &'static str
        ensures { result.now ≡ group_name self }
    {
        match self {
            Group::AltIfname => "alt-ifname",
            Group::Info => "info",
            Group::Port => "port",
        }
    }

    /// How each entry of such a list is shown.
    pub fn entry(self) -> List
        ensures { result ≡ entry_list self }
    {
        match self {
            Group::AltIfname => List::Own(Table::Props),
            Group::Info => List::Own(Table::Function),
            Group::Port => List::Of(Place::Port),
        }
    }
}

/// The tables of this crate.
#[derive(Clone, Copy, Drop)]
pub enum Table {
    /// `IFLA_AF_SPEC` without a family.
    Families,
    /// AF_INET in it.
    Inet,
    /// AF_INET6 in it.
    Inet6,
    /// AF_MCTP in it.
    Mctp,
    /// `IFLA_XDP`.
    Xdp,
    /// `IFLA_PROP_LIST`.
    Props,
    /// `IFLA_DEVLINK_PORT`.
    DevlinkPort,
    /// `IFLA_DPLL_PIN`.
    DpllPin,
    /// `IFLA_PROTO_DOWN_REASON`.
    DownReason,
    /// `IFLA_VF_INFO`.
    Function,
    /// `IFLA_VF_STATS`.
    FunctionStats,
    /// `IFLA_VF_VLAN_LIST`.
    FunctionVlans,
}

/// How a payload is shown that a row is known of.
#[derive(Clone, Copy, Drop)]
pub enum Way {
    /// By a row of this crate.
    Own(Form),
    /// By a style of link data.
    By(Style),
}

/// A name, and how a payload is shown.
pub type Known = (&'static str, Way);

/// How a payload is shown that a row is known of, as it stands in a table: no row is copied.
#[derive(Clone, Copy, Drop)]
pub enum Manner {
    /// By a row of this crate.
    Own(&'static Form),
    /// By a style of link data.
    By(&'static Style),
    /// The data of a kind of link, by the rows of its place.
    Nest(Place),
    /// The counters that a kind of link has beside its data.
    Counters(&'static [Member]),
    /// Its bytes as they are.
    Bytes,
}

/// A name, and how a payload is shown, as both stand in a table.
pub type Found = (&'static str, Manner);

/// Which order the counters of IPv6 have. It changed between Linux 6.12 and 6.16, and no message says which one it has.
#[derive(Clone, Copy, Debug, PartialEq, Eq)]
pub enum Order {
    /// It is not known: the counters have no names.
    Unknown,
    /// As up to Linux 6.12.
    Before,
    /// As since Linux 6.16.
    Since,
}

/// What frames are shown by, beside their tables.
#[derive(Clone, Copy, Drop)]
pub struct Around<'a> {
    /// The rows of all places of link data.
    pub tables: &'a [&'static [PlaceRow]],
    /// The counters of a CAN interface.
    pub can_stats: &'static [Member],
    /// The order of the counters of IPv6.
    pub order: Order,
    /// How many bytes the link's own address has.
    pub address_len: usize,
}

impl<'a> Around<'a> {
    /// What messages are plainly shown by: the rows of all places, and an order of the counters of IPv6.
    pub fn plain(tables: &'a [&'static [PlaceRow]], order: Order) -> Around<'a>
        requires { AreAllRows tables.now }
        ensures { IsPlain order result }
    {
        Around {
            tables,
            can_stats: CAN_STATS,
            order,
            address_len: 0,
        }
    }
}

impl Manner {
    /// The same by value.
    pub fn way(self) -> Way
        ensures { result ≡ manner_way self }
    {
        match self {
            Manner::Own(form) => Way::Own(*form),
            Manner::By(style) => Way::By(*style),
            Manner::Nest(place) => Way::By(Style::Nest(place)),
            Manner::Counters(members) => Way::By(Style::Record(members)),
            Manner::Bytes => Way::By(Style::Bytes),
        }
    }
}
