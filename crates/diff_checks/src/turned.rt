//! What differs from a message of a kernel where one byte is another.

use crate::messages::{BRIDGE, CARD, PORT, bytes_of};
use crate::told::{list_of, text_of};
use message_diff::Compared;
use std::alloc::Global;
use std::process::Abort;
use std::test::Fail;

/// The message, the place of the byte and its bits that are turned, what is compared, and the list that is told, in
/// pieces.
type Turn = (
    &'static [&'static str],
    usize,
    u8,
    Compared,
    &'static [&'static str],
);

/// Messages of kernels of which some bits of one byte are turned.
const TURNS: [Turn; 34] = [
    (
        &PORT,
        2,
        1,
        Compared::State,
        &[r#"[{"path":"ifi-type","old":1,"new":0}]"#],
    ),
    (
        &PORT,
        18,
        1,
        Compared::State,
        &[r#"[{"path":"ifname","old":"s1"},{"path":"repeated.0.broadcast","new":"73:31:00"}]"#],
    ),
    (
        &PORT,
        178,
        1,
        Compared::LenientState,
        &[
            r#"[{"path":"num-rx-queues","old":1},"#,
            r#"{"path":"refused.ifla_carrier","new":"01000000"}]"#,
        ],
    ),
    (
        &PORT,
        196,
        1,
        Compared::State,
        &[r#"[{"path":"carrier","old":1,"new":0}]"#],
    ),
    (
        &PORT,
        202,
        165,
        Compared::Message,
        &[
            r#"[{"path":"carrier-changes","old":0},{"path":"other[number=134]","#,
            r#""new":{"number":134,"flags":[],"payload":"00000000"}}]"#,
        ],
    ),
    (
        &PORT,
        276,
        1,
        Compared::Message,
        &[r#"[{"path":"stats64.rx-bytes","old":0,"new":1}]"#],
    ),
    (&PORT, 276, 1, Compared::State, &[]),
    (
        &PORT,
        568,
        1,
        Compared::State,
        &[r#"[{"path":"xdp.attached","old":"none","new":"drv"}]"#],
    ),
    (
        &PORT,
        608,
        1,
        Compared::State,
        &[r#"[{"path":"linkinfo.slave-data.state","old":"backup","new":"active"}]"#],
    ),
    (
        &PORT,
        650,
        1,
        Compared::State,
        &[
            r#"[{"path":"linkinfo.slave-data.prio","old":0},"#,
            r#"{"path":"linkinfo.slave-data.ad-partner-oper-port-state","new":"00000000"}]"#,
        ],
    ),
    (
        &PORT,
        658,
        165,
        Compared::State,
        &[
            r#"[{"path":"qdisc","old":"noqueue"},{"path":"other[number=163]","#,
            r#""new":{"number":163,"flags":[],"payload":"6e6f717565756500"}}]"#,
        ],
    ),
    (
        &PORT,
        688,
        1,
        Compared::State,
        &[r#"[{"path":"af-spec.inet.conf.proxy-arp","old":0,"new":1}]"#],
    ),
    (
        &PORT,
        848,
        1,
        Compared::State,
        &[r#"[{"path":"af-spec.inet6.conf.forwarding","old":0,"new":1}]"#],
    ),
    (
        &PORT,
        1108,
        1,
        Compared::State,
        &[r#"[{"path":"af-spec.inet6.addr-gen-mode","old":"eui64","new":"none"}]"#],
    ),
    (
        &PORT,
        1132,
        1,
        Compared::State,
        &[r#"[{"path":"map.base-addr","old":0,"new":1}]"#],
    ),
    (
        &PORT,
        1148,
        1,
        Compared::LenientState,
        &[
            r#"[{"path":"devlink-port","old":{}},{"path":"dpll-pin","old":{}},"#,
            r#"{"path":"refused.ifla_devlink_port","new":"04"}]"#,
        ],
    ),
    (
        &CARD,
        8,
        1,
        Compared::State,
        &[
            r#"[{"path":"ifi-flags","old":["up","broadcast","running","multicast","lower-up"],"#,
            r#""new":["broadcast","running","multicast","lower-up"]}]"#,
        ],
    ),
    (
        &CARD,
        46,
        1,
        Compared::State,
        &[
            r#"[{"path":"operstate","old":"up","new":"unknown"},"#,
            r#"{"path":"linkmode","old":"default"},{"path":"repeated.0.operstate","new":"up"}]"#,
        ],
    ),
    (
        &CARD,
        168,
        1,
        Compared::Message,
        &[
            r#"[{"path":"vfinfo-list.info[vf=0].broadcast","old":"ff:ff:ff:ff:ff:ff","#,
            r#""new":"fe:ff:ff:ff:ff:ff"}]"#,
        ],
    ),
    (
        &CARD,
        220,
        1,
        Compared::State,
        &[r#"[{"path":"vfinfo-list.info[vf=0].rate.vf","old":0,"new":1}]"#],
    ),
    (
        &CARD,
        264,
        1,
        Compared::State,
        &[
            r#"[{"path":"vfinfo-list.info[vf=0].link-state.link-state","old":"auto","new":"enable"}]"#,
        ],
    ),
    (
        &CARD,
        128,
        2,
        Compared::State,
        &[
            r#"[{"path":"vfinfo-list.info[vf=0]","old":{"mac":{"vf":0,"mac":"02:aa:bb:cc:dd:02"},"#,
            r#""vlan":{"vf":0,"vlan":300,"qos":5},"rate":{"vf":0,"min-tx-rate":0,"max-tx-rate":0},"#,
            r#""tx-rate":{"vf":0,"rate":0},"spoofchk":{"vf":0,"setting":0},"link-state":{"vf":0,"link-state":"auto"},"#,
            r#""rss-query-en":{"vf":0,"setting":0},"trust":{"vf":0,"setting":0},"#,
            r#""ib-node-guid":{"vf":0,"guid":1234605616436508552},"ib-port-guid":{"vf":0,"guid":0},"#,
            r#""vlan-list":{"info":[{"vf":0,"vlan":300,"qos":5,"vlan-proto":"8021q"}]}}},"#,
            r#"{"path":"vfinfo-list.info[vf=2]","new":{"mac":{"vf":2,"mac":"02:aa:bb:cc:dd:02"},"#,
            r#""vlan":{"vf":0,"vlan":300,"qos":5},"rate":{"vf":0,"min-tx-rate":0,"max-tx-rate":0},"#,
            r#""tx-rate":{"vf":0,"rate":0},"spoofchk":{"vf":0,"setting":0},"link-state":{"vf":0,"link-state":"auto"},"#,
            r#""rss-query-en":{"vf":0,"setting":0},"trust":{"vf":0,"setting":0},"#,
            r#""ib-node-guid":{"vf":0,"guid":1234605616436508552},"ib-port-guid":{"vf":0,"guid":0},"#,
            r#""vlan-list":{"info":[{"vf":0,"vlan":300,"qos":5,"vlan-proto":"8021q"}]}}}]"#,
        ],
    ),
    (
        &CARD,
        588,
        1,
        Compared::State,
        &[
            r#"[{"path":"vfinfo-list.info[vf=1].vlan-list.info.0.vlan-proto","old":"8021ad","#,
            r#""new":"8021q"}]"#,
        ],
    ),
    (
        &BRIDGE,
        12,
        1,
        Compared::Message,
        &[r#"[{"path":"ifi-change","old":0,"new":1}]"#],
    ),
    (
        &BRIDGE,
        20,
        165,
        Compared::LenientState,
        &[r#"[{"path":"ifname","old":"vx3"},{"path":"refused.ifla_ifname","new":"d3783300"}]"#],
    ),
    (
        &BRIDGE,
        66,
        1,
        Compared::State,
        &[
            r#"[{"path":"protinfo.state","old":"disabled"},"#,
            r#"{"path":"protinfo.other[number=0]","#,
            r#""new":{"number":0,"flags":[],"payload":"00"}}]"#,
        ],
    ),
    (
        &BRIDGE,
        122,
        1,
        Compared::State,
        &[
            r#"[{"path":"protinfo.mcast-to-ucast","old":0},"#,
            r#"{"path":"protinfo.repeated.0.vlan-tunnel","new":0}]"#,
        ],
    ),
    (
        &BRIDGE,
        180,
        1,
        Compared::State,
        &[r#"[{"path":"protinfo.root-id.prio","old":32768,"new":33024}]"#],
    ),
    (
        &BRIDGE,
        194,
        1,
        Compared::State,
        &[
            r#"[{"path":"protinfo.bridge-id.addr","old":"02:11:22:33:44:55","#,
            r#""new":"03:11:22:33:44:55"}]"#,
        ],
    ),
    (
        &BRIDGE,
        234,
        1,
        Compared::State,
        &[
            r#"[{"path":"protinfo.no","old":2,"new":"00"},"#,
            r#"{"path":"protinfo.repeated.0.no","new":2}]"#,
        ],
    ),
    (
        &BRIDGE,
        236,
        1,
        Compared::Message,
        &[r#"[{"path":"protinfo.topology-change-ack","old":0,"new":1}]"#],
    ),
    (&BRIDGE, 236, 1, Compared::State, &[]),
    (
        &BRIDGE,
        404,
        1,
        Compared::State,
        &[
            r#"[{"path":"af-spec.vlan-info[vid=1].flags","old":["pvid","untagged"],"#,
            r#""new":["master","pvid","untagged"]}]"#,
        ],
    ),
    (
        &BRIDGE,
        406,
        2,
        Compared::State,
        &[
            r#"[{"path":"af-spec.vlan-info[vid=1]","old":{"flags":["pvid","untagged"],"vid":1}},"#,
            r#"{"path":"af-spec.vlan-info[vid=3]","new":{"flags":["pvid","untagged"],"vid":3}}]"#,
        ],
    ),
];

/// Looks whether each of them is told so.
fn are_told(rt: &impl Abort, alloc: Global, turns: &[Turn]) -> Result<(), Fail> {
    for (rows, place, bits, by, list) in turns {
        let old = bytes_of(alloc, rows)?;
        let mut new = bytes_of(alloc, rows)?;
        if let Some(byte) = new.as_mut_slice().get_mut(*place) {
            *byte ^= *bits;
        }
        let told = list_of(alloc, *by, old.as_slice(), new.as_slice())?;
        let wanted = text_of(alloc, list)?;
        assert_eq!(rt; told.as_slice(), wanted.as_slice(), "at {place}");
    }
    Ok(())
}

#[test]
fn bytes(rt: HostRuntime) -> Result<(), Fail> {
    are_told(&rt, rt.alloc(), &TURNS)
}
