//! What differs between two messages, attribute by attribute.

use crate::messages::{FRONT, bytes_behind};
use crate::told::{list_of, text_of};
use message_diff::Compared;
use std::alloc::Global;
use std::process::Abort;
use std::test::Fail;

/// What it is, what is compared, the digits of the old one and of the new one, and the list that is told, in pieces.
type Row = (
    &'static str,
    Compared,
    &'static str,
    &'static str,
    &'static [&'static str],
);

/// Attributes behind a header and a name.
const ATTRIBUTES: [Row; 31] = [
    (
        "a number turns",
        Compared::State,
        "08000400dc050000",
        "0800040028230000",
        &[r#"[{"path":"mtu","old":1500,"new":9000}]"#],
    ),
    (
        "one comes",
        Compared::State,
        "",
        "08000400dc050000",
        &[r#"[{"path":"mtu","new":1500}]"#],
    ),
    (
        "one goes",
        Compared::State,
        "08000400dc050000",
        "",
        &[r#"[{"path":"mtu","old":1500}]"#],
    ),
    (
        "one comes again",
        Compared::State,
        "08000400dc050000",
        "08000400dc0500000800040028230000",
        &[r#"[{"path":"mtu","old":1500,"new":9000},{"path":"repeated.0.mtu","new":1500}]"#],
    ),
    (
        "what comes again is told by its place",
        Compared::State,
        "08000400780500000500100002000000050010000600000008000400dc050000",
        "08000400140500000800040078050000050010000600000008000400dc050000",
        &[
            r#"[{"path":"repeated.0.mtu","old":1400,"new":1300},"#,
            r#"{"path":"repeated.1.operstate","old":"down"},"#,
            r#"{"path":"repeated.1.mtu","new":1400}]"#,
        ],
    ),
    (
        "a counter moves",
        Compared::State,
        "0800230001000000",
        "0800230002000000",
        &[],
    ),
    (
        "a counter moves, and all counts",
        Compared::Message,
        "0800230001000000",
        "0800230002000000",
        &[r#"[{"path":"carrier-changes","old":1,"new":2}]"#],
    ),
    (
        "a counter comes",
        Compared::State,
        "",
        "0800230002000000",
        &[
            r#"[{"path":"state","old":"000001000700000000000000000000000700030065300000","#,
            r#""new":"0000010007000000000000000000000007000300653000000800230000000000"}]"#,
        ],
    ),
    (
        "a counter comes beside a number",
        Compared::State,
        "08000400dc050000",
        "08000400282300000800230002000000",
        &[r#"[{"path":"mtu","old":1500,"new":9000}]"#],
    ),
    (
        "counters have their places",
        Compared::State,
        "080004007805000008000400dc050000",
        "08002300010000000800040078050000080023000200000008000400dc050000",
        &[r#"[{"path":"repeated.0.mtu","old":1400},{"path":"repeated.1.mtu","new":1400}]"#],
    ),
    (
        "why it was announced",
        Compared::Message,
        "",
        "08002c0002000000",
        &[],
    ),
    (
        "one without a name comes",
        Compared::State,
        "",
        "0700c80061626300",
        &[
            r#"[{"path":"other[number=200]","#,
            r#""new":{"number":200,"flags":[],"payload":"616263"}}]"#,
        ],
    ),
    (
        "one without a name turns",
        Compared::State,
        "0700c800616263000400c900",
        "0700c880616264000400c900",
        &[
            r#"[{"path":"other[number=200].flags","old":[],"new":["nested"]},"#,
            r#"{"path":"other[number=200].payload","old":"616263","new":"616264"}]"#,
        ],
    ),
    (
        "one without a name comes in front of another",
        Compared::State,
        "0500c90061000000",
        "0700c800616263000500c90062000000",
        &[
            r#"[{"path":"other[number=201].payload","old":"61","new":"62"},"#,
            r#"{"path":"other[number=200]","#,
            r#""new":{"number":200,"flags":[],"payload":"616263"}}]"#,
        ],
    ),
    (
        "one of a number that is there comes, and another order",
        Compared::State,
        "0500c900610000000500c80061000000",
        "0500c800610000000500c800620000000500c90061000000",
        &[
            r#"[{"path":"other[number=200#1]","#,
            r#""new":{"number":200,"flags":[],"payload":"62"}}]"#,
        ],
    ),
    (
        "the first of a number goes",
        Compared::State,
        "0500c800610000000500c900610000000500c80062000000",
        "0500c900610000000500c80062000000",
        &[
            r#"[{"path":"other[number=200].payload","old":"61","new":"62"},"#,
            r#"{"path":"other[number=200#1]","#,
            r#""old":{"number":200,"flags":[],"payload":"62"}}]"#,
        ],
    ),
    (
        "a number has another size",
        Compared::State,
        "0600440001020000",
        "0800440005000000",
        &[
            r#"[{"path":"headroom","old":513},{"path":"other[number=68]","new":{"number":68,"#,
            r#""name":"headroom","flags":[],"payload":"05000000"}}]"#,
        ],
    ),
    (
        "a counter without a name comes",
        Compared::State,
        "0c001200080001007a7a7a00",
        "14001200080001007a7a7a000800030061626364",
        &[
            r#"[{"path":"state","#,
            r#""old":"0000010007000000000000000000000007000300653000000c001200080001007a7a7a00","#,
            r#""new":"00000100070000000000000000000000070003006530000014001200080001007a7a7a00"#,
            r#"0800030000000000"}]"#,
        ],
    ),
    (
        "a counter without a name comes, and all counts",
        Compared::Message,
        "0c001200080001007a7a7a00",
        "14001200080001007a7a7a000800030061626364",
        &[
            r#"[{"path":"linkinfo.other[number=3]","new":{"number":3,"name":"xstats","#,
            r#""flags":[],"payload":"61626364"}}]"#,
        ],
    ),
    (
        "a field of a record",
        Compared::State,
        "24000e000100000000000000020000000000000003000000000000000400050600000000",
        "24000e000100000000000000020000000000000003000000000000000400050700000000",
        &[r#"[{"path":"map.port","old":6,"new":7}]"#],
    ),
    (
        "data of a kind",
        Compared::State,
        "1c00120009000100766c616e000000000c0002000600010005000000",
        "1c00120009000100766c616e000000000c0002000600010006000000",
        &[r#"[{"path":"linkinfo.data.id","old":5,"new":6}]"#],
    ),
    (
        "another kind",
        Compared::State,
        "1c00120009000100766c616e000000000c0002000600010005000000",
        "1c0012000a00010076786c616e0000000c0002000800010005000000",
        &[r#"[{"path":"linkinfo.kind","old":"vlan","new":"vxlan"}]"#],
    ),
    (
        "a list of texts",
        Compared::State,
        "1400340006003500610000000600350062000000",
        "1c003400060035006100000006003500630000000600350064000000",
        &[
            r#"[{"path":"prop-list.alt-ifname[]","old":"b"},"#,
            r#"{"path":"prop-list.alt-ifname[]","new":"c"},"#,
            r#"{"path":"prop-list.alt-ifname[]","new":"d"}]"#,
        ],
    ),
    (
        "a list of texts in another order",
        Compared::State,
        "1400340006003500610000000600350062000000",
        "1400340006003500620000000600350061000000",
        &[r#"[{"path":"prop-list.alt-ifname","old":["a","b"],"new":["b","a"]}]"#],
    ),
    (
        "settings of IPv4",
        Compared::State,
        "18001a001400020010000100000000000100000002000000",
        "18001a001400020010000100000000000100000000000000",
        &[r#"[{"path":"af-spec.inet.conf.proxy-arp","old":2,"new":0}]"#],
    ),
    (
        "an address of another size",
        Compared::State,
        "0a00010002000000000100000a000200ffffffffffff0000",
        "080001000a00000108000200ffffffff",
        &[
            r#"[{"path":"address","old":"02:00:00:00:00:01","new":"0a:00:00:01"},"#,
            r#"{"path":"broadcast","old":"ff:ff:ff:ff:ff:ff","new":"ff:ff:ff:ff"}]"#,
        ],
    ),
    (
        "a refused one",
        Compared::State,
        "08000400dc050000",
        "0700040061626300",
        &[r#"refused"#],
    ),
    (
        "a refused one, leniently",
        Compared::LenientState,
        "08000400dc050000",
        "0700040061626300",
        &[r#"[{"path":"mtu","old":1500},{"path":"refused.ifla_mtu","new":"616263"}]"#],
    ),
    (
        "a refused one that comes again",
        Compared::LenientMessage,
        "05001400e8000000",
        "05001400e900000005001400e8000000",
        &[r#"[{"path":"refused.repeated.0.ifla_ifalias","new":"e9"}]"#],
    ),
    (
        "refused ones that are accepted",
        Compared::LenientState,
        "050004006100000005001400e80000000500040062000000",
        "08000400dc0500000600140078000000",
        &[
            r#"[{"path":"refused.ifla_ifalias","old":"e8"},"#,
            r#"{"path":"refused.ifla_mtu","old":"62"},"#,
            r#"{"path":"refused.repeated.0.ifla_mtu","old":"61"},{"path":"mtu","new":1500},"#,
            r#"{"path":"ifalias","new":"x"}]"#,
        ],
    ),
    (
        "a refused counter comes, leniently",
        Compared::LenientState,
        "08000400dc050000",
        "08000400282300000500230005000000",
        &[r#"[{"path":"mtu","old":1500,"new":9000}]"#],
    ),
];

/// Whole messages.
const MESSAGES: [Row; 8] = [
    (
        "the header",
        Compared::State,
        "00000100070000000100000000000000",
        "00000100070000000310000000000000",
        &[r#"[{"path":"ifi-flags","old":["up"],"new":["up","broadcast","multicast"]}]"#],
    ),
    (
        "the order alone",
        Compared::State,
        "0000010007000000000000000000000005001000020000000500110001000000",
        "0000010007000000000000000000000005001100010000000500100002000000",
        &[
            r#"[{"path":"state","#,
            r#""old":"0000010007000000000000000000000005001000020000000500110001000000","#,
            r#""new":"0000010007000000000000000000000005001100010000000500100002000000"}]"#,
        ],
    ),
    (
        "another family",
        Compared::State,
        "0000010007000000000000000000000008000400dc050000",
        "0700010007000000000000000000000008000400dc050000",
        &[r#"[{"path":"ifi-family","old":0,"new":7}]"#],
    ),
    (
        "counters of IPv6",
        Compared::Message,
        "0a00010007000000000000000000000028000c00240003000100000000000000020000000000000003000000\
            000000000400000000000000",
        "0a00010007000000000000000000000028000c00240003000100000000000000050000000000000003000000\
            000000000600000000000000",
        &[
            r#"[{"path":"protinfo.stats.inpkts","old":2,"new":5},"#,
            r#"{"path":"protinfo.stats.indelivers","old":4,"new":6}]"#,
        ],
    ),
    (
        "counters of IPv6 do not count",
        Compared::State,
        "0a00010007000000000000000000000028000c00240003000100000000000000020000000000000003000000\
            00000000040000000000000008000400dc050000",
        "0a00010007000000000000000000000028000c00240003000100000000000000050000000000000003000000\
            0000000006000000000000000800040028230000",
        &[r#"[{"path":"mtu","old":1500,"new":9000}]"#],
    ),
    (
        "counters of IPv6 come",
        Compared::State,
        "0a00010007000000000000000000000008000400dc050000",
        "0a000100070000000000000000000000080004002823000028000c0024000300010000000000000005000000\
            0000000003000000000000000600000000000000",
        &[r#"[{"path":"mtu","old":1500,"new":9000}]"#],
    ),
    (
        "settings of IPv6",
        Compared::State,
        "0a00010007000000000000000000000014000c00100002000100000040000000dc050000",
        "0a00010007000000000000000000000014000c0010000200000000004000000078050000",
        &[
            r#"[{"path":"protinfo.conf.forwarding","old":1,"new":0},"#,
            r#"{"path":"protinfo.conf.mtu6","old":1500,"new":1400}]"#,
        ],
    ),
    (
        "what IPv6 moves by itself is no setting",
        Compared::State,
        "0a00010007000000000000000000000018000c0014000500ffff0000010000000200000003000000",
        "0a00010007000000000000000000000018000c0014000500feff0000070000000800000003000000",
        &[r#"[{"path":"protinfo.cacheinfo.max-reasm-len","old":65535,"new":65534}]"#],
    ),
];

/// Looks whether each of them is told so, behind these digits.
fn are_told(rt: &impl Abort, alloc: Global, front: &str, rows: &[Row]) -> Result<(), Fail> {
    for (what, by, old, new, list) in rows {
        let was = bytes_behind(alloc, front, old)?;
        let is = bytes_behind(alloc, front, new)?;
        let told = list_of(alloc, *by, was.as_slice(), is.as_slice())?;
        let wanted = text_of(alloc, list)?;
        assert_eq!(rt; told.as_slice(), wanted.as_slice(), "{what}");
    }
    Ok(())
}

#[test]
fn attributes(rt: HostRuntime) -> Result<(), Fail> {
    are_told(&rt, rt.alloc(), FRONT, &ATTRIBUTES)
}

#[test]
fn messages(rt: HostRuntime) -> Result<(), Fail> {
    are_told(&rt, rt.alloc(), "", &MESSAGES)
}
