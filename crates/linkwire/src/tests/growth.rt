//! Attributes that grow as they are written: the longest fit, and longer ones are unfit.

use super::pieces::answers_to;
use std::alloc::Global;
use std::test::Fail;

/// A header of zeros, these headers of attributes, and so many letters.
pub fn letters(alloc: Global, headers: &str, count: usize) -> Result<Vec<u8>, Fail> {
    let mut text = Vec::new(alloc);
    text.extend_from_slice(b"00000000000000000000000000000000")?;
    text.extend_from_slice(headers.as_bytes())?;
    for _ in 0..count {
        text.extend_from_slice(b"61")?;
    }
    Ok(text)
}

/// What the letters belong to, the headers in front of them, how many there are, the headers as they are written, and
/// the NUL and padding after them.
type Longest = (
    &'static str,
    &'static str,
    usize,
    &'static str,
    &'static str,
);

const LONGEST: [Longest; 5] = [
    ("an alias", "feff1400", 65530, "ffff1400", "0000"),
    ("a name", "feff0300", 65530, "ffff0300", "0000"),
    (
        "a number that is not listed",
        "ffff2a00",
        65531,
        "ffff2a00",
        "00",
    ),
    (
        "an alternative name",
        "fbff3400f7ff3500",
        65523,
        "fcff3480f8ff3500",
        "00",
    ),
    (
        "a request to associate",
        "ffff0b00fbff078c00000000",
        65523,
        "ffff0b00fbff078c00000000",
        "00",
    ),
];

/// A text grows by its NUL: 65530 bytes of it fit, and are written in an attribute of 65536 bytes.
#[test]
fn the_longest_attributes_fit(rt: HostRuntime) -> Result<(), Fail> {
    for (label, headers, count, written, after) in LONGEST {
        let line = letters(rt.alloc(), headers, count)?;
        let mut want = Vec::from_slice(rt.alloc(), b"ok ")?;
        want.extend_from_slice(letters(rt.alloc(), written, count)?.as_slice())?;
        want.extend_from_slice(after.as_bytes())?;
        want.push(b'\n')?;
        let got = answers_to(rt.alloc(), line.as_slice())?;
        assert!(rt; got.as_slice() == want.as_slice(), "{label}");
    }
    Ok(())
}

/// With a letter more they do not, which is looked at after the faults.
#[test]
fn what_grows_too_long_is_unfit(rt: HostRuntime) -> Result<(), Fail> {
    for (label, headers, count, after, want) in [
        ("an alias", "ffff1400", 65531, "", "unfit\n"),
        ("its padding", "ffff1400", 65531, "00", "unfit\n"),
        ("a byte more", "ffff1400", 65531, "0000", "refused\n"),
        (
            "an empty IFLA_LINKINFO after it",
            "ffff1400",
            65531,
            "0004001200",
            "refused\n",
        ),
        ("a name", "ffff0300", 65531, "", "unfit\n"),
        (
            "an alternative name",
            "fcff3400f8ff3500",
            65524,
            "",
            "unfit\n",
        ),
    ] {
        let mut line = letters(rt.alloc(), headers, count)?;
        line.extend_from_slice(after.as_bytes())?;
        let got = answers_to(rt.alloc(), line.as_slice())?;
        assert_eq!(rt; got.as_slice(), want.as_bytes(), "{label}");
    }
    Ok(())
}

/// An attribute of zeros: the digits of its header, and the count of zeros after them.
struct Zeros {
    header: &'static str,
    zeros: usize,
}

/// IPv6 counters of zeros: a header alone, as a kernel sends them, and as they are written.
const SHORT: Zeros = Zeros {
    header: "04000300",
    zeros: 0,
};

const SENT: Zeros = Zeros {
    header: "34010300",
    zeros: 2 * 304,
};

const WRITTEN: Zeros = Zeros {
    header: "3c010300",
    zeros: 2 * 312,
};

/// A header of zeros, the headers of IFLA_AF_SPEC and of the list of AF_INET6, so many times the counters, and the
/// digits after them.
fn counters(
    alloc: Global,
    headers: &str,
    count: usize,
    member: &Zeros,
    after: &str,
) -> Result<Vec<u8>, Fail> {
    let mut text = Vec::new(alloc);
    text.extend_from_slice(b"00000000000000000000000000000000")?;
    text.extend_from_slice(headers.as_bytes())?;
    let zeros = vec![in alloc; b'0'; member.zeros]?;
    for _ in 0..count {
        text.extend_from_slice(member.header.as_bytes())?;
        text.extend_from_slice(zeros.as_slice())?;
    }
    text.extend_from_slice(after.as_bytes())?;
    Ok(text)
}

/// Of counters of four bytes, each of which grows by its record, 207 fit, and a name with 206. So do 207 that kernels
/// send.
#[test]
fn counters_grow(rt: HostRuntime) -> Result<(), Fail> {
    let alloc = rt.alloc();
    for (headers, member, count, name, written, name_written) in [
        ("44031a0040030a00", &SHORT, 207, "", "8cff1a0088ff0a00", ""),
        ("14f91a0010f90a00", &SENT, 207, "", "8cff1a0088ff0a00", ""),
        (
            "8cff1a0088ff0a00",
            &WRITTEN,
            207,
            "",
            "8cff1a0088ff0a00",
            "",
        ),
        (
            "40031a003c030a00",
            &SHORT,
            206,
            "070003006c6f00",
            "50fe1a004cfe0a00",
            "070003006c6f0000",
        ),
    ] {
        let line = counters(alloc, headers, count, member, name)?;
        let text = counters(alloc, written, count, &WRITTEN, name_written)?;
        let mut want = Vec::from_slice(alloc, b"ok ")?;
        want.extend_from_slice(text.as_slice())?;
        want.push(b'\n')?;
        let got = answers_to(alloc, line.as_slice())?;
        assert!(rt;
            got.as_slice() == want.as_slice(),
            "{count} counters of {headers}"
        );
    }
    Ok(())
}

/// One more does not fit, nor do 212 that kernels send, though they are short enough as they are.
#[test]
fn counters_that_grow_too_long_are_unfit(rt: HostRuntime) -> Result<(), Fail> {
    for (headers, member, count) in [
        ("48031a0044030a00", &SHORT, 208),
        ("58031a0054030a00", &SHORT, 212),
        ("18ff1a0014ff0a00", &SENT, 212),
    ] {
        let line = counters(rt.alloc(), headers, count, member, "")?;
        let got = answers_to(rt.alloc(), line.as_slice())?;
        assert_eq!(rt;
            got.as_slice(),
            b"unfit\n".as_slice(),
            "{count} counters of {headers}"
        );
    }
    Ok(())
}
