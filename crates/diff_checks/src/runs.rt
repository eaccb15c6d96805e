//! Runs over lines in memory.

use crate::told::text_of;
use message_diff::{Compared, Told, compare_lines, compare_readers, watch_lines};
use std::test::Fail;

/// A dump of an interface, which changes and goes, and one that comes.
const STREAM: &[u8] = b"type=begin seq=1 port=9
type=new 000001000700000000000000000000000700030065300000
type=done seq=1 port=9 family=0
type=new time=2 000001000700000000000000000000000700030065310000
type=new 000001000800000000000000000000000700030065380000
zz
type=del time=3 000001000700000000000000000000000700030065310000
";

/// The first line that is told, where all is.
const FIRST: &str = r#"{"type":"new","change":"new","ifi-family":0,"ifi-index":7,"ifname":"e0"}"#;

/// The lines behind it.
const CHANGES: [&str; 9] = [
    r#"{"type":"new","time":"2","change":"changed","ifi-family":0,"ifi-index":7,"ifname":"e1","#,
    r#""changes":[{"path":"ifname","old":"e0","new":"e1"}]}"#,
    "\n",
    r#"{"type":"new","change":"new","ifi-family":0,"ifi-index":8,"ifname":"e8"}"#,
    "\n",
    r#"{"fault":"not-hex"}"#,
    "\n",
    r#"{"type":"del","time":"3","change":"gone","ifi-family":0,"ifi-index":7,"ifname":"e1"}"#,
    "\n",
];

#[test]
fn changes(rt: HostRuntime) -> Result<(), Fail> {
    let mut reader = STREAM;
    let mut told = Vec::new(rt.alloc());
    watch_lines(
        rt.alloc(),
        Compared::State,
        Told::Changes,
        &mut reader,
        &mut told,
    )?;
    let wanted = text_of(rt.alloc(), &CHANGES)?;
    assert_eq!(rt; told.as_slice(), wanted.as_slice());
    Ok(())
}

#[test]
fn all(rt: HostRuntime) -> Result<(), Fail> {
    let mut reader = STREAM;
    let mut told = Vec::new(rt.alloc());
    compare_lines(rt.alloc(), Compared::Message, &mut reader, &mut told)?;
    let mut wanted = text_of(rt.alloc(), &[FIRST, "\n"])?;
    wanted.extend_from_slice(text_of(rt.alloc(), &CHANGES)?.as_slice())?;
    assert_eq!(rt; told.as_slice(), wanted.as_slice());
    Ok(())
}

/// The lines of a file.
const OLD: &[u8] = b"000001000700000000000000000000000700030065300000
000001000800000000000000000000000700030065380000
";

/// The lines of another one.
const NEW: &[u8] = b"time=2 000001000700000000000000000000000700030065310000\n";

/// What is told of both.
const BOTH: [&str; 5] = [
    r#"{"time":"2","change":"changed","ifi-family":0,"ifi-index":7,"ifname":"e1","#,
    r#""changes":[{"path":"ifname","old":"e0","new":"e1"}]}"#,
    "\n",
    r#"{"change":"gone","ifi-family":0,"ifi-index":8,"ifname":"e8"}"#,
    "\n",
];

#[test]
fn files(rt: HostRuntime) -> Result<(), Fail> {
    let mut old = OLD;
    let mut new = NEW;
    let mut told = Vec::new(rt.alloc());
    let found = compare_readers(rt.alloc(), Compared::State, &mut old, &mut new, &mut told)?;
    let wanted = text_of(rt.alloc(), &BOTH)?;
    assert_eq!(rt; told.as_slice(), wanted.as_slice());
    assert!(rt; found.differs && !found.has_faults && found.untold.is_empty());
    Ok(())
}
