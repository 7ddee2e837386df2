//! The faults of names at the limits of their grammar.
use crate::{GroupId, MemberId, NameFault};
use std::test::Fail;

// Texts, and the fault that parsing them reports.
const TEXTS: [(&str, Option<NameFault>); 12] = [
    ("a", None),
    ("Orders-2.eu_west", None),
    (".", None),
    ("_", None),
    ("--", None),
    ("", Some(NameFault::Empty)),
    ("-", Some(NameFault::Reserved)),
    ("a b", Some(NameFault::BadByte)),
    ("a:b", Some(NameFault::BadByte)),
    ("a=b", Some(NameFault::BadByte)),
    ("\u{e9}", Some(NameFault::BadByte)),
    ("a\n", Some(NameFault::BadByte)),
];

#[test]
fn texts_are_names_or_have_a_fault(rt: HostRuntime) {
    for (text, fault) in TEXTS {
        assert_eq!(rt;
            GroupId::parse(rt.alloc(), text).err(),
            fault,
            "at {text:?}"
        );
    }
}

// A byte and how often it is repeated; the fault as a group id, and as a member id.
const LENGTHS: [(u8, usize, Option<NameFault>, Option<NameFault>); 5] = [
    (b'a', 100, None, None),
    (b'a', 101, Some(NameFault::TooLong), None),
    (
        b' ',
        101,
        Some(NameFault::TooLong),
        Some(NameFault::BadByte),
    ),
    (b'a', 137, Some(NameFault::TooLong), None),
    (
        b' ',
        138,
        Some(NameFault::TooLong),
        Some(NameFault::TooLong),
    ),
];

#[test]
fn names_have_their_greatest_lengths(rt: HostRuntime) -> Result<(), Fail> {
    for (byte, count, group, member) in LENGTHS {
        let text = vec![in rt.alloc(); byte; count]?;
        let faults = (GroupId::fault(&text), MemberId::fault(&text));
        assert_eq!(rt; faults, (group, member), "at {count} bytes {byte}");
    }
    Ok(())
}
