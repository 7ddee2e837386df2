//! Payloads in each of the three versions, and what reading them returns.
use cg_record::RecordFault::{self, BadKind, BadLength, BadName, Repeated, Short};
use cg_record::read;
use std::alloc::Global;
use std::process::Abort;

// What a payload is about, its fields in hexadecimal digits, and the number of its commands or its first fault.
const ROWS: &[(&str, &str, Result<usize, RecordFault>)] = &[
    ("no version", "", Err(Short)),
    ("version 0", "00", Err(BadKind)),
    ("version 4", "04", Err(BadKind)),
    ("version 1 alone", "01", Ok(0)),
    ("version 2 alone", "02", Ok(0)),
    ("version 3 alone", "03", Ok(0)),
    ("kind 0", "01 00", Err(BadKind)),
    ("kind 0", "02 00", Err(BadKind)),
    ("kind 0", "03 00", Err(BadKind)),
    ("Expired in 01", "01 06", Err(BadKind)),
    ("Expired, cut", "02 06", Err(Short)),
    ("Expired, cut", "03 06", Err(Short)),
    ("Dropped in 01", "01 07", Err(BadKind)),
    ("Dropped in 02", "02 07", Err(BadKind)),
    ("Dropped, cut", "03 07", Err(Short)),
    ("kind 8", "03 08", Err(BadKind)),
    ("Deleted", "01 05 0167", Ok(1)),
    ("Deleted", "02 05 0167", Ok(1)),
    ("Deleted", "03 05 0167", Ok(1)),
    ("Deleted, twice", "03 05 0167 05 0167", Ok(2)),
    ("Deleted, then kind 8", "03 05 0167 08", Err(BadKind)),
    // Emptied.
    ("in 01", "01 02 0167 00000001 0163", Ok(1)),
    (
        "a moment in 01",
        "01 02 0167 00000001 0163 00",
        Err(BadKind),
    ),
    ("no moment", "02 02 0167 00000001 0163", Err(Short)),
    ("no moment", "03 02 0167 00000001 0163", Err(Short)),
    ("an unknown moment", "02 02 0167 00000001 0163 00", Ok(1)),
    ("an unknown moment", "03 02 0167 00000001 0163 00", Ok(1)),
    (
        "moment 1",
        "03 02 0167 00000001 0163 01 0000000000000001",
        Ok(1),
    ),
    (
        "moment byte 2",
        "02 02 0167 00000001 0163 02",
        Err(BadLength),
    ),
    (
        "moment byte 2",
        "03 02 0167 00000001 0163 02",
        Err(BadLength),
    ),
    (
        "a moment of 7 bytes",
        "03 02 0167 00000001 0163 01 00000000000000",
        Err(Short),
    ),
    // Committed: its moment.
    (
        "in 01",
        "01 04 0167 01 0174 00000000 0000000000000001 00000000",
        Ok(1),
    ),
    (
        "in 02, unknown",
        "02 04 0167 00 01 0174 00000000 0000000000000001 00000000",
        Ok(1),
    ),
    (
        "in 03, unknown",
        "03 04 0167 00 0001 0174 00000000 0000000000000001 00000000",
        Ok(1),
    ),
    (
        "the last moment",
        "03 04 0167 01 ffffffffffffffff 0001 0174 00000000 0000000000000001 00000000",
        Ok(1),
    ),
    ("no moment", "03 04 0167", Err(Short)),
    ("moment byte 2", "02 04 0167 02", Err(BadLength)),
    ("moment byte 255", "03 04 0167 ff", Err(BadLength)),
    (
        "a moment of 7 bytes",
        "02 04 0167 01 00000000000000",
        Err(Short),
    ),
    (
        "a moment in 01, read as a count",
        "01 04 0167 00 01 0174",
        Err(BadLength),
    ),
    (
        "no moment in 02: the count is read as its first byte",
        "02 04 0167 01 0174 00000000 0000000000000001",
        Err(BadLength),
    ),
    // Committed: its count.
    ("count 0", "01 04 0167 00", Err(BadLength)),
    ("count 65", "01 04 0167 41", Err(BadLength)),
    ("count 0", "02 04 0167 00 00", Err(BadLength)),
    ("count 64", "02 04 0167 00 40", Err(Short)),
    ("count 65", "02 04 0167 00 41", Err(BadLength)),
    ("count 0", "03 04 0167 00 0000", Err(BadLength)),
    ("count 256", "03 04 0167 00 0100", Err(Short)),
    ("count 257", "03 04 0167 00 0101", Err(BadLength)),
    ("half a count", "03 04 0167 00 00", Err(Short)),
    (
        "a count of 2 bytes in 02",
        "02 04 0167 00 0001 0174",
        Err(BadLength),
    ),
    (
        "a count of 1 byte in 03",
        "03 04 0167 00 01 0174 00000000",
        Err(BadLength),
    ),
    // Committed: its entries.
    (
        "the greatest partition and offset",
        "03 04 0167 00 0001 0174 7fffffff 7fffffffffffffff 00000000",
        Ok(1),
    ),
    (
        "partition 2147483648",
        "03 04 0167 00 0001 0174 80000000",
        Err(BadLength),
    ),
    (
        "offset 2^63",
        "03 04 0167 00 0001 0174 00000000 8000000000000000",
        Err(BadLength),
    ),
    (
        "4,096 bytes of metadata, cut",
        "03 04 0167 00 0001 0174 00000000 0000000000000001 00001000",
        Err(Short),
    ),
    (
        "4,097 bytes of metadata, cut",
        "03 04 0167 00 0001 0174 00000000 0000000000000001 00001001",
        Err(BadLength),
    ),
    (
        "a partition twice",
        "03 04 0167 00 0002 0174 00000000 0000000000000001 00000000 0174 00000000",
        Err(Repeated),
    ),
    (
        "two partitions",
        "03 04 0167 00 0002 0174 00000000 0000000000000001 00000000 0174 00000001",
        Err(Short),
    ),
    (
        "two topics",
        "03 04 0167 00 0002 0174 00000000 0000000000000001 00000000 0175 00000000",
        Err(Short),
    ),
    (
        "a cut partition",
        "03 04 0167 00 0002 0174 00000000 0000000000000001 00000000 0174 000000",
        Err(Short),
    ),
    // Expired and Dropped.
    ("one partition", "02 06 0167 01 0174 00000000", Ok(1)),
    ("one partition", "03 06 0167 0001 0174 00000000", Ok(1)),
    ("one partition", "03 07 0167 0001 0174 00000000", Ok(1)),
    (
        "two topics",
        "03 07 0167 0002 0174 00000001 0175 00000001",
        Ok(1),
    ),
    (
        "a partition twice",
        "02 06 0167 02 0174 00000000 0174 00000000",
        Err(Repeated),
    ),
    (
        "a partition twice",
        "03 06 0167 0002 0174 00000000 0174 00000000",
        Err(Repeated),
    ),
    (
        "the first partition again",
        "03 07 0167 0003 0174 00000000 0174 00000001 0174 00000000",
        Err(Repeated),
    ),
    ("count 0", "02 06 0167 00", Err(BadLength)),
    ("count 65", "02 06 0167 41", Err(BadLength)),
    ("count 0", "03 06 0167 0000", Err(BadLength)),
    ("count 257", "03 06 0167 0101", Err(BadLength)),
    ("count 0", "03 07 0167 0000", Err(BadLength)),
    ("count 256", "03 07 0167 0100", Err(Short)),
    ("count 257", "03 07 0167 0101", Err(BadLength)),
    ("no group", "02 06 00 01 0174 00000000", Err(BadName)),
    ("no group", "03 07 00 0001 0174 00000000", Err(BadName)),
    (
        "partition 2147483648",
        "03 06 0167 0001 0174 80000000",
        Err(BadLength),
    ),
    ("a cut partition", "03 07 0167 0001 0174 000000", Err(Short)),
    (
        "a colon in a topic",
        "03 07 0167 0001 02743a 00000000",
        Err(BadName),
    ),
    (
        "a dash as topic",
        "03 07 0167 0001 012d 00000000",
        Err(BadName),
    ),
    (
        "a topic of 100 bytes, cut",
        "03 07 0167 0001 64 74",
        Err(Short),
    ),
    (
        "a topic of 101 bytes, cut",
        "03 07 0167 0001 65 74",
        Err(BadName),
    ),
    // The other commands, whose fields are the same in each version.
    (
        "one member",
        "03 01 0167 00000001 0163 0170 016d 01 016d 00 0163 00001770 00000000 00000000 00000000",
        Ok(1),
    ),
    (
        "another leader",
        "03 01 0167 00000001 0163 0170 016e 01 016d 00 0163 00001770 00000000 00000000 00000000",
        Err(BadName),
    ),
    (
        "a replaced member without an instance",
        "03 03 0167 016d 00",
        Err(BadName),
    ),
    (
        "a replaced member",
        "03 03 0167 016d 0169 0163 00001770 00000000 00000000 00000000",
        Ok(1),
    ),
];

// A commit in version 3, of which only the metadata matter.
struct Long {
    name: &'static str,
    count: u16,
    /// Runs of entries: how many they are, and the size of the metadata of each in bytes.
    runs: &'static [(u16, u32)],
    /// Number of bytes that are cut off at the end.
    cut: usize,
    found: Result<usize, RecordFault>,
}

const LONG_ROWS: &[Long] = &[
    Long {
        name: "the last entry has none",
        count: 65,
        runs: &[(64, 4_096), (1, 0)],
        cut: 0,
        found: Ok(1),
    },
    Long {
        name: "262,144 bytes in 256 entries",
        count: 256,
        runs: &[(256, 1_024)],
        cut: 0,
        found: Ok(1),
    },
    Long {
        name: "262,144 bytes, the last one alone",
        count: 65,
        runs: &[(63, 4_096), (1, 4_095), (1, 1)],
        cut: 0,
        found: Ok(1),
    },
    Long {
        name: "262,145 bytes",
        count: 65,
        runs: &[(64, 4_096), (1, 1)],
        cut: 0,
        found: Err(BadLength),
    },
    Long {
        name: "262,145 bytes, the last one cut off",
        count: 65,
        runs: &[(64, 4_096), (1, 1)],
        cut: 1,
        found: Err(BadLength),
    },
    Long {
        name: "262,145 bytes, the last two together",
        count: 65,
        runs: &[(63, 4_096), (1, 4_095), (1, 2)],
        cut: 0,
        found: Err(BadLength),
    },
    Long {
        name: "262,144 bytes, the last one cut off",
        count: 64,
        runs: &[(64, 4_096)],
        cut: 1,
        found: Err(Short),
    },
    Long {
        name: "4,096 bytes too many, cut off",
        count: 65,
        runs: &[(65, 4_096)],
        cut: 4_096,
        found: Err(BadLength),
    },
];

fn append(rt: &impl Abort, payload: &mut Vec<u8>, bytes: &[u8]) {
    payload.extend_from_slice(bytes).expect(rt, "memory");
}

// Appends the bytes of hexadecimal digits, which may have spaces between fields.
fn append_fields(rt: &impl Abort, alloc: Global, payload: &mut Vec<u8>, fields: &str) {
    for field in fields.split_whitespace() {
        let bytes = hex::decode(alloc, field).expect(rt, "digits");
        append(rt, payload, bytes.as_slice());
    }
}

// Appends entries of topic `t` from the given partition on. Returns the partition after them.
fn append_entries(
    rt: &impl Abort,
    alloc: Global,
    payload: &mut Vec<u8>,
    first: u32,
    entries: (u16, u32),
) -> u32 {
    let (many, long) = entries;
    let metadata = vec![in alloc; 0u8; long as usize].expect(rt, "memory");
    let mut partition = first;
    for _ in 0..many {
        append_fields(rt, alloc, payload, "0174");
        append(rt, payload, &partition.to_be_bytes());
        append_fields(rt, alloc, payload, "0000000000000001");
        append(rt, payload, &long.to_be_bytes());
        append(rt, payload, metadata.as_slice());
        partition = partition.wrapping_add(1);
    }
    partition
}

fn long_payload(rt: &impl Abort, alloc: Global, row: &Long) -> Vec<u8> {
    let mut payload = Vec::new(alloc);
    append_fields(rt, alloc, &mut payload, "03 04 0167 00");
    append(rt, &mut payload, &row.count.to_be_bytes());
    let mut partition = 0;
    for entries in row.runs {
        partition = append_entries(rt, alloc, &mut payload, partition, *entries);
    }
    payload.truncate(payload.len().saturating_sub(row.cut));
    payload
}

// Returns how many commands the payload has, or its first fault.
fn found(alloc: Global, payload: &[u8]) -> Result<usize, RecordFault> {
    let commands = read(alloc, payload)?;
    Ok(commands.len())
}

#[test]
fn each_payload_has_its_commands_or_its_first_fault(rt: HostRuntime) {
    for (name, fields, expected) in ROWS {
        let mut payload = Vec::new(rt.alloc());
        append_fields(&rt, rt.alloc(), &mut payload, fields);
        let found = found(rt.alloc(), payload.as_slice());
        assert_eq!(rt; found, *expected, "{name}: {fields}");
    }
}

#[test]
fn metadata_of_one_commit_have_a_limit_together(rt: HostRuntime) {
    for row in LONG_ROWS {
        let payload = long_payload(&rt, rt.alloc(), row);
        let found = found(rt.alloc(), payload.as_slice());
        assert_eq!(rt; found, row.found, "{}", row.name);
    }
}
