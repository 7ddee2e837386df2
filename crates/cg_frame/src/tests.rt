//! The largest payload, damage after an open gate, and a read that fails.
ghost use Rattle.std.specs.Prelude.{◌≡◌, ◌+◌, ◌^◌, ◌<◌, ◌≤◌, IfOk, OnOk, length};

use crate::{
    FrameFault, LARGEST_PAYLOAD_BYTES, SEGMENT_SECTORS, ScanFault, Segment, append, close_gate,
    fits, scan,
};
use cg_disk::{FuseDisk, MemDisk, SectorDisk};
use std::alloc::{AllocError, Global};
use std::process::Abort;
use std::test::Fail;

fn payload_of(alloc: Global, bytes: u64) -> Result<Vec<u8>, AllocError> {
    vec![in alloc; 7; bytes as usize]
}

// A payload of this many bytes fills the segment up to its last gate, at position `last`.
fn fills<D: SectorDisk>(
    rt: &impl Abort,
    alloc: Global,
    disk: &mut D,
    segment: Segment,
    bytes: u64,
    last: u64,
) -> Result<(), Fail>
    requires some { 0 < segment.sectors }
    requires last { last < segment.sectors }
    requires on_disk { segment.first + segment.sectors ≤ D.size disk.old }
    requires small { segment.sectors < 2 ^ 54 }
{
    let more = payload_of(alloc, bytes.saturating_add(1))?;
    let largest = payload_of(alloc, bytes)?;
    close_gate(disk, segment, 0)?;
    assert!(rt; fits(segment, 0, bytes));
    assert!(rt; !fits(segment, last, 0));
    assert_eq!(rt;
        append(alloc, disk, segment, 0, 1, &more),
        Err(FrameFault::NoRoom)
    );
    assert_eq!(rt; append(alloc, disk, segment, 0, 1, &largest)?, last);
    // What the room holds does not matter.
    let mut room = vec![in alloc; 9; 700]?;
    let frame = scan(alloc, disk, segment, 0, &mut room)?.ok_or("a frame")?;
    assert_eq!(rt; frame.count, 1);
    assert_eq!(rt; frame.next, last);
    assert!(rt; frame.payload == largest);
    assert!(rt; scan(alloc, disk, segment, last, &mut room)?.is_none());
    Ok(())
}

#[test]
fn the_largest_payload_fills_a_segment(rt: HostRuntime) -> Result<(), Fail> {
    let whole = Segment {
        first: 0,
        sectors: SEGMENT_SECTORS,
    };
    let mut disk = MemDisk::new(rt.alloc(), SEGMENT_SECTORS)?;
    fills(
        &rt,
        rt.alloc(),
        &mut disk,
        whole,
        LARGEST_PAYLOAD_BYTES,
        2047,
    )
}

// Five sectors from the third of a disk of eight on.
fn small() -> Segment
    ensures { result ≡ record { first = 3; sectors = 5 } }
{
    Segment {
        first: 3,
        sectors: 5,
    }
}

// An open gate, and a sector that begins with a count and a length.
fn front_of(alloc: Global, count: u64, bytes: u64) -> Result<Vec<u8>, AllocError>
    ensures { IfOk result (λ front. length front.items ≡ 1024) }
{
    let mut front = vec![in alloc; 0; 1024]?;
    front[0] = 1;
    front[512..520].copy_from_slice(&count.to_be_bytes());
    front[520..528].copy_from_slice(&bytes.to_be_bytes());
    Ok(front)
}

// Where a front is written, its count and length, where the scan looks, and whether it reports damage.
const FRONTS: [(u64, u64, u64, u64, bool); 7] = [
    (0, 1, 1520, 0, false),
    (0, 1, 1521, 0, true),
    (0, 1, u64::MAX, 0, true),
    (0, 0, 20, 0, true),
    (2, 1, 496, 2, false),
    (3, 1, 0, 3, true),
    (3, 1 << 56, 0, 4, true),
];

#[test]
fn damage_behind_an_open_gate_is_reported(rt: HostRuntime) -> Result<(), Fail> {
    let alloc = rt.alloc();
    for (at, count, bytes, position, is_bad) in FRONTS {
        let mut disk = MemDisk::new(alloc, 8)?;
        disk.write(3 + at, &front_of(alloc, count, bytes)?)?;
        let fault = scan(alloc, &mut disk, small(), position, &mut Vec::new(alloc)).err();
        assert_eq!(rt;
            fault,
            is_bad.then_some(ScanFault::BadLength),
            "{count} {bytes} at {position}"
        );
    }
    Ok(())
}

// The fault of a scan for which the device passes this many calls.
fn fault_after(alloc: Global, calls: u64) -> Result<Option<ScanFault>, Fail> {
    let payload = payload_of(alloc, 600)?;
    let mut disk = MemDisk::new(alloc, 8)?;
    append(alloc, &mut disk, small(), 0, 1, &payload)?;
    let mut disk = FuseDisk::new(disk, calls);
    Ok(scan(alloc, &mut disk, small(), 0, &mut Vec::new(alloc)).err())
}

#[test]
fn a_scan_reports_a_failed_read(rt: HostRuntime) -> Result<(), Fail> {
    // The gate is read first, then the body.
    for (calls, fault) in [
        (0, Some(ScanFault::Device)),
        (1, Some(ScanFault::Device)),
        (2, None),
    ] {
        assert_eq!(rt; fault_after(rt.alloc(), calls)?, fault, "{calls}");
    }
    Ok(())
}
