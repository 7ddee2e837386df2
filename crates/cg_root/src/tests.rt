//! Roots byte for byte, broken rules, and a publish that is stopped at each device call.
ghost use Rattle.std.specs.Prelude.{◌≡◌, ◌+◌, ◌*◌, ◌≤◌, false, length, IfOk, IfSome};
ghost use Rattle.cg_disk.specs.Disk.{unknown_history};
ghost use Rattle.cg_root.specs.Roots.{IsLawful};
ghost use Rattle.cg_disk.specs.Fuse.{inner_of};
ghost use Rattle.cg_disk.specs.Mem.{mem_size};

use crate::{Root, RootFault, SegmentIds, Slot, close_other, publish, read_root};
use cg_disk::{Crash, DiskFault, FuseDisk, MemDisk, SectorDisk};
use std::alloc::{AllocError, Global};
use std::process::Abort;
use std::test::Fail;

// A disk of which nothing is claimed, so that tests may write any sectors.
#[derive(Drop)]
struct Unclaimed {
    disk: FuseDisk<MemDisk>,
}

impl SectorDisk for Unclaimed {
    ghost use Rattle.cg_disk.specs.Fuse.{failures_of, inner_of};
    ghost use Rattle.cg_disk.specs.Mem.{mem_size, mem_failures};

    ghost size = { λ d. mem_size (inner_of d.disk) };

    ghost is_honest = { λ _. false };

    ghost history = { λ _. unknown_history };

    ghost failures = { λ d. failures_of mem_failures d.disk };

    fn sectors(&self) -> u64 {
        self.disk.sectors()
    }

    fn read(&mut self, at: u64, bytes: &mut [u8]) -> Result<(), DiskFault> {
        self.disk.read(at, bytes)
    }

    fn write(&mut self, at: u64, bytes: &[u8]) -> Result<(), DiskFault> {
        self.disk.write(at, bytes)
    }

    fn sync(&mut self) -> Result<(), DiskFault> {
        self.disk.sync()
    }
}

// Sectors of a disk of eight segments.
const SECTORS: u64 = 16388;

// The first bytes of the body of a root of epoch 1, base number 0, no base and tail 0.
const FIRST: [u8; 26] = [
    0, 0, 0, 1, 0, 0, 0, 0, 0, 0, 0, 1, 0, 0, 0, 0, 0, 0, 0, 0, 0, 0, 0, 1, 0, 0,
];

// And of epoch 258, base number 2^63 - 1, base 7 and 0, and tail 3.
const LATER: [u8; 30] = [
    0, 0, 0, 1, 0, 0, 0, 0, 0, 0, 1, 2, 127, 255, 255, 255, 255, 255, 255, 255, 0, 2, 0, 1, 0, 7,
    0, 0, 0, 3,
];

// A disk of zeros.
fn blank(alloc: Global, sectors: u64) -> Result<Unclaimed, AllocError>
    ensures { IfOk result (λ disk. mem_size (inner_of disk.disk) ≡ sectors) }
{
    let mut disk = FuseDisk::new(MemDisk::new(alloc, sectors)?, 0);
    disk.set(None);
    Ok(Unclaimed { disk })
}

// An open gate, and a body of these bytes and zeros.
fn slot_of(alloc: Global, bytes: &[u8]) -> Result<Vec<u8>, AllocError>
    requires { length bytes.now ≤ 512 }
    ensures { IfOk result (λ slot. length slot.items ≡ 1024) }
{
    let mut slot = vec![in alloc; 0; 1024]?;
    slot[0] = 1;
    slot[512..512 + bytes.len()].copy_from_slice(bytes);
    Ok(slot)
}

fn numbers(alloc: Global, ids: &SegmentIds) -> Result<Vec<u16>, AllocError> {
    ids.as_slice().iter().map(|id| id.get()).collect(alloc)
}

// Reads the root of the second slot, which gets these bytes.
fn read_second<D: SectorDisk>(alloc: Global, disk: &mut D, slot: &[u8]) -> Result<Root, Fail>
    requires whole { length slot.now ≡ 1024 }
    requires room { 4 ≤ D.size disk.old }
    ensures same_size { D.size disk.new ≡ D.size disk.old }
    ensures same_honesty { D.is_honest disk.new ≡ D.is_honest disk.old }
    ensures lawful { IfOk result (λ root. IsLawful (D.size disk.old) root) }
{
    disk.write(2, slot)?;
    let root = read_root(alloc, disk)?;
    Ok(root)
}

// Publishes a root over other bytes. Returns whether the second slot then has these.
fn is_published_as<D: SectorDisk>(disk: &mut D, root: &Root, slot: &[u8]) -> Result<bool, Fail>
    requires unclaimed { D.is_honest disk.old ≡ false }
    requires room { 4 ≤ D.size disk.old }
    requires lawful { IsLawful (D.size disk.old) root.now }
{
    disk.write(2, &[9; 1024])?;
    publish(disk, root)?;
    let mut found = [0; 1024];
    disk.read(2, &mut found)?;
    Ok(found.as_slice() == slot)
}

// Reads a root and publishes it again. Returns the root and whether it has the bytes that it was read from.
fn read_and_published<D: SectorDisk>(
    alloc: Global,
    disk: &mut D,
    slot: &[u8],
) -> Result<(Root, bool), Fail>
    requires whole { length slot.now ≡ 1024 }
    requires unclaimed { D.is_honest disk.old ≡ false }
    requires room { 4 ≤ D.size disk.old }
{
    let root = read_second(alloc, disk, slot)?;
    let is_same = is_published_as(disk, &root, slot)?;
    Ok((root, is_same))
}

fn fields(alloc: Global, root: &Root) -> Result<(Slot, u64, u64, Vec<u16>, Vec<u16>), AllocError> {
    let base = numbers(alloc, &root.base)?;
    let tail = numbers(alloc, &root.tail)?;
    Ok((root.slot, root.epoch, root.base_number, base, tail))
}

// A root is read as these fields.
fn has_fields(
    rt: &impl Abort,
    alloc: Global,
    root: &Root,
    numbered: (u64, u64),
    ids: (&[u16], &[u16]),
) -> Result<(), Fail> {
    let (slot, epoch, base_number, base, tail) = fields(alloc, root)?;
    assert_eq!(rt; (slot, (epoch, base_number)), (Slot::One, numbered));
    assert_eq!(rt; (base.as_slice(), tail.as_slice()), ids);
    Ok(())
}

// A body is read as these fields, and published as it was.
fn goes_round(
    rt: &impl Abort,
    alloc: Global,
    bytes: &[u8],
    numbered: (u64, u64),
    ids: (&[u16], &[u16]),
) -> Result<(), Fail>
    requires { length bytes.now ≤ 512 }
{
    let slot = slot_of(alloc, bytes)?;
    let mut disk = blank(alloc, SECTORS)?;
    let (root, is_same) = read_and_published(alloc, &mut disk, &slot)?;
    assert!(rt; is_same);
    has_fields(rt, alloc, &root, numbered, ids)
}

#[test]
fn a_root_has_the_bytes_of_the_format(rt: HostRuntime) -> Result<(), Fail> {
    goes_round(&rt, rt.alloc(), &FIRST, (1, 0), (&[], &[0]))?;
    goes_round(
        &rt,
        rt.alloc(),
        &LATER,
        (258, (1 << 63) - 1),
        (&[7, 0], &[3]),
    )
}

// The outcome of a reading where a slot has a good body but for these bytes.
fn read_with(
    rt: &impl Abort,
    alloc: Global,
    at: usize,
    bytes: &[u8],
) -> Result<Option<RootFault>, Fail> {
    assert!(rt; at <= 512 && bytes.len() <= 512 - at);
    let mut slot = slot_of(alloc, &LATER)?;
    slot[512 + at..512 + at + bytes.len()].copy_from_slice(bytes);
    let mut disk = blank(alloc, SECTORS)?;
    disk.write(0, &slot)?;
    Ok(read_root(alloc, &mut disk).err())
}

#[test]
fn each_broken_rule_is_a_bad_root(rt: HostRuntime) -> Result<(), Fail> {
    // An offset, bytes there, and whether the body still is one.
    let rows: [(usize, &[u8], bool); 12] = [
        (0, &[0, 0, 0, 2], false),
        (4, &[0, 0, 0, 0, 0, 0, 0, 0], false),
        (4, &[128, 0, 0, 0, 0, 0, 0, 0], false),
        (12, &[128, 0, 0, 0, 0, 0, 0, 0], false),
        // No tail.
        (22, &[0, 0], false),
        // The two tails 0, and the tails 7 and 0.
        (20, &[0, 0, 0, 2, 0, 0, 0, 0], false),
        (20, &[0, 0, 0, 2], true),
        (24, &[0, 8], false),
        // 245 ids pass the sector.
        (20, &[0, 244], false),
        (20, &[255, 255, 255, 255], false),
        // The rest is not looked at.
        (30, &[0, 8], true),
        (511, &[1], true),
    ];
    for (at, bytes, good) in rows {
        let fault = read_with(&rt, rt.alloc(), at, bytes)?;
        assert_eq!(rt;
            fault,
            if good { None } else { Some(RootFault::BadRoot) },
            "{bytes:?} at {at}"
        );
    }
    Ok(())
}

// Writes a slot at this sector, with an open gate and this body, if there is one.
fn write_slot<D: SectorDisk>(
    alloc: Global,
    disk: &mut D,
    at: u64,
    body: Option<&[u8]>,
) -> Result<(), Fail>
    requires { at ≤ 2 }
    ensures same_size { D.size disk.new ≡ D.size disk.old }
    ensures same_honesty { D.is_honest disk.new ≡ D.is_honest disk.old }
{
    let Some(bytes) = body else {
        return Ok(());
    };
    if bytes.len() > 512 || disk.sectors() < 4 {
        return Err("no room for the slot".into());
    }
    let slot = slot_of(alloc, bytes)?;
    disk.write(at, &slot)?;
    Ok(())
}

// The epoch of the root that is read where the slots have these bodies, or why none is.
fn read_both(
    alloc: Global,
    sectors: u64,
    zero: Option<&[u8]>,
    one: Option<&[u8]>,
) -> Result<Result<u64, RootFault>, Fail> {
    let mut disk = blank(alloc, sectors)?;
    write_slot(alloc, &mut disk, 0, zero)?;
    write_slot(alloc, &mut disk, 2, one)?;
    Ok(read_root(alloc, &mut disk).map(|root| root.epoch))
}

// The sectors of a disk, the bodies of its slots, and the epoch of the root that is read.
const SLOTS: [(u64, Option<&[u8]>, Option<&[u8]>, Result<u64, RootFault>); 9] = [
    (SECTORS, Some(&FIRST), None, Ok(1)),
    (SECTORS, None, Some(&FIRST), Ok(1)),
    (SECTORS, Some(&FIRST), Some(&LATER), Ok(258)),
    (SECTORS, Some(&LATER), Some(&FIRST), Ok(258)),
    (SECTORS, Some(&FIRST), Some(&FIRST), Err(RootFault::BadRoot)),
    (SECTORS, Some(&LATER), Some(&[]), Err(RootFault::BadRoot)),
    (SECTORS, None, None, Err(RootFault::NoRoot)),
    // Four sectors have no segment, which a tail could be.
    (4, Some(&FIRST), None, Err(RootFault::BadRoot)),
    (3, None, None, Err(RootFault::NoRoot)),
];

#[test]
fn the_greatest_epoch_counts(rt: HostRuntime) -> Result<(), Fail> {
    for (sectors, zero, one, epoch) in SLOTS {
        let read = read_both(rt.alloc(), sectors, zero, one)?;
        assert_eq!(rt; read, epoch, "{sectors} sectors, {zero:?} and {one:?}");
    }
    Ok(())
}

// The other gate is closed and a root of epoch 259 is published there.
fn replace_root<D: SectorDisk>(disk: &mut D, root: Root) -> Result<(), DiskFault>
    requires unclaimed { D.is_honest disk.old ≡ false }
    requires room { 4 ≤ D.size disk.old }
    requires lawful { IsLawful (D.size disk.old) root }
{
    close_other(disk, &root)?;
    let next = Root {
        slot: root.slot.other(),
        epoch: 259,
        base_number: root.base_number,
        base: root.base,
        tail: root.tail,
    };
    publish(disk, &next)
}

// Writes a root into each slot. Returns the one that counts.
fn with_two<D: SectorDisk>(alloc: Global, disk: &mut D) -> Result<Root, Fail>
    ensures same_size { D.size disk.new ≡ D.size disk.old }
    ensures same_honesty { D.is_honest disk.new ≡ D.is_honest disk.old }
    ensures lawful { IfOk result (λ root. IsLawful (D.size disk.old) root) }
{
    write_slot(alloc, disk, 0, Some(&LATER))?;
    write_slot(alloc, disk, 2, Some(&FIRST))?;
    disk.sync()?;
    let root = read_root(alloc, disk)?;
    Ok(root)
}

// The epoch that is read where a new root is stopped after that many calls of the device, and power then fails.
fn epoch_after(alloc: Global, calls: u64, kind: Crash) -> Result<u64, Fail> {
    let mut disk = blank(alloc, SECTORS)?;
    let root = with_two(alloc, &mut disk)?;
    disk.disk.set(Some(calls));
    let _ = replace_root(&mut disk, root);
    let Unclaimed { disk } = disk;
    let mut disk = disk.into_inner().crash(kind);
    let root = read_root(alloc, &mut disk)?;
    Ok(root.epoch)
}

#[test]
fn a_new_root_that_fails_leaves_the_old_or_the_new(rt: HostRuntime) -> Result<(), Fail> {
    // The fifth call is the write of the open gate, and the sixth its sync.
    for (calls, kept, lost) in [
        (0, 258, 258),
        (1, 258, 258),
        (2, 258, 258),
        (3, 258, 258),
        (4, 258, 258),
        (5, 259, 258),
        (6, 259, 259),
    ] {
        assert_eq!(rt;
            epoch_after(rt.alloc(), calls, Crash::Keep)?,
            kept,
            "{calls}"
        );
        assert_eq!(rt;
            epoch_after(rt.alloc(), calls, Crash::Lose)?,
            lost,
            "{calls}"
        );
    }
    Ok(())
}
