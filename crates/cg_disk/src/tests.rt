//! A crash of a disk in memory, a disk in a file, a disk that fails one call, and a disk with a gated sync.
ghost use Rattle.std.specs.Prelude.{◌≡◌, ◌+◌, ◌*◌, ◌^◌, ◌<◌, ◌≤◌, IfOk, length};

use crate::{Crash, FileDisk, Gate, GateDisk, MemDisk, OnceDisk, SECTOR_BYTES, SectorDisk};
use std::alloc::{AllocError, Global};
use std::fs::{self, File};
use std::io;
use std::process::Abort;

/// `errno` of a write to a file that is open for reading alone (Linux, EBADF).
const BAD_DESCRIPTOR: i32 = 9;

fn sectors(alloc: Global, byte: u8, count: u64) -> Result<Vec<u8>, AllocError>
    requires { count < 2 ^ 32 }
    ensures { IfOk result (λ bytes. length bytes.items ≡ 512 * count) }
{
    vec![in alloc; byte; count as usize * SECTOR_BYTES]
}

// Returns the first byte of each sector of a disk of four.
fn first_bytes<D: SectorDisk>(rt: &impl Abort, alloc: Global, disk: &mut D) -> (u8, u8, u8, u8)
    ensures { D.size disk.new ≡ 4 }
{
    assert_eq!(rt; disk.sectors(), 4);
    let mut bytes = sectors(alloc, 9, 4).expect(rt, "sectors");
    disk.read(0, &mut bytes).expect(rt, "a read");
    (bytes[0], bytes[512], bytes[1024], bytes[1536])
}

// Writes and syncs sector 1, and then writes sectors 1 and 2.
fn write_twice<D: SectorDisk>(rt: &impl Abort, alloc: Global, disk: &mut D)
    requires { 3 ≤ D.size disk.old }
{
    let one = sectors(alloc, 5, 1).expect(rt, "a sector");
    let two = sectors(alloc, 7, 2).expect(rt, "sectors");
    disk.write(1, &one).expect(rt, "a write");
    disk.sync().expect(rt, "a sync");
    disk.write(1, &two).expect(rt, "a write");
}

// Returns a disk whose sector 1 was written and synced, and then sectors 1 and 2 written.
fn written(rt: &impl Abort, alloc: Global) -> MemDisk {
    let mut disk = MemDisk::new(alloc, 4).expect(rt, "a disk");
    assert_eq!(rt; first_bytes(rt, alloc, &mut disk), (0, 0, 0, 0));
    write_twice(rt, alloc, &mut disk);
    assert_eq!(rt; first_bytes(rt, alloc, &mut disk), (0, 7, 7, 0));
    disk
}

// Crashes such a disk, and then once more so that it loses what is not synced. After both it has these bytes.
fn crashes(rt: &impl Abort, alloc: Global, kind: Crash, want: (u8, u8, u8, u8)) {
    let mut disk = written(rt, alloc).crash(kind);
    let after = first_bytes(rt, alloc, &mut disk);
    let mut again = disk.crash(Crash::Lose);
    let after_both = first_bytes(rt, alloc, &mut again);
    assert_eq!(rt; (after, after_both), (want, want), "after {kind:?}");
}

#[test]
fn a_crash_keeps_or_loses_what_is_not_synced(rt: HostRuntime) {
    crashes(&rt, rt.alloc(), Crash::Keep, (0, 7, 7, 0));
    crashes(&rt, rt.alloc(), Crash::Lose, (0, 5, 0, 0));
}

// Fills sectors from position `at` with sevens. Returns whether that succeeded.
fn write_sevens<D: SectorDisk>(
    rt: &impl Abort,
    alloc: Global,
    disk: &mut D,
    at: u64,
    count: u64,
) -> bool
    requires few { count < 2 ^ 32 }
    requires in_range { at + count ≤ D.size disk.old }
    ensures { D.size disk.new ≡ D.size disk.old }
{
    let sevens = sectors(alloc, 7, count).expect(rt, "sectors");
    disk.write(at, &sevens).is_ok()
}

#[test]
fn the_write_that_fails_leaves_ones_and_its_sync_nothing(rt: HostRuntime) {
    let memory = MemDisk::new(rt.alloc(), 4).expect(&rt, "a disk");
    let mut disk = OnceDisk::new(rt.alloc(), memory, 0);
    assert!(rt; !write_sevens(&rt, rt.alloc(), &mut disk, 1, 2));
    assert_eq!(rt; first_bytes(&rt, rt.alloc(), &mut disk), (0, 1, 1, 0));
    disk.set(Some(1));
    assert!(rt; write_sevens(&rt, rt.alloc(), &mut disk, 3, 1));
    assert!(rt; disk.sync().is_err());
    assert_eq!(rt; first_bytes(&rt, rt.alloc(), &mut disk), (0, 1, 1, 7));
    let mut after = disk.into_inner().crash(Crash::Lose);
    assert_eq!(rt; first_bytes(&rt, rt.alloc(), &mut after), (0, 0, 0, 0));
}

#[test]
fn the_read_that_fails_leaves_ones(rt: HostRuntime) {
    let memory = MemDisk::new(rt.alloc(), 4).expect(&rt, "a disk");
    let mut disk = OnceDisk::new(rt.alloc(), memory, 0);
    let mut bytes = sectors(rt.alloc(), 9, 2).expect(&rt, "sectors");
    assert!(rt; disk.read(2, &mut bytes).is_err());
    assert!(rt; bytes.len() == 1024 && bytes.iter().all(|byte| *byte == 1));
    assert!(rt; disk.read(2, &mut bytes).is_ok() && bytes[0] == 0);
}

// Fills the last two sectors of a disk of four that has zeros, and syncs.
fn write_last_two<D: SectorDisk>(rt: &impl Abort, alloc: Global, disk: &mut D) {
    assert_eq!(rt; first_bytes(rt, alloc, disk), (0, 0, 0, 0));
    let bytes = sectors(alloc, 6, 2).expect(rt, "sectors");
    disk.write(2, &bytes).expect(rt, "a write");
    disk.sync().expect(rt, "a sync");
}

// Returns whether a disk can be opened.
fn is_opened(rt: &HostRuntime, path: &str, sectors: Option<u64>) -> bool {
    FileDisk::open(rt, path, sectors).is_ok()
}

#[test]
fn a_file_keeps_what_was_written(rt: HostRuntime) {
    let path = "disk_of_four_sectors";
    let mut made = FileDisk::open(&rt, path, Some(4)).expect(&rt, "a disk");
    write_last_two(&rt, rt.alloc(), &mut made);
    let mut found = FileDisk::open(&rt, path, None).expect(&rt, "a disk");
    assert_eq!(rt; first_bytes(&rt, rt.alloc(), &mut found), (0, 0, 6, 6));
    fs::remove_file(&rt, path).expect(&rt, "a file");
    assert!(rt; !is_opened(&rt, path, None));
    assert!(rt; !is_opened(&rt, path, Some(u64::MAX)));
    assert!(rt; !is_opened(&rt, "no such folder/disk", Some(4)));
}

#[test]
fn a_failed_write_keeps_what_the_system_said(rt: HostRuntime) {
    let path = "disk_without_leave_to_write";
    FileDisk::open(&rt, path, Some(1)).expect(&rt, "a disk");
    let file = File::open(&rt, path).expect(&rt, "a file to read");
    let mut disk = FileDisk::whole(file).expect(&rt, "a disk");
    assert!(rt; disk.sectors() == 1 && disk.last_error().is_none());
    assert!(rt; disk.write(0, &[1; SECTOR_BYTES]).is_err());
    let said = disk.last_error().and_then(io::Error::raw_os_error);
    assert_eq!(rt; said, Some(BAD_DESCRIPTOR));
    fs::remove_file(&rt, path).expect(&rt, "a file");
}

// A gate that returns this value at the first call, and the opposite later.
#[derive(Drop)]
struct Once {
    is_open: bool,
}

impl Gate for Once {
    fn opened(&mut self) -> bool {
        let is_open = self.is_open;
        self.is_open = !is_open;
        is_open
    }
}

// Fills a sector with its number plus one, and syncs. Returns whether the sync succeeded.
fn write_and_sync(
    rt: &impl Abort,
    alloc: Global,
    disk: &mut GateDisk<MemDisk, Once>,
    sector: u8,
) -> bool {
    assert!(rt; sector < 4 && (sector as u64) < disk.sectors());
    let bytes = sectors(alloc, sector + 1, 1).expect(rt, "a sector");
    disk.write(sector as u64, &bytes).expect(rt, "a write");
    disk.sync().is_ok()
}

// Writes and syncs the first sectors of a disk, one sync each, then crashes it. Returns the first byte of each sector.
fn gated(
    rt: &impl Abort,
    alloc: Global,
    syncs: u64,
    is_open: bool,
    written: u8,
    failing: Option<u8>,
) -> (u8, u8, u8, u8) {
    let disk = MemDisk::new(alloc, 4).expect(rt, "a disk");
    let mut disk = GateDisk::new(disk, syncs, Once { is_open });
    for sector in 0..written {
        assert_eq!(rt;
            write_and_sync(rt, alloc, &mut disk, sector),
            failing != Some(sector),
            "sector {sector}, {syncs} syncs"
        );
    }
    first_bytes(rt, alloc, &mut disk.into_inner().crash(Crash::Lose))
}

// Number of syncs before the gated one, whether the gate is open then, how many sectors are written, the one whose sync fails,
// and the first byte of each sector after a crash.
const GATED: &[(u64, bool, u8, Option<u8>, (u8, u8, u8, u8))] = &[
    (0, true, 4, None, (1, 2, 3, 4)),
    (0, false, 1, Some(0), (0, 0, 0, 0)),
    (0, false, 2, Some(0), (1, 2, 0, 0)),
    (1, true, 4, None, (1, 2, 3, 4)),
    (1, false, 2, Some(1), (1, 0, 0, 0)),
    (1, false, 3, Some(1), (1, 2, 3, 0)),
    (2, true, 4, None, (1, 2, 3, 4)),
    (2, false, 3, Some(2), (1, 2, 0, 0)),
    (2, false, 4, Some(2), (1, 2, 3, 4)),
    (4, false, 4, None, (1, 2, 3, 4)),
];

#[test]
fn only_the_gated_sync_depends_on_the_gate(rt: HostRuntime) {
    for &(syncs, is_open, written, failing, want) in GATED {
        assert_eq!(rt;
            gated(&rt, rt.alloc(), syncs, is_open, written, failing),
            want,
            "{syncs} syncs, open: {is_open}, {written} written"
        );
    }
}
