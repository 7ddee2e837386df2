//! The number of segments at its limits.
use crate::segment_count;

#[test]
fn a_disk_has_whole_segments_up_to_the_greatest_number(rt: HostRuntime) {
    for (sectors, segments) in [
        (0, 0),
        (2051, 0),
        (2052, 1),
        (4 + 200 * 2048, 200),
        (u64::MAX, 200),
    ] {
        assert_eq!(rt; segment_count(sectors), segments);
    }
}
