//! The deepest call of each width, and the greatest stamp.
use stamps::{Stamp, StampBits, depth_limit};

#[test]
fn each_width_has_its_limit(rt: HostRuntime) {
    let rows = [
        (StampBits::B8, 84),
        (StampBits::B16, 21844),
        (StampBits::B32, 1_431_655_764),
    ];
    for (bits, limit) in &rows {
        assert_eq!(rt; depth_limit(*bits), *limit, "{bits:?}");
    }
}

fn last<S: Stamp>() -> u32 {
    S::from_number(S::MAX).number()
}

#[test]
fn the_last_stamp_is_of_the_greatest_number(rt: HostRuntime) {
    assert_eq!(rt;
        (last::<u8>(), last::<u16>(), last::<u32>()),
        (255, 65535, u32::MAX)
    );
}
