// Checksums of files.

use lsm_tables::{Checksum, sums_of_parts};

fn sum(bytes: &[u8]) -> u128 {
    Checksum::of(bytes).into_u128()
}

/// The sum, byte by byte.
fn plain_sum(bytes: &[u8]) -> u128 {
    let mut total = 0u128;
    for byte in bytes {
        total = total
            .wrapping_mul(1_099_511_628_211)
            .wrapping_add(*byte as u128 + 1);
    }
    total
}

/// Bytes and their sums.
const ROWS: [(&[u8], u128); 5] = [
    (b"", 0),
    (b"\0", 1),
    (b"\0\0", 1_099_511_628_212),
    (b"a", 98),
    (b"ab", 107_752_139_564_777),
];

#[test]
fn rows(rt: HostRuntime) {
    for (bytes, wanted) in &ROWS {
        assert!(rt; sum(bytes) == *wanted, "{wanted}");
    }
}

#[test]
fn parts_side_by_side(rt: HostRuntime) {
    let bytes = b"nineteen bytes long";
    assert!(rt; sum(bytes) == plain_sum(bytes));
    sums_of_parts();
}

#[test]
fn kept_as_a_number(rt: HostRuntime) {
    assert!(rt; Checksum::from_raw(98) == Checksum::of(b"a"));
}
