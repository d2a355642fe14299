//! Cases from numbers: the bytes of their texts, and the program that each is.

use gen_case::{flow_sum, make_case, read_case};
use std::alloc::Global;
use std::test::Fail;

/// Each number, with the checksums of its source and of its script, which come from a program of another language, and
/// the sum of the D values of 64 clocks.
const CASES: [(u64, u32, u32, u64); 6] = [
    (0, 464899645, 3720228945, 0),
    (1, 1820927933, 3686698340, 0),
    (18446744073709551615, 3842712058, 4220861419, 0),
    (2, 567392104, 2960753505, 160781),
    (3, 3827383982, 524464644, 616588),
    (8, 3983895261, 47110523, 728493),
];

// The checksum FNV-1a of 32 bits.
fn checksum(bytes: &[u8]) -> u32 {
    let mut sum = 2166136261u32;
    for byte in bytes {
        sum = (sum ^ (*byte as u32)).wrapping_mul(16777619);
    }
    sum
}

#[test]
fn cases_are_written_byte_for_byte(rt: HostRuntime) -> Result<(), Fail> {
    for (number, source, script, _) in &CASES {
        let case = make_case(rt.alloc(), *number)?;
        assert_eq!(rt; checksum(&case.source), *source);
        assert_eq!(rt; checksum(&case.script), *script);
    }
    Ok(())
}

// The sum of the D values of 64 clocks of a case.
fn sum_of(alloc: Global, number: u64) -> Option<u64> {
    match read_case(alloc, number) {
        Ok(read) => flow_sum(alloc, &read.program, &read.script, 64).ok(),
        Err(_) => None,
    }
}

#[test]
fn cases_have_their_sums(rt: HostRuntime) {
    for (number, _, _, sum) in &CASES {
        assert_eq!(rt; sum_of(rt.alloc(), *number), Some(*sum));
    }
}
