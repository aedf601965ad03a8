//! To how many slots a file is raised: rows that were worked out by hand.
use lz_growth::next_count;
use lz_slot::MOST_SLOTS;
use std::test::Fail;

// The greatest number that differs in one byte, up to one more than twice as many and up to the most.
const ROWS: [(u64, u64, Option<u64>); 23] = [
    (3, 5, Some(5)),
    (100, 150, Some(150)),
    // 256 to 400 differ in two bytes: c8 and 01 00
    (200, 1_000, Some(255)),
    // ff, 01 ff
    (255, 1_000, Some(511)),
    (255, 511, Some(511)),
    (255, 510, None),
    (255, 300, None),
    // 01 00, 01 2c
    (256, 300, Some(300)),
    (65_536, MOST_SLOTS, Some(131_072)),
    // ff ff, 01 ff ff
    (65_535, MOST_SLOTS, Some(131_071)),
    // 80 00 00, ff 00 00: twice as many, 01 00 00 00, differs in two bytes
    (8_388_608, MOST_SLOTS, Some(16_711_680)),
    // ff 00 00, ff ff 00, ff ff ff
    (16_711_680, MOST_SLOTS, Some(16_776_960)),
    (16_776_960, MOST_SLOTS, Some(16_777_215)),
    (16_777_215, MOST_SLOTS, None),
    // no file has more than 16,777,216 slots
    (8_388_608, u64::MAX, Some(16_711_680)),
    (16_777_215, u64::MAX, None),
    (5, 5, None),
    (5, 4, None),
    (0, 9, None),
    // one more than twice as many: 3, ff, 03 ff ff
    (1, 100, Some(3)),
    (1, 2, Some(2)),
    (127, 1_000, Some(255)),
    (131_071, MOST_SLOTS, Some(262_143)),
];

#[test]
fn the_next_count_is_one_byte_away(rt: HostRuntime) -> Result<(), Fail> {
    for (from, most, to) in ROWS {
        assert_eq!(rt; next_count(from, most), to, "from {from}, up to {most}");
    }
    Ok(())
}
