// Sheets, closed and sorted as a caller in C would.
use crate::elimination::minutes_by_elimination;
use crate::order::minutes_by_order;
use crate::rounds::minutes_by_rounds;
use crate::sort::sort_minutes;
use closing::{NO_WAVE, PackageRecord};
use labels::Minutes;

// Two packages, and an arc from 0 to 1 of 5 minutes.
const SHEET: [u8; 28] = [
    2, 0, 0, 0, 20, 0, 0, 0, 8, 0, 0, 0, 28, 0, 0, 0, 0, 0, 0, 0, 1, 0, 0, 0, 5, 0, 0, 0,
];

// The same with an arc back, of 6 minutes.
const LOOP: [u8; 36] = [
    2, 0, 0, 0, 20, 0, 0, 0, 8, 0, 0, 0, 28, 0, 0, 0, 8, 0, 0, 0, 1, 0, 0, 0, 5, 0, 0, 0, 0, 0, 0,
    0, 6, 0, 0, 0,
];

const NONE: Minutes = Minutes { value: u32::MAX };

const OLD: Minutes = Minutes { value: 9 };

// The label of every pair, and then a cell as it was.
const CLOSED: [Minutes; 5] = [NONE, Minutes { value: 5 }, NONE, NONE, OLD];

const OLD_RECORD: PackageRecord = PackageRecord {
    group: 7,
    rank: 7,
    wave: 7,
};

// The records of the first sheet's two groups, and the one that both packages of the loop share.
const FIRST: PackageRecord = PackageRecord {
    group: 0,
    rank: 1,
    wave: NO_WAVE,
};

const SECOND: PackageRecord = PackageRecord {
    group: 1,
    rank: 0,
    wave: NO_WAVE,
};

const BOTH: PackageRecord = PackageRecord {
    group: 0,
    rank: 0,
    wave: NO_WAVE,
};

#[test]
fn by_elimination(rt: HostRuntime) {
    let mut table = [OLD; 5];
    assert_eq!(rt; minutes_by_elimination(&SHEET, &mut table[..3]), 13);
    assert_eq!(rt; minutes_by_elimination(&SHEET[..27], &mut table), 3);
    assert_eq!(rt; table, [OLD; 5]);
    assert_eq!(rt; minutes_by_elimination(&SHEET, &mut table), 0);
    assert_eq!(rt; table, CLOSED);
}

#[test]
fn by_rounds(rt: HostRuntime) {
    let mut table = [OLD; 5];
    let mut changed = [OLD; 4];
    let mut found = [OLD; 4];
    let mut rounds = 7;
    let status = minutes_by_rounds(
        &SHEET,
        &mut table,
        &mut changed,
        &mut found[..3],
        &mut rounds,
    );
    assert_eq!(rt; status, 13);
    let status = minutes_by_rounds(&[], &mut table, &mut changed, &mut found, &mut rounds);
    assert_eq!(rt; status, 2);
    assert_eq!(rt; rounds, 7);
    assert_eq!(rt; table, [OLD; 5]);
    assert_eq!(rt; changed, [OLD; 4]);
    assert_eq!(rt; found, [OLD; 4]);
    let status = minutes_by_rounds(&SHEET, &mut table, &mut changed, &mut found, &mut rounds);
    assert_eq!(rt; status, 0);
    assert_eq!(rt; rounds, 1);
    assert_eq!(rt; table, CLOSED);
}

#[test]
fn by_order(rt: HostRuntime) {
    let mut table = [OLD; 5];
    let mut records = [OLD_RECORD; 3];
    let mut words = [8; 34];
    let status = minutes_by_order(&SHEET, &mut table, &mut records, &mut words[..32]);
    assert_eq!(rt; status, 13);
    let status = minutes_by_order(&SHEET[..27], &mut table, &mut records, &mut words);
    assert_eq!(rt; status, 3);
    assert_eq!(rt; table, [OLD; 5]);
    assert_eq!(rt; records, [OLD_RECORD; 3]);
    assert_eq!(rt; words, [8; 34]);
    let status = minutes_by_order(&SHEET, &mut table, &mut records, &mut words);
    assert_eq!(rt; status, 0);
    assert_eq!(rt; table, CLOSED);
    assert_eq!(rt; records, [FIRST, SECOND, OLD_RECORD]);
}

#[test]
fn loop_by_order(rt: HostRuntime) {
    let mut table = [OLD; 5];
    let mut records = [OLD_RECORD; 3];
    let mut words = [8; 34];
    let status = minutes_by_order(&LOOP, &mut table, &mut records, &mut words);
    assert_eq!(rt; status, 14);
    assert_eq!(rt; table, [OLD; 5]);
    assert_eq!(rt; records, [BOTH, BOTH, OLD_RECORD]);
}

#[test]
fn sort(rt: HostRuntime) {
    let mut records = [OLD_RECORD; 3];
    let mut words = [8; 34];
    let mut groups = 7;
    let status = sort_minutes(&LOOP, &mut records[..1], &mut words, &mut groups);
    assert_eq!(rt; status, 13);
    let status = sort_minutes(&[], &mut records, &mut words, &mut groups);
    assert_eq!(rt; status, 2);
    assert_eq!(rt; groups, 7);
    assert_eq!(rt; records, [OLD_RECORD; 3]);
    assert_eq!(rt; words, [8; 34]);
    let status = sort_minutes(&SHEET, &mut records, &mut words, &mut groups);
    assert_eq!(rt; status, 0);
    assert_eq!(rt; groups, 2);
    assert_eq!(rt; records, [FIRST, SECOND, OLD_RECORD]);
    let status = sort_minutes(&LOOP, &mut records, &mut words, &mut groups);
    assert_eq!(rt; status, 0);
    assert_eq!(rt; groups, 1);
    assert_eq!(rt; records, [BOTH, BOTH, OLD_RECORD]);
}
