//! Rows of numbers, good and bad, of every kind.
use frame::{Message, ROW, Refusal, read_then_write};
use std::test::*;

const LARGEST: u64 = (1 << 49) - 1;

const GOOD: [&'static [u64]; 12] = [
    &[0, 0, 1, 0, 0, 7],
    &[0, LARGEST, LARGEST, LARGEST, LARGEST, LARGEST],
    &[1, 0, 1, 0, 0, 7, 1, 1, 3],
    &[2, 1, 0, 0, 1, 0, 0, 7, 1, 1, 3],
    &[3, 0, 1, 0, 0, 7, 1, 1, 3],
    &[4, 1, 2, 0, 0, 1, 0, 0, 7, 1, 1, 3],
    &[
        4, LARGEST, LARGEST, LARGEST, LARGEST, LARGEST, LARGEST, LARGEST, LARGEST, LARGEST,
        LARGEST, LARGEST,
    ],
    &[5, 0, 0, 42, 0, 1, 0, 0, 7, 1, 1, 3],
    &[5, 1, 0, 42, 0, 1, 0, 0, 7, 1, 1, 3],
    &[6, 0, 1, 0, 42],
    &[6, 254, LARGEST, LARGEST, LARGEST],
    &[6, 0, 0, 0, 0],
];

const BAD: [&'static [u64]; 18] = [
    &[],
    // unknown kinds
    &[7, 0, 1, 0, 0],
    &[7],
    &[LARGEST, 0, 1, 0, 0, 7],
    // a number short or a number more, kind by kind
    &[0, 0, 1, 0, 0],
    &[0, 0, 1, 0, 0, 7, 0],
    &[1, 0, 1, 0, 0, 7, 1, 1],
    &[1, 0, 1, 0, 0, 7, 1, 1, 3, 0],
    &[2, 1, 0, 0, 1, 0, 0, 7, 1, 1],
    &[2, 1, 0, 0, 1, 0, 0, 7, 1, 1, 3, 0],
    &[3, 0, 1, 0, 0, 7, 1, 1],
    &[4, 1, 2, 0, 0, 1, 0, 0, 7, 1, 1],
    &[5, 0, 0, 42, 0, 1, 0, 0, 7, 1, 1, 3, 0],
    &[6, 0, 1, 0],
    &[6, 0, 1, 0, 42, 0],
    // a flag above 1
    &[5, 2, 0, 42, 0, 1, 0, 0, 7, 1, 1, 3],
    // a number of 2^49 or more
    &[6, 0, 1, 0, LARGEST + 1],
    &[0, 0, 1, 0, 0, u64::MAX],
];

#[test]
fn good_rows_are_written_back(rt: HostRuntime) -> Result<(), Fail> {
    for row in GOOD {
        let Ok(again) = read_then_write(row) else {
            return Err(Fail::new("a good row was refused"));
        };
        let len = again.len();
        assert!(rt; len == row.len() && len <= ROW);
        assert!(rt; again.as_slice() == row);
        for nought in &again.padded()[len..] {
            assert!(rt; *nought == 0);
        }
    }
    Ok(())
}

#[test]
fn bad_rows_are_refused(rt: HostRuntime) -> Result<(), Fail> {
    for row in BAD {
        match Message::read(row) {
            Ok(_) => return Err(Fail::new("a bad row was read")),
            Err(refusal) => assert!(rt; refusal == Refusal::NoMessage && u32::from(refusal) == 1),
        }
    }
    Ok(())
}
