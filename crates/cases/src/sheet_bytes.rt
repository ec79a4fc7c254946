// Sheets as bytes: what is read, and what each wrong sheet is refused by.
use crate::checks::check_eq;
use crate::width::Width;
use catalogue::{Catalogue, Make, Refusal, Sheet};
use labels::{Label, Licence, Minutes, Reach};
use paths::Arc;
use std::alloc::{AllocError, Global};
use std::test::Fail;

#[test]
fn reads_a_sheet(rt: HostRuntime) -> Result<(), Fail> {
    let bytes = b"\x02\0\0\0\x14\0\0\0\x08\0\0\0\x1c\0\0\0\0\0\0\0\x01\0\0\0\x05\0\0\0";
    let sheet: Sheet<Minutes> = Sheet::make(bytes)?;
    assert_eq!(rt; sheet.n(), 2);
    assert_eq!(rt; sheet.stock_len(), 1);
    assert_eq!(rt; sheet.places_left(), 0);
    assert!(rt; sheet.sealed());
    assert!(rt; !sheet.is_held(0));
    assert!(rt; !sheet.can_hold());
    let first = Arc {
        from: 0,
        to: 1,
        label: Minutes { value: 5 },
    };
    assert_eq!(rt; sheet.arc_at(0), Some(first));
    assert!(rt; sheet.arc_at(1).is_none());
    Ok(())
}

#[test]
fn refuses_a_byte_more(rt: HostRuntime) {
    let bytes = b"\x02\0\0\0\x14\0\0\0\x08\0\0\0\x1c\0\0\0\0\0\0\0\x01\0\0\0\x05\0\0\0\0";
    let longer: Result<Sheet<Minutes>, _> = Sheet::make(bytes);
    assert_eq!(rt; longer.map(|_| ()), Err(Refusal::BadSize));
}

// The answer to the reading of these words, less the last `cut` bytes.
fn read<K: Label>(
    heap: Global,
    words: &[u32],
    cut: usize,
) -> Result<Result<(), Refusal>, AllocError> {
    let mut bytes: Vec<u8> = words
        .iter()
        .flat_map(|word| word.to_le_bytes())
        .collect(heap)?;
    bytes.truncate(bytes.len().saturating_sub(cut));
    Ok(Sheet::<K>::make(bytes.as_slice()).map(|_| ()))
}

// A sheet's words, the bytes to cut from their end, and the answer.
#[derive(Clone, Copy)]
struct Case<'a> {
    words: &'a [u32],
    cut: usize,
    answer: Result<(), Refusal>,
}

fn gives(words: &[u32], answer: Result<(), Refusal>) -> Case<'_> {
    cut_gives(words, 0, answer)
}

fn cut_gives(words: &[u32], cut: usize, answer: Result<(), Refusal>) -> Case<'_> {
    Case { words, cut, answer }
}

fn check_cases(heap: Global, cases: &[Case]) -> Result<(), Fail> {
    for case in cases {
        check_eq(read::<Minutes>(heap, case.words, case.cut)?, case.answer)?;
    }
    Ok(())
}

#[test]
fn sizes_and_counts(rt: HostRuntime) -> Result<(), Fail> {
    let cases = [
        gives(&[], Err(Refusal::BadSize)),
        // too short before n is read
        cut_gives(&[0], 1, Err(Refusal::BadSize)),
        // n before the table
        gives(&[0], Err(Refusal::BadCount)),
        gives(&[1025], Err(Refusal::BadCount)),
        gives(&[1024], Err(Refusal::BadSize)),
        gives(&[1, 12, 0], Ok(())),
        // the table's length before its pairs
        cut_gives(&[1, 99, 0], 1, Err(Refusal::BadSize)),
        gives(&[2, 99, 8, 28], Err(Refusal::BadSize)),
    ];
    check_cases(rt.alloc(), &cases)
}

#[test]
fn pairs(rt: HostRuntime) -> Result<(), Fail> {
    let cases = [
        gives(&[2, 20, 8, 28, 0, 1, 5], Ok(())),
        // offsets
        gives(&[2, 24, 8, 32, 0, 1, 5], Err(Refusal::BadRun)),
        gives(&[2, 20, 8, 20, 0, 1, 5], Err(Refusal::BadRun)),
        // lengths
        gives(&[2, 20, 4, 24, 0, 1], Err(Refusal::BadRun)),
        gives(&[2, 20, 12, 32, 0, 1, 5, 0], Err(Refusal::BadRun)),
        // runs past the end
        gives(&[2, 20, 16, 36, 0, 1, 5], Err(Refusal::BadRun)),
        gives(&[2, 20, 4294967288, 12, 0, 1, 5], Err(Refusal::BadRun)),
        // pairs before what is after the last run, and before arcs
        cut_gives(&[2, 20, 4, 24, 0, 9, 5, 0], 3, Err(Refusal::BadRun)),
    ];
    check_cases(rt.alloc(), &cases)
}

#[test]
fn arcs(rt: HostRuntime) -> Result<(), Fail> {
    let cases = [
        // bytes after the last run before arcs
        cut_gives(&[2, 20, 8, 28, 0, 1, 5, 0], 3, Err(Refusal::BadSize)),
        cut_gives(&[2, 20, 8, 28, 0, 9, 5, 0], 3, Err(Refusal::BadSize)),
        // target, ends, label
        gives(&[2, 20, 8, 28, 0, 2, 4294967295], Err(Refusal::NoPackage)),
        gives(&[2, 20, 8, 28, 0, 0, 4294967295], Err(Refusal::EqualEnds)),
        gives(&[2, 20, 8, 28, 0, 1, 4294967295], Err(Refusal::LabelNone)),
        // all checks of an arc before those of the next
        gives(
            &[2, 20, 16, 36, 0, 1, 4294967295, 9, 5],
            Err(Refusal::LabelNone),
        ),
        gives(&[2, 20, 16, 36, 0, 0, 5, 9, 5], Err(Refusal::EqualEnds)),
        // the run that an arc stands in gives its other end
        gives(&[2, 20, 0, 20, 8, 1, 5], Err(Refusal::EqualEnds)),
        gives(&[2, 20, 0, 20, 8, 0, 5], Ok(())),
    ];
    check_cases(rt.alloc(), &cases)
}

// Words of the one arc, and the answer to each.
fn check_words<K: Label>(heap: Global, cases: &[(u32, Result<(), Refusal>)]) -> Result<(), Fail> {
    for (word, answer) in cases {
        check_eq(read::<K>(heap, &[2, 20, 8, 28, 0, 1, *word], 0)?, *answer)?;
    }
    Ok(())
}

#[test]
fn words_of_each_kind(rt: HostRuntime) -> Result<(), Fail> {
    let heap = rt.alloc();
    check_words::<Minutes>(
        heap,
        &[
            (0, Ok(())),
            (4294967294, Ok(())),
            (4294967295, Err(Refusal::LabelNone)),
        ],
    )?;
    check_words::<Reach>(
        heap,
        &[
            (0, Err(Refusal::LabelNone)),
            (1, Ok(())),
            (2, Err(Refusal::LabelNone)),
        ],
    )?;
    check_words::<Licence>(heap, &[(0, Ok(())), (4294967295, Err(Refusal::LabelNone))])?;
    check_words::<Width>(heap, &[(0, Err(Refusal::LabelNone)), (4294967295, Ok(()))])
}

// The answer to the reading of a sheet of so many arcs, of which the last has the target `last`.
fn read_many(heap: Global, arcs: u32, last: u32) -> Result<Result<(), Refusal>, AllocError> {
    let length = arcs.wrapping_mul(8);
    let mut words = Vec::new(heap);
    words.extend_from_slice(&[2, 20, length, length.wrapping_add(20), 0])?;
    for _ in 1..arcs {
        words.extend_from_slice(&[1, 5])?;
    }
    words.extend_from_slice(&[last, 5])?;
    read::<Minutes>(heap, words.as_slice(), 0)
}

#[test]
fn most_arcs(rt: HostRuntime) -> Result<(), Fail> {
    let heap = rt.alloc();
    assert_eq!(rt; read_many(heap, 65536, 1)?, Ok(()));
    assert_eq!(rt; read_many(heap, 65536, 2)?, Err(Refusal::NoPackage));
    assert_eq!(rt; read_many(heap, 65537, 2)?, Err(Refusal::BadSize));
    Ok(())
}
