//! Lists of numbers of all widths, their room, which is used again, and the width of literals and what they print as.
use crate::tables::assert_numbers;
use lj_clause::{Lit, NoMemory};
use lj_text::Numbers;
use std::alloc::{AllocError, Global};
use std::process::Abort;
use std::test::Fail;

/// The least number that has no room in four bytes.
const LONG: u64 = 4_294_967_296;

/// The numbers as they are pushed into a list whose room is used again, and a copy of its own of them.
fn pushed(rt: &impl Abort, scratch: &mut Numbers, numbers: &[u64]) -> Result<Numbers, Fail> {
    scratch.clear();
    assert!(rt; scratch.is_empty());
    for number in numbers {
        scratch.push(*number)?;
    }
    Ok(scratch.try_clone()?)
}

fn assert_are(rt: &impl Abort, numbers: &Numbers, wanted: &[u64; 3]) {
    assert_numbers(rt, numbers, wanted);
    assert!(rt; numbers.get(1) == Some(wanted[1]) && numbers.get(3).is_none());
}

fn assert_widths(rt: &impl Abort, alloc: Global) -> Result<(), Fail> {
    let mut scratch = Numbers::with_capacity(alloc, 9)?;
    for wanted in [
        [1, 7, LONG - 1],
        [1, LONG, 7],
        [LONG / 2, LONG, LONG - 1],
        [7, 1, 1],
    ] {
        let pushed = pushed(rt, &mut scratch, &wanted)?;
        assert_are(rt, &pushed, &wanted);
        assert_are(rt, &Numbers::from_slice(alloc, &wanted)?, &wanted);
        assert_are(rt, &Numbers::new(pushed.to_vec()?).try_clone()?, &wanted);
    }
    Ok(())
}

#[test]
fn literals_take_four_bytes_and_print_as_numbers(rt: HostRuntime) -> Result<(), Fail> {
    let not_three = Lit::of(3, true);
    let refused = NoMemory::from(AllocError);
    let text = format!(in rt.alloc(); "{not_three} {not_three:?} {refused} {refused:?}")?;
    assert_eq!(rt; text.as_str(), "-3 -3 NoMemory NoMemory");
    assert_eq!(rt; size_of::<Lit>(), 4);
    Ok(())
}

#[test]
fn numbers_of_all_widths(rt: HostRuntime) -> Result<(), Fail> {
    assert_widths(&rt, rt.alloc())
}
