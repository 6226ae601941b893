//! What no clause says: that each call on boxes succeeds with ample memory.
use crate::{Bench, Failing, Given, Recorded, Supply, Worst};
use msp430_machine::Refill;
use std::alloc::Global;
use std::test::Fail;

fn keeping(amount: u64) -> Refill {
    Refill {
        amount,
        keep: true,
        junk: 0,
    }
}

fn losing(amount: u64, junk: u16) -> Refill {
    Refill {
        amount,
        keep: false,
        junk,
    }
}

fn recorded(alloc: Global, refills: &[Refill]) -> Result<Recorded, Fail> {
    let mut recorded = Recorded::new(alloc);
    let loaded = recorded.load(Vec::from_slice(alloc, refills)?);
    if loaded.is_err() {
        return Err(Fail::from(std::alloc::AllocError));
    }
    Ok(recorded)
}

#[test]
fn boxes_are_asked_in_order(rt: HostRuntime) -> Result<(), Fail> {
    let alloc = rt.alloc();
    let one = [losing(1, 2)];
    let three = [keeping(3), keeping(4), keeping(5)];
    let failing = Failing::new(Vec::from_slice(alloc, &three)?, vec![in alloc; 1, 3]?);
    let mut boxes: Vec<Box<dyn Supply>> = Vec::new(alloc);
    boxes.push(Box::new(alloc, Recorded::new(alloc))?)?;
    boxes.push(Box::new(alloc, recorded(alloc, &one)?)?)?;
    boxes.push(Box::new(alloc, Worst::new(alloc, keeping(6), 0))?)?;
    boxes.push(Box::new(alloc, failing)?)?;
    boxes.push(Box::new(alloc, Worst::new(alloc, keeping(7), 2))?)?;
    let mut bench = Bench::new(boxes);
    let answers = [
        (Given::Row(losing(1, 2)), 4),
        (Given::Failed, 2),
        (Given::Row(keeping(3)), 2),
        (Given::Failed, 2),
        (Given::Row(keeping(4)), 2),
        (Given::Row(keeping(5)), 2),
        (Given::Row(keeping(7)), 1),
    ];
    for (given, left) in answers {
        assert_eq!(rt; bench.next(), given);
        assert_eq!(rt; bench.left(), left);
    }
    let spare: Box<dyn Supply> = Box::new(alloc, recorded(alloc, &one)?)?;
    let Ok(mut old) = bench.replace_front(spare) else {
        return Err(Fail::from(std::alloc::AllocError));
    };
    assert_eq!(rt; old.refill(), Given::Row(keeping(7)));
    assert_eq!(rt; bench.next(), Given::Row(losing(1, 2)));
    assert!(rt; bench.take_front().is_some());
    assert!(rt; bench.take_front().is_none());
    assert_eq!(rt; bench.next(), Given::Ended);
    assert!(rt; bench.replace_front(old).is_err());
    assert_eq!(rt; bench.boxes().len(), 0);
    Ok(())
}
