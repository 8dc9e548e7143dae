//! The calls, shown at sets of two words.

ghost use Rattle.std.specs.Prelude.{◌≡◌, ◌<◌, length, IfOk};

use crate::BitSet;
use std::alloc::{AllocError, Global};
use std::test::Fail;

/// A set of two numbers below 100.
fn pair(alloc: Global, first: u32, second: u32) -> Result<BitSet, AllocError>
    requires first { first < 100 }
    requires second { second < 100 }
    ensures { IfOk result (λ set. length set ≡ 100) }
{
    let mut set = BitSet::new(alloc, 100)?;
    set.insert(first);
    set.insert(second);
    Ok(set)
}

#[test]
fn sets_are_made_and_changed(rt: HostRuntime) -> Result<(), Fail> {
    let mut set = pair(rt.alloc(), 70, 6)?;
    assert_eq!(rt; set.test(70), true);
    assert_eq!(rt; set.test(71), false);
    set.remove(6);
    assert_eq!(rt; set.next_from(0), Some(70));
    assert_eq!(rt; set.next_from(71), None);
    let other = pair(rt.alloc(), 99, 70)?;
    assert_eq!(rt; set.union_with(&other), true);
    assert_eq!(rt; set.union_with(&other), false);
    assert_eq!(rt; set.next_from(71), Some(99));
    set.subtract(&other);
    assert_eq!(rt; set.next_from(0), None);
    set.copy_from(&other);
    assert_eq!(rt; set.next_from(0), Some(70));
    Ok(())
}
