//! Whose turn comes next.

ghost use Rattle.std.specs.Prelude.{◌≡◌, false, slice_index_or};

use its_robin::{Circle, turn_after};
use its_word::{SLOTS, Slot};
use std::process::Abort;
use std::test::Fail;

/// The slots that run.
#[derive(Drop)]
struct Running {
    slots: [bool; SLOTS],
}

impl Circle for Running {
    ghost who_runs = { λ r k. slice_index_or r.slots k false };

    fn running(&self, slot: Slot) -> bool
        ensures runs { result ≡ slice_index_or self.now.slots slot false }
    {
        self.slots[slot.index()]
    }
}

/// Rows of slots that run (1) or not (0; any more do not), the slot of the last turn (in decimal),
/// and whose turn it is (- nobody's).
static TURNS: [(&str, u8, Option<u8>); 12] = [
    ("1", 0, Some(0)),
    ("0", 0, None),
    ("111", 2, Some(0)),
    ("111", 0, Some(1)),
    ("111", 1, Some(2)),
    ("101", 0, Some(2)),
    ("101", 2, Some(0)),
    ("010", 1, Some(1)),
    ("010", 2, Some(1)),
    ("100", 0, Some(0)),
    ("0000", 3, None),
    ("0110", 1, Some(2)),
];

#[test]
fn turns(rt: HostRuntime) -> Result<(), Fail> {
    for (text, last, wanted) in &TURNS {
        assert!(rt; text.len() <= SLOTS && usize::from(*last) < SLOTS);
        let mut circle = Running {
            slots: [false; SLOTS],
        };
        for (k, b) in text.as_bytes().iter().enumerate() {
            circle.slots[k] = *b == b'1';
        }
        let found = turn_after(&circle, Slot::new(*last));
        assert_eq!(rt; found.map(|slot| slot.number()), *wanted);
    }
    let all = Running {
        slots: [true; SLOTS],
    };
    for k in 0..96u8 {
        let found = turn_after(&all, Slot::new(k));
        assert_eq!(rt; found.map(|slot| slot.number()), Some((k + 1) % 96));
    }
    Ok(())
}
