//! Pages, words and effective addresses.

ghost use Rattle.std.specs.Prelude.{◌≡◌, ◌≢◌, ℕ, Some, None};
ghost use Rattle.its_core.specs.Cores.{core_at, reserved_at, clear_at};
ghost use Rattle.its_word.specs.Core.{page_of};

use arrayvec::ArrayVec;
use its_core::{Address, Core, Fault, NoAccess, NoMemory};
use its_word::{Slot, Word};
use std::alloc::Global;
use std::test::Fail;

/// Reserves a page for a slot, and clears it.
#[tactic(auto, using(its_core::proofs::CoresLaws::same_core_at))]
fn clear_page(core: &mut Core, slot: Slot)
    requires none { reserved_at core.old slot ≡ None }
    ensures clear { clear_at core.new slot ≡ Some 4 }
    ensures cores { (k : ℕ) → core_at core.new k ≡ core_at core.old k }
    ensures others { (k : ℕ) → k ≢ slot → reserved_at core.new k ≡ reserved_at core.old k }
{
    core.reserve(slot);
    core.clear_quarter(slot, 0);
    core.clear_quarter(slot, 1);
    core.clear_quarter(slot, 2);
    core.clear_quarter(slot, 3);
}

#[test]
#[tactic(auto, using(its_word::proofs::PageLaws::empty_slot))]
fn pages_come_and_go(rt: HostRuntime) -> Result<(), Fail> {
    let mut core = Core::open(rt.alloc())?;
    let (from, slot) = (Slot::new(3), Slot::new(5));
    let w = Word::new(0o123456701234);
    assert_eq!(rt; core.get(slot, 0o2000), Err(NoAccess::Absent));
    clear_page(&mut core, from);
    assert_eq!(rt; core.map(from, slot, 1), Ok(()));
    assert_eq!(rt; core.page(slot, 1), Some(true));
    assert_eq!(rt; core.mapped(), 1);
    assert_eq!(rt; core.put(slot, 0o3777, w), Ok(()));
    assert_eq!(rt; core.get(slot, 0o3777), Ok(w));
    assert_eq!(rt; core.get(slot, 0o3776), Ok(Word::ZERO));
    assert_eq!(rt; core.put(slot, 0o4000, w), Err(NoAccess::Absent));
    assert!(rt; core.page(slot, 1).is_some());
    core.protect(slot, 1, false);
    assert_eq!(rt; core.page(slot, 1), Some(false));
    assert_eq!(rt; core.put(slot, 0o3776, w), Err(NoAccess::ReadOnly));
    assert_eq!(rt; core.get(slot, 0o3777), Ok(w));
    assert_eq!(rt; core.put(slot, 0o17, w), Ok(()));
    assert_eq!(rt; core.get(slot, 0o17), Ok(w));
    assert!(rt; core.page(slot, 1).is_some());
    core.unmap(slot, 1);
    assert_eq!(rt; core.get(slot, 0o3777), Err(NoAccess::Absent));
    assert_eq!(rt; core.mapped(), 0);
    core.drop_all(slot);
    assert_eq!(rt; core.get(slot, 0o17), Ok(Word::ZERO));
    Ok(())
}

/// Core with page 0 of slot 0 present; accumulator 1 has -2, accumulator 2 has 5.
#[tactic(auto, using(its_word::proofs::PageLaws::empty_slot))]
fn small_core(alloc: Global) -> Result<Core, NoMemory> {
    let mut core = Core::open(alloc)?;
    let slot = Slot::new(0);
    clear_page(&mut core, slot);
    let _ = core.map(slot, slot, 0);
    for (a, w) in [
        (0o1, 0o777777777776),
        (0o2, 0o5),
        (0o300, 0o400),
        (0o301, 0o22000310),
        (0o315, 0o500),
    ] {
        let _ = core.put(slot, a, Word::new(w));
    }
    Ok(core)
}

#[test]
fn address_words(rt: HostRuntime) -> Result<(), Fail> {
    let core = small_core(rt.alloc())?;
    let last = |w: u64| Some(Word::new(w));
    let rows: [(u64, u32, Option<Word>, &[u32], u32); 8] = [
        // direct
        (0o123, 0o123, None, &[], 0),
        // indexed by a negative index
        (0o1000200, 0o176, last(0o777777777776), &[1], 0),
        // indirect, through a page and through an accumulator
        (0o20000300, 0o400, last(0o400), &[0o300], 1),
        (0o20000002, 0o5, last(0o5), &[2], 1),
        // both, the indirect word direct and in turn both
        (0o22000273, 0o400, last(0o400), &[2, 0o300], 1),
        (0o20000301, 0o500, last(0o500), &[0o301, 2, 0o315], 2),
        // wrapping at 1000000
        (0o2777776, 0o3, last(0o5), &[2], 0),
        // opcode and accumulator of an instruction make no difference
        (0o200042000300, 0o305, last(0o5), &[2], 0),
    ];
    for (w, e, flags_word, places, spent) in rows {
        let mut used = 3;
        let mut reads = ArrayVec::new();
        let got = core.address(Slot::FIRST, Word::new(w), &mut used, &mut reads);
        assert_eq!(rt; got, Ok(Address { e, flags_word }), "at {w}");
        assert_eq!(rt; reads.as_slice(), places, "at {w}");
        assert_eq!(rt; used - 3, spent, "at {w}");
    }
    Ok(())
}

#[test]
fn chains(rt: HostRuntime) -> Result<(), Fail> {
    let mut core = small_core(rt.alloc())?;
    for a in 0o200..0o277 {
        assert_eq!(rt;
            core.put(Slot::FIRST, a, Word::new(0o20000001 + u64::from(a))),
            Ok(())
        );
    }
    let w = Word::new(0o20000200);
    for (end, want) in [
        (
            0o300,
            Ok(Address {
                e: 0o300,
                flags_word: Some(Word::new(0o300)),
            }),
        ),
        (0o20000300, Err(Fault::Ilo)),
    ] {
        assert_eq!(rt; core.put(Slot::FIRST, 0o277, Word::new(end)), Ok(()));
        let mut used = 0;
        let mut reads = ArrayVec::new();
        assert_eq!(rt; core.address(Slot::FIRST, w, &mut used, &mut reads), want);
        assert_eq!(rt; used, 64);
        assert_eq!(rt; reads.len(), 64);
    }
    let mut used = 64;
    let mut reads = ArrayVec::new();
    assert_eq!(rt;
        core.address(Slot::FIRST, w, &mut used, &mut reads),
        Err(Fault::Ilo)
    );
    assert!(rt; reads.is_empty());
    used = 5;
    let absent = Word::new(0o20002000);
    assert_eq!(rt;
        core.address(Slot::FIRST, absent, &mut used, &mut reads),
        Err(Fault::Mpv)
    );
    Ok(())
}
