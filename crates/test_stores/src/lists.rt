//! Lists of nodes.
ghost use Rattle.std.specs.Prelude.{◌≡◌, ◌+◌, ℕ, length, IfOk};
ghost use Rattle.its_links.specs.Lists.{times, hit};

use its_links::Links;
use its_word::NoMemory;
use std::alloc::Global;
use std::test::Fail;

/// Three lists of nodes below 8: 5 1 7 in the first, 2 in the second, none in the third.
#[tactic(auto, using(its_links::proofs::CountLaws::lists))]
fn some_lists(alloc: Global) -> Result<Links, NoMemory>
    ensures nodes { IfOk result (λ links. links.nodes ≡ 8) }
    ensures heads { IfOk result (λ links. length links.lists ≡ 3) }
    ensures linked { IfOk result (λ links. (x : ℕ) → times x links.lists ≡ hit x 5 + hit x 1 + hit x 7 + hit x 2) }
{
    let mut links = Links::open(alloc, 8, 3)?;
    links.push_back(0, 5);
    links.push_back(0, 1);
    links.push_back(1, 2);
    links.push_back(0, 7);
    Ok(links)
}

#[test]
#[tactic(auto, using(its_links::proofs::CountLaws::lists))]
fn nodes_in_order(rt: HostRuntime) -> Result<(), Fail> {
    let mut links = some_lists(rt.alloc())?;
    assert_eq!(rt; links.front(0), Some(5));
    assert_eq!(rt; links.next(5), Some(1));
    assert_eq!(rt; links.next(1), Some(7));
    assert_eq!(rt; links.next(7), None);
    assert_eq!(rt; links.next(2), None);
    assert!(rt; links.linked(1));
    assert!(rt; !links.linked(3));
    links.seen();
    assert_eq!(rt; links.pop_front(0), Some(5));
    assert_eq!(rt; links.pop_front(0), Some(1));
    assert_eq!(rt; links.pop_front(0), Some(7));
    assert_eq!(rt; links.pop_front(0), None);
    assert_eq!(rt; links.front(2), None);
    assert_eq!(rt; links.front(1), Some(2));
    Ok(())
}

#[test]
#[tactic(auto, using(its_links::proofs::CountLaws::lists))]
fn nodes_leave(rt: HostRuntime) -> Result<(), Fail> {
    // the middle, the first, the only, and with one more the last
    let mut links = some_lists(rt.alloc())?;
    links.unlink(1);
    assert!(rt; !links.linked(1));
    assert_eq!(rt; links.next(5), Some(7));
    links.unlink(5);
    assert_eq!(rt; links.front(0), Some(7));
    links.push_back(0, 1);
    assert_eq!(rt; links.next(7), Some(1));
    links.unlink(1);
    assert_eq!(rt; links.next(7), None);
    links.unlink(7);
    assert_eq!(rt; links.front(0), None);
    assert_eq!(rt; links.front(1), Some(2));
    Ok(())
}

#[test]
fn lists_are_joined(rt: HostRuntime) -> Result<(), Fail> {
    let mut links = some_lists(rt.alloc())?;
    // an empty list after another, and a list after an empty one
    links.splice(2, 1);
    assert_eq!(rt; links.front(1), Some(2));
    assert_eq!(rt; links.next(2), None);
    links.splice(1, 2);
    assert_eq!(rt; links.front(1), None);
    assert_eq!(rt; links.front(2), Some(2));
    links.splice(0, 2);
    assert_eq!(rt; links.pop_front(2), Some(2));
    assert_eq!(rt; links.pop_front(2), Some(5));
    assert_eq!(rt; links.pop_front(2), Some(1));
    assert_eq!(rt; links.pop_front(2), Some(7));
    assert_eq!(rt; links.pop_front(2), None);
    assert_eq!(rt; links.front(0), None);
    Ok(())
}
