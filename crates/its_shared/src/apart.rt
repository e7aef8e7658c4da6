//! Whether words of a call are apart from each other and from those that it reads, by one look at
//! all of these.
ghost use Rattle.std.specs.Prelude.{◌≡◌, ◌||◌, true, false, not};
ghost use Rattle.std.specs.List.{list_any};
ghost use Rattle.its_plain.specs.Call.Basic.{shared_place};
ghost use Rattle.its_plain.specs.Call.Footprint.{in_footprint, is_shared};
ghost use Rattle.its_shared.specs.Apart.{are_apart, are_places_apart, are_unlike, is_met};

use its_records::Ask;

/// Whether the words of two arguments and a third word are seen to be apart: the two have words of
/// their own, and the third one is none that the call reads. It is false too for a call with more
/// than three words of arguments, at which this does not look.
#[inline(always)]
pub fn are_apart(ask: &Ask, p: Option<u32>, k: Option<u32>, n: u32) -> bool
    ensures value { result ≡ are_apart ask.now p k n }
    ensures shared { result ≡ true → (shared_place ask.now p || shared_place ask.now k) ≡ false }
    ensures read { result ≡ true → in_footprint n ask.now ≡ false }
{
    match (p, k) {
        (Some(p), Some(k)) => are_places_apart(ask, p, k, n),
        _ => false,
    }
}

/// Whether two places are apart and a third one is none that the call reads; false if the call has
/// more than three words of arguments.
#[inline(always)]
#[tactic(auto, using(crate::proofs::ApartLaws::unshared, crate::proofs::ApartLaws::unread))]
fn are_places_apart(ask: &Ask, p: u32, k: u32, n: u32) -> bool
    ensures value { result ≡ are_places_apart ask.now p k n }
    ensures shared { result ≡ true → (is_shared p ask.now || is_shared k ask.now) ≡ false }
    ensures read { result ≡ true → in_footprint n ask.now ≡ false }
{
    are_unlike(&ask.operand, n) && is_none_of(&ask.decode, p, k, n)
}

/// Whether three places are none of some. Six is the number of the decode words of SIOT if no
/// address is indirect.
#[inline(always)]
fn is_none_of(places: &[u32], p: u32, k: u32, n: u32) -> bool
    ensures { result ≡ not (list_any (is_met p k n) places.now) }
{
    match places {
        [a, b, c, d, e, f] => {
            if is_met(*a, p, k, n) || is_met(*b, p, k, n) || is_met(*c, p, k, n) {
                return false;
            }
            if is_met(*d, p, k, n) || is_met(*e, p, k, n) || is_met(*f, p, k, n) {
                return false;
            }
            true
        }
        _ => !has_one_of(places, p, k, n),
    }
}

/// Whether one of three places is among some.
#[inline(never)]
fn has_one_of(places: &[u32], p: u32, k: u32, n: u32) -> bool
    ensures { result ≡ list_any (is_met p k n) places.now }
{
    places.iter().any(|q| is_met(*q, p, k, n))
}

/// Whether a place is one of three.
#[inline(always)]
fn is_met(place: u32, p: u32, k: u32, n: u32) -> bool
    ensures { result ≡ is_met p k n place }
{
    place == p || place == k || place == n
}

/// Whether two or three places differ from each other and from another one.
#[inline(always)]
fn are_unlike(places: &[u32], n: u32) -> bool
    ensures { result ≡ are_unlike places.now n }
{
    match places {
        [a, b] => *a != *b && *a != n && *b != n,
        [a, b, c] => *a != *b && *a != *c && *b != *c && *a != n && *b != n && *c != n,
        _ => false,
    }
}
