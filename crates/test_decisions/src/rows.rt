//! Rows in which calls of slot 1 and their decisions are written. A number is octal, or a name in
//! SIXBIT.

use super::caller::exit;
use arrayvec::ArrayVec;
use its_frame::{CallName, Change, Decision, Exit, Held, Opened, Store, Wait};
use its_records::{Ask, Operand};
use its_word::{Word, read_octal, read_sixbit};
use std::process::Abort;

/// The number that a word of a row writes; 0 if there is no word.
pub(super) fn number(rt: &impl Abort, text: Option<&str>) -> Word {
    let Some(word) = text else {
        return Word::ZERO;
    };
    match read_octal(word.as_bytes()) {
        Ok(number) => number,
        Err(_) => read_sixbit(word.as_bytes())
            .ok()
            .expect(rt, "octal digits or a name"),
    }
}

/// The low bits of such a number.
pub(super) fn small(rt: &impl Abort, text: Option<&str>) -> u8 {
    (number(rt, text).value() % 256) as u8
}

/// The slot that a word of a row writes; None for `-`.
pub(super) fn slot_or_none(rt: &impl Abort, text: Option<&str>) -> Option<u8> {
    match text {
        Some("-") => None,
        digits => Some(small(rt, digits)),
    }
}

/// A call by its name.
pub(super) fn call(rt: &impl Abort, name: Option<&str>) -> CallName {
    CallName::named(number(rt, name)).expect(rt, "a call")
}

/// An input, `value@place` if its word has a place.
fn operand(rt: &impl Abort, text: &str) -> Operand {
    let mut parts = text.split('@');
    let value = number(rt, parts.next());
    let place = match parts.next() {
        Some(digits) => Some((number(rt, Some(digits)).value() % 0o10000000) as u32),
        None => None,
    };
    Operand { value, place }
}

/// A call of slot 1 with these inputs. Its error address is 300, its output or the word of `.IOT`
/// is at 310, and 330 is a decode word.
pub(super) fn ask(rt: &impl Abort, name: CallName, inputs: &str) -> Ask {
    let mut ask = Ask {
        name: name.word(),
        fail: 0,
        inputs: ArrayVec::new(),
        outputs: ArrayVec::new(),
        error: Some(0o300),
        control: None,
        decode: ArrayVec::new(),
        operand: ArrayVec::new(),
    };
    assert!(rt; ask.decode.try_push(0o330).is_ok());
    assert!(rt; ask.outputs.try_push(0o310).is_ok());
    for text in inputs.split_whitespace() {
        let operand = operand(rt, text);
        let place = operand.place;
        assert!(rt; ask.inputs.try_push(operand).is_ok());
        if let Some(p) = place {
            assert!(rt; ask.operand.try_push(p).is_ok());
        }
    }
    ask
}

/// A call that ends with at most one change and one store.
pub(super) fn ends(change: Option<Change>, store: Option<(u32, Word)>, exit: Exit) -> Decision {
    let mut changes = ArrayVec::new();
    if let Some(c) = change {
        changes.push(c);
    }
    let mut stores = ArrayVec::new();
    if let Some((at, word)) = store {
        stores.push(Store { at, word });
    }
    Decision::Ends {
        changes,
        stores,
        exit,
    }
}

/// A call of which a part is done, with at most one change and two new arguments.
fn goes(change: Option<Change>, held: Option<Held>, first: Word, second: Option<Word>) -> Decision {
    let mut changes = ArrayVec::new();
    if let Some(c) = change {
        changes.push(c);
    }
    let mut values = ArrayVec::new();
    values.push(first);
    if let Some(word) = second {
        values.push(word);
    }
    Decision::Goes {
        changes,
        held,
        values,
    }
}

/// What a call waits for, if it is a console's then for console 3.
fn waits(reason: Option<&str>) -> Decision {
    Decision::Waits(match reason {
        Some("clock") => Wait::Clock,
        Some("input") => Wait::Input(3),
        Some("output") => Wait::Output(3),
        Some("drained") => Wait::Drained(3),
        _ => Wait::Hang,
    })
}

/// The decision that a row gives for its call: its kind and at most three numbers.
pub(super) fn wanted(rt: &impl Abort, text: &str) -> Decision {
    let mut words = text.split_whitespace();
    let kind = words.next().expect(rt, "what it comes to");
    if kind == "waits" {
        return waits(words.next());
    }
    let first = number(rt, words.next());
    let (pointer, count) = (number(rt, words.next()), number(rt, words.next()));
    match kind {
        "sleeps" => goes(None, None, first, None),
        "takes" => goes(
            Some(Change::Take { console: 3 }),
            Some(taken(first)),
            pointer,
            Some(count),
        ),
        "puts" => goes(Some(put(first)), None, pointer, Some(count)),
        _ => ended(kind, first),
    }
}

/// The decision that ends a call, by its kind and a number.
fn ended(kind: &str, number: Word) -> Decision {
    match kind {
        "fails" => ends(None, Some((0o300, number)), exit(0o201, 0)),
        "faults" => ends(None, None, exit(0o200, number.value())),
        "gives" => ends(None, Some((0o310, number)), exit(0o202, 0)),
        "stores" => ends(
            Some(Change::Take { console: 3 }),
            Some((number.right(), Word::new(0o301))),
            exit(0o201, 0),
        ),
        "shows" => ends(Some(put(number)), None, exit(0o201, 0)),
        _ => ends(change(kind, number), None, exit(0o202, 0)),
    }
}

/// The byte 301, which was taken and is not yet stored at a place.
fn taken(place: Word) -> Held {
    Held {
        place: place.right(),
        byte: Word::new(0o301),
    }
}

/// A byte is put out at console 3.
fn put(byte: Word) -> Change {
    Change::Put {
        console: 3,
        byte: (byte.value() % 256) as u8,
    }
}

/// What a call that finishes changes.
fn change(kind: &str, number: Word) -> Option<Change> {
    let small = (number.value() % 256) as u8;
    match kind {
        "opens" => Some(Change::Open {
            channel: small,
            on: Opened::TtyIn,
        }),
        "holds" => Some(Change::Hold {
            console: 3,
            slot: small,
        }),
        _ => None,
    }
}
