//! Names, numbers and words as text.

use its_word::{BadName, BadOctal, Word, read_octal, read_sixbit};

/// Names and their SIXBIT words, as the tables of the monitor give them.
const NAMES: &str = "OPEN 576045560000
CLOSE 435457634500
SIOT 635157640000
SLEEP 635445456000
HANG 504156470000
DISMIS 445163555163
USRVAR 656362664162
USRMEM 656362554555
CORBLK 435762425453
ACCESS 414343456363
TTY 646471000000
DSK 446353000000
USR 656362000000
MASK 554163530000
UPC 656043000000
USTP 656364600000";

#[test]
fn names(rt: HostRuntime) {
    for row in NAMES.split('\n') {
        let (name, word) = row.split_once(" ").unwrap_or((row, ""));
        let named = read_sixbit(name.as_bytes()).ok();
        assert_eq!(rt; named, read_octal(word.as_bytes()).ok(), "{name}");
    }
    for text in "OPENING,A B,open,\u{7f},".split(',') {
        assert_eq!(rt; read_sixbit(text.as_bytes()), Err(BadName), "{text}");
    }
}

/// Numbers, and how the word of each is printed.
const NUMBERS: &str = "0 000000000000
17 000000000017
000000000017 000000000017
123 000000000123
777777777777 777777777777";

#[test]
fn numbers(rt: HostRuntime) {
    assert_eq!(rt; read_octal(b"17"), Ok(Word::new(15)));
    for row in NUMBERS.split('\n') {
        let (text, printed) = row.split_once(" ").unwrap_or((row, ""));
        let word = read_octal(text.as_bytes()).unwrap_or(Word::ZERO);
        assert_eq!(rt; word.octal12().as_slice(), printed.as_bytes(), "{text}");
    }
    for text in "8,-1,1 ,0000000000001,".split(',') {
        assert_eq!(rt; read_octal(text.as_bytes()), Err(BadOctal), "{text}");
    }
}
