//! A call is entered and left, again and again in one place. Numbers are octal.

use arrayvec::ArrayVec;
use its_in_call::{Call, View};
use its_records::Site;
use std::process::Abort;
use std::test::Fail;

/// A site at 17 whose decode words are at these places.
fn site(places: &[u32]) -> Site {
    let mut decode = ArrayVec::new();
    for p in places {
        let _full = decode.try_push(*p);
    }
    Site {
        pc: 0o17,
        e: 0,
        channel: None,
        used: 0,
        decode,
    }
}

#[test]
fn entered_and_left(rt: HostRuntime) -> Result<(), Fail> {
    let mut call = Call::none();
    for places in [[0o17, 0o20].as_slice(), [0o17].as_slice()] {
        assert!(rt; matches!(call.view(), View::User));
        assert!(rt; !call.is_some());
        call.enter(site(places));
        assert!(rt; call.is_some());
        match call.view() {
            View::Entered { site } => assert_eq!(rt; site.decode.as_slice(), places),
            _ => rt.abort(),
        }
        call.leave();
    }
    Ok(())
}
