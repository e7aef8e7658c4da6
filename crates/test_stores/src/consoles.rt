//! The two circular buffers of a console.

use its_console::Console;
use std::process::Abort;
use std::test::Fail;

/// Bytes go through each buffer in order, more of them than it holds, and they do not mix.
#[test]
fn buffers(rt: HostRuntime) -> Result<(), Fail> {
    let mut console = Console::open(rt.alloc())?;
    assert_eq!(rt; console.waiting(), (0, 0));
    assert_eq!(rt; console.first(), None);
    assert_eq!(rt; console.take(), None);
    assert_eq!(rt; console.drain(), None);
    for round in 0..3u8 {
        for k in 0..64u8 {
            assert!(rt; console.type_in(k + round));
            assert!(rt; console.put(200 - k));
        }
        assert!(rt; !console.type_in(255));
        assert!(rt; !console.put(255));
        assert_eq!(rt; console.waiting(), (64, 64));
        for k in 0..40u8 {
            assert_eq!(rt; console.first(), Some(k + round));
            assert_eq!(rt; console.take(), Some(k + round));
        }
        assert_eq!(rt; console.waiting(), (24, 64));
        for k in 0..64u8 {
            assert_eq!(rt; console.drain(), Some(200 - k));
        }
        assert_eq!(rt; console.drain(), None);
        for k in 40..64u8 {
            assert_eq!(rt; console.take(), Some(k + round));
        }
        assert_eq!(rt; console.take(), None);
    }
    assert_eq!(rt; console.waiting(), (0, 0));
    Ok(())
}
