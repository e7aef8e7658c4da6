//! Objects in memory, safe ones, and those of the process.
ghost use Rattle.std.specs.Prelude.{◌≡◌, ◌≤◌, true, length, IfOk};

use its_io::{
    Failed, MemSink, MemSource, RealSink, RealSource, SafeSink, SafeSource, Sink, Source, write_all,
};
use std::test::Fail;

/// Reads once into the first `space` bytes of the buffer, or all of them.
fn read_some<S: Source>(source: &mut S, buf: &mut [u8], space: usize) -> Result<usize, Failed>
    requires { S.readable source.old ≡ true }
    ensures { IfOk result (λ count. count ≤ length buf.new) }
{
    let space = space.min(buf.len());
    source.read(&mut buf[..space])
}

#[test]
fn memory(rt: HostRuntime) -> Result<(), Fail> {
    let mut buf = [0; 8];
    let mut source = MemSource::open(rt.alloc(), b"abcdefg", 3, &[1, 3])?;
    for (call, (space, want)) in [
        (5, Some("abc")),
        (5, None),
        (2, Some("de")),
        (0, None),
        (0, Some("")),
        (8, Some("fg")),
        (8, Some("")),
        (8, Some("")),
    ]
    .into_iter()
    .enumerate()
    {
        let got = read_some(&mut source, &mut buf, space).ok();
        let text = got.map(|count| &buf[..count]);
        assert_eq!(rt; text, want.map(|text| text.as_bytes()), "call {call}");
    }
    assert_eq!(rt; source.rest(), b"".as_slice());

    let mut sink = MemSink::open(rt.alloc(), 5, &[0])?;
    assert_eq!(rt; sink.write(b"abc"), Err(Failed));
    assert_eq!(rt; sink.write(b"abc"), Ok(3));
    assert_eq!(rt; write_all(&mut sink, b"def"), Err(Failed));
    assert_eq!(rt; sink.write(b""), Ok(0));
    assert_eq!(rt; sink.write(b"x"), Err(Failed));
    assert_eq!(rt; sink.written(), b"abcde".as_slice());
    Ok(())
}

#[test]
fn safe(rt: HostRuntime) -> Result<(), Fail> {
    let mut buf = [0; 8];
    let mut source = SafeSource::open(rt.alloc(), b"hello")?;
    for (space, want) in [(4, "hell"), (0, ""), (4, "o"), (4, "")] {
        let count = read_some(&mut source, &mut buf, space)?;
        assert_eq!(rt; &buf[..count], want.as_bytes());
    }
    write_all(&mut SafeSink::new(), b"hello")?;
    Ok(())
}

/// Tests run with no standard input.
#[test]
fn real(rt: HostRuntime) -> Result<(), Fail> {
    let mut source = RealSource::new(rt.stdin());
    assert_eq!(rt; read_some(&mut source, &mut [0; 8], 8)?, 0);
    let mut sink = RealSink::new(rt.stdout());
    write_all(&mut sink, b"its\n")?;
    assert_eq!(rt; sink.write(b""), Ok(0));
    Ok(())
}
