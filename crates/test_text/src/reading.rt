//! The lines of a source.

ghost use Rattle.std.specs.Prelude.{◌≡◌, ◌≤◌, true, IfOk};
ghost use Rattle.its_reader.specs.Bytes.{Onward};
ghost use Rattle.its_reader.specs.Texts.{ReadyTexts};
ghost use Rattle.its_session.specs.Events.{most_lines};

use its_io::{Failed, MemSource, SafeSource, Source};
use its_reader::{Next, Texts};
use std::process::Abort;
use std::test::Fail;

/// The next line of a source is this one.
fn is_next<S: Source>(
    rt: &impl Abort,
    texts: &mut Texts,
    src: &mut S,
    line: &str,
) -> Result<(), Fail>
    requires ready { ReadyTexts texts.old (S.left src.old) }
    requires onward { Onward texts.old.ended (S.readable src.old) }
    requires few { texts.old.number ≤ most_lines }
    requires most { texts.old.most ≤ 1543 }
    ensures ready { IfOk result (λ _. ReadyTexts texts.new (S.left src.new)) }
    ensures onward { IfOk result (λ _. Onward texts.new.ended (S.readable src.new)) }
    ensures number { IfOk result (λ _. texts.new.number ≤ most_lines) }
    ensures most { texts.new.most ≡ texts.old.most }
{
    let next = texts.next(src).map_err(|_| "failed")?;
    assert!(rt; next == Next::Line);
    assert_eq!(rt; texts.text.as_slice(), line.as_bytes());
    Ok(())
}

/// The lines of a source that gives seven bytes a call: one of three bytes, one of six, an empty
/// one, and a last one without LF.
#[test]
fn lines_with_their_ends(rt: HostRuntime) -> Result<(), Fail> {
    let mut src = MemSource::open(rt.alloc(), b"abc\nabcdef\n\nxx", 7, &[]).map_err(
        |_| "no memory",
    )?;
    let mut texts = Texts::new(6);
    is_next(&rt, &mut texts, &mut src, "abc\n")?;
    is_next(&rt, &mut texts, &mut src, "abcdef\n")?;
    is_next(&rt, &mut texts, &mut src, "\n")?;
    is_next(&rt, &mut texts, &mut src, "xx")?;
    assert_eq!(rt; texts.number, 4);
    assert_eq!(rt; texts.next(&mut src).map_err(|_| "failed")?, Next::End);
    Ok(())
}

/// What comes first of a source whose lines have 1543 bytes at most.
fn first<S: Source>(src: &mut S) -> Result<Next, Failed>
    requires { S.readable src.old ≡ true }
{
    let mut texts = Texts::new(1543);
    texts.next(src)
}

/// A line of one byte more before its LF is too long, at that byte.
#[test]
fn long_lines(rt: HostRuntime) -> Result<(), Fail> {
    let bytes = vec![in rt.alloc(); b'P'; 1544]?;
    let mut src = SafeSource::open(rt.alloc(), &bytes).map_err(|_| "no memory")?;
    assert_eq!(rt; first(&mut src).map_err(|_| "failed")?, Next::Long);
    let mut src = SafeSource::open(rt.alloc(), &bytes[..1543]).map_err(|_| "no memory")?;
    assert_eq!(rt; first(&mut src).map_err(|_| "failed")?, Next::Line);
    Ok(())
}
