//! The operator's calls of files.
ghost use Rattle.its_monitor.specs.Kept.{Kept};

use its_monitor::Monitor;
use its_records::Refusal;
use its_word::Word;
use std::process::Abort;
use std::test::Fail;

/// A line of the operator. Files are in one directory, and have two names.
#[derive(Clone, Copy, Debug)]
enum Line {
    File(u64, u64),
    Append(u64, u64, u64),
    Length(u64, u64),
    Read(u64, u64, u32),
    Dir(u32),
}

/// What it answers; of DIR the two names and the length.
#[derive(Clone, Copy, Debug, PartialEq, Eq)]
enum Answer {
    Done,
    Length(Option<u32>),
    Read(Option<u64>),
    File(Option<(u64, u64, u32)>),
}

/// The directory of all files.
const DIRECTORY: u64 = 0o42;

/// Performs the call of a line.
fn run_line(m: &mut Monitor, line: Line) -> Result<Answer, Refusal>
    requires kept { Kept m.old.world }
    ensures { Kept m.new.world }
{
    let d = Word::new(DIRECTORY);
    match line {
        Line::File(x, y) => {
            m.file_new(d, Word::new(x), Word::new(y))?;
            Ok(Answer::Done)
        }
        Line::Append(x, y, word) => {
            append(m, x, y, Word::new(word))?;
            Ok(Answer::Done)
        }
        Line::Length(x, y) => {
            let id = m.file(d, Word::new(x), Word::new(y))?;
            Ok(Answer::Length(m.file_length(id)))
        }
        Line::Read(x, y, k) => {
            let id = m.file(d, Word::new(x), Word::new(y))?;
            Ok(Answer::Read(m.file_word(id, k).map(|w| w.value())))
        }
        Line::Dir(k) => {
            let shown = m.dir(d, k);
            Ok(Answer::File(shown.map(|f| (f.x.value(), f.y.value(), f.length))))
        }
    }
}

/// Adds a word to the file with these names.
#[tactic(auto, using(its_monitor::proofs::FileLaws::stands_still))]
fn append(m: &mut Monitor, x: u64, y: u64, word: Word) -> Result<(), Refusal>
    requires kept { Kept m.old.world }
    ensures { Kept m.new.world }
{
    let id = m.file(Word::new(DIRECTORY), Word::new(x), Word::new(y))?;
    m.file_add(id, word)
}

/// Lines, and what each answers or why it is refused.
static LINES: [(Line, Result<Answer, Refusal>); 14] = [
    (Line::Dir(0), Ok(Answer::File(None))),
    (Line::Append(1, 2, 0o17), Err(Refusal::NoFile)),
    (Line::File(1, 2), Ok(Answer::Done)),
    (Line::File(1, 2), Err(Refusal::Exists)),
    (Line::File(2, 1), Ok(Answer::Done)),
    (Line::Append(1, 2, 0o17), Ok(Answer::Done)),
    (Line::Append(1, 2, 0o20), Ok(Answer::Done)),
    (Line::Dir(0), Ok(Answer::File(Some((1, 2, 2))))),
    (Line::Dir(1), Ok(Answer::File(Some((2, 1, 0))))),
    (Line::Dir(2), Ok(Answer::File(None))),
    (Line::Length(1, 2), Ok(Answer::Length(Some(2)))),
    (Line::Read(1, 2, 1), Ok(Answer::Read(Some(0o20)))),
    (Line::Read(1, 2, 2), Ok(Answer::Read(None))),
    (Line::Read(3, 3, 0), Err(Refusal::NoFile)),
];

#[test]
fn lines(rt: HostRuntime) -> Result<(), Fail> {
    let mut m = Monitor::open(rt.alloc())?;
    for (line, want) in &LINES {
        assert_eq!(rt; run_line(&mut m, *line), *want, "{line:?}");
    }
    Ok(())
}
