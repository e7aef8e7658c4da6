//! The lines on files: FILE with its words, DIR and SHOW.
ghost use Rattle.std.specs.Prelude.{◌≡◌, ◌≤◌, ◌+◌, ◌-◌, ◌/◌, true, None, Ok, Err, IfErr, OnOk, length, map, min, take, drop};
ghost use Rattle.its_files.specs.Files.{entry_at, is_file, words_at};
ghost use Rattle.its_plain.specs.Operator.{Block};
ghost use Rattle.its_plain.specs.Operator.Files.{with_word_added, with_words_added, files_in, filed_line, listing, shown_lines, rows};
ghost use Rattle.its_stepped.specs.Unwind.{help};
ghost use Rattle.its_world.specs.World.{state_of};
ghost use Rattle.its_records.specs.Refusals.{reason_of};
ghost use Rattle.its_monitor.specs.Kept.{Kept, Lands};
ghost use Rattle.its_print.specs.Printing.{Filed, Row, text_of_line, text};
ghost use Rattle.its_top.specs.Causes.{FlowCause};
ghost use Rattle.its_top.specs.Answer.{Tells, Stood, block_of};
ghost use Rattle.its_top.specs.Performing.{Performed};

use crate::sessions::flow::Flow;
use crate::sessions::progress::Progress;
use crate::sessions::room::Bytes;
use crate::sessions::shown::{Over, Shown};
use crate::sessions::writing::tell;
use arrayvec::ArrayVec;
use its_files::MOST_FILES;
use its_io::Sink;
use its_monitor::Monitor;
use its_print::{ROW_WORDS, Reply};
use its_records::{Event, FileShow, Refusal};
use its_word::Word;

/// FILE: makes a file of no words, which is then the block's.
pub fn make_file<'a>(
    m: &mut Monitor,
    p: &mut Progress,
    d: Word,
    x: Word,
    y: Word,
) -> Result<Shown<'a>, Over>
    requires sound { Kept m.old.world }
    ensures performed { Performed result (state_of m.old.world) (block_of p.old.slot p.old.file) (Event.File d x y) m.new.world (block_of p.new.slot p.new.file) }
    ensures sound { Kept m.new.world }
    ensures kept { (p.new.number ≡ p.old.number) × (p.new.slot ≡ p.old.slot) }
{
    match m.file_new(d, x, y) {
        Ok(_) => {
            let names = [d, x, y];
            p.file = names;
            Ok(Shown::Nothing)
        }
        Err(e) => Err(Over::Refused(e)),
    }
}

/// Adds the words of a `/` line to the end of a file, in order.
#[tactic(auto, using(crate::proofs::FilingLaws::adding_start, crate::proofs::FilingLaws::adding_fails, crate::proofs::FilingLaws::adding_end))]
pub fn add_words(m: &mut Monitor, names: [Word; 3], words: &[Word]) -> Result<(), Refusal>
    requires sound { Kept m.old.world }
    requires some { 1 ≤ length words.now }
    ensures done { OnOk result (Lands (help (state_of m.old.world)) (state_of m.new.world) (with_words_added (help (state_of m.old.world)).raw names words.now)) }
    ensures refused { IfErr result (λ e. with_words_added (help (state_of m.old.world)).raw names words.now ≡ Err (reason_of e)) }
    ensures sound { Kept m.new.world }
{
    for w in words {
        add_word(m, names, *w)?;
    }
    Ok(())
}

/// One of them. NoFile if there is no file with these names.
#[tactic(auto, using(crate::proofs::FilingLaws::adds_file, crate::proofs::FilingLaws::adds_done, crate::proofs::FilingLaws::adds_refused, crate::proofs::FilingLaws::adds_nothing))]
fn add_word(m: &mut Monitor, names: [Word; 3], w: Word) -> Result<(), Refusal>
    requires sound { Kept m.old.world }
    ensures done { OnOk result (Lands (help (state_of m.old.world)) (state_of m.new.world) (with_word_added (help (state_of m.old.world)).raw names w)) }
    ensures refused { IfErr result (λ e. with_word_added (help (state_of m.old.world)).raw names w ≡ Err (reason_of e)) }
    ensures sound { Kept m.new.world }
{
    let [d, x, y] = names;
    match m.file(d, x, y) {
        Ok(id) => m.file_add(id, w),
        Err(e) => Err(e),
    }
}

/// DIR: shows the files of a directory.
pub fn list_files<'a>(m: &mut Monitor, d: Word) -> Result<Shown<'a>, Over>
    requires sound { Kept m.old.world }
    ensures performed { (b : Block) → Performed result (state_of m.old.world) b (Event.Dir d) m.new.world b }
    ensures sound { Kept m.new.world }
{
    let count = count_files(m, d);
    Ok(Shown::Files { d, count })
}

/// How many files a directory has.
#[tactic(auto, using(crate::proofs::Groups::count_files_laws))]
fn count_files(m: &mut Monitor, d: Word) -> u32
    requires sound { Kept m.old.world }
    ensures count { result ≡ length (files_in d (help (state_of m.old.world)).raw.files) }
    ensures state { state_of m.new.world ≡ help (state_of m.old.world) }
    ensures unmarked { m.new.world.files.mark ≡ None }
    ensures sound { Kept m.new.world }
{
    for k in 0..MOST_FILES {
        match m.dir(d, k) {
            Some(_) => {}
            None => return k,
        }
    }
    m.world.files.seen();
    MOST_FILES
}

/// The lines of a directory, when no part of a close is pending: how many files it has, and the
/// files.
#[tactic(auto, using(crate::proofs::FilingLaws::tells_then, crate::proofs::FilingLaws::tells_cut))]
pub fn print_files<K: Sink>(
    m: &mut Monitor,
    d: Word,
    count: u32,
    line: &mut Bytes,
    out: &mut K,
) -> Flow
    requires sound { Kept m.old.world }
    requires unmarked { m.old.world.files.mark ≡ None }
    requires count { count ≡ length (files_in d (state_of m.old.world).raw.files) }
    ensures told { Tells result Flow.On (text (listing d (files_in d (state_of m.old.world).raw.files))) (K.written out.old) (K.written out.new) }
    ensures state { state_of m.new.world ≡ state_of m.old.world }
    ensures sound { Kept m.new.world }
    ensures cause { FlowCause result (K.faults out.old) (K.faults out.new) }
{
    let flow = tell(line, out, &Reply::Dir { d, n: count }, Flow::On);
    if !flow.goes_on() {
        return flow;
    }
    print_each_file(m, d, count, line, out)
}

/// A line for each of the files of a directory, when no part of a close is pending.
#[tactic(auto, using(crate::proofs::FilingLaws::listing_start, crate::proofs::FilingLaws::listing_end))]
fn print_each_file<K: Sink>(
    m: &mut Monitor,
    d: Word,
    count: u32,
    line: &mut Bytes,
    out: &mut K,
) -> Flow
    requires sound { Kept m.old.world }
    requires unmarked { m.old.world.files.mark ≡ None }
    requires count { count ≡ length (files_in d (state_of m.old.world).raw.files) }
    ensures told { Tells result Flow.On (text (map filed_line (files_in d (state_of m.old.world).raw.files))) (K.written out.old) (K.written out.new) }
    ensures state { state_of m.new.world ≡ state_of m.old.world }
    ensures sound { Kept m.new.world }
    ensures cause { FlowCause result (K.faults out.old) (K.faults out.new) }
{
    for k in 0..count {
        if let Some(show) = m.dir(d, k) {
            let flow = print_filed(show, line, out);
            if !flow.goes_on() {
                return flow;
            }
        }
    }
    Flow::On
}

/// The line of a file.
fn print_filed<K: Sink>(show: FileShow, line: &mut Bytes, out: &mut K) -> Flow
    ensures told { Tells result Flow.On (text_of_line (Filed show)) (K.written out.old) (K.written out.new) }
    ensures cause { FlowCause result (K.faults out.old) (K.faults out.new) }
{
    tell(line, out, &Reply::Filed { show: &show }, Flow::On)
}

/// SHOW: shows the words of a file.
pub fn find_file<'a>(m: &mut Monitor, d: Word, x: Word, y: Word) -> Result<Shown<'a>, Over>
    requires sound { Kept m.old.world }
    ensures performed { (b : Block) → Performed result (state_of m.old.world) b (Event.Show d x y) m.new.world b }
    ensures sound { Kept m.new.world }
{
    match m.file(d, x, y) {
        Ok(id) => Ok(Shown::File { id, d, x, y }),
        Err(e) => Err(Over::Refused(e)),
    }
}

/// The lines of the words of a file, when no part of a close is pending: its names and how many
/// there are, and the words.
#[tactic(auto, using(crate::proofs::FilingLaws::stood, crate::proofs::FilingLaws::tells_then, crate::proofs::FilingLaws::tells_cut))]
pub fn print_words_of<K: Sink>(
    m: &mut Monitor,
    id: u32,
    d: Word,
    x: Word,
    y: Word,
    line: &mut Bytes,
    out: &mut K,
) -> Flow
    requires sound { Kept m.old.world }
    requires unmarked { m.old.world.files.mark ≡ None }
    requires file { is_file (entry_at m.old.world.files id) ≡ true }
    ensures told { Tells result Flow.On (text (shown_lines d x y (words_at m.old.world.files id))) (K.written out.old) (K.written out.new) }
    ensures state { state_of m.new.world ≡ state_of m.old.world }
    ensures sound { Kept m.new.world }
    ensures cause { FlowCause result (K.faults out.old) (K.faults out.new) }
{
    let k = m.file_length(id).unwrap_or(0);
    let flow = tell(line, out, &Reply::Shown { d, x, y, k }, Flow::On);
    if !flow.goes_on() {
        return flow;
    }
    print_rows(m, id, k, line, out)
}

/// The lines of the words of a file, when no part of a close is pending.
#[tactic(auto, using(crate::proofs::FilingLaws::standing_start, crate::proofs::FilingLaws::rows_start, crate::proofs::FilingLaws::rows_end))]
fn print_rows<K: Sink>(m: &mut Monitor, id: u32, count: u32, line: &mut Bytes, out: &mut K) -> Flow
    requires sound { Kept m.old.world }
    requires unmarked { m.old.world.files.mark ≡ None }
    requires file { is_file (entry_at m.old.world.files id) ≡ true }
    requires count { count ≡ length (words_at m.old.world.files id) }
    ensures told { Tells result Flow.On (text (rows ((count + 7) / 8) (words_at m.old.world.files id))) (K.written out.old) (K.written out.new) }
    ensures state { state_of m.new.world ≡ state_of m.old.world }
    ensures sound { Kept m.new.world }
    ensures cause { FlowCause result (K.faults out.old) (K.faults out.new) }
{
    for row in 0..count.div_ceil(ROW_WORDS) {
        let from = row * ROW_WORDS;
        let flow = print_row_of(m, id, from, count, line, out);
        if !flow.goes_on() {
            return flow;
        }
    }
    Flow::On
}

/// One of them: up to eight words of a file from one on.
fn print_row_of<K: Sink>(
    m: &mut Monitor,
    id: u32,
    from: u32,
    count: u32,
    line: &mut Bytes,
    out: &mut K,
) -> Flow
    requires sound { Kept m.old.world }
    requires unmarked { m.old.world.files.mark ≡ None }
    requires file { is_file (entry_at m.old.world.files id) ≡ true }
    requires count { count ≡ length (words_at m.old.world.files id) }
    requires within { from ≤ count }
    ensures told { Tells result Flow.On (text_of_line (Row (take 8 (drop from (words_at m.old.world.files id))))) (K.written out.old) (K.written out.new) }
    ensures stood { Stood m.old.world m.new.world }
    ensures sound { Kept m.new.world }
    ensures cause { FlowCause result (K.faults out.old) (K.faults out.new) }
{
    let words = row_of(m, id, from, count);
    tell(line, out, &Reply::Row { words: &words }, Flow::On)
}

/// Up to eight words of a file from one on.
#[tactic(auto, using(crate::proofs::FilingLaws::standing_start, crate::proofs::FilingLaws::row_end))]
fn row_of(m: &mut Monitor, id: u32, from: u32, count: u32) -> ArrayVec<Word, 8>
    requires sound { Kept m.old.world }
    requires unmarked { m.old.world.files.mark ≡ None }
    requires file { is_file (entry_at m.old.world.files id) ≡ true }
    requires count { count ≡ length (words_at m.old.world.files id) }
    requires within { from ≤ count }
    ensures words { result.items ≡ take 8 (drop from (words_at m.old.world.files id)) }
    ensures few { length result.items ≤ 8 }
    ensures stood { Stood m.old.world m.new.world }
    ensures sound { Kept m.new.world }
{
    let mut words = ArrayVec::new();
    for k in 0..words_in_row(count - from) {
        match m.file_word(id, from + k) {
            Some(word) => words.push(word),
            None => {}
        }
    }
    words
}

/// How many words the next row has, if so many are left.
fn words_in_row(left: u32) -> u32
    ensures { result ≡ min 8 left }
{
    if left < ROW_WORDS { left } else { ROW_WORDS }
}
