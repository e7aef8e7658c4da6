//! The text of each line of a transcript.

ghost use Rattle.std.specs.Prelude.{◌≡◌, ◌≤◌, ◌<◌, ◌+◌, [], length};
ghost use Rattle.arrayvec.specs.ArrayVec.{array_vec_len};
ghost use Rattle.its_word.specs.Limits.{slots};
ghost use Rattle.its_word.specs.Text.{spaced};
ghost use Rattle.its_print.specs.Printing.{Dir, Drained, Filed, Line, Listed, Loaded, Peeked, Refused, Row, Shown, State, Ticks, Typed, Words, job_fields, text_of_line};
ghost use Rattle.its_print.specs.Replies.{FewParts, line_of};
ghost use Rattle.its_print.specs.Runs.{paces_in};
ghost use Rattle.its_print.specs.Sizes.{IsPrinted};

use super::names::{reason_word, run_word, state_word};
use super::put::{
    put, put_address, put_bytes, put_number, put_number_or_dash, put_runs, put_symbol, put_typed,
    put_word, put_word_or_dash, put_words,
};
use super::replies::Reply;
use super::runs::Run;
use arrayvec::ArrayVec;
use its_records::{FileShow, JobShow, Peek, Reason};
use its_word::{ConsoleNumber, Slot, Word};

/// Writes a line, which has at most 1543 bytes, into an empty array.
#[tactic(auto, using(crate::proofs::LongestLine::ticks_short))]
pub fn print_reply(reply: &Reply, out: &mut ArrayVec<u8, 2048>)
    requires empty { out.old.items ≡ [] }
    requires few { FewParts reply.now }
    ensures text { out.new.items ≡ text_of_line (line_of reply.now) }
    ensures short { length out.new.items ≤ 1543 }
{
    match reply {
        Reply::Loaded { s } => print_loaded(*s, out),
        Reply::Ticks { s, runs } => print_ticks(*s, runs, out),
        Reply::Typed { c, dropped } => print_typed(*c, *dropped, out),
        Reply::Drained { c, bytes } => print_drained(*c, bytes, out),
        Reply::Words { s, a, words } => print_words(*s, *a, words, out),
        Reply::Listed { s, a, word } => print_listed(*s, *a, *word, out),
        Reply::State { version, s, show } => print_state(*s, show, *version, out),
        Reply::Peeked { s, peek } => print_peek(*s, peek, out),
        Reply::Dir { d, n } => print_dir(*d, *n, out),
        Reply::Filed { show } => print_file(show, out),
        Reply::Shown { d, x, y, k } => print_show(*d, *x, *y, *k, out),
        Reply::Row { words } => print_row(words, out),
        Reply::Refused { n, reason } => print_refusal(*n, *reason, out),
    }
}

/// `J s`: LOAD made a job in slot `s`.
#[tactic(auto, unfolding(crate::specs::Printing::text_of_line, its_word::specs::Text::spaced))]
fn print_loaded(s: Slot, out: &mut ArrayVec<u8, 2048>)
    requires { out.old.items ≡ [] }
    ensures text { out.new.items ≡ text_of_line (Loaded s) }
    ensures short { length out.new.items ≤ 1543 }
{
    out.push(b'J');
    put_number(out, u64::from(s.number()));
    out.push(b'\n');
}

/// `T s` and the runs of equal letters of what at most 512 ticks of slot `s` did.
#[tactic(auto, using(its_word::proofs::SpacedLaws::after_field), unfolding(crate::specs::Printing::text_of_line))]
fn print_ticks(s: Slot, runs: &[Run], out: &mut ArrayVec<u8, 2048>)
    requires empty { out.old.items ≡ [] }
    requires few { length (paces_in runs.now) ≤ 512 }
    ensures text { out.new.items ≡ text_of_line (Ticks s (paces_in runs.now)) }
    ensures slot { s < slots }
{
    out.push(b'T');
    put_number(out, u64::from(s.number()));
    put_runs(out, runs);
    out.push(b'\n');
}

/// `Y c k`: TYPE on console `c`, when `dropped` bytes found no room.
#[tactic(auto, unfolding(crate::specs::Printing::text_of_line, its_word::specs::Text::spaced))]
fn print_typed(c: ConsoleNumber, dropped: u32, out: &mut ArrayVec<u8, 2048>)
    requires { out.old.items ≡ [] }
    ensures text { out.new.items ≡ text_of_line (Typed c dropped) }
    ensures short { length out.new.items ≤ 1543 }
{
    out.push(b'Y');
    put_number(out, u64::from(c.number()));
    put_number(out, u64::from(dropped));
    out.push(b'\n');
}

/// `D c` and at most 64 bytes that DRAIN took from console `c`.
#[tactic(auto, using(its_word::proofs::SpacedLaws::after_field), unfolding(crate::specs::Printing::text_of_line))]
fn print_drained(c: ConsoleNumber, bytes: &[u8], out: &mut ArrayVec<u8, 2048>)
    requires empty { out.old.items ≡ [] }
    requires few { length bytes.now ≤ 64 }
    ensures text { out.new.items ≡ text_of_line (Drained c bytes.now) }
    ensures short { length out.new.items ≤ 1543 }
{
    out.push(b'D');
    put_number(out, u64::from(c.number()));
    put_bytes(out, bytes);
    out.push(b'\n');
}

/// `E s a` and the words (1 to 8) of slot `s` from address `a` on.
#[tactic(auto, using(crate::proofs::LineLaws::after_two_fields), unfolding(crate::specs::Printing::text_of_line))]
fn print_words(s: Slot, a: u32, words: &[Word], out: &mut ArrayVec<u8, 2048>)
    requires empty { out.old.items ≡ [] }
    requires few { length words.now ≤ 8 }
    ensures text { out.new.items ≡ text_of_line (Words s a words.now) }
    ensures short { length out.new.items ≤ 1543 }
{
    out.push(b'E');
    put_number(out, u64::from(s.number()));
    put_address(out, a);
    put_words(out, words);
    out.push(b'\n');
}

/// `L s a text`: the word of slot `s` at address `a`, typed out.
#[tactic(auto, unfolding(crate::specs::Printing::text_of_line, its_word::specs::Text::spaced))]
fn print_listed(s: Slot, a: u32, word: Word, out: &mut ArrayVec<u8, 2048>)
    requires { out.old.items ≡ [] }
    ensures text { out.new.items ≡ text_of_line (Listed s a word) }
    ensures short { length out.new.items ≤ 1543 }
{
    out.push(b'L');
    put_number(out, u64::from(s.number()));
    put_address(out, a);
    put_typed(out, word);
    out.push(b'\n');
}

/// `S s u j sup con run pc p1 p2 m1 m2 d1 d2`: what STATE shows of slot `s`. In version 2 the
/// symbol follows it.
fn print_state(s: Slot, show: &JobShow, version: u8, out: &mut ArrayVec<u8, 2048>)
    requires { out.old.items ≡ [] }
    ensures text { out.new.items ≡ text_of_line (State version s show.now) }
    ensures short { length out.new.items ≤ 1543 }
{
    out.push(b'S');
    put_number(out, u64::from(s.number()));
    put_job(out, show);
    put_symbol(out, version, show.symbol);
    out.push(b'\n');
}

/// The fields of a job.
#[tactic(auto, unfolding(its_word::specs::Text::spaced))]
fn put_job(out: &mut ArrayVec<u8, 2048>, show: &JobShow)
    requires { array_vec_len out.old + 181 < 2048 }
    ensures text { out.new.items ≡ spaced out.old.items (job_fields show.now) }
    ensures len { array_vec_len out.new ≤ array_vec_len out.old + 181 }
{
    put_word(out, show.u);
    put_word(out, show.j);
    put_number_or_dash(out, show.sup);
    put_number_or_dash(out, show.con);
    put(out, run_word(show.run));
    put_word(out, show.pc);
    put_word(out, show.p1);
    put_word(out, show.p2);
    put_word(out, show.m1);
    put_word(out, show.m2);
    put_word(out, show.d1);
    put_word(out, show.d2);
}

/// `P s state name left a b h`: what PEEK shows of slot `s`.
#[tactic(auto, unfolding(crate::specs::Printing::text_of_line, its_word::specs::Text::spaced))]
fn print_peek(s: Slot, peek: &Peek, out: &mut ArrayVec<u8, 2048>)
    requires { out.old.items ≡ [] }
    ensures text { out.new.items ≡ text_of_line (Peeked s peek.now) }
    ensures short { length out.new.items ≤ 1543 }
{
    out.push(b'P');
    put_number(out, u64::from(s.number()));
    put(out, state_word(peek.state));
    put_word_or_dash(out, peek.name);
    put_number(out, u64::from(peek.left));
    put_word_or_dash(out, peek.a);
    put_word_or_dash(out, peek.b);
    put_word_or_dash(out, peek.h);
    out.push(b'\n');
}

/// `R d n`: directory `d` has `n` files.
#[tactic(auto, unfolding(crate::specs::Printing::text_of_line, its_word::specs::Text::spaced))]
fn print_dir(d: Word, n: u32, out: &mut ArrayVec<u8, 2048>)
    requires { out.old.items ≡ [] }
    ensures text { out.new.items ≡ text_of_line (Dir d n) }
    ensures short { length out.new.items ≤ 1543 }
{
    out.push(b'R');
    put_word(out, d);
    put_number(out, u64::from(n));
    out.push(b'\n');
}

/// `F x y k`: a file of DIR, with its names and its length in words.
#[tactic(auto, unfolding(crate::specs::Printing::text_of_line, its_word::specs::Text::spaced))]
fn print_file(show: &FileShow, out: &mut ArrayVec<u8, 2048>)
    requires { out.old.items ≡ [] }
    ensures text { out.new.items ≡ text_of_line (Filed show.now) }
    ensures short { length out.new.items ≤ 1543 }
{
    out.push(b'F');
    put_word(out, show.x);
    put_word(out, show.y);
    put_number(out, u64::from(show.length));
    out.push(b'\n');
}

/// `W d x y k`: the file of SHOW has `k` words.
#[tactic(auto, unfolding(crate::specs::Printing::text_of_line, its_word::specs::Text::spaced))]
fn print_show(d: Word, x: Word, y: Word, k: u32, out: &mut ArrayVec<u8, 2048>)
    requires { out.old.items ≡ [] }
    ensures text { out.new.items ≡ text_of_line (Shown d x y k) }
    ensures short { length out.new.items ≤ 1543 }
{
    out.push(b'W');
    put_word(out, d);
    put_word(out, x);
    put_word(out, y);
    put_number(out, u64::from(k));
    out.push(b'\n');
}

/// `/` and 1 to 8 of the words of the file of SHOW.
#[tactic(auto, unfolding(crate::specs::Printing::text_of_line))]
fn print_row(words: &[Word], out: &mut ArrayVec<u8, 2048>)
    requires empty { out.old.items ≡ [] }
    requires few { length words.now ≤ 8 }
    ensures text { out.new.items ≡ text_of_line (Row words.now) }
    ensures short { length out.new.items ≤ 1543 }
{
    out.push(b'/');
    put_words(out, words);
    out.push(b'\n');
}

/// `? n reason`: line `n` of the session, from 1, is refused.
#[tactic(auto, unfolding(crate::specs::Printing::text_of_line, its_word::specs::Text::spaced))]
fn print_refusal(n: u32, reason: Reason, out: &mut ArrayVec<u8, 2048>)
    requires { out.old.items ≡ [] }
    ensures text { out.new.items ≡ text_of_line (Refused n reason) }
    ensures short { length out.new.items ≤ 1543 }
{
    out.push(b'?');
    put_number(out, u64::from(n));
    put(out, reason_word(reason));
    out.push(b'\n');
}

/// The longest line has 1543 bytes or fewer.
#[tactic(auto, using(crate::proofs::LongestLine::longest))]
pub fn longest_line()
    ensures { (l : Line) → IsPrinted l → length (text_of_line l) ≤ 1543 }
{}
