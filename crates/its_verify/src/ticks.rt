//! The letters of a `T` line, read from its text.
ghost use Rattle.std.specs.Prelude.{◌≡◌, ◌≢◌, ◌≤◌, ◌+◌, ◌++◌, true, false, None, Some, bytes_eq, length, replicate};
ghost use Rattle.arrayvec.specs.ArrayVec.{array_vec_len};
ghost use Rattle.its_print.specs.Printing.{Ticks, text_of_line};
ghost use Rattle.its_print.specs.Replies.{FewParts, line_of};
ghost use Rattle.its_print.specs.Runs.{paces_in};
ghost use Rattle.its_verify.specs.Letters.{counted, letter_at, paces_from, ticks_in};
ghost use Rattle.its_verify.specs.Reading.{is_alike, last_letter};

use super::room::{Bytes, Room, Runs};
use arrayvec::ArrayVec;
use its_print::{Reply, Run, print_reply};
use its_records::Pace;
use its_word::Slot;

/// The most bytes of a `T` line with one run of letters, and its LF: a slot has three digits at
/// most, a number four.
const MOST_ALIKE: usize = 12;

/// Reads the runs of letters in a line, which has its LF, into the room for them, for `count` ticks
/// of slot `slot`, of which there are at most 512; whether it is the text of a `T` line of that
/// slot with so many letters.
#[tactic(auto, using(crate::proofs::TickLaws::ticks_read, crate::proofs::TickLaws::ticks_other, crate::proofs::TickLaws::ticks_few))]
pub fn read_ticks(line: &[u8], slot: Slot, count: u32, room: &mut Room) -> bool
    requires { count ≤ 512 }
    ensures some { result ≡ true → ticks_in slot count line.now ≡ Some (paces_in room.new.runs.items) }
    ensures none { result ≡ false → ticks_in slot count line.now ≡ None }
{
    if are_alike(line, slot, count, room) {
        return true;
    }
    if !read_runs(line, count, &mut room.runs) {
        return false;
    }
    is_line_of(line, slot, &room.runs, &mut room.line)
}

/// Whether a line of at most 12 bytes is the `T` line of a slot with `count` letters that are all
/// alike; their run is put into the room for it.
#[tactic(auto, using(crate::proofs::StarsLaws::alike_read, crate::proofs::StarsLaws::alike_said, crate::proofs::StarsLaws::alike_long, crate::proofs::StarsLaws::alike_none))]
fn are_alike(line: &[u8], slot: Slot, count: u32, room: &mut Room) -> bool
    requires { count ≤ 512 }
    ensures alike { result ≡ is_alike slot count line.now }
    ensures read { result ≡ true → ticks_in slot count line.now ≡ Some (paces_in room.new.runs.items) }
{
    if line.len() > MOST_ALIKE {
        return false;
    }
    let Some(pace) = last_letter(line) else {
        return false;
    };
    room.runs.clear();
    push_run(&mut room.runs, pace, count);
    is_line_of(line, slot, &room.runs, &mut room.line)
}

/// The letter before the last byte of a line, if it is one.
fn last_letter(line: &[u8]) -> Option<Pace>
    ensures { result ≡ last_letter line.now }
{
    if line.len() < 2 {
        return None;
    }
    letter_at(line[line.len() - 2])
}

/// Whether a line is the `T` line of a slot with these runs; its text is printed into the room for
/// it.
fn is_line_of<const N: usize>(
    line: &[u8],
    slot: Slot,
    runs: &ArrayVec<Run, N>,
    text: &mut Bytes,
) -> bool
    requires few { length (paces_in runs.now.items) ≤ 512 }
    ensures { result ≡ bytes_eq line.now (text_of_line (Ticks slot (paces_in runs.now.items))) }
{
    is_text(line, &Reply::Ticks { s: slot, runs }, text)
}

/// Whether a line is the text of a reply, which is printed into the room for it.
fn is_text(line: &[u8], reply: &Reply, text: &mut Bytes) -> bool
    requires few { FewParts reply.now }
    ensures { result ≡ bytes_eq line.now (text_of_line (line_of reply.now)) }
{
    text.clear();
    print_reply(reply, text);
    line == text.as_slice()
}

/// Reads the runs in a line; whether they have so many letters.
#[tactic(auto, using(crate::proofs::TickLaws::at_letter, crate::proofs::TickLaws::at_other, crate::proofs::TickLaws::past_most, crate::proofs::TickLaws::at_last, crate::proofs::TickLaws::last_other))]
fn read_runs(line: &[u8], count: u32, runs: &mut Runs) -> bool
    requires { count ≤ 512 }
    ensures some { result ≡ true → paces_from count 0 line.now ≡ paces_in runs.new.items }
    ensures many { result ≡ true → length (paces_in runs.new.items) ≡ count }
    ensures none { result ≡ false → length (paces_from count 0 line.now) ≢ count }
{
    runs.clear();
    let mut ticks = 0;
    let mut number = 0;
    for byte in line {
        if let Some(pace) = letter_at(*byte) {
            if ticks + number > count {
                return false;
            }
            push_run(runs, pace, number);
            ticks += number;
        }
        number = counted(count, number, *byte);
    }
    ticks == count
}

/// Adds so many of one letter as a run, if there are any.
#[tactic(auto, using(crate::proofs::TickLaws::run_added, crate::proofs::TickLaws::none_added, crate::proofs::TickLaws::added_length))]
fn push_run(runs: &mut Runs, pace: Pace, number: u32)
    requires { array_vec_len runs.old + number ≤ 512 }
    ensures paces { paces_in runs.new.items ≡ paces_in runs.old.items ++ replicate number pace }
    ensures ticks { length (paces_in runs.new.items) ≡ length (paces_in runs.old.items) + number }
    ensures len { array_vec_len runs.new ≤ array_vec_len runs.old + number }
{
    if number > 0 {
        runs.push(Run {
            pace,
            more: number - 1,
        });
    }
}

/// The letter that a byte is, if it is one.
fn letter_at(byte: u8) -> Option<Pace>
    ensures { result ≡ letter_at byte }
{
    match byte {
        b'*' => Some(Pace::Step),
        b'.' => Some(Pace::Work),
        b'w' => Some(Pace::Wait),
        b'-' => Some(Pace::Off),
        _ => None,
    }
}

/// The number before a byte with the digit that the byte is, at most `most`; 0 if it is no digit.
fn counted(most: u32, number: u32, byte: u8) -> u32
    requires few { number ≤ most }
    requires most { most ≤ 512 }
    ensures value { result ≡ counted most number byte }
    ensures few { result ≤ most }
{
    if byte.is_ascii_digit() && byte < b'8' {
        (number * 8 + u32::from(byte - b'0')).min(most)
    } else {
        0
    }
}
