//! The command `check`: the lines of a session are looked at by the grammar alone. No monitor is
//! made.
ghost use Rattle.std.specs.Prelude.{◌≡◌, ◌≢◌, ◌≤◌, ◌-◌, ◌*◌, ◌⊎◌, None, Some, true};
ghost use Rattle.its_io.specs.Bytes.{HasCause, next_fault};
ghost use Rattle.its_top.specs.Telling.{goes_on_after};
ghost use Rattle.its_top.specs.Checking.{CheckedBy, Finding, WroteText, Reported, Check};

use crate::commands::counts::count_line;
use crate::commands::status::Status;
use arrayvec::ArrayVec;
use its_io::{Failed, Sink, Source, write_all};
use its_print::{Reply, print_reply};
use its_reader::{Found, Items};
use its_records::{Event, Reason};

/// The result of a session, by the grammar alone.
#[derive(Clone, Copy, Debug, PartialEq, Eq)]
pub enum Checked {
    /// END is line number n.
    Ended(u32),
    /// There are n lines, and none of them is END.
    Open(u32),
    /// Line number n is refused for this reason.
    Refused(u32, Reason),
    /// A line past the most that a session may have begins.
    TooLong,
}

/// The result of an item, by the number of its line: None if the check goes on.
#[tactic(auto, using(crate::proofs::CheckingLaws::line_goes_on, crate::proofs::CheckingLaws::line_ends))]
fn look_at(number: u32, found: &Found) -> Option<Checked>
    requires some { 1 ≤ number }
    ensures { CheckedBy result number found.now }
{
    match found {
        Found::Line(event) => {
            if goes_on_after(event) {
                return None;
            }
            Some(Checked::Ended(number))
        }
        Found::Bad(reason) => Some(Checked::Refused(number, *reason)),
        Found::Beyond => Some(Checked::TooLong),
        Found::End => Some(Checked::Open(number - 1)),
    }
}

/// Whether the session goes on after an event: it is not END.
fn goes_on_after(event: &Event) -> bool
    ensures { result ≡ goes_on_after event.now }
{
    match event {
        Event::End => false,
        _ => true,
    }
}

/// Reads a session and looks at its lines, until the check is over. It takes no memory.
#[tactic(auto, using(crate::proofs::CheckingLaws::so_start, crate::proofs::CheckingLaws::so_next, crate::proofs::CheckingLaws::check_over, crate::proofs::CheckingLaws::check_fault))]
fn find<S: Source>(src: &mut S) -> Result<Checked, Failed>
    requires readable { S.readable src.old ≡ true }
    ensures found { Finding result (S.left src.old) (S.left src.new) }
    ensures cause { HasCause (S.faults src.old) (S.faults src.new) result }
{
    let mut items = Items::new();
    loop {
        let Ok(found) = items.next(src) else {
            return Err(Failed);
        };
        match look_at(items.lines.number, &found) {
            None => {}
            Some(checked) => return Ok(checked),
        }
    }
}

/// Checks the session that the source gives: writes `OK n`, with the number of its lines up to END,
/// or the `?` line of its first line that is refused.
#[tactic(auto, using(crate::proofs::CheckingLaws::checks, crate::proofs::CheckingLaws::check_breaks))]
pub fn check<S: Source, K: Sink>(src: &mut S, out: &mut K) -> Status
    requires readable { S.readable src.old ≡ true }
    ensures check { Check result (S.left src.old) (S.left src.new) (K.written out.old) (K.written out.new) }
    ensures read_once { result ≡ Status.ReadFault → S.faults src.new ≡ next_fault (S.faults src.old) }
    ensures write_once { result ≡ Status.WriteFault → K.faults out.new ≡ next_fault (K.faults out.old) }
    ensures read_unfailed { result ≢ Status.ReadFault → S.faults src.new ≡ S.faults src.old }
    ensures write_unfailed { result ≢ Status.WriteFault → K.faults out.new ≡ K.faults out.old }
{
    match find(src) {
        Ok(found) => report(found, out),
        Err(_) => Status::ReadFault,
    }
}

/// Writes what a check found.
#[tactic(auto, using(crate::proofs::CheckingLaws::reported_ok, crate::proofs::CheckingLaws::reported_refused, crate::proofs::CheckingLaws::reported_beyond))]
fn report<K: Sink>(found: Checked, out: &mut K) -> Status
    ensures reported { Reported result found (K.written out.old) (K.written out.new) }
    ensures once { result ≡ Status.WriteFault → K.faults out.new ≡ next_fault (K.faults out.old) }
    ensures unfailed { result ≢ Status.WriteFault → K.faults out.new ≡ K.faults out.old }
    ensures source { result ≢ Status.ReadFault }
{
    match found {
        Checked::Ended(n) => write_text(out, &count_line(b"OK", u64::from(n)), Status::Done),
        Checked::Open(n) => write_text(out, &count_line(b"OK", u64::from(n)), Status::Done),
        Checked::Refused(n, reason) => {
            let mut line = ArrayVec::new();
            print_reply(&Reply::Refused { n, reason }, &mut line);
            write_text(out, &line, Status::Refused)
        }
        Checked::TooLong => Status::TooLong,
    }
}

/// Writes bytes, after which the status is `good`.
#[tactic(auto, using(crate::proofs::CheckingLaws::wrote_all, crate::proofs::CheckingLaws::wrote_begun))]
pub fn write_text<K: Sink>(out: &mut K, bytes: &[u8], good: Status) -> Status
    requires good { good ≢ Status.WriteFault }
    ensures wrote { WroteText result good bytes.now (K.written out.old) (K.written out.new) }
    ensures once { result ≡ Status.WriteFault → K.faults out.new ≡ next_fault (K.faults out.old) }
    ensures unfailed { result ≢ Status.WriteFault → K.faults out.new ≡ K.faults out.old }
    ensures status { (result ≡ good) ⊎ (result ≡ Status.WriteFault) }
{
    match write_all(out, bytes) {
        Ok(()) => good,
        Err(_) => Status::WriteFault,
    }
}
