//! Words as text.
ghost use Rattle.std.specs.Prelude.{◌≡◌, ◌<◌, ◌≤◌, ◌+◌, ◌++◌, ◌^◌, length};
ghost use Rattle.arrayvec.specs.ArrayVec.{array_vec_len};
ghost use Rattle.its_word.specs.Text.{digits_of};
ghost use Rattle.its_chart.specs.TypeOut.{typed, typed_ac, typed_index, typed_indirect, typed_operand};

use super::mnemonic::mnemonic;
use arrayvec::ArrayVec;
use its_word::{Word, octal};

/// Adds a text.
fn put(out: &mut ArrayVec<u8, 64>, text: &[u8])
    requires { array_vec_len out.old + length text.now ≤ 64 }
    ensures text { out.new.items ≡ out.old.items ++ text.now }
    ensures len { array_vec_len out.new ≡ array_vec_len out.old + length text.now }
{
    let _fits = out.try_extend_from_slice(text);
}

/// Adds the octal digits of a number below 2^18.
#[tactic(auto, using(crate::proofs::OperandLaws::six_digits))]
fn put_number(out: &mut ArrayVec<u8, 64>, n: u32)
    requires below { n < 2 ^ 18 }
    requires room { array_vec_len out.old + 6 ≤ 64 }
    ensures text { out.new.items ≡ out.old.items ++ digits_of n }
    ensures len { array_vec_len out.new ≤ array_vec_len out.old + 6 }
{
    put(out, octal(u64::from(n)).as_slice());
}

/// Adds the accumulator of a word with a comma, unless it is 0.
fn put_ac(out: &mut ArrayVec<u8, 64>, a: u32)
    requires below { a < 16 }
    requires room { array_vec_len out.old + 7 ≤ 64 }
    ensures text { out.new.items ≡ out.old.items ++ typed_ac a }
    ensures len { array_vec_len out.new ≤ array_vec_len out.old + 7 }
{
    if a != 0 {
        put_number(out, a);
        put(out, b",");
    }
}

/// Adds the index register of a word in parentheses, unless it is 0.
fn put_index(out: &mut ArrayVec<u8, 64>, x: u32)
    requires below { x < 16 }
    requires room { array_vec_len out.old + 8 ≤ 64 }
    ensures { out.new.items ≡ out.old.items ++ typed_index x }
{
    if x != 0 {
        put(out, b"(");
        put_number(out, x);
        put(out, b")");
    }
}

/// Adds the operand of an instruction.
fn put_operand(out: &mut ArrayVec<u8, 64>, w: Word)
    requires { array_vec_len out.old + 22 ≤ 64 }
    ensures { out.new.items ≡ out.old.items ++ typed_operand w }
{
    put_ac(out, (w.value() >> 23 & 0o17) as u32);
    if w.value() >> 22 & 1 != 0 {
        put(out, b"@");
    }
    put_number(out, w.right());
    put_index(out, (w.value() >> 18 & 0o17) as u32);
}

/// Writes a word as a line: the name of its opcode and its operand; `WORD` and its halves if its
/// opcode has no name.
#[tactic(auto, unfolding(crate::specs::TypeOut::typed))]
pub fn type_out(w: Word, out: &mut ArrayVec<u8, 64>)
    requires { array_vec_len out.old ≡ 0 }
    ensures text { out.new.items ≡ typed w }
{
    match mnemonic((w.value() >> 27) as u32) {
        Some(name) => {
            put(out, name);
            put(out, b" ");
            put_operand(out, w);
        }
        None => {
            put(out, b"WORD ");
            put_number(out, w.left());
            put(out, b",,");
            put_number(out, w.right());
        }
    }
}
