//! The lines of counts that the command line asks for.
ghost use Rattle.std.specs.Prelude.{◌≡◌, ◌≤◌, length};
ghost use Rattle.its_top.specs.Counts.{count_line};

use arrayvec::ArrayVec;
use its_word::octal;

/// The line of a count: its name and its number.
#[tactic(auto, unfolding(its_word::specs::Text::spaced))]
pub fn count_line(name: &[u8], n: u64) -> ArrayVec<u8, 64>
    requires { length name.now ≤ 16 }
    ensures { result.items ≡ count_line name.now n }
{
    let mut line = ArrayVec::new();
    let _fits = line.try_extend_from_slice(name);
    line.push(b' ');
    let _digits_fit = line.try_extend_from_slice(octal(n).as_slice());
    line.push(b'\n');
    line
}
