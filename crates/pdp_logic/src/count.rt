//! The count of a shift.
ghost use Rattle.std.specs.Prelude.{if◌then◌else◌, ◌≡◌, ◌<◌, ◌^◌};
ghost use Rattle.its_word.specs.Shift.{is_left, places};

/// Which way bits move, and by how many places, below 256.
#[derive(Clone, Copy, Debug, PartialEq, Eq)]
pub(crate) enum Count {
    Left(u32),
    Right(u32),
}

/// The count that an effective address gives: signed in 18 bits, its magnitude modulo 256.
pub(crate) fn count_for(e: u32) -> Count
    requires { e < 2 ^ 18 }
    ensures { result ≡ (if is_left e then Count.Left (places e) else Count.Right (places e)) }
{
    if e < 0o400000 {
        Count::Left(e % 256)
    } else {
        Count::Right((0o1000000 - e) % 256)
    }
}
