//! What each OPEN asks of its arguments: a closed channel, and the control.
ghost use Rattle.std.specs.Prelude.{◌≡◌, unwrap_or};
ghost use Rattle.call_basic.specs.Channels.{is_closed, is_free};

use super::party::channel;
use its_records::{Ask, Channel, Job};
use its_word::Word;

/// The control argument; 0 if there is none.
pub fn control(ask: &Ask) -> u64
    ensures { result ≡ unwrap_or ask.now.control 0 }
{
    match ask.control {
        Some(word) => word.value(),
        None => 0,
    }
}

/// Whether a number is that of a closed channel.
pub fn is_free(job: &Job, number: Word) -> bool
    ensures { result ≡ is_free job.now number }
{
    number.value() < 16 && is_closed(channel(job, number))
}

/// Whether a channel is closed.
fn is_closed(channel: Channel) -> bool
    ensures { result ≡ is_closed channel }
{
    matches!(channel, Channel::Closed)
}
