//! The last inputs of a call get new values.
ghost use Rattle.std.specs.Prelude.{◌≡◌, ◌<◌, length};
ghost use Rattle.its_plain.specs.Call.Arguments.{with_new_values};
ghost use Rattle.its_in_call.specs.Values.{with_value};

use its_records::Ask;
use its_word::Word;

/// Gives the last inputs of a call new values.
pub fn revalue(ask: &mut Ask, values: &[Word])
    ensures { ask.new ≡ with_new_values ask.old values.now }
{
    let kept = ask.inputs.len().saturating_sub(values.len());
    for k in 0..values.len() {
        if kept + k < ask.inputs.len() {
            set_value(ask, kept + k, values[k]);
        }
    }
}

/// Gives one input of a call a new value.
fn set_value(ask: &mut Ask, k: usize, value: Word)
    requires { k < length ask.old.inputs.items }
    ensures { ask.new ≡ with_value ask.old k value }
{
    ask.inputs[k].value = value;
}
