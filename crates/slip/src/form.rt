// Whether a slip is in form.
ghost use Rattle.slip.specs.Form.{form_checked, good_train};
ghost use Rattle.std.specs.Prelude.{◌≡◌};

use crate::fault::{Cause, Fault};
use crate::paper::{Message, Slip};

// The number of the last block that a line can have.
pub(crate) const LAST_BLOCK: u8 = 14;

fn has_good_train(message: Message) -> bool
    ensures { result ≡ good_train message }
{
    match message {
        Message::Wanted { train, .. } => train.is_known(),
        _ => true,
    }
}

// Refuses a slip out of form, naming its first bad field.
pub fn check_form(slip: &Slip) -> Result<(), Fault>
    ensures { result ≡ form_checked slip.now }
{
    if slip.block > LAST_BLOCK {
        return Err(Cause::Unknown.at(2));
    }
    if !has_good_train(slip.message) {
        return Err(Cause::Unknown.at(5));
    }
    Ok(())
}
