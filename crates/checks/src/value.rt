// The check of an event's value, which every kind begins with.
ghost use Rattle.std.specs.Prelude.{◌≡◌, cond, ltb};
ghost use Rattle.refusals.specs.Numbers.{outcome};
ghost use Rattle.translation.specs.Bits.{word};

use refusals::refusal::Refusal;
use state::event::Value;

// The largest value of a kind.
pub(crate) fn fits(value: Value, most: u16) -> Result<(), Refusal>
    ensures { outcome result ≡ cond (ltb most (word value.low value.high)) 2 0 }
{
    if most < value.word() {
        Err(Refusal::ValueTooLarge)
    } else {
        Ok(())
    }
}
