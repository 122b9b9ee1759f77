//! The law of a load with one pass. This function does nothing: its contract is the theorem.
ghost use Rattle.segload.specs.OnePass.{OnePassIsModelled};

use segsolo::one_pass_is_served;

/// With one pass the totals of a load are those of the model, and as many keys stand.
/// The model serves the load's commands, one after the other, from its start on.
/// A load's contract (`IsLoad`) suffices for this.
pub fn one_pass_is_modelled()
    ensures { OnePassIsModelled }
{
    one_pass_is_served();
}
