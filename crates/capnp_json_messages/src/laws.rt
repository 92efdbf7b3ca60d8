//! What holds of the rules with which texts are read.
ghost use Rattle.capnp_json_messages.specs.Laws.{RulesAreThere};

use capnp_floats::laws::words_have_floats;

/// For each set, strict or not, there are rules with which texts are read. So what is said of all such rules, as of the
/// read of a message, is said of some.
pub fn rules_are_there()
    ensures { RulesAreThere }
{
    words_have_floats();
}
