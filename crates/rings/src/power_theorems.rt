ghost use Rattle.rings.specs.PowerTheorems.{PowersMakeAField, PowersOfThreeMakeTheByteField};

// The contract of each function is a theorem, and its body does nothing.
pub fn powers_make_a_field()
    ensures { PowersMakeAField }
{}

pub fn powers_of_three_make_the_byte_field()
    ensures { PowersOfThreeMakeTheByteField }
{}
