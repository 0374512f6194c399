// Worked records, as the contract of a call.
ghost use Rattle.layout.specs.Examples.{Examples};

/// A record of each kind, written out in hexadecimal, and what some bytes are refused with.
pub fn examples_stand()
    ensures examples { Examples }
{}
