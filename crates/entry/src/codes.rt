// What a conversion from a code answers where there is nothing with that code.

/// A code that no kind has.
#[derive(Clone, Copy, PartialEq, Eq, Debug)]
pub struct UnknownCode(pub u8);
