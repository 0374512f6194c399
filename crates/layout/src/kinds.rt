// How long the record of each kind is: functions and no methods, since the kinds are a type of a crate that knows no feed.
ghost use Rattle.std.specs.Prelude.{◌≡◌};
ghost use Rattle.layout.specs.Layout.{size, widths, bits_for};

pub use entry::kinds::Kind;

/// The bits of a record, without the spare ones.
pub fn bits(kind: Kind) -> usize
    ensures answer { result ≡ bits_for (widths kind) }
{
    match kind {
        Kind::Clock => 34,
        Kind::Post | Kind::Reference => 67,
        Kind::Leave => 65,
        Kind::Trade => 90,
        Kind::Parameters => 154,
        Kind::Ruling => 64,
    }
}

/// The bytes of a record.
pub fn size(kind: Kind) -> usize
    ensures answer { result ≡ size kind }
{
    bits(kind).div_ceil(8)
}
