//! Values that are known beforehand, against which the definitions are held.
#![tactic(auto)]

ghost use Rattle.std.specs.Prelude.{◌≡◌, length};
ghost use Rattle.known.specs.Flat.{FlatSound};
ghost use Rattle.known.specs.Known.{ValuesKnown, table};

/// How many values are known. Each is what the definitions give.
pub fn known_values() -> usize
    ensures count { result ≡ length table }
    ensures agree { ValuesKnown }
    ensures flat { FlatSound }
{
    20
}
