//! Each byte of eight states times x.
ghost use Rattle.std.specs.Prelude.{◌≡◌, map};
ghost use Rattle.planes.specs.Planes.{states};
ghost use Rattle.byte_field.specs.ByteField.{ByteFieldStands, xtime};

use planes::Planes;

/// Each byte times x: every bit goes one place up, and where the highest was one, x^4 + x^3 + x + 1 is added for the x^8
/// that it became.
pub fn doubled(q: Planes) -> Planes
    ensures value { states result ≡ map (map xtime) (states q) }
    ensures stands { ByteFieldStands }
{
    Planes {
        p0: q.p7,
        p1: q.p0 ^ q.p7,
        p2: q.p1,
        p3: q.p2 ^ q.p7,
        p4: q.p3 ^ q.p7,
        p5: q.p4,
        p6: q.p5,
        p7: q.p6,
    }
}
