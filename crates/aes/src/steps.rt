//! The steps of a round, on eight states at a time. SubBytes is `byte_field::sub_bytes`.
ghost use Rattle.std.specs.Prelude.{◌≡◌, map};
ghost use Rattle.planes.specs.Planes.{states};
ghost use Rattle.aes.specs.Cipher.{mix_columns, shift_rows};
ghost use Rattle.aes.specs.Steps.{Moved, next_column, row_below, same_column, same_row, turned};

use byte_field::doubled;
use planes::Planes;
use std::simd::prelude::*;

/// ShiftRows.
#[tactic(auto, using(crate::proofs::StepLaws::rows_shifted))]
pub fn shift_rows(q: Planes) -> Planes
    ensures { states result ≡ map shift_rows (states q) }
{
    each_plane(q, shift_row)
}

/// Where each byte of the lanes comes from: column `c` of row `r`, which is lane `r`, from column `c + r`, counted modulo 4.
const COLUMNS: [usize; 16] = [0, 1, 2, 3, 5, 6, 7, 4, 10, 11, 8, 9, 15, 12, 13, 14];

fn shift_row(x: u32x4) -> u32x4
    ensures { Moved same_row next_column x result }
{
    u32x4::from_le_bytes(x.to_le_bytes().swizzle(COLUMNS))
}

/// MixColumns. A byte is the sum of the three below it in its column, and of x times the sum of the byte and the next.
pub fn mix_columns(q: Planes) -> Planes
    ensures { states result ≡ map mix_columns (states q) }
{
    let next = one_row_up(q);
    let pairs = q ^ next;
    next ^ two_rows_up(pairs) ^ doubled(pairs)
}

/// Each row one place up, the uppermost to the bottom.
#[tactic(auto, using(crate::proofs::StepLaws::rows_turned))]
fn one_row_up(q: Planes) -> Planes
    ensures { states result ≡ map (turned 1) (states q) }
{
    each_plane(q, next_lane)
}

/// Each row two places up.
#[tactic(auto, using(crate::proofs::StepLaws::rows_turned))]
fn two_rows_up(q: Planes) -> Planes
    ensures { states result ≡ map (turned 2) (states q) }
{
    each_plane(q, lane_after_next)
}

/// The planes that a function makes of each.
fn each_plane<F: Fn(u32x4) -> u32x4>(q: Planes, f: F) -> Planes
    requires { F.IsAlwaysCallable f }
    ensures p0 { F.post f q.p0 result.p0 }
    ensures p1 { F.post f q.p1 result.p1 }
    ensures p2 { F.post f q.p2 result.p2 }
    ensures p3 { F.post f q.p3 result.p3 }
    ensures p4 { F.post f q.p4 result.p4 }
    ensures p5 { F.post f q.p5 result.p5 }
    ensures p6 { F.post f q.p6 result.p6 }
    ensures p7 { F.post f q.p7 result.p7 }
{
    Planes {
        p0: f(q.p0),
        p1: f(q.p1),
        p2: f(q.p2),
        p3: f(q.p3),
        p4: f(q.p4),
        p5: f(q.p5),
        p6: f(q.p6),
        p7: f(q.p7),
    }
}

fn next_lane(x: u32x4) -> u32x4
    ensures { Moved (row_below 1) same_column x result }
{
    x.swizzle([1, 2, 3, 0])
}

fn lane_after_next(x: u32x4) -> u32x4
    ensures { Moved (row_below 2) same_column x result }
{
    x.swizzle([2, 3, 0, 1])
}
