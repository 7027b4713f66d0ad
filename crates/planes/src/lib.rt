//! Eight states of AES at a time, with their bits apart: what is done to a plane is done to a bit of every byte of the
//! eight states at once, and no branch and no address depends on a byte.
#![tactic(auto)]

ghost use Rattle.std.specs.Prelude.{◌≡◌, ◌<◌};
ghost use Rattle.std.specs.Simd.Lanes.{zip2};
ghost use Rattle.units.specs.Sums.{sums};
ghost use Rattle.planes.specs.Exchanges.{Exchanged, Masks, Spread, Stage, Transposed};
ghost use Rattle.planes.specs.Planes.{states};

use std::ops::BitXor;
use std::simd::prelude::*;

/// Eight states in eight planes, one plane for each bit of a byte, the lowest first. A plane has four lanes, one for each
/// row of a state, and in a lane each of the four columns has eight bits, one for each state.
#[derive(Clone, Copy)]
pub struct Planes {
    pub p0: u32x4,
    pub p1: u32x4,
    pub p2: u32x4,
    pub p3: u32x4,
    pub p4: u32x4,
    pub p5: u32x4,
    pub p6: u32x4,
    pub p7: u32x4,
}

/// The sums of the states, each with the one in its place.
impl BitXor for Planes {
    type Output = Planes;

    ghost bitxor_gives = { λ a b sum. states sum ≡ zip2 sums (states a) (states b) };

    #[tactic(auto, using(crate::proofs::PlaneLaws::states_added))]
    fn bitxor(self, other: Planes) -> Planes {
        Planes {
            p0: self.p0 ^ other.p0,
            p1: self.p1 ^ other.p1,
            p2: self.p2 ^ other.p2,
            p3: self.p3 ^ other.p3,
            p4: self.p4 ^ other.p4,
            p5: self.p5 ^ other.p5,
            p6: self.p6 ^ other.p6,
            p7: self.p7 ^ other.p7,
        }
    }
}

/// The even places.
const ONE_OF_TWO: u32 = 0x5555_5555;

/// The places whose number has its second bit 0.
const TWO_OF_FOUR: u32 = 0x3333_3333;

/// The places whose number has its third bit 0.
const FOUR_OF_EIGHT: u32 = 0x0F0F_0F0F;

/// The bytes of a state row by row.
const ROWS: [usize; 16] = [0, 4, 8, 12, 1, 5, 9, 13, 2, 6, 10, 14, 3, 7, 11, 15];

impl Planes {
    /// The planes of eight states.
    #[tactic(auto, using(crate::proofs::SpreadLaws::from_states))]
    pub fn from_blocks(blocks: &[[u8; 16]; 8]) -> Planes
        ensures { states result ≡ blocks.now }
    {
        let [b0, b1, b2, b3, b4, b5, b6, b7] = blocks;
        let spread = Planes {
            p0: spread(*b0),
            p1: spread(*b1),
            p2: spread(*b2),
            p3: spread(*b3),
            p4: spread(*b4),
            p5: spread(*b5),
            p6: spread(*b6),
            p7: spread(*b7),
        };
        spread.transposed()
    }

    /// The eight states.
    pub fn to_blocks(self) -> [[u8; 16]; 8]
        ensures { result ≡ states self }
    {
        let spread = self.transposed();
        [
            collect(spread.p0),
            collect(spread.p1),
            collect(spread.p2),
            collect(spread.p3),
            collect(spread.p4),
            collect(spread.p5),
            collect(spread.p6),
            collect(spread.p7),
        ]
    }

    /// In each column the number of a plane and that of a place are exchanged: planes of one state each become planes of one
    /// bit of all eight, and back.
    #[tactic(auto, using(crate::proofs::ExchangeLaws::transposed))]
    fn transposed(self) -> Planes
        ensures { Transposed self result }
    {
        self.exchange_by_one().exchange_by_two().exchange_by_four()
    }

    /// The first of three stages, each of which exchanges one bit of the two numbers.
    #[tactic(auto, using(crate::proofs::ExchangeLaws::masks_one, crate::proofs::ExchangeLaws::stage_one))]
    fn exchange_by_one(self) -> Planes
        ensures { Stage 1 self result }
    {
        let (p0, p1) = exchange(self.p0, self.p1, 1, ONE_OF_TWO);
        let (p2, p3) = exchange(self.p2, self.p3, 1, ONE_OF_TWO);
        let (p4, p5) = exchange(self.p4, self.p5, 1, ONE_OF_TWO);
        let (p6, p7) = exchange(self.p6, self.p7, 1, ONE_OF_TWO);
        Planes {
            p0,
            p1,
            p2,
            p3,
            p4,
            p5,
            p6,
            p7,
        }
    }

    #[tactic(auto, using(crate::proofs::ExchangeLaws::masks_two, crate::proofs::ExchangeLaws::stage_two))]
    fn exchange_by_two(self) -> Planes
        ensures { Stage 2 self result }
    {
        let (p0, p2) = exchange(self.p0, self.p2, 2, TWO_OF_FOUR);
        let (p1, p3) = exchange(self.p1, self.p3, 2, TWO_OF_FOUR);
        let (p4, p6) = exchange(self.p4, self.p6, 2, TWO_OF_FOUR);
        let (p5, p7) = exchange(self.p5, self.p7, 2, TWO_OF_FOUR);
        Planes {
            p0,
            p1,
            p2,
            p3,
            p4,
            p5,
            p6,
            p7,
        }
    }

    #[tactic(auto, using(crate::proofs::ExchangeLaws::masks_four, crate::proofs::ExchangeLaws::stage_four))]
    fn exchange_by_four(self) -> Planes
        ensures { Stage 4 self result }
    {
        let (p0, p4) = exchange(self.p0, self.p4, 4, FOUR_OF_EIGHT);
        let (p1, p5) = exchange(self.p1, self.p5, 4, FOUR_OF_EIGHT);
        let (p2, p6) = exchange(self.p2, self.p6, 4, FOUR_OF_EIGHT);
        let (p3, p7) = exchange(self.p3, self.p7, 4, FOUR_OF_EIGHT);
        Planes {
            p0,
            p1,
            p2,
            p3,
            p4,
            p5,
            p6,
            p7,
        }
    }
}

/// The two planes with some of their bits exchanged: those of `a` at the places whose bit worth `distance` is 1, and those
/// of `b` at the places so far below. The mask has the places whose bit worth `distance` is 0.
#[tactic(auto, using(crate::proofs::ExchangeLaws::exchanged))]
fn exchange(a: u32x4, b: u32x4, distance: u32, mask: u32) -> (u32x4, u32x4)
    requires positive { 0 < distance }
    requires short { distance < 32 }
    requires masks { Masks distance mask }
    ensures { Exchanged distance a b result.0 result.1 }
{
    let apart = u32x4::splat(distance);
    let changed = ((a >> apart) ^ b) & u32x4::splat(mask);
    (a ^ (changed << apart), b ^ changed)
}

/// The bytes of a state with one row to a lane.
#[tactic(auto, using(crate::proofs::SpreadLaws::spread_by_rows))]
fn spread(state: [u8; 16]) -> u32x4
    ensures { Spread state result }
{
    u32x4::from_le_bytes(u8x16::from_array(state).swizzle(ROWS))
}

/// The state whose bytes have one row to a lane.
#[tactic(auto, using(crate::proofs::SpreadLaws::collected_by_rows))]
fn collect(rows: u32x4) -> [u8; 16]
    ensures { Spread result rows }
{
    rows.to_le_bytes().swizzle(ROWS).to_array()
}
