//! The product of polynomials, in which nothing carries, by integer products.
//!
//! Of each factor only every fifth coefficient is taken at a time. Then at most thirteen ones meet at a place of the
//! integer product, which the five bits from that place to the next can count, so that no carry reaches the next place;
//! and the low bit of each count is the coefficient. Integer products that have their coefficients at the same places are
//! added bit by bit before the other bits are dropped.
ghost use Rattle.std.specs.Prelude.{◌≡◌, ◌<◌};
ghost use Rattle.polynomials.specs.Polynomials.{ProductStands, product};
ghost use Rattle.polynomials.specs.Words.{opposite, part, sum_of};

/// How far the places are apart that are taken at a time.
const STEP: u32 = 5;

/// Every fifth place of a word: 0, 5, 10 and so on up to 60.
const HOLES: u64 = 0x1084_2108_4210_8421;

/// Every fifth place of a product of two words.
const WIDE_HOLES: u128 = 0x2108_4210_8421_0842_1084_2108_4210_8421;

/// The product of two polynomials of 64 coefficients each.
#[tactic(auto, using(crate::proofs::WordLaws::parts_product, crate::proofs::WordLaws::sum_of_more, crate::proofs::ProductLaws::product_stands))]
pub fn product(x: u64, y: u64) -> u128
    ensures value { result ≡ product x y }
    ensures stands { ProductStands }
{
    let mut sum: u128 = 0;
    for place in 0..STEP {
        sum ^= product_from(x, y, place);
    }
    sum
}

/// The sum of the products of those parts of `x` and `y` whose places add up to `place`, or to that and five. It has the
/// coefficients of the whole product at every fifth place from `place` on.
#[tactic(auto, using(crate::proofs::WordLaws::part_more))]
fn product_from(x: u64, y: u64, place: u32) -> u128
    requires { place < 5 }
    ensures { result ≡ sum_of 5 (λ i. product (part x i) (part y (opposite place i))) }
{
    let mut sum: u128 = 0;
    for i in 0..STEP {
        let j = (place + 4 * i) % STEP;
        sum ^= u128::from(part(x, i)) * u128::from(part(y, j));
    }
    sum & (WIDE_HOLES << place)
}

/// The coefficients of `x` at every fifth place from `place` on.
#[tactic(auto, using(crate::proofs::WordLaws::part_is))]
fn part(x: u64, place: u32) -> u64
    requires { place < 5 }
    ensures { result ≡ part x place }
{
    x & (HOLES << place)
}
