//! The answer of a call, as C has it.
ghost use Rattle.std.specs.Prelude.{◌≡◌};
ghost use Rattle.capi.specs.Answers.{details_of, layer_number, number_of};

use super::details::Details;
use units::{Layer, Refusal};

/// Answers 0 or the number of the refusal, and writes its layer and its place.
pub(crate) fn tell(answer: Result<(), Refusal>, details: &mut Details) -> u32
    ensures number { result ≡ number_of answer }
    ensures details { details.new ≡ details_of answer }
{
    match answer {
        Ok(()) => {
            *details = Details { layer: 0, place: 0 };
            0
        }
        Err(refusal) => {
            *details = Details {
                layer: layer_number(refusal.layer),
                place: refusal.place,
            };
            u32::from(refusal.reason.number())
        }
    }
}

/// The number of a layer. C has no other name for it.
fn layer_number(layer: Layer) -> u32
    ensures { result ≡ layer_number layer }
{
    match layer {
        Layer::Cover => 1,
        Layer::Link => 2,
        Layer::Generator => 3,
        Layer::Recording => 4,
        Layer::KeyText => 5,
    }
}
