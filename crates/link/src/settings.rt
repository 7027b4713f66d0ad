//! What an end is set to.
ghost use Rattle.std.specs.Prelude.{◌≡◌, Ok, Err};
ghost use Rattle.link.specs.Settings.{Lawful, line, parameters, settled, setting};

use nonces::{ExtraIv, HIGHEST_BEARER, HIGHEST_DIRECTION, LARGEST_TAG, Parameters, SMALLEST_TAG};
use units::{Reason, Refusal};
use windows::refuse;

/// What both ends of a link share, beside the generator. `tag_size` is in bytes. An EXTRA_IV that is absent counts as six
/// zero bytes.
#[derive(Clone, Copy, Debug, PartialEq, Eq)]
pub struct Terms {
    pub bearer: u8,
    pub direction: u8,
    pub tag_size: u8,
    pub extra_iv: Option<ExtraIv>,
}

impl Terms {
    /// BEARER * 2 + DIRECTION, as a frame has it.
    pub(crate) fn line(&self) -> u8
        requires { Lawful self.now }
        ensures { result ≡ line self.now }
    {
        self.bearer * 2 + self.direction
    }

    /// What the message of a count goes under.
    pub(crate) fn parameters(&self, count: u32) -> Parameters
        ensures { result ≡ parameters self.now count }
    {
        Parameters {
            bearer: self.bearer,
            direction: self.direction,
            extra_iv: self.extra_iv,
            count,
        }
    }
}

/// Terms that an end takes, and the first count of that end.
#[derive(Clone, Copy, Debug)]
pub struct Settings {
    pub(crate) terms: Terms,
    pub(crate) first: u32,
    ghost lawful: { Lawful terms },
}

impl Settings {
    /// Refuses a bearer above 31 or a direction above 1, and then a tag size outside 4 to 16.
    pub fn new(terms: Terms, first: u32) -> Result<Settings, Refusal>
        ensures { elim result [ Ok s ↦ Ok (setting s.terms s.first) ≡ settled terms first | Err r ↦ Err r ≡ settled terms first ] }
    {
        if terms.bearer > HIGHEST_BEARER || terms.direction > HIGHEST_DIRECTION {
            return Err(refuse(Reason::BearerDirection));
        }
        if !(SMALLEST_TAG..=LARGEST_TAG).contains(&terms.tag_size) {
            return Err(refuse(Reason::TagSize));
        }
        Ok(Settings { terms, first })
    }
}
