//! The window of a receiving end: which counts it has opened, and so which are still open.
//!
//! Every count from the first one on is open until one has been opened. From then on a count is open if it has not been
//! opened and is fewer than `WINDOW` below the highest opened.
#![tactic(auto)]

ghost use Rattle.std.specs.Prelude.{◌≡◌, ℕ, ◌≤◌};
ghost use Rattle.units.specs.Refusals.{refusal, told};
ghost use Rattle.units.specs.declared.refusals.Layer.TheVariants.{Link};
ghost use Rattle.windows.specs.Windows.{WindowTells, after, count_refusal, loss, new_window, opened_of};

use units::{Layer, Reason, Refusal};

/// How many counts a window looks back on: those up to the highest opened.
pub const WINDOW: u32 = 64;

/// The window of a receiving end. Bit `k` of `opened` stands for the count `k` below the highest.
#[derive(Clone, Copy, Debug, PartialEq, Eq)]
pub struct Window {
    first: u32,
    highest: Option<u32>,
    opened: u64,
}

impl Window {
    /// A window in which nothing has been opened.
    pub fn new(first: u32) -> Window
        ensures { result ≡ new_window first }
    {
        Window {
            first,
            highest: None,
            opened: 0,
        }
    }

    /// The highest count opened, if one has been.
    pub fn highest(&self) -> Option<u32>
        ensures { result ≡ self.now.highest }
    {
        self.highest
    }

    /// Refuses a count that is not open: one that is too old, and then one that has been opened.
    #[tactic(auto, using(crate::proofs::WindowLaws::window_tells))]
    pub fn judge(&self, count: u32) -> Result<(), Refusal>
        ensures value { result ≡ told (count_refusal self.now count) }
        ensures tells { WindowTells }
    {
        if count < self.first {
            return Err(refuse(Reason::OldCount));
        }
        let Some(highest) = self.highest else {
            return Ok(());
        };
        if highest.saturating_sub(count) >= WINDOW {
            return Err(refuse(Reason::OldCount));
        }
        if count <= highest && (self.opened >> (highest - count)) & 1 == 1 {
            return Err(refuse(Reason::OpenedBefore));
        }
        Ok(())
    }

    /// Marks a count as opened. One that is not open leaves the window as it was.
    #[tactic(auto, using(crate::proofs::BitLaws::shl_out), unfolding(crate::specs::Windows::mark))]
    pub fn mark(&mut self, count: u32)
        ensures { self.new ≡ after self.old count }
    {
        if self.judge(count).is_err() {
            return;
        }
        match self.highest {
            None => {
                self.opened = 1;
                self.highest = Some(count);
            }
            Some(highest) if highest < count => {
                self.opened = self.opened.checked_shl(count - highest).unwrap_or(0) | 1;
                self.highest = Some(count);
            }
            Some(highest) => self.opened |= 1 << (highest - count),
        }
    }

    /// How many in a hundred of the last counts up to the highest opened have not been opened, to the nearest whole, a half
    /// upward. It looks at 64 counts, or at fewer where there are not so many from the first one on; 0 if nothing has been
    /// opened.
    pub fn loss(&self) -> u8
        ensures { result ≡ loss self.now }
    {
        let Some(highest) = self.highest else {
            return 0;
        };
        if highest < self.first {
            return 0;
        }
        let width = (highest - self.first).min(WINDOW - 1) + 1;
        let missing = width - opened_of(width, self.opened);
        ((200 * missing + width) / (2 * width)) as u8
    }
}

/// How many of the last `width` counts have been opened, the highest among them.
#[tactic(auto, using(crate::proofs::WindowLaws::opened_more))]
fn opened_of(width: u32, opened: u64) -> u32
    requires { width ≤ 64 }
    ensures value { result ≡ opened_of width opened }
    ensures most { result ≤ width }
{
    let mut found = 0;
    for k in 0..width {
        found += (opened >> k & 1) as u32;
    }
    found
}

/// The refusal of the link for a reason.
pub fn refuse(reason: Reason) -> Refusal
    ensures { result ≡ refusal reason Link 0 }
{
    Refusal {
        reason,
        layer: Layer::Link,
        place: 0,
    }
}

/// What the layers above rest on. It does nothing: a caller's proof has the laws from its contract.
#[tactic(auto, using(crate::proofs::WindowLaws::window_tells))]
pub fn laws()
    ensures { WindowTells }
{}
