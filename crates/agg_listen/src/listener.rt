//! Listeners.
ghost use Rattle.std.specs.Prelude.{◌≡◌, ◌↔◌, List, Option, false};
ghost use Rattle.std.specs.Option.{option_and_then};
ghost use Rattle.std.specs.List.{slice_get};
ghost use Rattle.agg_listen.specs.Standing.{Standing, stays, having_heard};
ghost use Rattle.agg_listen.specs.declared.listener.Keep.TheVariants.{Stay, Leave};

/// Whether a listener is to be told of later answers too.
#[derive(Clone, Copy, Debug, PartialEq, Eq)]
pub enum Keep {
    Stay,
    Leave,
}

/// An answer whose line was written.
#[derive(Clone, Copy, Debug, PartialEq, Eq)]
pub struct Told {
    /// The number of its line in the output, from 1.
    pub line: u64,
    /// The line's `status`.
    pub status: u16,
    /// The bytes of the line without its newline.
    pub bytes: u64,
}

/// One that hears of answers.
pub trait Listener: Drop {
    /// What it heard so far, where it tells; whether it is steady, which is to stay for good; and how often it stays
    /// where it is not.
    ghost standing: { Self → Standing };

    /// Hears of an answer. A listener leaves exactly where it is not steady and its room is used up. One that stays has
    /// the answer behind what it heard before, and one less room where it is not steady.
    fn hear(&mut self, told: Told) -> Keep
        ensures leaves { result ≡ Leave ↔ (stays (standing self.old) ≡ false) }
        ensures heard { result ≡ Stay → standing self.new ≡ having_heard told (standing self.old) };

    /// What it heard at this place, from 0; none behind the last, and where it does not tell.
    fn entry(&self, place: usize) -> Option<Told>
        ensures { result ≡ option_and_then (λ heard. slice_get heard place) (standing self.now).heard };
}
