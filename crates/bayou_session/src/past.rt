ghost use Rattle.std.specs.Option.{ForSome};
ghost use Rattle.std.specs.Prelude.{◌<◌, ◌≤◌};
ghost use Rattle.bayou_base.specs.declared.limits.TheConstants.{MAX_PLACES};

use bayou_base::Vector;

/// What a session heard and tried before: the run and the place that it is at, and what it may ask again.
#[derive(Clone, Copy, Debug, PartialEq, Eq)]
pub struct Past {
    pub run: u32,
    /// How many places were begun.
    pub begun: u32,
    /// The place at which the Write was asked first that may be asked again.
    pub asked: Option<u32>,
    pub reads: Vector,
    pub writes: Vector,
    pub ghost runs: { 0 < run },
    pub ghost within: { begun ≤ MAX_PLACES },
    pub ghost asked_within: { ForSome asked (λ number. (0 < number) × (number ≤ begun)) },
}
