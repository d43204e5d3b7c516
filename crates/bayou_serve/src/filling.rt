//! How full a server is, and what of that is reported.
ghost use Rattle.std.specs.Prelude.{◌≡◌, ℕ, None, Some, if◌then◌else◌, max, nat_lt};
ghost use Rattle.bayou_serve.specs.Fullness.{IsFullness};

// The highest of the steps of fullness, in hundredths of the limit, that so many Writes reach; 0 where they reach none.
fn fullness(held: u32, limit: u32) -> u8
    ensures { IsFullness held limit result }
{
    let (held, limit) = (u64::from(held) * 100, u64::from(limit));
    if 99 * limit <= held {
        99
    } else if 95 * limit <= held {
        95
    } else if 90 * limit <= held {
        90
    } else {
        0
    }
}

/// Which step of fullness was reported last; 0 before the first.
#[derive(Clone, Copy, Debug, PartialEq, Eq)]
pub struct Filling {
    told: u8,
}

impl Filling {
    /// None was reported yet.
    pub fn new() -> Self
        ensures { result.told ≡ 0 }
    {
        Filling { told: 0 }
    }

    /// The step to report of so many Writes, if any: a greater one than was reported. It counts as reported then.
    pub fn step_to_tell(&mut self, held: u32, limit: u32) -> Option<u8>
        ensures { (full : ℕ) × IsFullness held limit full × (result ≡ (if nat_lt self.old.told full then Some full else None)) × (self.new.told ≡ max self.old.told full) }
    {
        let full = fullness(held, limit);
        if self.told < full {
            self.told = full;
            return Some(full);
        }
        None
    }
}
