//! Which gate of a trial is turned over, and where.
ghost use Rattle.std.specs.Prelude.{◌≡◌, ◌≤◌, ◌<◌, ◌*◌};
ghost use Rattle.make_trial.specs.Trial.{trial_index as index_of, trial_place as place_of};

/// The position of the gate, one of the k * k products of the multiplier.
pub fn trial_place(k: u32, number: u64) -> u32
    requires some { 1 ≤ k }
    requires most { k ≤ 64 }
    ensures place { result ≡ place_of k number }
    ensures low { result < k * k }
{
    (number % u64::from(k * k)) as u32
}

/// The bit of its table, one of four.
pub fn trial_index(k: u32, number: u64) -> u32
    requires some { 1 ≤ k }
    requires most { k ≤ 64 }
    ensures index { result ≡ index_of k number }
    ensures low { result < 4 }
{
    (number / u64::from(k * k) % 4) as u32
}
