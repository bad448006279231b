// A resolution: a value with its metric (document 000, section 5.3; PSP_METRIC, section 4.3).
ghost use Rattle.std.specs.Prelude.{◌≡◌, ◌+◌, ◌≤◌, length};
ghost use Rattle.attributes.specs.Resolution.{resolution_at, is_usable, is_resolution, density_of, dots_of};

const CENTIMETRES_PER_INCH: f64 = 2.54;

// Stays: the metric is a number, as (a) C reads it in this struct (psp.h), and whatever a file has there fits until it is judged.
#[repr(C)]
#[derive(Clone, Copy, Default)]
pub struct Resolution {
    pub value: f64,
    pub metric: u8,
}

// Dots per centimetre for C: whether there are any (0 or 1), and how many.
// Stays: a number with a value beside it, as (a) C has no Option (psp.h). The library speaks of an `Option<f64>`.
#[repr(C)]
#[derive(Clone, Copy)]
pub struct Dots {
    pub known: u32,
    pub value: f64,
}

impl Resolution {
    pub const SIZE: usize = 9;

    // Stays: with an offset, as (d) it is a part of a chunk, whose definition tells each place from the chunk's beginning.
    #[tactic(auto, unfolding(crate::specs::Resolution::resolution_at))]
    pub fn decode(file: &[u8], at: usize) -> Resolution
        requires { at + Resolution.SIZE ≤ length file.now }
        ensures { result ≡ resolution_at file.now at }
    {
        Resolution {
            value: endian::f64_at(file, at),
            metric: endian::u8_at(file, at + 8),
        }
    }

    // Metric 0 asks nothing of the value; the others want it finite and above 0.
    pub fn permitted(self) -> bool
        ensures { result ≡ is_resolution self }
    {
        self.metric == 0 || self.metric <= 2 && usable(self.value)
    }

    // Dots a centimetre, where the value can be used.
    #[tactic(auto, using(laws::proofs::Choice::pick_yes, laws::proofs::Choice::pick_no), unfolding(crate::specs::Resolution::density_of))]
    pub fn per_centimetre(self) -> Option<f64>
        ensures { result ≡ density_of self }
    {
        if !usable(self.value) {
            return None;
        }
        match self.metric {
            1 => Some(self.value / CENTIMETRES_PER_INCH),
            2 => Some(self.value),
            _ => None,
        }
    }
}

impl From<Option<f64>> for Dots {
    ghost from_gives = { λ density dots. dots ≡ dots_of density };

    fn from(density: Option<f64>) -> Dots {
        match density {
            None => Dots {
                known: 0,
                value: 0.0,
            },
            Some(value) => Dots { known: 1, value },
        }
    }
}

// Finite and above 0.
pub fn usable(x: f64) -> bool
    ensures { result ≡ is_usable x }
{
    x > 0.0 && x < f64::INFINITY
}
