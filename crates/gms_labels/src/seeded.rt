//! Hashes of labels that depend on a seed.
ghost use Rattle.std.specs.Prelude.{◌≡◌};
ghost use Rattle.std.specs.Hash.DefaultHasher as sip;

use std::hash::{BuildHasher, DefaultHasher, Hasher};

/// Makes the hashers of keys. With a seed, the hash of a key is SipHash-1-3 of the eight bytes of
/// the seed followed by the bytes of the key. Without a seed, it is SipHash-1-3 of the bytes of the
/// key alone.
#[derive(Clone, Copy)]
pub struct Seeded {
    initial: DefaultHasher,
}

impl Seeded {
    /// A maker of hashers that hash the eight bytes of this seed before the bytes of a key.
    pub fn new(seed: u64) -> Seeded {
        let mut initial = DefaultHasher::new();
        initial.write_u64(seed);
        Seeded { initial }
    }

    /// A maker of hashers without a seed, which hash only the bytes of a key.
    pub fn unseeded() -> Seeded {
        Seeded {
            initial: DefaultHasher::new(),
        }
    }
}

impl BuildHasher for Seeded {
    type Hasher = DefaultHasher;

    ghost build_hasher = { λ seeded. seeded.initial };

    fn build_hasher(&self) -> DefaultHasher {
        self.initial
    }
}

/// The seed for the tables of labels of a source: SipHash-1-3 of the bytes of the source.
///
/// The same source has the same seed, so its labels have the same hashes in each run. An author who
/// chooses labels that all have the same hash under some seed changes the bytes of the source by
/// this choice, and so the seed.
pub fn source_seed(source: &[u8]) -> u64
    ensures { result ≡ sip.finish (sip.write sip.initial source.now) }
{
    let mut hasher = DefaultHasher::new();
    hasher.write(source);
    hasher.finish()
}
