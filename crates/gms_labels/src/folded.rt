//! A text in lower case, in a buffer that needs no memory: the key of a label.
ghost use Rattle.std.specs.Prelude.{◌≡◌, ◌≤◌, [], ◌∷◌, length};
ghost use Rattle.std.specs.Str.{bytes_eq};
ghost use Rattle.std.specs.Cmp.{partial_equiv_from_equiv};
ghost use Rattle.std.specs.Cmp.Lexicographic.{nat_list_eq_equiv, bytes_decides};
ghost use Rattle.std.proofs.Common.{ap};
ghost use Rattle.gms_labels.specs.Labels.{most_label_bytes, lower_case};

use crate::labels::MOST_BYTES;
use std::hash::{Hash, Hasher};
use std::marker::Model;

/// A text of at most 63 bytes, with its ASCII letters in lower case.
#[derive(Drop)]
pub struct Folded {
    bytes: [u8; MOST_BYTES],
    len: u8,
}

impl Model for Folded {
    ghost use Rattle.std.specs.Prelude.{ℕ, List, take, ◌≤◌};

    ghost Value = { List ℕ };

    ghost view = { λ f. take f.len f.bytes };

    ghost invariant = { λ f. f.len ≤ 63 };
}

impl Folded {
    /// The text with its ASCII letters in lower case.
    pub fn new(text: &str) -> Folded
        requires { length text.now ≤ most_label_bytes }
        ensures { result ≡ lower_case text.now }
    {
        let len = text.len();
        let mut bytes = [0; MOST_BYTES];
        let prefix = &mut bytes[..len];
        prefix.copy_from_slice(text.as_bytes());
        prefix.make_ascii_lowercase();
        Folded {
            bytes,
            len: len as u8,
        }
    }

    /// The bytes of the text, whose ASCII letters are in lower case.
    pub fn as_slice(&self) -> &[u8]
        ensures { result.now ≡ self.now }
    {
        &self.bytes[..self.len as usize]
    }
}

impl PartialEq for Folded {
    ghost eq = { bytes_eq };

    ghost laws = { partial_equiv_from_equiv nat_list_eq_equiv };

    fn eq(&self, other: &Folded) -> bool {
        self.as_slice() == other.as_slice()
    }
}

impl Eq for Folded {
    ghost laws = { nat_list_eq_equiv };
}

// One `write` of all bytes; the `Hash` of a slice feeds them one by one.
impl Hash for Folded {
    ghost hash_input = { λ f. f ∷ [] };

    ghost respects_eq = { λ x y same. ap (λ f. f ∷ []) ((bytes_decides x y).0 same) };

    fn hash<H: Hasher>(&self, state: &mut H) {
        state.write(self.as_slice());
    }
}
