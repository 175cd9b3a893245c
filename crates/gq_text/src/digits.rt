//! The text of a number, in a buffer that needs no memory.
ghost use Rattle.std.specs.Prelude.{◌≡◌, ◌<◌, ◌≤◌, ◌+◌, ◌^◌, ◌++◌, ◌∷◌, [], length};
ghost use Rattle.gq_text.specs.InnerAppends.{AppendsDigits, AppendsNumeral, AppendsDecimals, AppendsDenominator, sign_text};

use std::marker::Model;
use std::str::from_utf8;

/// How many bytes a text has at most.
const MOST_BYTES: usize = 96;

/// The text of a number, of at most 96 bytes; contracts view it as the list of its bytes.
#[derive(Drop)]
pub struct Digits {
    bytes: [u8; MOST_BYTES],
    len: usize,
}

impl Model for Digits {
    ghost use Rattle.std.specs.Prelude.{ℕ, List, take, ◌≤◌};
    ghost use Rattle.std.specs.Str.{IsAscii};

    ghost Value = { List ℕ };

    ghost view = { λ d. take d.len d.bytes };

    ghost invariant = { λ d. (d.len ≤ 96) × IsAscii (take d.len d.bytes) };
}

impl Digits {
    /// An empty text.
    pub fn new() -> Digits
        ensures { result ≡ [] }
    {
        Digits {
            bytes: [0; MOST_BYTES],
            len: 0,
        }
    }

    /// The text in the buffer. Each call that puts a number there replaces the whole text.
    pub fn as_str(&self) -> &str
        ensures { result.now ≡ self.now }
    {
        from_utf8(&self.bytes[..self.len]).unwrap()
    }

    /// The bytes of the text in the buffer, as `as_str` returns it.
    pub fn as_bytes(&self) -> &[u8]
        ensures { result.now ≡ self.now }
    {
        &self.bytes[..self.len]
    }

    /// Removes all bytes.
    pub(crate) fn clear(&mut self)
        ensures { self.new ≡ [] }
    {
        self.len = 0;
    }

    /// Appends an ASCII byte.
    pub(crate) fn push(&mut self, byte: u8)
        requires ascii { byte < 128 }
        requires within_bound { length self.old < 96 }
        ensures { self.new ≡ self.old ++ byte ∷ [] }
    {
        self.bytes[self.len] = byte;
        self.len += 1;
    }

    /// Appends the last `places` digits of the number, which has no more.
    pub(crate) fn push_digits(&mut self, n: u128, places: u32)
        requires small { n < 10 ^ places }
        requires places { places < 40 }
        requires within_bound { length self.old + places ≤ 96 }
        ensures { AppendsDigits self.old self.new n places }
    {
        if places < 20 {
            self.push_word(n as u64, places);
            return;
        }
        let mut rest = n;
        for place in (0..places).rev() {
            let unit = 10u128.pow(place);
            self.push(b'0' + (rest / unit) as u8);
            rest %= unit;
        }
    }

    /// Appends the last `places` digits of a number of one word, which has no more.
    fn push_word(&mut self, n: u64, places: u32)
        requires small { n < 10 ^ places }
        requires within_bound { length self.old + places ≤ 96 }
        ensures { AppendsDigits self.old self.new n places }
    {
        if places == 0 {
            return;
        }
        self.push_word(n / 10, places - 1);
        self.push(b'0' + (n % 10) as u8);
    }

    /// Appends the numeral of the number.
    pub(crate) fn push_numeral(&mut self, n: u128)
        requires { length self.old + 39 ≤ 96 }
        ensures numeral { AppendsNumeral self.old self.new n }
        ensures short { length self.new ≤ length self.old + 39 }
    {
        self.push_digits(n, 1 + n.checked_ilog10().unwrap_or(0));
    }

    /// Appends `-` if `negative`.
    pub(crate) fn push_sign(&mut self, negative: bool)
        requires { length self.old < 96 }
        ensures { self.new ≡ self.old ++ sign_text negative }
    {
        if negative {
            self.push(b'-');
        }
    }

    /// Appends a point and `decimals` digits, or nothing if `decimals` is 0.
    pub(crate) fn push_decimals(&mut self, fraction: u128, decimals: u8)
        requires small { fraction < 10 ^ decimals }
        requires decimals { decimals ≤ 8 }
        requires within_bound { length self.old + 9 ≤ 96 }
        ensures { AppendsDecimals self.old self.new fraction decimals }
    {
        if decimals > 0 {
            self.push(b'.');
            self.push_digits(fraction, decimals as u32);
        }
    }

    /// Appends `/` and the numeral of a denominator, or nothing where it is 1.
    pub(crate) fn push_denominator(&mut self, denominator: u128)
        requires { length self.old + 40 ≤ 96 }
        ensures { AppendsDenominator self.old self.new denominator }
    {
        if denominator != 1 {
            self.push(b'/');
            self.push_numeral(denominator);
        }
    }
}
