//! Integers in a list, of one word each or of two, or only those that are not 0.
ghost use Rattle.std.specs.Prelude.{◌≡◌, ℕ, ◌+◌, ◌*◌, ◌<◌, ◌≤◌, ◌^◌, ◌-◌, ◌-ℤ◌, ◌*ℤ◌, [], pos, nat_abs, length, slice_set, true, false, IfOk, IfSome, MatchOption};
ghost use Rattle.std.specs.Int.{◌∣◌};
ghost use Rattle.lp_integers.specs.Lines.{whole_at, AreWithin, AreDivided, CombinationsStayWithin, AreLessened, ArePlaces, AreLessenedFrom, AreOver, AreNegated};
ghost use Rattle.lp_integers.specs.Widths.{listed, AreWithinWidth};
ghost use Rattle.lp_integers.specs.Words.{AreDifferences, IsFirstAbove, IsGreatestAbove};

use crate::common::{WORD, gcd};
use crate::few::Few;
use crate::kept::Kept;
use crate::{narrow, wide};
use std::alloc::{AllocError, Global};
use std::marker::Model;

/// The least number above 0 that does not fit in an `i64`.
const HALF: u128 = 1 << 63;

/// A list of integers. All are stored in one word of 64 bits each, if no magnitude has more than 63
/// bits, or all in two words each. If at most one in 16 is not 0, the list may store only those
/// that are not 0. The storage changes no result.
#[derive(Drop)]
pub struct Numbers {
    kept: Kept,
}

impl Model for Numbers {
    ghost use Rattle.std.specs.Prelude.{ℤ, List};
    ghost use Rattle.lp_integers.specs.Widths.{listed, AreWithinWidth};

    ghost Value = { List ℤ };

    ghost view = { λ n. listed n.kept };

    ghost invariant = { λ n. AreWithinWidth n.kept };
}

/// Numbers in one word each if all are small; else in two. The only error is out of memory.
fn kept_of(alloc: Global, numbers: Vec<i128>) -> Result<Kept, AllocError>
    ensures { IfOk result (λ kept. (listed kept ≡ numbers.items) × AreWithinWidth kept) }
{
    if wide::greatest(numbers.as_slice(), 0) >= HALF {
        return Ok(Kept::Wide(numbers));
    }
    let list = wide::narrowed(alloc, numbers.as_slice())?;
    Ok(Kept::Narrow(list))
}

/// `a` times the numbers less `b` times others, if of both only the numbers other than 0 are
/// stored. The error is out of memory.
fn few_lessened(
    alloc: Global,
    own: &Kept,
    a: i64,
    b: i64,
    other: &Kept,
) -> Result<Option<Few>, AllocError>
    requires sized { length (listed other.now) ≡ length (listed own.now) }
    requires within_bound { CombinationsStayWithin (2 ^ 63 - 1) a b (listed own.now) (listed other.now) }
    ensures { IfOk result (λ found. IfSome found (AreDifferences a b (listed own.now) (listed other.now))) }
{
    let Kept::Few(other) = other else {
        return Ok(None);
    };
    let Kept::Few(own) = own else {
        return Ok(None);
    };
    let list = own.lessened(alloc, a, b, other)?;
    Ok(Some(list))
}

impl Numbers {
    /// An empty list.
    pub fn empty(alloc: Global) -> Numbers
        ensures { result ≡ [] }
    {
        Numbers {
            kept: Kept::Narrow(Vec::new(alloc)),
        }
    }

    /// The list of these numbers. Each magnitude is at most `most`. The only error is out of
    /// memory.
    pub fn of(alloc: Global, numbers: Vec<i128>, most: u128) -> Result<Numbers, AllocError>
        requires { AreWithin numbers.items most }
        ensures { IfOk result (λ list. list ≡ numbers.items) }
    {
        if most >= HALF {
            return Ok(Numbers {
                kept: Kept::Wide(numbers),
            });
        }
        let list = wide::narrowed(alloc, numbers.as_slice())?;
        Ok(Numbers {
            kept: Kept::Narrow(list),
        })
    }

    /// The list of these numbers, whose magnitudes have at most 63 bits. The error is out of
    /// memory.
    pub fn of_words(alloc: Global, words: Vec<i64>) -> Result<Numbers, AllocError>
        requires { AreWithin words.items (2 ^ 63 - 1) }
        ensures { IfOk result (λ list. list ≡ words.items) }
    {
        match Few::of(alloc, words.as_slice())? {
            Some(list) => Ok(Numbers {
                kept: Kept::Few(list),
            }),
            None => Ok(Numbers {
                kept: Kept::Narrow(words),
            }),
        }
    }

    /// These numbers, of which only those other than 0 are stored if they are few. The error is out
    /// of memory.
    fn of_few(alloc: Global, list: Few) -> Result<Numbers, AllocError>
        ensures { IfOk result (λ made. made ≡ list) }
    {
        list.keeps();
        if list.is_few() {
            return Ok(Numbers {
                kept: Kept::Few(list),
            });
        }
        let list = list.listed(alloc)?;
        Ok(Numbers {
            kept: Kept::Narrow(list),
        })
    }

    /// The greatest magnitude of the numbers; 0 without numbers.
    pub fn greatest(&self) -> u128
        ensures within { AreWithin self.now result }
        ensures small { (m : ℕ) → AreWithin self.now m → result ≤ m }
    {
        match &self.kept {
            Kept::Few(list) => list.greatest() as u128,
            Kept::Narrow(list) => narrow::greatest(list.as_slice()) as u128,
            Kept::Wide(list) => wide::greatest(list.as_slice(), 0),
        }
    }

    /// A copy of the numbers. The error is out of memory.
    pub fn copy(&self, alloc: Global) -> Result<Numbers, AllocError>
        ensures { IfOk result (λ list. list ≡ self.now) }
    {
        match &self.kept {
            Kept::Few(list) => {
                let list = list.copied(alloc)?;
                Ok(Numbers {
                    kept: Kept::Few(list),
                })
            }
            Kept::Narrow(list) => {
                let list = narrow::copied(alloc, list.as_slice())?;
                Ok(Numbers {
                    kept: Kept::Narrow(list),
                })
            }
            Kept::Wide(list) => {
                let list = Vec::from_slice(alloc, list.as_slice())?;
                Ok(Numbers {
                    kept: Kept::Wide(list),
                })
            }
        }
    }

    /// How many numbers there are.
    pub fn len(&self) -> usize
        ensures { result ≡ length self.now }
    {
        match &self.kept {
            Kept::Few(list) => list.len(),
            Kept::Narrow(list) => list.len(),
            Kept::Wide(list) => list.len(),
        }
    }

    /// The number at the position `place`, from 0.
    #[inline(always)]
    pub fn at(&self, place: usize) -> i128
        requires { place < length self.now }
        ensures { result ≡ whole_at self.now place }
    {
        match &self.kept {
            Kept::Few(list) => list.at(place) as i128,
            Kept::Narrow(list) => list[place] as i128,
            Kept::Wide(list) => list[place],
        }
    }

    /// The least index from `start` on at which the number is above 0; `None` if no number from
    /// there on is above 0.
    pub fn first_above(&self, start: usize) -> Option<usize>
        ensures { IsFirstAbove self.now start result }
    {
        if let Kept::Few(list) = &self.kept {
            return list.first_above(start);
        }
        if let Kept::Narrow(list) = &self.kept {
            return narrow::first_above(list.as_slice(), start);
        }
        for place in start..self.len() {
            if self.at(place) > 0 {
                return Some(place);
            }
        }
        None
    }

    /// The index of the greatest of the numbers from the index `start` on, the least index if
    /// several are greatest; `None` if none of these numbers is above 0.
    pub fn greatest_above(&self, start: usize) -> Option<usize>
        ensures { IsGreatestAbove self.now start result }
    {
        if let Kept::Few(list) = &self.kept {
            return list.greatest_above(start);
        }
        if let Kept::Narrow(list) = &self.kept {
            return narrow::greatest_above(list.as_slice(), start);
        }
        let mut best = None;
        let mut most = 0;
        for place in start..self.len() {
            let number = self.at(place);
            if number > most {
                most = number;
                best = Some(place);
            }
        }
        best
    }

    /// The positions, from 0, of the numbers that are not 0, in any order and without repetition.
    /// The only error is out of memory.
    pub fn places(&self, alloc: Global) -> Result<Vec<usize>, AllocError>
        ensures { IfOk result (λ places. ArePlaces self.now (length self.now) places.items) }
    {
        if let Kept::Few(list) = &self.kept {
            return list.places(alloc);
        }
        if let Kept::Narrow(list) = &self.kept {
            return narrow::places(alloc, list.as_slice());
        }
        let mut places = Vec::new(alloc);
        for place in 0..self.len() {
            if self.at(place) != 0 {
                places.push(place)?;
            }
        }
        Ok(places)
    }

    /// The same numbers in two words each. The only error is out of memory.
    fn copied(&self, alloc: Global) -> Result<Vec<i128>, AllocError>
        ensures { IfOk result (λ list. list.items ≡ self.now) }
    {
        match &self.kept {
            Kept::Few(list) => list.widened(alloc),
            Kept::Narrow(list) => wide::widened(alloc, list.as_slice()),
            Kept::Wide(list) => Vec::from_slice(alloc, list.as_slice()),
        }
    }

    /// Turns each number into `a` times it less `b` times the other's, if both lists have one word
    /// for each; else the numbers stay.
    fn lessen_narrow(&mut self, a: i64, b: i64, others: &Numbers) -> Option<u64>
        requires sized { length others.now ≡ length self.old }
        requires within_bound { CombinationsStayWithin (2 ^ 63 - 1) a b self.old others.now }
        ensures { MatchOption result (self.new ≡ self.old) (AreLessened a b self.old others.now self.new) }
    {
        let Kept::Narrow(other) = &others.kept else {
            return None;
        };
        match &mut self.kept {
            Kept::Narrow(own) => {
                let most = narrow::lessen(own.as_mut_slice(), a, b, other.as_slice());
                Some(most)
            }
            Kept::Few(_) => None,
            Kept::Wide(_) => None,
        }
    }

    /// Turns each number into `a` times it less `b` times the other's, by two words for each. The
    /// only error is out of memory.
    fn lessen_wide(
        &mut self,
        alloc: Global,
        a: i128,
        b: i128,
        others: &Numbers,
    ) -> Result<u128, AllocError>
        requires sized { length others.now ≡ length self.old }
        requires within_bound { CombinationsStayWithin (2 ^ 127 - 1) a b self.old others.now }
        ensures { IfOk result (AreLessened a b self.old others.now self.new) }
    {
        let mut own = self.copied(alloc)?;
        let other = others.copied(alloc)?;
        let most = wide::lessen(own.as_mut_slice(), a, b, other.as_slice());
        self.kept = kept_of(alloc, own)?;
        Ok(most)
    }

    /// All numbers of one word each, if only those other than 0 are stored. The error is out of
    /// memory.
    fn all_listed(&self, alloc: Global) -> Result<Option<Numbers>, AllocError>
        ensures { IfOk result (λ found. IfSome found (λ list. list ≡ self.now)) }
    {
        match &self.kept {
            Kept::Few(list) => {
                list.keeps();
                let list = list.listed(alloc)?;
                Ok(Some(Numbers {
                    kept: Kept::Narrow(list),
                }))
            }
            Kept::Narrow(_) => Ok(None),
            Kept::Wide(_) => Ok(None),
        }
    }

    /// Stores all numbers, if only those other than 0 were stored. The error is out of memory.
    fn list_all(&mut self, alloc: Global) -> Result<(), AllocError>
        ensures { IfOk result (λ _. self.new ≡ self.old) }
    {
        if let Some(list) = self.all_listed(alloc)? {
            *self = list;
        }
        Ok(())
    }

    /// The same list, of which only the numbers other than 0 are stored, if this one stores all in
    /// one word each and `count` is at most one in 16 of its length. The error is out of memory.
    fn spared(&self, alloc: Global, count: usize) -> Result<Option<Numbers>, AllocError>
        ensures { IfOk result (λ found. IfSome found (λ list. list ≡ self.now)) }
    {
        match &self.kept {
            Kept::Narrow(list) => {
                let Some(list) = Few::of_counted(alloc, list.as_slice(), count)? else {
                    return Ok(None);
                };
                list.keeps();
                Ok(Some(Numbers {
                    kept: Kept::Few(list),
                }))
            }
            Kept::Few(_) => Ok(None),
            Kept::Wide(_) => Ok(None),
        }
    }

    /// Stores only the numbers other than 0, if the list so far stores each number in one word, and
    /// `count` is at most a 16th of its length; else the storage is unchanged. `count` should be
    /// how many numbers are not 0. On success the numbers are unchanged. The only error is out of
    /// memory.
    pub fn spare_zeros(&mut self, alloc: Global, count: usize) -> Result<(), AllocError>
        ensures { IfOk result (λ _. self.new ≡ self.old) }
    {
        if let Some(list) = self.spared(alloc, count)? {
            *self = list;
        }
        Ok(())
    }

    /// Turns each number into `a` times it less `b` times the other's, if of both lists only the
    /// numbers other than 0 are stored; else the numbers stay. The error is out of memory.
    fn lessen_few(
        &mut self,
        alloc: Global,
        a: i64,
        b: i64,
        others: &Numbers,
    ) -> Result<Option<u64>, AllocError>
        requires sized { length others.now ≡ length self.old }
        requires within_bound { CombinationsStayWithin (2 ^ 63 - 1) a b self.old others.now }
        ensures { IfOk result (λ o. MatchOption o (self.new ≡ self.old) (AreLessened a b self.old others.now self.new)) }
    {
        let Some(list) = few_lessened(alloc, &self.kept, a, b, &others.kept)? else {
            return Ok(None);
        };
        let most = list.greatest();
        *self = Numbers::of_few(alloc, list)?;
        Ok(Some(most))
    }

    /// Turns each number into `a` times it less `b` times the other's, if there is one word for
    /// each; else the numbers stay. The error is out of memory.
    fn lessen_words(
        &mut self,
        alloc: Global,
        a: i64,
        b: i64,
        others: &Numbers,
    ) -> Result<Option<u64>, AllocError>
        requires sized { length others.now ≡ length self.old }
        requires within_bound { CombinationsStayWithin (2 ^ 63 - 1) a b self.old others.now }
        ensures { IfOk result (λ o. MatchOption o (self.new ≡ self.old) (AreLessened a b self.old others.now self.new)) }
    {
        if let Some(most) = self.lessen_few(alloc, a, b, others)? {
            return Ok(Some(most));
        }
        self.list_all(alloc)?;
        match others.all_listed(alloc)? {
            Some(list) => Ok(self.lessen_narrow(a, b, &list)),
            None => Ok(self.lessen_narrow(a, b, others)),
        }
    }

    /// Replaces each number x with a x - b y, where y is the number of `others` at the same
    /// position. `others` must be as long as this list, `within_bound` below 2^127, and |a x| + |b
    /// y| everywhere at most `within_bound`. Returns a bound of the results' magnitudes, at most
    /// `within_bound`. The only error is out of memory.
    pub fn lessen(
        &mut self,
        alloc: Global,
        a: i128,
        b: i128,
        others: &Numbers,
        within_bound: u128,
    ) -> Result<u128, AllocError>
        requires sized { length others.now ≡ length self.old }
        requires small { within_bound < 2 ^ 127 }
        requires within_bound { CombinationsStayWithin within_bound a b self.old others.now }
        ensures { IfOk result (AreLessened a b self.old others.now self.new) }
    {
        if within_bound < HALF && a.unsigned_abs() < HALF && b.unsigned_abs() < HALF {
            if let Some(most) = self.lessen_words(alloc, a as i64, b as i64, others)? {
                return Ok(most as u128);
            }
        }
        self.lessen_wide(alloc, a, b, others)
    }

    /// Subtracts `b` times the other's number from each number at the places of the other's
    /// numbers, if both lists have one word for each; else the numbers stay.
    fn lessen_narrow_at(
        &mut self,
        b: i64,
        others: &Numbers,
        places: &[usize],
        least: u64,
    ) -> Option<u64>
        requires sized { length others.now ≡ length self.old }
        requires places { ArePlaces others.now (length others.now) places.now }
        requires small { least < 2 ^ 63 }
        requires within { AreWithin self.old least }
        requires within_bound { CombinationsStayWithin (2 ^ 63 - 1) (pos 1) b self.old others.now }
        ensures { MatchOption result (self.new ≡ self.old) (AreLessenedFrom least b self.old others.now self.new) }
    {
        if let Kept::Few(other) = &others.kept {
            if let Kept::Narrow(own) = &mut self.kept {
                let most = other.lessen(own.as_mut_slice(), b, least);
                return Some(most);
            }
            return None;
        }
        let Kept::Narrow(other) = &others.kept else {
            return None;
        };
        match &mut self.kept {
            Kept::Narrow(own) => {
                let most = narrow::lessen_at(
                    own.as_mut_slice(),
                    b,
                    other.as_slice(),
                    places,
                    least,
                );
                Some(most)
            }
            Kept::Few(_) => None,
            Kept::Wide(_) => None,
        }
    }

    /// Replaces each number x with x - b y, where y is the number of `others` at the same position.
    /// `others` must be as long as this list, and `places` must be, without repetition, the
    /// positions at which `others` is not 0. `least` must bound the magnitudes in this list, and
    /// `within_bound` must bound |x| + |b y| at each position.
    ///
    /// Returns a bound of the magnitudes in this list after the change, at least `least`. Returns
    /// `None`, and changes nothing, unless this list stores each number in one word, `others` does
    /// so or stores only the numbers other than 0, and `least`, `within_bound` and |b| are below
    /// 2^63.
    pub fn lessen_at(
        &mut self,
        b: i128,
        others: &Numbers,
        places: &[usize],
        least: u128,
        within_bound: u128,
    ) -> Option<u128>
        requires sized { length others.now ≡ length self.old }
        requires places { ArePlaces others.now (length others.now) places.now }
        requires within { AreWithin self.old least }
        requires within_bound { CombinationsStayWithin within_bound (pos 1) b self.old others.now }
        ensures { MatchOption result (self.new ≡ self.old) (AreLessenedFrom least b self.old others.now self.new) }
    {
        if within_bound < HALF && least < HALF && b.unsigned_abs() < HALF {
            if let Some(most) = self.lessen_narrow_at(b as i64, others, places, least as u64) {
                return Some(most as u128);
            }
        }
        None
    }

    /// The greatest common divisor of all numbers and a denominator, number by number.
    fn divisor_of_any(&self, denominator: u128) -> u128
        requires { 0 < denominator }
        ensures positive { 0 < result }
        ensures denominator { result ∣ denominator }
        ensures numbers { AreDivided self.now result }
        ensures greatest { (k : ℕ) → k ∣ denominator → AreDivided self.now k → k ∣ result }
    {
        let mut divisor = denominator;
        for place in 0..self.len() {
            if divisor == 1 {
                return 1;
            }
            divisor = gcd(self.at(place).unsigned_abs(), divisor);
        }
        divisor
    }

    /// The greatest common divisor of all numbers and a denominator.
    pub fn divisor_of(&self, denominator: u128) -> u128
        requires { 0 < denominator }
        ensures positive { 0 < result }
        ensures denominator { result ∣ denominator }
        ensures numbers { AreDivided self.now result }
        ensures greatest { (k : ℕ) → k ∣ denominator → AreDivided self.now k → k ∣ result }
    {
        if denominator > WORD {
            return self.divisor_of_any(denominator);
        }
        match &self.kept {
            Kept::Few(list) => list.divisor_of(denominator as u64) as u128,
            Kept::Narrow(list) => narrow::divisor_of(list.as_slice(), denominator as u64) as u128,
            Kept::Wide(_) => self.divisor_of_any(denominator),
        }
    }

    /// Divides each number by a common divisor if there is one word for each; else the numbers
    /// stay, and the answer is `false`.
    fn divide_narrow(&mut self, divisor: u64) -> bool
        requires positive { 0 < divisor }
        requires small { divisor < 2 ^ 63 }
        requires divides { AreDivided self.old divisor }
        ensures divided { result ≡ true → AreOver divisor self.old self.new }
        ensures same { result ≡ false → self.new ≡ self.old }
    {
        match &mut self.kept {
            Kept::Few(list) => {
                list.divide(divisor);
                true
            }
            Kept::Narrow(list) => {
                narrow::divide(list.as_mut_slice(), divisor);
                true
            }
            Kept::Wide(_) => false,
        }
    }

    /// Divides each number by `divisor`, which divides all of them without a remainder. The only
    /// error is out of memory.
    pub fn divide(&mut self, alloc: Global, divisor: u128) -> Result<(), AllocError>
        requires positive { 0 < divisor }
        requires small { divisor < 2 ^ 127 }
        requires divides { AreDivided self.old divisor }
        ensures { IfOk result (λ _. AreOver divisor self.old self.new) }
    {
        if divisor < HALF && self.divide_narrow(divisor as u64) {
            return Ok(());
        }
        let mut own = self.copied(alloc)?;
        wide::divide(own.as_mut_slice(), divisor);
        self.kept = kept_of(alloc, own)?;
        Ok(())
    }

    /// Negates each number.
    pub fn negate(&mut self)
        requires { (c : ℕ) → nat_abs (whole_at self.old c) < 2 ^ 127 }
        ensures { AreNegated self.old self.new }
    {
        match &mut self.kept {
            Kept::Few(list) => list.negate(),
            Kept::Narrow(list) => narrow::negate(list.as_mut_slice()),
            Kept::Wide(list) => wide::negate(list.as_mut_slice()),
        }
    }

    /// Replaces the number at the position `place`, from 0, with 0.
    pub fn clear(&mut self, place: usize)
        requires { place < length self.old }
        ensures { self.new ≡ slice_set self.old place (pos 0) }
    {
        match &mut self.kept {
            Kept::Few(list) => list.clear(place),
            Kept::Narrow(list) => list[place] = 0,
            Kept::Wide(list) => list[place] = 0,
        }
    }
}
