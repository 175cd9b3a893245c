//! Integers in a list of which most are 0: the others are stored, each with its place.
ghost use Rattle.std.specs.Prelude.{◌≡◌, ◌≢◌, ◌⊎◌, ℕ, ◌+◌, ◌*◌, ◌<◌, ◌≤◌, ◌^◌, ◌-◌, pos, ◌-ℤ◌, ◌*ℤ◌, neg_ℤ, nat_abs, length, map, slice_set, IfOk, IfSome};
ghost use Rattle.std.specs.Int.{◌∣◌};
ghost use Rattle.lp_integers.specs.Lines.{whole_at, AreWithin, AreDivided, CombinationsStayWithin, ArePlaces, AreLessenedFrom, AreOver, AreNegated};
ghost use Rattle.lp_integers.specs.declared.few.Word.{Word};
ghost use Rattle.lp_integers.specs.Words.{stored_number, spread_out, AreWords, EachNumber, AreMatched, IsNextPlace, SplitsWordAt, AppendsUnlessZero, HasWordsBound, AreDifferencesOf, AreDifferences, IsFirstPlace, IsGreatestPlace, IsFirstAbove, IsGreatestAbove};

use crate::divisor::Divisor;
use crate::narrow::{difference, greater, product, zero_words};
use crate::wide;
use std::alloc::{AllocError, Global};
use std::cmp::Ordering;
use std::marker::Model;

/// An integer of one word at a place of a list.
#[derive(Clone, Copy)]
pub(crate) struct Word {
    pub(crate) place: usize,
    pub(crate) number: i64,
}

/// Integers in a list: some of one word each, by ascending place, and 0 at all other places.
#[derive(Drop)]
pub(crate) struct Few {
    len: usize,
    words: Vec<Word>,
}

impl Model for Few {
    ghost use Rattle.std.specs.Prelude.{ℤ, List, ◌^◌, ◌-◌};
    ghost use Rattle.lp_integers.specs.Words.{spread_out, AreWords};

    ghost Value = { List ℤ };

    ghost view = { λ f. spread_out f.len f.words.items };

    ghost invariant = { λ f. AreWords (2 ^ 63 - 1) 0 f.len f.words.items };
}

/// A list is stored by its words if it has at most one for this number of places.
const PLACES_A_WORD: usize = 16;

/// Whether a list of `len` integers is stored by this many words.
fn are_few(words: usize, len: usize) -> bool {
    words <= len / PLACES_A_WORD
}

/// The number at a place, found by bisection; 0 if no word has that place.
#[inline(never)]
fn number_at(words: &[Word], place: usize) -> i64
    requires { (most high : ℕ) × AreWords most 0 high words.now }
    ensures { result ≡ stored_number words.now place }
{
    let mut rest = words;
    loop {
        let (prefix, back) = rest.split_at(rest.len() / 2);
        let Some((word, after)) = back.split_first() else {
            return 0;
        };
        match word.place.cmp(&place) {
            Ordering::Less => rest = after,
            Ordering::Equal => return word.number,
            Ordering::Greater => rest = prefix,
        }
    }
}

/// How many of the numbers are not 0.
fn count_of(numbers: &[i64]) -> usize {
    let mut count: usize = 0;
    for n in numbers {
        if *n != 0 {
            count = count.saturating_add(1);
        }
    }
    count
}

/// The least place at which one of two lists has a word; none if both have none.
fn next_place(words: &[Word], others: &[Word]) -> Option<usize>
    ensures { IsNextPlace words.now others.now result }
{
    match (words.first(), others.first()) {
        (None, None) => None,
        (Some(word), None) => Some(word.place),
        (None, Some(other)) => Some(other.place),
        (Some(word), Some(other)) => Some(word.place.min(other.place)),
    }
}

/// The number of the first word if it is at this place, else 0; and the remaining words.
fn split_place(words: &[Word], place: usize) -> (i64, &[Word])
    ensures { SplitsWordAt words.now place result.0 result.1.now }
{
    match words.split_first() {
        Some((word, rest)) if word.place == place => (word.number, rest),
        _ => (0, words),
    }
}

/// Appends a word, unless its number is 0. The error is out of memory.
fn push_unless_zero(words: &mut Vec<Word>, place: usize, number: i64) -> Result<(), AllocError>
    ensures { IfOk result (λ _. AppendsUnlessZero place number words.old.items words.new.items) }
{
    if number == 0 {
        return Ok(());
    }
    words.push(Word { place, number })?;
    Ok(())
}

/// The words of `a` times a list less `b` times another. The error is out of memory.
fn differences(
    alloc: Global,
    words: &[Word],
    a: i64,
    b: i64,
    others: &[Word],
) -> Result<Vec<Word>, AllocError>
    requires { (high : ℕ) × AreWords (2 ^ 63 - 1) 0 high words.now × AreWords (2 ^ 63 - 1) 0 high others.now ×
        HasWordsBound (2 ^ 63 - 1) a b words.now others.now }
    ensures { IfOk result (λ made. (high : ℕ) → AreWords (2 ^ 63 - 1) 0 high words.now →
        AreWords (2 ^ 63 - 1) 0 high others.now → HasWordsBound (2 ^ 63 - 1) a b words.now others.now →
        AreDifferencesOf (2 ^ 63 - 1) high a b words.now others.now made.items) }
{
    let mut made = Vec::with_capacity(alloc, words.len().saturating_add(others.len()))?;
    let mut left = words;
    let mut right = others;
    while let Some(place) = next_place(left, right) {
        let (number, left_after) = split_place(left, place);
        let (other, right_after) = split_place(right, place);
        let first = product(a, number);
        let second = product(b, other);
        push_unless_zero(&mut made, place, difference(first, second))?;
        left = left_after;
        right = right_after;
    }
    Ok(made)
}

/// The greatest magnitude of the words' numbers; 0 without words.
fn greatest_of(words: &[Word]) -> u64
    ensures within { EachNumber (λ z. nat_abs z ≤ result) words.now }
    ensures small { (m : ℕ) → EachNumber (λ z. nat_abs z ≤ m) words.now → result ≤ m }
{
    let mut most = 0;
    for word in words {
        most = greater(most, word.number);
    }
    most
}

/// The greatest common divisor of the words' numbers and a denominator.
fn divisor_of(words: &[Word], denominator: u64) -> u64
    requires { 0 < denominator }
    ensures positive { 0 < result }
    ensures denominator { result ∣ denominator }
    ensures numbers { EachNumber (λ z. result ∣ nat_abs z) words.now }
    ensures greatest { (k : ℕ) → k ∣ denominator → EachNumber (λ z. k ∣ nat_abs z) words.now → k ∣ result }
{
    let mut divisor = Divisor::of(denominator);
    for word in words {
        if divisor.value == 1 {
            return 1;
        }
        divisor = divisor.shared_with(word.number);
    }
    divisor.value
}

/// Divides the words' numbers by a common divisor.
fn divide(words: &mut [Word], divisor: u64)
    requires positive { 0 < divisor }
    requires small { divisor < 2 ^ 63 }
    requires divides { EachNumber (λ z. divisor ∣ nat_abs z) words.old }
    ensures { AreMatched (λ x y. y *ℤ pos divisor ≡ x) words.old words.new }
{
    let quick = Divisor::of(divisor);
    for i in 0..words.len() {
        let word = words[i];
        let number = quick.quotient(word.number);
        words[i] = Word {
            place: word.place,
            number,
        };
    }
}

/// Changes the sign of the words' numbers.
fn negate(words: &mut [Word])
    requires { EachNumber (λ z. nat_abs z < 2 ^ 63) words.old }
    ensures { AreMatched (λ x y. y ≡ neg_ℤ x) words.old words.new }
{
    for i in 0..words.len() {
        let word = words[i];
        let number = difference(0, word.number);
        words[i] = Word {
            place: word.place,
            number,
        };
    }
}

/// Writes the words' numbers into a list of zeros.
fn fill(list: &mut [i64], words: &[Word])
    requires words { (most : ℕ) × AreWords most 0 (length list.old) words.now }
    requires zeros { (c : ℕ) → whole_at list.old c ≡ pos 0 }
    ensures sized { length list.new ≡ length list.old }
    ensures numbers { (c : ℕ) → whole_at list.new c ≡ stored_number words.now c }
{
    for i in 0..words.len() {
        let word = words[i];
        list[word.place] = word.number;
    }
}

/// Subtracts `b` times the words' numbers from those of a list at their places. Answers a bound of
/// the magnitudes of all numbers of that list, which is at least `least`.
fn lessen_at(numbers: &mut [i64], b: i64, words: &[Word], least: u64) -> u64
    requires words { (most : ℕ) × AreWords most 0 (length numbers.old) words.now }
    requires within { AreWithin numbers.old least }
    requires within_bound { CombinationsStayWithin (2 ^ 63 - 1) (pos 1) b numbers.old (spread_out (length numbers.old) words.now) }
    ensures { AreLessenedFrom least b numbers.old (spread_out (length numbers.old) words.now) numbers.new result }
{
    let mut most = least;
    for i in 0..words.len() {
        let word = words[i];
        let second = product(b, word.number);
        let left = difference(numbers[word.place], second);
        numbers[word.place] = left;
        most = greater(most, left);
    }
    most
}

/// The words of a list. The error is out of memory.
fn words_of(alloc: Global, numbers: &[i64], count: usize) -> Result<Vec<Word>, AllocError>
    requires { AreWithin numbers.now (2 ^ 63 - 1) }
    ensures words { IfOk result (λ words. AreWords (2 ^ 63 - 1) 0 (length numbers.now) words.items) }
    ensures numbers { IfOk result (λ words. (c : ℕ) → whole_at numbers.now c ≡ stored_number words.items c) }
{
    let mut words = Vec::with_capacity(alloc, count)?;
    for place in 0..numbers.len() {
        let number = numbers[place];
        push_unless_zero(&mut words, place, number)?;
    }
    Ok(words)
}

/// The places of words. The error is out of memory.
fn places_of(alloc: Global, words: &[Word]) -> Result<Vec<usize>, AllocError>
    ensures { IfOk result (λ places. places.items ≡ map (λ (w : Word). w.place) words.now) }
{
    let mut places = Vec::with_capacity(alloc, words.len())?;
    for word in words {
        places.push(word.place)?;
    }
    Ok(places)
}

/// The least place from `start` on whose number is above 0; none without one.
fn first_above(words: &[Word], start: usize) -> Option<usize>
    requires { (most high : ℕ) × AreWords most 0 high words.now }
    ensures { IsFirstPlace words.now start result }
{
    for word in words {
        if word.number > 0 && word.place >= start {
            return Some(word.place);
        }
    }
    None
}

/// The place from `start` on with the greatest number above 0, and of equal ones the least; none
/// without one.
fn greatest_above(words: &[Word], start: usize) -> Option<usize>
    requires { (most high : ℕ) × AreWords most 0 high words.now }
    ensures { IsGreatestPlace words.now start result }
{
    let mut best = None;
    let mut most = 0;
    for word in words {
        if word.number > most && word.place >= start {
            most = word.number;
            best = Some(word.place);
        }
    }
    best
}

impl Few {
    /// The same list, if `count` words are few for its length; it is best to give how many numbers
    /// are not 0. The error is out of memory.
    pub(crate) fn of_counted(
        alloc: Global,
        numbers: &[i64],
        count: usize,
    ) -> Result<Option<Few>, AllocError>
        requires { AreWithin numbers.now (2 ^ 63 - 1) }
        ensures { IfOk result (λ found. IfSome found (λ list. list ≡ numbers.now)) }
    {
        if !are_few(count, numbers.len()) {
            return Ok(None);
        }
        let words = words_of(alloc, numbers, count)?;
        Ok(Some(Few {
            len: numbers.len(),
            words,
        }))
    }

    /// The same list, if few numbers are not 0. The error is out of memory.
    pub(crate) fn of(alloc: Global, numbers: &[i64]) -> Result<Option<Few>, AllocError>
        requires { AreWithin numbers.now (2 ^ 63 - 1) }
        ensures { IfOk result (λ found. IfSome found (λ list. list ≡ numbers.now)) }
    {
        Few::of_counted(alloc, numbers, count_of(numbers))
    }

    /// Whether it has few words for its length.
    pub(crate) fn is_few(&self) -> bool {
        are_few(self.words.len(), self.len)
    }

    /// How many numbers there are.
    pub(crate) fn len(&self) -> usize
        ensures { result ≡ length self.now }
    {
        self.len
    }

    /// The number at a place.
    pub(crate) fn at(&self, place: usize) -> i64
        ensures { result ≡ whole_at self.now place }
    {
        number_at(self.words.as_slice(), place)
    }

    /// A copy. The error is out of memory.
    pub(crate) fn copied(&self, alloc: Global) -> Result<Few, AllocError>
        ensures { IfOk result (λ copy. copy ≡ self.now) }
    {
        let words = Vec::from_slice(alloc, self.words.as_slice())?;
        Ok(Few {
            len: self.len,
            words,
        })
    }

    /// All numbers, of one word each. The error is out of memory.
    pub(crate) fn listed(&self, alloc: Global) -> Result<Vec<i64>, AllocError>
        ensures { IfOk result (λ list. list.items ≡ self.now) }
    {
        let mut list = zero_words(alloc, self.len)?;
        fill(list.as_mut_slice(), self.words.as_slice());
        Ok(list)
    }

    /// All numbers, of two words each. The error is out of memory.
    pub(crate) fn widened(&self, alloc: Global) -> Result<Vec<i128>, AllocError>
        ensures { IfOk result (λ list. list.items ≡ self.now) }
    {
        let list = self.listed(alloc)?;
        let wide_list = wide::widened(alloc, list.as_slice())?;
        Ok(wide_list)
    }

    /// The magnitudes have at most 63 bits: a law, which does nothing.
    pub(crate) fn keeps(&self)
        ensures { AreWithin self.now (2 ^ 63 - 1) }
    {
        let _len = self.len;
    }

    /// The distinct places of the numbers other than 0. The error is out of memory.
    pub(crate) fn places(&self, alloc: Global) -> Result<Vec<usize>, AllocError>
        ensures { IfOk result (λ places. ArePlaces self.now (length self.now) places.items) }
    {
        let places = places_of(alloc, self.words.as_slice())?;
        Ok(places)
    }

    /// The greatest magnitude of the numbers; 0 without numbers.
    pub(crate) fn greatest(&self) -> u64
        ensures within { AreWithin self.now result }
        ensures small { (m : ℕ) → AreWithin self.now m → result ≤ m }
    {
        greatest_of(self.words.as_slice())
    }

    /// `a` times the numbers less `b` times those of another list. The error is out of memory.
    pub(crate) fn lessened(
        &self,
        alloc: Global,
        a: i64,
        b: i64,
        others: &Few,
    ) -> Result<Few, AllocError>
        requires sized { length others.now ≡ length self.now }
        requires within_bound { CombinationsStayWithin (2 ^ 63 - 1) a b self.now others.now }
        ensures { IfOk result (AreDifferences a b self.now others.now) }
    {
        let (own, other) = (self.words.as_slice(), others.words.as_slice());
        let words = differences(alloc, own, a, b, other)?;
        Ok(Few {
            len: self.len,
            words,
        })
    }

    /// Subtracts `b` times each number from that of a list. Answers a bound of the magnitudes of
    /// all numbers of that list, which is at least `least`.
    pub(crate) fn lessen(&self, numbers: &mut [i64], b: i64, least: u64) -> u64
        requires sized { length self.now ≡ length numbers.old }
        requires within { AreWithin numbers.old least }
        requires within_bound { CombinationsStayWithin (2 ^ 63 - 1) (pos 1) b numbers.old self.now }
        ensures { AreLessenedFrom least b numbers.old self.now numbers.new result }
    {
        lessen_at(numbers, b, self.words.as_slice(), least)
    }

    /// The greatest common divisor of all numbers and a denominator.
    pub(crate) fn divisor_of(&self, denominator: u64) -> u64
        requires { 0 < denominator }
        ensures positive { 0 < result }
        ensures denominator { result ∣ denominator }
        ensures numbers { AreDivided self.now result }
        ensures greatest { (k : ℕ) → k ∣ denominator → AreDivided self.now k → k ∣ result }
    {
        divisor_of(self.words.as_slice(), denominator)
    }

    /// Divides each number by a common divisor.
    pub(crate) fn divide(&mut self, divisor: u64)
        requires positive { 0 < divisor }
        requires small { divisor < 2 ^ 63 }
        requires divides { AreDivided self.old divisor }
        ensures { AreOver divisor self.old self.new }
    {
        divide(self.words.as_mut_slice(), divisor);
    }

    /// Changes the sign of each number.
    pub(crate) fn negate(&mut self)
        ensures { AreNegated self.old self.new }
    {
        negate(self.words.as_mut_slice());
    }

    /// Puts 0 at a place.
    pub(crate) fn clear(&mut self, place: usize)
        ensures { self.new ≡ slice_set self.old place (pos 0) }
    {
        self.words.retain(|word| word.place != place);
    }

    /// The least place from `start` on whose number is above 0; none without one.
    pub(crate) fn first_above(&self, start: usize) -> Option<usize>
        ensures { IsFirstAbove self.now start result }
    {
        first_above(self.words.as_slice(), start)
    }

    /// The place from `start` on with the greatest number above 0, and of equal ones the least;
    /// none without one.
    pub(crate) fn greatest_above(&self, start: usize) -> Option<usize>
        ensures { IsGreatestAbove self.now start result }
    {
        greatest_above(self.words.as_slice(), start)
    }
}
