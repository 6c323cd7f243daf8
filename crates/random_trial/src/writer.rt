//! Calls written by chance, and the items that they set names to. Most lists of a script have the same length, so that many calls
//! find operands that fit.

use crate::chance::Chance;
use std::alloc::{AllocError, Global};
use vector_memory::Edition;

/// A text that grows by calls.
#[derive(Drop)]
pub(crate) struct Writer<'a> {
    alloc: Global,
    chance: &'a mut Chance,
    /// How long most lists are.
    usual: u64,
    /// What stands between the letter of a name and its number: much in edition 2.
    between: &'static str,
    text: String,
}

/// The kinds of names: the letter that stands for the kind in a pattern, that of its names, and how many there are. The name of the
/// first is never set.
const KINDS: [(char, char, u64); 8] = [
    ('A', 'v', 1),
    ('Z', 'z', 4),
    ('D', 'd', 2),
    ('P', 'p', 2),
    ('J', 'j', 2),
    ('L', 'l', 2),
    ('B', 'b', 3),
    ('S', 's', 2),
];

/// The places below a length, each once, in an order by chance.
fn shuffled(alloc: Global, chance: &mut Chance, length: u64) -> Result<Vec<i64>, AllocError> {
    let mut places = Vec::new(alloc);
    for place in 0..length {
        places.push(place.cast_signed())?;
    }
    for i in 1..places.len() {
        let other = chance.below(i as u64 + 1) as usize;
        places.swap(i, other.min(i));
    }
    Ok(places)
}

impl<'a> Writer<'a> {
    /// An empty text of a script of an edition, whose lists are mostly so long.
    pub fn new(alloc: Global, chance: &'a mut Chance, usual: u64, edition: Edition) -> Writer<'a> {
        let between = match edition {
            Edition::One => "",
            Edition::Two => "_long_name_of_edition_2_",
        };
        Writer {
            alloc,
            chance,
            usual,
            between,
            text: String::new(alloc),
        }
    }

    /// What was written.
    pub fn into_text(self) -> String {
        self.text
    }

    /// Writes a call of a pattern, and ends its line.
    pub fn write_call(&mut self, pattern: &str) -> Result<(), AllocError> {
        for letter in pattern.chars() {
            self.write_part(letter)?;
        }
        self.text.push('\n')
    }

    /// Writes what a letter of a pattern stands for. A list has a space before each item.
    fn write_part(&mut self, letter: char) -> Result<(), AllocError> {
        match letter {
            'V' => self.write_numbers(),
            'U' => self.write_small(),
            'R' => self.write_permutation(),
            'I' => self.write_places(),
            'G' => self.write_lengths(),
            'W' => self.write_flags(),
            'N' => self.write_one(),
            'F' => self.write_flag(),
            'A'..='Z' => self.write_name(letter),
            other => self.text.push(other),
        }
    }

    /// The kind that a capital letter stands for. One in twenty times it is any other.
    fn kind(&mut self, letter: char) -> (char, u64) {
        let any = self.chance.below(KINDS.len() as u64) as usize;
        let other = if letter == 'A' || self.chance.comes_once_in(20) {
            KINDS.get(any)
        } else {
            KINDS.iter().find(|kind| kind.0 == letter)
        };
        match other {
            Some((_, name, count)) => (*name, *count),
            None => ('v', 1),
        }
    }

    fn write_name(&mut self, letter: char) -> Result<(), AllocError> {
        let (name, count) = self.kind(letter);
        let number = self.chance.below(count);
        let between = self.between;
        self.text
            .push_str(&format!(in self.alloc; "{name}{between}{number}")?)
    }

    /// Writes a number, and a space before it.
    fn write_number(&mut self, number: i64) -> Result<(), AllocError> {
        self.text.push_str(&format!(in self.alloc; " {number}")?)
    }

    /// How long a list is: three in four times as long as most are, else 0 to 40.
    fn length(&mut self) -> u64 {
        if self.chance.comes_once_in(4) {
            self.chance.below(41)
        } else {
            self.usual
        }
    }

    /// A small number from 1 on, seldom one that no shift, place or divisor may be.
    fn small(&mut self) -> i64 {
        if self.chance.comes_once_in(16) {
            self.chance.below(70).cast_signed().wrapping_sub(2)
        } else {
            self.chance.below(8).cast_signed().wrapping_add(1)
        }
    }

    /// Numbers, some of them at the ends of the range.
    fn write_numbers(&mut self) -> Result<(), AllocError> {
        for _ in 0..self.length() {
            let number = match self.chance.below(8) {
                0 => i64::MIN,
                1 => i64::MAX,
                2 | 3 => self.chance.any(),
                _ => self.small(),
            };
            self.write_number(number)?;
        }
        Ok(())
    }

    /// Small numbers.
    fn write_small(&mut self) -> Result<(), AllocError> {
        for _ in 0..self.length() {
            let number = self.small();
            self.write_number(number)?;
        }
        Ok(())
    }

    /// A permutation, one in six times with a place that it may not have.
    fn write_permutation(&mut self) -> Result<(), AllocError> {
        let length = self.length();
        let mut places = shuffled(self.alloc, self.chance, length)?;
        if self.chance.comes_once_in(6) {
            places.pop();
            let any = self.chance.below(length.saturating_add(2));
            places.push(any.cast_signed().wrapping_sub(1))?;
        }
        for place in &places {
            self.write_number(*place)?;
        }
        Ok(())
    }

    /// Places: half of the time all are 0, so that most segments have them.
    fn write_places(&mut self) -> Result<(), AllocError> {
        let bound = if self.chance.comes_once_in(2) {
            1
        } else {
            self.usual
        };
        for _ in 0..self.length() {
            let place = self.chance.below(bound).cast_signed();
            let place = if self.chance.comes_once_in(80) {
                -1
            } else {
                place
            };
            self.write_number(place)?;
        }
        Ok(())
    }

    /// Lengths of segments: one in three times each is 1, so that each has the place 0 alone, else many are empty. They mostly cut as
    /// many items as most lists have.
    fn write_lengths(&mut self) -> Result<(), AllocError> {
        if self.chance.comes_once_in(3) {
            return self.write_ones();
        }
        let mut left = self.length();
        let longest = self.chance.below(6).saturating_add(1);
        for _ in 0..self.chance.below(20) {
            let length = left.min(self.chance.below(longest));
            left = left.saturating_sub(length);
            self.write_number(length.cast_signed())?;
        }
        self.write_number(left.cast_signed())
    }

    fn write_ones(&mut self) -> Result<(), AllocError> {
        for _ in 0..self.usual {
            self.write_number(1)?;
        }
        Ok(())
    }

    fn write_flags(&mut self) -> Result<(), AllocError> {
        for _ in 0..self.length() {
            self.text.push(' ')?;
            self.write_flag()?;
        }
        Ok(())
    }

    fn write_flag(&mut self) -> Result<(), AllocError> {
        self.text.push(if self.chance.comes_once_in(2) {
            'T'
        } else {
            'F'
        })
    }

    /// A number that a call takes: a place, a length or an item, seldom beyond what any limit allows.
    fn write_one(&mut self) -> Result<(), AllocError> {
        let number = match self.chance.below(64) {
            0 => 1_048_577,
            1 => i64::MAX,
            2 => i64::MIN,
            _ => self.chance.below(43).cast_signed().wrapping_sub(1),
        };
        self.text.push_str(&format!(in self.alloc; "{number}")?)
    }
}
