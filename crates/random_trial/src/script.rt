//! Scripts of calls by chance.

use crate::chance::Chance;
use crate::patterns;
use crate::writer::Writer;
use std::alloc::{AllocError, Global};
use vector_memory::Edition;

/// How many callers a script has.
pub(crate) const CALLERS: usize = 5;

/// A script, each line the text of a call.
#[derive(Drop)]
pub(crate) struct Script {
    /// The room of the memory that it runs on.
    pub room: u64,
    /// Its edition: in the second, names are long.
    pub edition: Edition,
    /// Calls that set the names, before all others.
    pub opening: String,
    /// The calls behind them, in turns of the callers.
    pub calls: String,
}

/// The rooms: in the first ones not every value has room.
const ROOMS: [u64; 4] = [60, 200, 400, 67_108_864];

/// How many calls stand behind the opening at most.
const CALLS: u64 = 120;

/// Calls that set each name of each kind.
fn opening(
    alloc: Global,
    chance: &mut Chance,
    usual: u64,
    edition: Edition,
) -> Result<String, AllocError> {
    let mut writer = Writer::new(alloc, chance, usual, edition);
    for pattern in &patterns::OPENING {
        writer.write_call(pattern)?;
    }
    Ok(writer.into_text())
}

/// So many calls.
fn calls(
    alloc: Global,
    chance: &mut Chance,
    usual: u64,
    edition: Edition,
    count: u64,
) -> Result<String, AllocError> {
    let chosen = patterns::chosen(alloc, chance, count)?;
    let mut writer = Writer::new(alloc, chance, usual, edition);
    for pattern in &chosen {
        writer.write_call(pattern)?;
    }
    Ok(writer.into_text())
}

impl Script {
    /// A script by chance.
    pub fn new(alloc: Global, chance: &mut Chance) -> Option<Script> {
        let usual = chance.below(41);
        let room = ROOMS.get(chance.below(4) as usize).copied()?;
        let count = chance.below(CALLS + 1);
        let edition = if chance.comes_once_in(2) {
            Edition::Two
        } else {
            Edition::One
        };
        Some(Script {
            room,
            edition,
            opening: opening(alloc, chance, usual, edition).ok()?,
            calls: calls(alloc, chance, usual, edition, count).ok()?,
        })
    }

    /// How many calls it has.
    pub fn len(&self) -> u64 {
        let calls = self.opening.lines().count() as u64;
        calls.saturating_add(self.calls.lines().count() as u64)
    }
}
