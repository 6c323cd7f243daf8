//! Batches with ample memory: how many waves and kernel runs they take, and what they leave and reply. They stand above the
//! libraries, so that those are proved once.
#![tactic(auto)]

#[cfg(test)]
mod alike;
#[cfg(test)]
mod alone;
#[cfg(test)]
mod asking;
#[cfg(test)]
mod by_hand;
#[cfg(test)]
mod case;
#[cfg(test)]
mod full;
#[cfg(test)]
mod kept;
#[cfg(test)]
mod numbers;
#[cfg(test)]
mod over;
#[cfg(test)]
mod plans;
#[cfg(test)]
mod random;
#[cfg(test)]
mod refused;
#[cfg(test)]
mod table;
