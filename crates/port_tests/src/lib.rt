//! Tests of ports: what one caller is told, blocks and prepared calls, and two ports of one machine. They stand above the library, so
//! that it is proved once.
#![tactic(auto)]

#[cfg(test)]
mod asking;
#[cfg(test)]
mod ports;
