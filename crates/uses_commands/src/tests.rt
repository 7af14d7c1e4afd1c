//! Commands, runs and readers, with files that are in memory.

mod captures;
mod clocks;
mod configuration;
mod echo;
mod gates;
mod grammar;
mod lab;
mod lengths;
mod live;
mod memory;
mod progress;
mod refusals;
mod same;
mod shelf;
mod times;
mod told;
mod unwritten_captures;
mod workers;
mod writers;
