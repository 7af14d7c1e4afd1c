//! What threads share, by itself, and access points that several threads serve.

mod books;
mod gates;
mod lines;
mod memory;
mod queue;
mod rows;
mod same;
mod scene;
mod soaks;
mod tables;
