//! Tables, programs over them, and sets of programs, each shared by threads.

mod certificates;
mod interrupted;
mod ports;
mod programs;
mod rows;
mod same;
mod seats;
mod speed;
mod tables;
mod threads;
