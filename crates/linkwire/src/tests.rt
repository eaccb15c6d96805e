//! Tests of the program: lines and their answers, readers and writers that fail.

mod damaged;
mod faults;
mod growth;
mod lines;
mod members;
mod pieces;
mod rows;
