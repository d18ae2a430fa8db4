//! Tests of whole runs of mobsql, mobnear, mobthin and mobtile over streams and files in memory:
//! with calls that fail, with many workers, with the demo, and of the arguments. What whole scripts
//! and tables answer is in `checks/rows` and `checks/trips`.
#![tactic(auto)]

#[cfg(test)]
mod demo;
#[cfg(test)]
mod ends;
#[cfg(test)]
mod failing;
#[cfg(test)]
mod scripts;
#[cfg(test)]
mod steady;
#[cfg(test)]
mod tables;
#[cfg(test)]
mod words;
#[cfg(test)]
mod workers;
