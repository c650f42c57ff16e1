//! What the cases of `river_cases` cannot say: what no contract says of the files, the streams and the threads of the system, who fires
//! when, calls of queues and locks that a run makes in ways of its own, and the machine, driven by hand through plans that are written
//! as River text. There is no code here besides the tests.
#![tactic(auto)]

#[cfg(test)]
mod cases;
#[cfg(test)]
mod classes;
#[cfg(test)]
mod counting;
#[cfg(test)]
mod cutting;
#[cfg(test)]
mod driver;
#[cfg(test)]
mod lists;
#[cfg(test)]
mod meeting;
#[cfg(test)]
mod plans;
#[cfg(test)]
mod rings;
#[cfg(test)]
mod round;
#[cfg(test)]
mod system;
#[cfg(test)]
mod turns;
