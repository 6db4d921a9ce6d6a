// Reading, printing and running at the edges of what is allowed, by cases.
#![tactic(auto)]

#[cfg(test)]
mod lengths;
#[cfg(test)]
mod prints;
#[cfg(test)]
mod runs;
#[cfg(test)]
mod tables;
#[cfg(test)]
mod texts;
