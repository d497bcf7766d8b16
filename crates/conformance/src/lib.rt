// Worked examples, run through public calls.
#![tactic(auto)]

#[cfg(test)]
mod benches;
#[cfg(test)]
mod checks;
#[cfg(test)]
mod images;
#[cfg(test)]
mod machines;
#[cfg(test)]
mod outcomes;
#[cfg(test)]
mod refusals;
#[cfg(test)]
mod surveys;
#[cfg(test)]
mod texts;
