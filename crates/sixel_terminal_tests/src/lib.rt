//! Tests of `sixel_terminal`: its definitions agree with the format and the class, by worked examples. They are those of
//! choices and lists of events that the rows of `show` don't reach.
#![tactic(auto)]

#[cfg(test)]
mod choices;
#[cfg(test)]
mod clipping;
#[cfg(test)]
mod drawing;
#[cfg(test)]
mod fixtures;
#[cfg(test)]
mod making;
#[cfg(test)]
mod under;
