//! Tests of documents, pictures and the encoder's texts: what neither a contract nor a row of inputs and results shows.
//! Those are devices that fail, how often they are called, refused growths, parts of pictures that don't fit, and each
//! generic function at concrete types.
#![tactic(auto)]

#[cfg(test)]
mod devices;
#[cfg(test)]
mod documents;
#[cfg(test)]
mod files;
#[cfg(test)]
mod pictures;
#[cfg(test)]
mod planes;
#[cfg(test)]
mod texts;
